//! The list text, written.

ghost use Rattle.std.specs.Prelude.{◌≡◌, ◌+◌, ◌++◌, ◌<◌, ◌≤◌, [], ◌∷◌, length, decimal, IfOk, OnOk, IfNone, IfSome};
ghost use Rattle.cpu_set.specs.Texts.{list_text, run_text, runs_of, numbers_from};

use crate::run::Run;
use crate::set::{CpuSet, LIMIT};
use byte_text::push_decimal;
use out_of_memory::OutOfMemory;
use std::alloc::Global;

impl CpuSet {
    /// The maximal runs of consecutive numbers, ascending, with commas between: `a` for a run of one number, `a-b` for a
    /// longer one. The empty set is the empty text.
    pub fn write_list(&self, alloc: Global) -> Result<Vec<u8>, OutOfMemory>
        ensures { IfOk result (λ text. text.items ≡ list_text self.now) }
    {
        let mut text = Vec::with_capacity(alloc, self.list_len())?;
        let mut from = 0;
        while let Some(run) = self.run_from(from) {
            if !text.is_empty() {
                text.push(b',')?;
            }
            push_run(&mut text, run)?;
            from = run.last + 1;
        }
        Ok(text)
    }

    // How long the text is.
    fn list_len(&self) -> usize
        ensures { result ≡ length (list_text self.now) }
    {
        let mut length = 0;
        let mut from = 0;
        while let Some(run) = self.run_from(from) {
            if length > 0 {
                length += 1;
            }
            length += run_len(run);
            from = run.last + 1;
        }
        length
    }

    // The first run of the numbers from `from` on.
    fn run_from(&self, from: u32) -> Option<Run>
        ensures none { IfNone result (runs_of (numbers_from from self.now) ≡ []) }
        ensures run { IfSome result (λ run. runs_of (numbers_from from self.now)
            ≡ (run.first, run.last) ∷ runs_of (numbers_from (run.last + 1) self.now)) }
        ensures order { IfSome result (λ run. run.first ≤ run.last) }
        ensures from { IfSome result (λ run. from ≤ run.first) }
        ensures limit { IfSome result (λ run. run.last < LIMIT) }
    {
        let first = self.next(from)?;
        let mut last = first;
        while last + 1 < LIMIT && self.has(last + 1) {
            last += 1;
        }
        Some(Run { first, last })
    }
}

// How long the text of a run is.
fn run_len(run: Run) -> usize
    requires order { run.first ≤ run.last }
    requires limit { run.last < LIMIT }
    ensures length { result ≡ length (run_text (run.first, run.last)) }
    ensures limit { result ≤ 9 }
{
    if run.first == run.last {
        decimal_len(run.first)
    } else {
        decimal_len(run.first) + 1 + decimal_len(run.last)
    }
}

fn decimal_len(number: u32) -> usize
    requires { number < LIMIT }
    ensures length { result ≡ length (decimal number) }
    ensures limit { result ≤ 4 }
{
    match number {
        0..=9 => 1,
        10..=99 => 2,
        100..=999 => 3,
        _ => 4,
    }
}

// Appends the text of a run.
fn push_run(text: &mut Vec<u8>, run: Run) -> Result<(), OutOfMemory>
    ensures { OnOk result (text.new.items ≡ text.old.items ++ run_text (run.first, run.last)) }
{
    push_decimal(text, u64::from(run.first))?;
    if run.first != run.last {
        text.push(b'-')?;
        push_decimal(text, u64::from(run.last))?;
    }
    Ok(())
}
