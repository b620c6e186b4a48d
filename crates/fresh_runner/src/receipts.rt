//! The printed text of a run with its receipts.
ghost use Rattle.std.specs.Prelude.{◌≡◌, ◌++◌, length, map, IfOk, OnOk};
ghost use Rattle.keep_local.specs.States.{callers_in};
ghost use Rattle.run_texts.specs.Views.{section_view};
ghost use Rattle.threaded_runner.specs.Finished.{IsFinished};
ghost use Rattle.fresh_runner.specs.Marked.{AreMarked};
ghost use Rattle.fresh_runner.specs.Receipts.{IsMarkedRun, marks_lines, receipts_line, spaced};

use crate::account::Marks;
use crate::finishing::Marked;
use byte_text::push_decimal;
use out_of_memory::OutOfMemory;
use run_texts::{Section, text};
use std::alloc::{AllocError, Global};

// The bytes of a caller's line beside the digits of its number and its turns.
const LINE_BYTES: usize = 10;

/// The printed text of a run that has finished, whose callers have these sections, and behind it a line of receipts for each caller.
/// Without memory for it nothing is given.
pub fn printed_with_receipts(
    alloc: Global,
    sections: &[Section<'_>],
    made: &Marked<'_>,
) -> Result<Vec<u8>, OutOfMemory>
    requires finished { IsFinished made.now.left.trail made.now.left.journal }
    requires sections { made.now.left.journal.sections ≡ map (λ section. section.bytes.now) sections.now }
    requires marks { AreMarked (callers_in made.now.left.trail.closed) (length sections.now) made.now.marks.items }
    ensures run { IfOk result (λ printed. IsMarkedRun (map section_view sections.now) made.now.left.trail.shape printed.items) }
{
    made.left.journal.facts();
    let mut out = text(alloc, sections, made.left.trail.turns(), &made.left.journal)?;
    push_lines(&mut out, &made.marks)?;
    Ok(out)
}

// Appends the lines of all callers, in a buffer that has their size.
fn push_lines(out: &mut Vec<u8>, marks: &[Marks]) -> Result<(), AllocError>
    ensures { OnOk result (out.new.items ≡ out.old.items ++ marks_lines marks.now) }
{
    out.reserve_exact(lines_size(marks))?;
    for (caller, own) in marks.iter().enumerate() {
        push_line(out, caller, &own.turns)?;
    }
    Ok(())
}

// Appends the line of a caller.
#[tactic(auto, unfolding(crate::specs::Receipts::receipts_line))]
fn push_line(out: &mut Vec<u8>, caller: usize, turns: &[u32]) -> Result<(), AllocError>
    ensures { OnOk result (out.new.items ≡ out.old.items ++ receipts_line caller turns.now) }
{
    out.extend_from_slice(b"receipts ")?;
    push_decimal(out, caller as u64)?;
    push_spaced(out, turns)?;
    out.extend_from_slice(b"\n")
}

// Appends numbers, each behind a space.
fn push_spaced(out: &mut Vec<u8>, numbers: &[u32]) -> Result<(), AllocError>
    ensures { OnOk result (out.new.items ≡ out.old.items ++ spaced numbers.now) }
{
    for number in numbers {
        out.extend_from_slice(b" ")?;
        push_decimal(out, u64::from(*number))?;
    }
    Ok(())
}

// How many bytes the lines have: a hint, for the buffer would grow.
fn lines_size(marks: &[Marks]) -> usize {
    let mut size: usize = 0;
    for (caller, own) in marks.iter().enumerate() {
        size = size
            .wrapping_add(LINE_BYTES)
            .wrapping_add(digits(caller as u64))
            .wrapping_add(spaced_size(&own.turns));
    }
    size
}

// How many bytes numbers have, each behind a space.
fn spaced_size(numbers: &[u32]) -> usize {
    let mut size: usize = 0;
    for number in numbers {
        size = size
            .wrapping_add(1)
            .wrapping_add(digits(u64::from(*number)));
    }
    size
}

// How many digits a number has.
fn digits(number: u64) -> usize {
    match number.checked_ilog10() {
        Some(power) => power as usize + 1,
        None => 1,
    }
}
