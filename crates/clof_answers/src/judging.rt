//! What `check` prints of an input and a printed text.
ghost use Rattle.std.specs.Prelude.{◌≡◌, ◌<◌, ◌≤◌, ◌^◌, All, length, map, sum_by, IfOk, IfErr};
ghost use Rattle.out_of_memory.specs.Memory.{UnlessMemory};
ghost use Rattle.synth_text.specs.Rules.{pu_count};
ghost use Rattle.lock_plan.specs.Plans.{IsPlanFor};
ghost use Rattle.run_texts.specs.Callers.{caller_limit};
ghost use Rattle.run_texts.specs.Views.{section_view};
ghost use Rattle.command_texts.specs.declared.status.Status.{Status as AnyStatus};
ghost use Rattle.command_texts.specs.Ends.{EndsEarly};
ghost use Rattle.clof_answers.specs.Run.{RefusesSections};
ghost use Rattle.clof_answers.specs.Checking.{pair_limit, verdict_text, Judges, JudgesRun, RefusesPair, TellsVerdict};

use crate::sections::{section_status, shape_for};
use crate::{Fault, Status};
use byte_text::push_decimal;
use lock_plan::Plan;
use out_of_memory::OutOfMemory;
use placed_runner::{Section, read_sections};
use run_check::{Verdict, check, read_pair};
use std::alloc::Global;
use topo_tree::Tree;

/// The text that `check` prints for bytes on a topology, under the lock of a plan, or the status with which the bytes are refused: as an
/// input with a printed text, or for the input's sections.
pub(crate) fn check_text(
    alloc: Global,
    tree: &Tree,
    plan: &Plan,
    bytes: &[u8],
) -> Result<Vec<u8>, Status>
    requires plan { IsPlanFor tree.now plan.now }
    requires bytes { length bytes.now ≤ pair_limit }
    ensures ok { IfOk result (λ text. TellsVerdict tree.now plan.now bytes.now text.items) }
    ensures err { IfErr result (λ status. UnlessMemory Status.OutOfMemory status (RefusesPair tree.now bytes.now status)) }
    ensures early { IfErr result EndsEarly }
    ensures refused { (status : AnyStatus) → RefusesPair tree.now bytes.now status →
        UnlessMemory (Err Status.OutOfMemory) result (result ≡ Err status) }
{
    let (input, printed) = match read_pair(bytes) {
        Ok(pair) => pair,
        Err(fault) => return Err(Status::Malformed(Fault::Check(fault))),
    };
    let verdict = match judged(alloc, tree, plan, input, printed) {
        Ok(verdict) => verdict,
        Err(status) => return Err(status),
    };
    match verdict_text(alloc, verdict) {
        Ok(text) => Ok(text),
        Err(OutOfMemory) => Err(Status::OutOfMemory),
    }
}

// What is said of a text that was printed for an input, or the status with which the input's sections are refused.
fn judged(
    alloc: Global,
    tree: &Tree,
    plan: &Plan,
    input: &[u8],
    printed: &[u8],
) -> Result<Verdict, Status>
    requires plan { IsPlanFor tree.now plan.now }
    requires input { length input.now < 2 ^ 32 }
    requires printed { length printed.now < 2 ^ 32 }
    ensures ok { IfOk result (Judges tree.now plan.now input.now printed.now) }
    ensures err { IfErr result (λ status. UnlessMemory Status.OutOfMemory status (RefusesSections tree.now input.now status)) }
    ensures early { IfErr result EndsEarly }
    ensures refused { (status : AnyStatus) → RefusesSections tree.now input.now status →
        UnlessMemory (Err Status.OutOfMemory) result (result ≡ Err status) }
{
    // Tells what every tree keeps.
    let _depths = tree.depths();
    match read_sections(alloc, tree, input) {
        Ok(sections) => match judged_under(alloc, tree, plan, &sections, printed) {
            Ok(verdict) => Ok(verdict),
            Err(OutOfMemory) => Err(Status::OutOfMemory),
        },
        Err(fault) => Err(section_status(fault)),
    }
}

// What is said of a printed text for sections under the lock of a plan.
fn judged_under(
    alloc: Global,
    tree: &Tree,
    plan: &Plan,
    sections: &[Section<'_>],
    printed: &[u8],
) -> Result<Verdict, OutOfMemory>
    requires plan { IsPlanFor tree.now plan.now }
    requires pus { All (λ section. section.pu < pu_count tree.now) sections.now }
    requires few { length sections.now ≤ caller_limit }
    requires small { sum_by (λ section. length section.bytes.now) sections.now < 2 ^ 32 }
    requires printed { length printed.now < 2 ^ 32 }
    ensures { IfOk result (JudgesRun tree.now plan.now (map section_view sections.now) printed.now) }
{
    let shape = shape_for(alloc, tree, plan, sections)?;
    check(alloc, &shape, sections, printed)
}

// The text of a verdict.
fn verdict_text(alloc: Global, verdict: Verdict) -> Result<Vec<u8>, OutOfMemory>
    ensures { IfOk result (λ text. text.items ≡ verdict_text verdict) }
{
    let mut text = Vec::new(alloc);
    match verdict {
        Verdict::Yes => text.extend_from_slice(b"yes\n")?,
        Verdict::No { line } => {
            text.extend_from_slice(b"no ")?;
            push_decimal(&mut text, u64::from(line))?;
            text.push(b'\n')?;
        }
    }
    Ok(text)
}
