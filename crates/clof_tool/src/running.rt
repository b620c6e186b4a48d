//! What `run` prints of an input.
ghost use Rattle.std.specs.Prelude.{◌≡◌, ◌+◌, ◌<◌, ◌≤◌, ◌^◌, All, length, map, sum_by, IfOk, IfErr, IsOk};
ghost use Rattle.out_of_memory.specs.Memory.{UnlessMemory};
ghost use Rattle.synth_text.specs.Rules.{pu_count};
ghost use Rattle.keep_local.specs.Shapes.{IsWellFormed, callers_of, top_of};
ghost use Rattle.lock_plan.specs.Plans.{IsPlanFor};
ghost use Rattle.run_texts.specs.Printed.{IsRun};
ghost use Rattle.run_texts.specs.Callers.{caller_limit};
ghost use Rattle.fresh_runner.specs.Receipts.{IsMarkedRun};
ghost use Rattle.run_texts.specs.Views.{section_view};
ghost use Rattle.command_texts.specs.declared.status.Status.{Status as AnyStatus};
ghost use Rattle.run_check.specs.Pairs.{input_limit};
ghost use Rattle.clof_answers.specs.Run.{PrintsRun, PrintsUnder, RefusesSections};
ghost use Rattle.command_texts.specs.Ends.{EndsEarly};

use crate::Status;
use clof_answers::{section_status, shape_for};
use command_words::Running;
use fresh_runner::printed_with_receipts;
use keep_local::Shape;
use lock_plan::Plan;
use out_of_memory::OutOfMemory;
use placed_runner::{Gate, Section, read_sections};
use planned_receipts::run_marked;
use planned_runner::run;
use planned_sharing::{Sharing, run_shared};
use std::alloc::Global;
use std::sync::Wait;
use std::thread::Threads;
use threaded_runner::printed;
use topo_tree::Tree;

/// The text that `run` prints for an input on a topology, under the lock of a plan, or the status with which its sections are refused.
pub(crate) fn run_text<R: Threads + Wait + Sync, G: Gate + Sync>(
    rt: &R,
    alloc: Global,
    tree: &Tree,
    plan: &Plan,
    input: &[u8],
    asked: Running<'_>,
    gate: &G,
) -> Result<Vec<u8>, Status>
    requires plan { IsPlanFor tree.now plan.now }
    requires input { length input.now ≤ input_limit }
    ensures ok { IfOk result (λ printed. PrintsUnder asked.entry.receipts tree.now plan.now input.now printed.items) }
    ensures err { IfErr result (λ status. UnlessMemory Status.OutOfMemory status (RefusesSections tree.now input.now status)) }
    ensures early { IfErr result EndsEarly }
    ensures refused { (status : AnyStatus) → RefusesSections tree.now input.now status →
        UnlessMemory (Err Status.OutOfMemory) result (result ≡ Err status) }
    ensures complete { ((status : AnyStatus) → RefusesSections tree.now input.now status → ⊥) →
        UnlessMemory (Err Status.OutOfMemory) result (IsOk result) }
{
    // Tells what every tree keeps.
    let _depths = tree.depths();
    match read_sections(alloc, tree, input) {
        Ok(sections) => match run_under(rt, alloc, tree, plan, &sections, asked, gate) {
            Ok(printed) => Ok(printed),
            Err(OutOfMemory) => Err(Status::OutOfMemory),
        },
        Err(fault) => Err(section_status(fault)),
    }
}

// The text of a run of sections under the lock of a plan. For no section no lock is made.
fn run_under<R: Threads + Wait + Sync, G: Gate + Sync>(
    rt: &R,
    alloc: Global,
    tree: &Tree,
    plan: &Plan,
    sections: &[Section<'_>],
    asked: Running<'_>,
    gate: &G,
) -> Result<Vec<u8>, OutOfMemory>
    requires plan { IsPlanFor tree.now plan.now }
    requires pus { All (λ section. section.pu < pu_count tree.now) sections.now }
    requires few { length sections.now ≤ caller_limit }
    requires small { sum_by (λ section. length section.bytes.now) sections.now < 2 ^ 32 }
    ensures { IfOk result (λ printed. PrintsRun asked.entry.receipts tree.now plan.now (map section_view sections.now) printed.items) }
{
    let shape = shape_for(alloc, tree, plan, sections)?;
    if sections.is_empty() {
        return Ok(Vec::new(alloc));
    }
    if asked.receipts {
        marked_text(rt, alloc, plan, &shape, sections, gate)
    } else {
        plain_text(rt, alloc, plan, &shape, sections, asked, gate)
    }
}

// The text of a run under a lock of this shape, with receipts.
fn marked_text<R: Threads + Wait + Sync, G: Gate + Sync>(
    rt: &R,
    alloc: Global,
    plan: &Plan,
    shape: &Shape,
    sections: &[Section<'_>],
    gate: &G,
) -> Result<Vec<u8>, OutOfMemory>
    requires plan { length plan.now.kinds ≡ top_of shape.now + 1 }
    requires levels { top_of shape.now < 5 }
    requires formed { IsWellFormed shape.now }
    requires callers { callers_of shape.now ≡ length sections.now }
    requires some { 0 < length sections.now }
    requires few { length sections.now ≤ caller_limit }
    requires small { sum_by (λ section. length section.bytes.now) sections.now < 2 ^ 32 }
    ensures { IfOk result (λ printed. IsMarkedRun (map section_view sections.now) shape.now printed.items) }
{
    let made = run_marked(rt, alloc, plan, shape, sections, gate)?;
    printed_with_receipts(alloc, sections, &made)
}

// The text of one without.
fn plain_text<R: Threads + Wait + Sync, G: Gate + Sync>(
    rt: &R,
    alloc: Global,
    plan: &Plan,
    shape: &Shape,
    sections: &[Section<'_>],
    asked: Running<'_>,
    gate: &G,
) -> Result<Vec<u8>, OutOfMemory>
    requires plan { length plan.now.kinds ≡ top_of shape.now + 1 }
    requires levels { top_of shape.now < 5 }
    requires formed { IsWellFormed shape.now }
    requires callers { callers_of shape.now ≡ length sections.now }
    requires some { 0 < length sections.now }
    requires few { length sections.now ≤ caller_limit }
    requires small { sum_by (λ section. length section.bytes.now) sections.now < 2 ^ 32 }
    ensures { IfOk result (λ printed. IsRun (map section_view sections.now) shape.now printed.items) }
{
    let left = match asked.sharing {
        None => run(rt, alloc, plan, shape, sections, asked.walk, gate)?,
        Some(sharing) => {
            let sharing = Sharing {
                threads: sharing.threads,
                quantum: sharing.quantum,
            };
            run_shared(rt, alloc, plan, shape, sections, sharing, gate)?
        }
    };
    printed(alloc, sections, &left)
}
