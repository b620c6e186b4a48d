//! What `drill` prints.
ghost use Rattle.std.specs.Prelude.{◌≡◌, ◌<◌, ◌^◌, All, length, map, sum_by, IfOk, IfErr};
ghost use Rattle.synth_text.specs.Rules.{pu_count};
ghost use Rattle.lock_plan.specs.Plans.{IsPlanFor};
ghost use Rattle.drill_text.specs.Drill.{drill_sections, drill_text};
ghost use Rattle.clof_answers.specs.Drilling.{drilled_machine};

use crate::Status;
use clof_answers::{machine, plan_on, shape_for};
use drill_text::{sections, summary};
use lock_plan::Plan;
use out_of_memory::OutOfMemory;
use placed_runner::{Gate, Section, spread};
use planned_sharing::{Sharing, run_shared};
use std::alloc::Global;
use std::sync::Wait;
use std::thread::Threads;
use topo_tree::Tree;

/// How many threads the callers of a drill share, and how many commands of a caller one gives at a time. With a thread for each of the 64
/// callers nine tenths of a drill went to waiting for callers that had the lock and weren't running.
const DRILL_THREADS: u32 = 4;

const DRILL_QUANTUM: u32 = 16;

/// The text of the drill of a number: its callers share threads, and what their keys hold then is told.
pub(crate) fn drill_text<R: Threads + Wait + Sync, G: Gate + Sync>(
    rt: &R,
    alloc: Global,
    number: u32,
    gate: &G,
) -> Result<Vec<u8>, Status>
    ensures ok { IfOk result (λ printed. printed.items ≡ drill_text number) }
    ensures err { IfErr result (λ status. status ≡ Status.OutOfMemory) }
{
    match drilled(rt, alloc, number, gate) {
        Ok(printed) => Ok(printed),
        Err(OutOfMemory) => Err(Status::OutOfMemory),
    }
}

// The text of a drill.
fn drilled<R: Threads + Wait + Sync, G: Gate + Sync>(
    rt: &R,
    alloc: Global,
    number: u32,
    gate: &G,
) -> Result<Vec<u8>, OutOfMemory>
    ensures { IfOk result (λ printed. printed.items ≡ drill_text number) }
{
    let tree = machine(alloc)?;
    let plan = plan_on(alloc, &tree)?;
    drilled_under(rt, alloc, &tree, &plan, number, gate)
}

// The same on its machine, under the lock of a plan.
fn drilled_under<R: Threads + Wait + Sync, G: Gate + Sync>(
    rt: &R,
    alloc: Global,
    tree: &Tree,
    plan: &Plan,
    number: u32,
    gate: &G,
) -> Result<Vec<u8>, OutOfMemory>
    requires tree { tree.now ≡ drilled_machine }
    requires plan { IsPlanFor tree.now plan.now }
    ensures { IfOk result (λ printed. printed.items ≡ drill_text number) }
{
    let bytes = sections(alloc, number)?;
    let sections = spread(alloc, tree, &bytes)?;
    drilled_by(rt, alloc, tree, plan, &sections, number, gate)
}

// The same of its callers' sections.
fn drilled_by<R: Threads + Wait + Sync, G: Gate + Sync>(
    rt: &R,
    alloc: Global,
    tree: &Tree,
    plan: &Plan,
    sections: &[Section<'_>],
    number: u32,
    gate: &G,
) -> Result<Vec<u8>, OutOfMemory>
    requires plan { IsPlanFor tree.now plan.now }
    requires pus { All (λ section. section.pu < pu_count tree.now) sections.now }
    requires many { length sections.now ≡ 64 }
    requires small { sum_by (λ section. length section.bytes.now) sections.now < 2 ^ 32 }
    requires bytes { map (λ section. section.bytes.now) sections.now ≡ drill_sections number }
    ensures { IfOk result (λ printed. printed.items ≡ drill_text number) }
{
    let shape = shape_for(alloc, tree, plan, sections)?;
    let sharing = Sharing {
        threads: DRILL_THREADS,
        quantum: DRILL_QUANTUM,
    };
    let left = run_shared(rt, alloc, plan, &shape, sections, sharing, gate)?;
    summary(alloc, number, &left.journal)
}
