//! Runs whose callers share threads.
ghost use Rattle.std.specs.Prelude.{◌≡◌, ◌+◌, ◌<◌, ◌≤◌, ◌^◌, length, map, sum_by, IfOk};
ghost use Rattle.keep_local.specs.Shapes.{IsWellFormed, callers_of, top_of};
ghost use Rattle.run_texts.specs.Callers.{caller_limit};
ghost use Rattle.threaded_runner.specs.Finished.{IsFinished};

use crate::homes::homes;
use crate::sharing::Sharing;
use clof_compose::TopPass;
use cohort_desks::Desk;
use cohort_runner::Caller;
use keep_local::Shape;
use lock_levels::{LowPass, Plan, low_passes_may_be_sent, top_passes_may_be_sent};
use lock_rising::{Given, rise, rise_flat};
use lock_rules::Pass;
use out_of_memory::OutOfMemory;
use run_texts::{Gate, Section};
use run_work::{Room, Seated, Waiting, copied_shape};
use std::alloc::Global;
use std::sync::Wait;
use std::thread::Threads;
use threaded_runner::{Book, Finished, root_of};

/// Has the callers of these sections give their commands under the lock of a plan with a shape, served in turn by threads that they share.
/// It gives what they leave. Without memory for the lock or the run, or for a command in it, nothing is given. A gate is told of each hold.
pub fn run_shared<'a, R: Threads + Wait + Sync, G: Gate + Sync>(
    rt: &R,
    alloc: Global,
    plan: &Plan,
    shape: &Shape,
    sections: &[Section<'a>],
    sharing: Sharing,
    gate: &G,
) -> Result<Finished<'a>, OutOfMemory>
    requires plan { length plan.now.kinds ≡ top_of shape.now + 1 }
    requires levels { top_of shape.now < 5 }
    requires formed { IsWellFormed shape.now }
    requires callers { callers_of shape.now ≡ length sections.now }
    requires some { 0 < length sections.now }
    requires few { length sections.now ≤ caller_limit }
    requires small { sum_by (λ section. length section.bytes.now) sections.now < 2 ^ 32 }
    ensures finished { IfOk result (λ left. IsFinished left.trail left.journal) }
    ensures shape { IfOk result (λ left. left.trail.shape ≡ shape.now) }
    ensures sections { IfOk result (λ left. left.journal.sections ≡ map (λ section. section.bytes.now) sections.now) }
{
    top_passes_may_be_sent();
    low_passes_may_be_sent();
    let (root, shares) = root_of(alloc, sections, copied_shape(alloc, shape)?)?;
    let Sharing { threads, quantum } = sharing;
    let brought = Waiting {
        shares,
        sections,
        homes: homes(alloc, shape)?,
        threads,
        quantum,
    };
    let given = Given {
        rt,
        alloc,
        plan,
        shape,
        brought,
        shared: gate,
    };
    let top = plan.kinds.as_slice().len() - 1;
    if top == 0 {
        rise_flat::<
            Book<'a>,
            Room<'a, TopPass<Pass>>,
            Desk<Caller<'a, TopPass<Pass>>>,
            Waiting<'_, 'a>,
            Finished<'a>,
            G,
            Seated,
            R,
        >(given, root)
    } else {
        rise::<
            Book<'a>,
            Room<'a, LowPass>,
            Desk<Caller<'a, LowPass>>,
            Waiting<'_, 'a>,
            Finished<'a>,
            G,
            Seated,
            R,
        >(given, root, top as u32)
    }
}
