//! A run under a plan.
ghost use Rattle.std.specs.Prelude.{◌≡◌, ◌+◌, ◌<◌, ◌≤◌, ◌^◌, length, map, sum_by, IfOk};
ghost use Rattle.keep_local.specs.Shapes.{IsWellFormed, callers_of, top_of};
ghost use Rattle.run_texts.specs.Callers.{caller_limit};
ghost use Rattle.threaded_runner.specs.Finished.{IsFinished};

use clof_compose::TopPass;
use keep_local::Shape;
use lock_levels::{LowPass, Plan};
use lock_rising::{Given, rise, rise_flat};
use lock_rules::Pass;
use out_of_memory::OutOfMemory;
use run_texts::{Gate, Section};
use run_work::{Brought, Plain, copied_shape};
use std::alloc::Global;
use std::sync::Wait;
use std::thread::Threads;
use threaded_runner::{Book, Finished, Job, root_of};

/// Has the callers of these sections give their commands under the lock of a plan with a shape: each in a thread of its own or, for a walk,
/// all stepped in rounds on the calling one. It gives what they leave. Without memory for the lock or the run, or for a command in it,
/// nothing is given. A gate is told of each hold on threads.
pub fn run<'a, R: Threads + Wait + Sync, G: Gate + Sync>(
    rt: &R,
    alloc: Global,
    plan: &Plan,
    shape: &Shape,
    sections: &[Section<'a>],
    walk: bool,
    gate: &G,
) -> Result<Finished<'a>, OutOfMemory>
    requires plan { length plan.now.kinds ≡ top_of shape.now + 1 }
    requires levels { top_of shape.now < 5 }
    requires formed { IsWellFormed shape.now }
    requires callers { callers_of shape.now ≡ length sections.now }
    requires some { 0 < length sections.now }
    requires few { length sections.now ≤ caller_limit }
    requires small { sum_by (λ section. length section.bytes.now) sections.now < 2 ^ 32 }
    ensures finished { IfOk result (λ left. IsFinished left.trail left.journal) }
    ensures shape { IfOk result (λ left. left.trail.shape ≡ shape.now) }
    ensures sections { IfOk result (λ left. left.journal.sections ≡ map (λ section. section.bytes.now) sections.now) }
{
    let (root, shares) = root_of(alloc, sections, copied_shape(alloc, shape)?)?;
    let brought = Brought {
        shares,
        sections,
        walk,
    };
    let given = Given {
        rt,
        alloc,
        plan,
        shape,
        brought,
        shared: gate,
    };
    let top = plan.kinds.as_slice().len() - 1;
    if top == 0 {
        rise_flat::<
            Book<'a>,
            (),
            Job<'a, TopPass<Pass>>,
            Brought<'_, 'a>,
            Finished<'a>,
            G,
            Plain,
            R,
        >(given, root)
    } else {
        rise::<Book<'a>, (), Job<'a, LowPass>, Brought<'_, 'a>, Finished<'a>, G, Plain, R>(
            given, root, top as u32,
        )
    }
}
