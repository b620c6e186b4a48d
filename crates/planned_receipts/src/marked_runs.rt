//! Runs whose callers keep receipts of their turns.
ghost use Rattle.std.specs.Prelude.{◌≡◌, ◌+◌, ◌<◌, ◌≤◌, ◌^◌, length, map, sum_by, IfOk};
ghost use Rattle.keep_local.specs.Shapes.{IsWellFormed, callers_of, top_of};
ghost use Rattle.keep_local.specs.States.{callers_in};
ghost use Rattle.run_texts.specs.Callers.{caller_limit};
ghost use Rattle.threaded_runner.specs.Finished.{IsFinished};
ghost use Rattle.fresh_runner.specs.Marked.{AreMarked};

use clof_compose::TopPass;
use fresh_runner::{
    FreshBook, FreshJob, Marked, fresh_books_may_be_sent, fresh_books_may_be_shared, fresh_root_of,
};
use keep_local::Shape;
use lock_levels::{LowPass, Plan};
use lock_rising::{Given, rise, rise_flat};
use lock_rules::Pass;
use out_of_memory::OutOfMemory;
use run_texts::{Gate, Section};
use run_work::{FreshBrought, Receipted, copied_shape};
use std::alloc::Global;
use std::sync::Wait;
use std::thread::Threads;

/// Has the callers of these sections give their commands under the lock of a plan with a shape, each in a thread of its own. It gives what
/// they leave, and the numbers of each caller's turns, which its token told it. Without memory for the lock or the run, or for a command in
/// it, nothing is given. A gate is told of each hold.
pub fn run_marked<'a, R: Threads + Wait + Sync, G: Gate + Sync>(
    rt: &R,
    alloc: Global,
    plan: &Plan,
    shape: &Shape,
    sections: &[Section<'a>],
    gate: &G,
) -> Result<Marked<'a>, OutOfMemory>
    requires plan { length plan.now.kinds ≡ top_of shape.now + 1 }
    requires levels { top_of shape.now < 5 }
    requires formed { IsWellFormed shape.now }
    requires callers { callers_of shape.now ≡ length sections.now }
    requires some { 0 < length sections.now }
    requires few { length sections.now ≤ caller_limit }
    requires small { sum_by (λ section. length section.bytes.now) sections.now < 2 ^ 32 }
    ensures finished { IfOk result (λ made. IsFinished made.left.trail made.left.journal) }
    ensures shape { IfOk result (λ made. made.left.trail.shape ≡ shape.now) }
    ensures sections { IfOk result (λ made. made.left.journal.sections ≡ map (λ section. section.bytes.now) sections.now) }
    ensures marks { IfOk result (λ made. AreMarked (callers_in made.left.trail.closed) (length sections.now) made.marks.items) }
{
    fresh_books_may_be_sent();
    fresh_books_may_be_shared();
    let (root, shares, seens) = fresh_root_of(alloc, sections, copied_shape(alloc, shape)?)?;
    let brought = FreshBrought {
        shares,
        seens,
        sections,
    };
    let given = Given {
        rt,
        alloc,
        plan,
        shape,
        brought,
        shared: gate,
    };
    let top = plan.kinds.as_slice().len() - 1;
    if top == 0 {
        rise_flat::<
            FreshBook<'a>,
            (),
            FreshJob<'a, TopPass<Pass>>,
            FreshBrought<'_, 'a>,
            Marked<'a>,
            G,
            Receipted,
            R,
        >(given, root)
    } else {
        rise::<
            FreshBook<'a>,
            (),
            FreshJob<'a, LowPass>,
            FreshBrought<'_, 'a>,
            Marked<'a>,
            G,
            Receipted,
            R,
        >(given, root, top as u32)
    }
}
