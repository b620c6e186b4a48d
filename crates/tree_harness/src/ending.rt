//! The end of a trial, at which its lock is taken apart.
ghost use Rattle.std.specs.Prelude.{IfOk};
ghost use Rattle.tree_harness.specs.Crews.{HaveEnded};
ghost use Rattle.tree_harness.specs.Ready.{IsLeft, IsReady};

use crate::crew::{Jobs, Walkers};
use crate::outcome::{End, Outcome};
use clof_compose::{Composed, Resting};
use level_harness::{Roll, Walked, close_ended, walk};
use out_of_memory::OutOfMemory;
use std::sync::Wait;

/// All callers walk, those that are named first, and the lock is taken apart.
pub(crate) fn walked<C: Composed<Roll> + Drop, R: Wait>(
    rt: &R,
    lock: C,
    walkers: Walkers<'_, C::Pass>,
) -> Result<Outcome<Roll>, OutOfMemory>
    requires sound { C.sound lock }
    requires ready { IsReady C.Pass.rest (C.has lock) (C.level lock) (C.count lock) (C.tag lock) walkers.passes.items
        walkers.shares.items }
    ensures { IfOk result (IsLeft (C.tag lock)) }
{
    let Walkers {
        alloc,
        passes,
        shares,
        order,
    } = walkers;
    match walk(rt, alloc, lock, passes, shares, order) {
        Some(Walked { root, stood, told }) => Ok(Outcome {
            root,
            end: End::Walked { stood, told },
        }),
        None => Err(OutOfMemory),
    }
}

/// Takes the lock apart, once all callers have made their turns.
pub(crate) fn ended<C: Composed<Roll> + Drop>(
    lock: C,
    held: Jobs<C::Pass>,
) -> Result<Outcome<Roll>, OutOfMemory>
    requires sound { C.sound lock }
    requires ended { HaveEnded C.Pass.rest (C.has lock) (C.level lock) (C.count lock) (C.tag lock) held.jobs.items held.passes }
    ensures { IfOk result (IsLeft (C.tag lock)) }
{
    match close_ended(lock, Some((held.jobs, held.passes))) {
        Some(root) => Ok(Outcome {
            root,
            end: End::Done,
        }),
        None => Err(OutOfMemory),
    }
}
