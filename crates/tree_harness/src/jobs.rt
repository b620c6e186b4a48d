//! The two ends of a trial on threads.
ghost use Rattle.std.specs.Prelude.{◌≡◌, ℕ, slice_get, IfErr, IfOk, Some};
ghost use Rattle.lock_work.specs.Ready.{AreBack};
ghost use Rattle.tree_harness.specs.Crews.{AreOpen, IsCrew};
ghost use Rattle.tree_harness.specs.Ready.{IsReady};
ghost use Rattle.tree_harness.specs.Shifts.{HasWorked, MayWork};

use crate::crew::{Crew, Jobs};
use clof_compose::{Composed, Resting};
use keep_local::Share;
use level_harness::{Job, Roll, deal};
use lock_work::Dealt;
use std::alloc::Global;

/// A job for each caller of a lock, in order. Without memory for them the callers are lost.
pub(crate) fn deal_jobs<'t, C: Composed<Roll>>(
    alloc: Global,
    lock: &C,
    passes: Vec<C::Pass>,
    shares: Vec<Share>,
) -> Result<Dealt<(), Job<C::Pass>, Vec<C::Pass>>, Crew<'t, C::Pass>>
    requires sound { C.sound lock.now }
    requires ready { IsReady C.Pass.rest (C.has lock.now) (C.level lock.now) (C.count lock.now) (C.tag lock.now) passes.items
        shares.items }
    ensures opened { IfOk result (λ made. AreOpen C.Pass.rest (C.has lock.now) (C.level lock.now) (C.count lock.now) (C.tag lock.now)
        made.jobs.items made.aside) }
    ensures may { IfOk result (λ made. (k : ℕ) (j : _) → slice_get made.jobs.items k ≡ Some j → MayWork C.Pass.rest (C.has lock.now)
        (C.level lock.now) (C.tag lock.now) (C.sound lock.now) j) }
    ensures crew { IfErr result (IsCrew C.Pass.rest (C.has lock.now) (C.level lock.now) (C.count lock.now) (C.tag lock.now)) }
{
    match deal(alloc, lock, passes, shares) {
        Some((jobs, aside)) => Ok(Dealt {
            floor: (),
            jobs,
            aside,
        }),
        None => Err(Crew::Lost),
    }
}

/// What comes back of the callers whose jobs were done.
pub(crate) fn gathered<'t, C: Composed<Roll>>(
    _lock: &C,
    jobs: Vec<Job<C::Pass>>,
    passes: Vec<C::Pass>,
) -> Crew<'t, C::Pass>
    requires did { AreBack (λ before. AreOpen C.Pass.rest (C.has _lock.now) (C.level _lock.now) (C.count _lock.now) (C.tag _lock.now)
        before.items passes) (HasWorked C.Pass.rest) jobs }
    ensures { IsCrew C.Pass.rest (C.has _lock.now) (C.level _lock.now) (C.count _lock.now) (C.tag _lock.now) result }
{
    Crew::Held(Jobs { jobs, passes })
}
