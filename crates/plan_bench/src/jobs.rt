//! The jobs of all callers of a lock whose trail keeps no turns.
ghost use Rattle.std.specs.Prelude.{◌≡◌, ℕ, slice_get, IfSome, Some};
ghost use Rattle.lock_work.specs.Ready.{AreBack};
ghost use Rattle.own_payload.specs.Jobs.{HasServed, MayWork};
ghost use Rattle.own_payload.specs.Ready.{IsReady};
ghost use Rattle.own_runner.specs.Runs.{AreOpen, HaveEnded};

use clof_compose::{Composed, Resting};
use lock_work::Dealt;
use own_payload::{Job, Lists, Noted, deal, gather};
use std::alloc::Global;

/// The jobs of all callers, and emptied lists with room for their passes and their shares.
pub(crate) type Jobs<Q> = (Vec<Job<Q>>, Lists<Q>);

/// A job for each caller of a lock, in order. The answer is `None` for want of memory.
pub(crate) fn deal_jobs<C: Composed<Noted<u64>>>(
    alloc: Global,
    lock: &C,
    lists: Lists<C::Pass>,
) -> Option<Dealt<(), Job<C::Pass>, Lists<C::Pass>>>
    requires { IsReady C.Pass.rest (C.has lock.now) (C.sound lock.now) (C.level lock.now) (C.count lock.now) (C.tag lock.now)
        lists.passes.items lists.shares.items }
    ensures opened { IfSome result (λ made. AreOpen C.Pass.rest (C.has lock.now) (C.level lock.now) (C.count lock.now) (C.tag lock.now)
        made.jobs.items made.aside) }
    ensures may { IfSome result (λ made. (k : ℕ) (j : _) → slice_get made.jobs.items k ≡ Some j → MayWork C.Pass.rest (C.has lock.now)
        (C.sound lock.now) (C.level lock.now) (C.tag lock.now) j) }
{
    match deal(alloc, lock, lists) {
        Some((jobs, aside)) => Some(Dealt {
            floor: (),
            jobs,
            aside,
        }),
        None => None,
    }
}

/// The jobs that threads have done, with the lists that were put aside.
pub(crate) fn gathered<C: Composed<Noted<u64>>>(
    _lock: &C,
    jobs: Vec<Job<C::Pass>>,
    lists: Lists<C::Pass>,
) -> Jobs<C::Pass>
    requires { AreBack (λ before. AreOpen C.Pass.rest (C.has _lock.now) (C.level _lock.now) (C.count _lock.now) (C.tag _lock.now)
        before.items lists) (HasServed C.Pass.rest (λ _. Unit {0})) jobs }
    ensures { HaveEnded C.Pass.rest (λ _. Unit {0}) (C.has _lock.now) (C.level _lock.now) (C.count _lock.now) (C.tag _lock.now)
        result.0.items result.1 }
{
    (jobs, lists)
}

/// Takes a lock apart whose callers have done their jobs, and gives what they counted.
pub(crate) fn closed<C: Composed<Noted<u64>> + Drop>(
    lock: C,
    jobs: Vec<Job<C::Pass>>,
    lists: Lists<C::Pass>,
) -> u64
    requires sound { C.sound lock }
    requires ended { HaveEnded C.Pass.rest (λ _. Unit {0}) (C.has lock) (C.level lock) (C.count lock) (C.tag lock) jobs.items lists }
{
    let Lists { passes, .. } = gather(jobs, lists);
    let root = lock.close(passes);
    let (_, noted) = root.into_parts();
    noted.value
}
