//! What the callers of a lock whose trail keeps no turns do, whatever lock that is.
ghost use Rattle.std.specs.Prelude.{◌≡◌, ℕ, slice_get, IfErr, IfOk, IfSome, Some};
ghost use Rattle.clof_compose.specs.Roots.{IsFit};
ghost use Rattle.lock_work.specs.Ready.{AreBack, IsSet};
ghost use Rattle.own_payload.specs.Jobs.{HasServed, MayWork};
ghost use Rattle.own_runner.specs.Runs.{AreBrought, AreOpen, HaveEnded};

use crate::holding::hold_often;
use crate::jobs::{Jobs, closed, deal_jobs, gathered};
use clof_compose::{Composed, Resting, Root, Waits};
use keep_local::Share;
use lock_work::{Dealt, OnThread, UnderLock};
use out_of_memory::OutOfMemory;
use own_payload::{Job, Lists, Noted};
use std::alloc::Global;
use std::sync::Wait;

/// Callers who each hold again and again, in a thread of its own.
pub(crate) struct Repeated;

impl<Q: Resting> OnThread<Noted<u64>, Q, (), Job<Q>, u32> for Repeated {
    // the job is that of a caller of this lock
    ghost may = { λ _ has level tag sound _ j. MayWork Q.rest has sound level tag j };

    // and its pass and its share come back
    ghost did = { λ _ _ _ _ _. HasServed Q.rest (λ _. Unit {0}) };

    fn serve<C: Waits<Noted<u64>, Pass = Q>, R: Wait>(
        rt: &R,
        lock: &C,
        holds: &u32,
        _floor: &(),
        job: Job<Q>,
    ) -> Job<Q>
        requires { MayWork Q.rest (C.has lock.now) (C.sound lock.now) (C.level lock.now) (C.tag lock.now) job }
        ensures { HasServed Q.rest (λ _. Unit {0}) job result }
    {
        hold_often(rt, lock, *holds, job)
    }
}

impl<Q: Resting> UnderLock<Noted<u64>, Q, (), Job<Q>, Vec<Share>, u64, u32> for Repeated {
    type Aside = Lists<Q>;

    type Crew = Option<Jobs<Q>>;

    ghost dealt = { λ _. AreBrought };

    ghost is_open = { λ has level count tag _ jobs lists. AreOpen Q.rest has level count tag jobs.items lists };

    ghost is_crew = { λ _ has level count tag crew. IfSome crew (λ e. HaveEnded Q.rest (λ _. Unit {0}) has level count tag e.0.items e.1) };

    // nothing is said of what they counted
    ghost left = { λ _ _ _. Unit {0} };

    fn deal<C: Composed<Noted<u64>, Pass = Q>, R: Wait>(
        _rt: &R,
        alloc: Global,
        lock: &C,
        _holds: &u32,
        passes: Vec<Q>,
        shares: Vec<Share>,
    ) -> Result<Dealt<(), Job<Q>, Lists<Q>>, Option<Jobs<Q>>>
        requires set { IsSet Q.rest (C.has lock.now) (C.sound lock.now) (C.level lock.now) (C.count lock.now) (C.tag lock.now) AreBrought
            shares passes.items }
        ensures opened { IfOk result (λ made. AreOpen Q.rest (C.has lock.now) (C.level lock.now) (C.count lock.now) (C.tag lock.now)
            made.jobs.items made.aside) }
        ensures may { IfOk result (λ made. (k : ℕ) (j : _) → slice_get made.jobs.items k ≡ Some j → MayWork Q.rest (C.has lock.now)
            (C.sound lock.now) (C.level lock.now) (C.tag lock.now) j) }
        ensures crew { IfErr result (λ crew. IfSome crew (λ e. HaveEnded Q.rest (λ _. Unit {0}) (C.has lock.now) (C.level lock.now)
            (C.count lock.now) (C.tag lock.now) e.0.items e.1)) }
    {
        match deal_jobs(alloc, lock, Lists { passes, shares }) {
            Some(dealt) => Ok(dealt),
            None => Err(None),
        }
    }

    fn gather<C: Waits<Noted<u64>, Pass = Q>, R: Wait>(
        _rt: &R,
        lock: &C,
        _holds: &u32,
        _floor: (),
        jobs: Vec<Job<Q>>,
        lists: Lists<Q>,
    ) -> Option<Jobs<Q>>
        requires sound { C.sound lock.now }
        requires lowest { C.level lock.now ≡ 0 }
        requires did { AreBack (λ before. AreOpen Q.rest (C.has lock.now) (C.level lock.now) (C.count lock.now) (C.tag lock.now)
            before.items lists) (HasServed Q.rest (λ _. Unit {0})) jobs }
        ensures { IfSome result (λ e. HaveEnded Q.rest (λ _. Unit {0}) (C.has lock.now) (C.level lock.now) (C.count lock.now)
            (C.tag lock.now) e.0.items e.1) }
    {
        Some(gathered(lock, jobs, lists))
    }

    fn close<C: Composed<Noted<u64>, Pass = Q> + Drop, R: Wait>(
        _rt: &R,
        lock: C,
        _holds: &u32,
        crew: Option<Jobs<Q>>,
    ) -> Result<u64, OutOfMemory>
        requires sound { C.sound lock }
        requires crew { IfSome crew (λ e. HaveEnded Q.rest (λ _. Unit {0}) (C.has lock) (C.level lock) (C.count lock) (C.tag lock) e.0.items
            e.1) }
        ensures { IfOk result (λ _. Unit {0}) }
    {
        match crew {
            Some((jobs, lists)) => Ok(closed(lock, jobs, lists)),
            None => Err(OutOfMemory),
        }
    }

    fn refused(_holds: &u32, _root: Root<Noted<u64>>) -> Result<u64, OutOfMemory>
        requires fit { IsFit (λ n. n.calls.callers) _root }
        ensures { IfOk result (λ _. Unit {0}) }
    {
        Err(OutOfMemory)
    }
}
