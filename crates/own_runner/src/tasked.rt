//! What callers do under a lock around a value: each takes its tasks and holds the lock for each, in a thread of its own.
ghost use Rattle.std.specs.Prelude.{◌≡◌, ℕ, slice_get, IfErr, IfOk, IfSome, Some};
ghost use Rattle.lock_rules.specs.Tag.{leaf};
ghost use Rattle.clof_compose.specs.Roots.{IsFit, root_tag};
ghost use Rattle.lock_work.specs.Ready.{AreBack, IsSet};
ghost use Rattle.own_payload.specs.Jobs.{HasServed, MayWork};
ghost use Rattle.own_runner.specs.Runs.{AreBrought, AreOpen, HaveEnded, IsLeft};

use crate::jobs::{Jobs, deal_jobs, gathered};
use clof_compose::{Composed, Resting, Root, Waits};
use keep_local::Share;
use lock_work::{Dealt, OnThread, UnderLock};
use out_of_memory::OutOfMemory;
use own_payload::{Job, Lists, Noted, Serves, close_ended, serve_caller};
use std::alloc::Global;
use std::sync::Wait;

/// Callers who take their tasks from a server.
pub(crate) struct Tasked;

impl<T: Drop, Q: Resting, S: Serves<T>> OnThread<Noted<T>, Q, (), Job<Q>, S> for Tasked {
    // the job is that of a caller of this lock, and the server may be asked for it
    ghost may = { λ server has level tag sound _ j. MayWork Q.rest has sound level tag j × S.may server j.share.caller };

    // and all its turns are made, unless it may stop
    ghost did = { λ server _ _ _ _. HasServed Q.rest (S.stops server) };

    fn serve<C: Waits<Noted<T>, Pass = Q>, R: Wait>(
        rt: &R,
        lock: &C,
        server: &S,
        _floor: &(),
        job: Job<Q>,
    ) -> Job<Q> {
        serve_caller(rt, lock, job, server)
    }
}

impl<T: Drop, Q: Resting, S: Serves<T>> UnderLock<
    Noted<T>,
    Q,
    (),
    Job<Q>,
    Vec<Share>,
    Root<Noted<T>>,
    S,
> for Tasked {
    type Aside = Lists<Q>;

    type Crew = Option<Jobs<Q>>;

    ghost dealt = { λ server course shares. AreBrought course shares × ((caller : ℕ) → S.may server caller) };

    ghost is_open = { λ has level count tag _ jobs lists. AreOpen Q.rest has level count tag jobs.items lists };

    ghost is_crew = { λ server has level count tag crew. IfSome crew (λ e. HaveEnded Q.rest (S.stops server) has level count tag e.0.items
        e.1) };

    ghost left = { λ server. IsLeft (S.stops server) };

    fn deal<C: Composed<Noted<T>, Pass = Q>, R: Wait>(
        _rt: &R,
        alloc: Global,
        lock: &C,
        server: &S,
        passes: Vec<Q>,
        shares: Vec<Share>,
    ) -> Result<Dealt<(), Job<Q>, Lists<Q>>, Option<Jobs<Q>>>
        requires set { IsSet Q.rest (C.has lock.now) (C.sound lock.now) (C.level lock.now) (C.count lock.now) (C.tag lock.now)
            (λ course b. AreBrought course b × ((caller : ℕ) → S.may server.now caller)) shares passes.items }
        ensures opened { IfOk result (λ made. AreOpen Q.rest (C.has lock.now) (C.level lock.now) (C.count lock.now) (C.tag lock.now)
            made.jobs.items made.aside) }
        ensures may { IfOk result (λ made. (k : ℕ) (j : _) → slice_get made.jobs.items k ≡ Some j → MayWork Q.rest (C.has lock.now)
            (C.sound lock.now) (C.level lock.now) (C.tag lock.now) j × S.may server.now j.share.caller) }
        ensures crew { IfErr result (λ crew. IfSome crew (λ e. HaveEnded Q.rest (S.stops server.now) (C.has lock.now) (C.level lock.now)
            (C.count lock.now) (C.tag lock.now) e.0.items e.1)) }
    {
        match deal_jobs(alloc, lock, Lists { passes, shares }, server) {
            Some(dealt) => Ok(dealt),
            None => Err(None),
        }
    }

    fn gather<C: Waits<Noted<T>, Pass = Q>, R: Wait>(
        _rt: &R,
        lock: &C,
        server: &S,
        _floor: (),
        jobs: Vec<Job<Q>>,
        lists: Lists<Q>,
    ) -> Option<Jobs<Q>>
        requires sound { C.sound lock.now }
        requires lowest { C.level lock.now ≡ 0 }
        requires did { AreBack (λ before. AreOpen Q.rest (C.has lock.now) (C.level lock.now) (C.count lock.now) (C.tag lock.now)
            before.items lists) (HasServed Q.rest (S.stops server.now)) jobs }
        ensures { IfSome result (λ e. HaveEnded Q.rest (S.stops server.now) (C.has lock.now) (C.level lock.now) (C.count lock.now)
            (C.tag lock.now) e.0.items e.1) }
    {
        Some(gathered(lock, server, jobs, lists))
    }

    fn close<C: Composed<Noted<T>, Pass = Q> + Drop, R: Wait>(
        _rt: &R,
        lock: C,
        server: &S,
        crew: Option<Jobs<Q>>,
    ) -> Result<Root<Noted<T>>, OutOfMemory>
        requires sound { C.sound lock }
        requires crew { IfSome crew (λ e. HaveEnded Q.rest (S.stops server.now) (C.has lock) (C.level lock) (C.count lock) (C.tag lock)
            e.0.items e.1) }
        ensures { IfOk result (IsLeft (S.stops server.now) (C.tag lock)) }
    {
        match crew {
            Some((jobs, lists)) => Ok(close_ended(lock, jobs, lists, server)),
            None => Err(OutOfMemory),
        }
    }

    fn refused(server: &S, root: Root<Noted<T>>) -> Result<Root<Noted<T>>, OutOfMemory>
        requires fit { IsFit (λ n. n.calls.callers) root }
        ensures { IfOk result (IsLeft (S.stops server.now) (root_tag (λ _. leaf 0) root)) }
    {
        Err(OutOfMemory)
    }
}
