//! What the callers of a trial do under a lock over a roll.
ghost use Rattle.std.specs.Prelude.{◌≡◌, ℕ, slice_get, IfErr, IfOk, Some};
ghost use Rattle.clof_compose.specs.Roots.{IsFit, root_tag};
ghost use Rattle.level_harness.specs.Rooms.{roll_tag};
ghost use Rattle.lock_work.specs.Ready.{AreBack, IsSet};
ghost use Rattle.tree_harness.specs.Crews.{AreOpen, IsCrew};
ghost use Rattle.tree_harness.specs.Ready.{IsBrought, IsLeft};
ghost use Rattle.tree_harness.specs.Shifts.{HasWorked, MayWork};

use crate::crew::{Crew, Walkers};
use crate::ending::{ended, walked};
use crate::given::{Brought, Trial};
use crate::jobs::{deal_jobs, gathered};
use crate::outcome::{End, Outcome};
use clof_compose::{Composed, Resting, Root, Waits};
use level_harness::{Job, Roll, hold_all};
use lock_work::{Dealt, OnThread, UnderLock};
use out_of_memory::OutOfMemory;
use std::alloc::Global;
use std::sync::Wait;

/// Callers who walk, who each make their turns in a thread of its own, or who do nothing.
pub(crate) struct Tried;

impl<Q: Resting> OnThread<Roll, Q, (), Job<Q>, ()> for Tried {
    // the pass and the share are those of one caller of this lock, which has room for all calls
    ghost may = { λ _ has level tag sound _ j. MayWork Q.rest has level tag sound j };

    // and the same come back, with all turns made
    ghost did = { λ _ _ _ _ _. HasWorked Q.rest };

    fn serve<C: Waits<Roll, Pass = Q>, R: Wait>(
        rt: &R,
        lock: &C,
        _shared: &(),
        _floor: &(),
        job: Job<Q>,
    ) -> Job<Q>
        requires { MayWork Q.rest (C.has lock.now) (C.level lock.now) (C.tag lock.now) (C.sound lock.now) job }
        ensures { HasWorked Q.rest job result }
    {
        hold_all(rt, lock, job)
    }
}

impl<'t, Q: Resting> UnderLock<Roll, Q, (), Job<Q>, Brought<'t>, Outcome<Roll>, ()> for Tried {
    type Aside = Vec<Q>;

    type Crew = Crew<'t, Q>;

    ghost dealt = { λ _. IsBrought };

    ghost is_open = { λ has level count tag _ jobs passes. AreOpen Q.rest has level count tag jobs.items passes };

    ghost is_crew = { λ _. IsCrew Q.rest };

    ghost left = { λ _. IsLeft };

    fn deal<C: Composed<Roll, Pass = Q>, R: Wait>(
        _rt: &R,
        alloc: Global,
        lock: &C,
        _shared: &(),
        passes: Vec<Q>,
        brought: Brought<'t>,
    ) -> Result<Dealt<(), Job<Q>, Vec<Q>>, Crew<'t, Q>>
        requires set { IsSet Q.rest (C.has lock.now) (C.sound lock.now) (C.level lock.now) (C.count lock.now) (C.tag lock.now) IsBrought
            brought passes.items }
        ensures opened { IfOk result (λ made. AreOpen Q.rest (C.has lock.now) (C.level lock.now) (C.count lock.now) (C.tag lock.now)
            made.jobs.items made.aside) }
        ensures may { IfOk result (λ made. (k : ℕ) (j : _) → slice_get made.jobs.items k ≡ Some j → MayWork Q.rest (C.has lock.now)
            (C.level lock.now) (C.tag lock.now) (C.sound lock.now) j) }
        ensures crew { IfErr result (IsCrew Q.rest (C.has lock.now) (C.level lock.now) (C.count lock.now) (C.tag lock.now)) }
    {
        let Brought { shares, trial } = brought;
        match trial {
            Trial::Walk(order) => Err(Crew::Walk(Walkers {
                alloc,
                passes,
                shares,
                order,
            })),
            Trial::Hold => deal_jobs(alloc, lock, passes, shares),
            Trial::Close => Err(Crew::Idle(passes)),
        }
    }

    fn gather<C: Waits<Roll, Pass = Q>, R: Wait>(
        _rt: &R,
        lock: &C,
        _shared: &(),
        _floor: (),
        jobs: Vec<Job<Q>>,
        passes: Vec<Q>,
    ) -> Crew<'t, Q>
        requires sound { C.sound lock.now }
        requires lowest { C.level lock.now ≡ 0 }
        requires did { AreBack (λ before. AreOpen Q.rest (C.has lock.now) (C.level lock.now) (C.count lock.now) (C.tag lock.now)
            before.items passes) (HasWorked Q.rest) jobs }
        ensures { IsCrew Q.rest (C.has lock.now) (C.level lock.now) (C.count lock.now) (C.tag lock.now) result }
    {
        gathered(lock, jobs, passes)
    }

    fn close<C: Composed<Roll, Pass = Q> + Drop, R: Wait>(
        rt: &R,
        lock: C,
        _shared: &(),
        crew: Crew<'t, Q>,
    ) -> Result<Outcome<Roll>, OutOfMemory>
        requires sound { C.sound lock }
        requires crew { IsCrew Q.rest (C.has lock) (C.level lock) (C.count lock) (C.tag lock) crew }
        ensures { IfOk result (IsLeft (C.tag lock)) }
    {
        match crew {
            Crew::Walk(walkers) => walked(rt, lock, walkers),
            Crew::Held(held) => ended(lock, held),
            Crew::Idle(passes) => Ok(Outcome {
                root: lock.close(passes),
                end: End::Done,
            }),
            Crew::Lost => Err(OutOfMemory),
        }
    }

    fn refused(_shared: &(), root: Root<Roll>) -> Result<Outcome<Roll>, OutOfMemory>
        requires fit { IsFit (λ r. r.callers.items) root }
        ensures { IfOk result (IsLeft (root_tag roll_tag root)) }
    {
        Ok(Outcome {
            root,
            end: End::Refused,
        })
    }
}
