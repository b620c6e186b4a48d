//! Callers who give their commands to a journal and keep receipts of their turns, on threads.
ghost use Rattle.std.specs.Prelude.{◌≡◌, ◌≤◌, ℕ, [], length, map, slice_get, vec_capacity, IfErr, IfOk, Some};
ghost use Rattle.keep_local.specs.Shapes.{callers_of};
ghost use Rattle.clof_compose.specs.Courses.{course_of};
ghost use Rattle.clof_compose.specs.Roots.{IsFit, root_tag};
ghost use Rattle.lock_work.specs.Ready.{AreBack, IsSet};
ghost use Rattle.fresh_runner.specs.Books.{fresh_book_calls, fresh_book_tag};
ghost use Rattle.fresh_runner.specs.Crews.{AreEmptied, IsFreshCrew};
ghost use Rattle.fresh_runner.specs.Jobs.{IsFreshJob, IsFreshServed};
ghost use Rattle.fresh_runner.specs.Ready.{IsFreshDealt};
ghost use Rattle.run_work.specs.Runs.{AreDealt, IsLeftMarked};
ghost use Rattle.run_work.specs.declared.marked.FreshBrought.{FreshBrought as TheBrought};

use clof_compose::{Composed, Resting, Root, Waits};
use fresh_root::Seen;
use fresh_runner::{
    FreshBook, FreshCrew, FreshJob, FreshPrepared, Lists, Marked, close_fresh, fresh_crew_of,
    prepare_fresh, serve_fresh,
};
use keep_local::Share;
use lock_work::{Dealt, OnThread, UnderLock};
use out_of_memory::OutOfMemory;
use run_texts::{Gate, Section};
use std::alloc::Global;
use std::sync::Wait;

/// What the callers of a run bring: their shares, their tokens and their sections, in order.
#[derive(Drop)]
pub struct FreshBrought<'s, 'a> {
    pub shares: Vec<Share>,
    pub seens: Vec<Seen>,
    pub sections: &'s [Section<'a>],
}

/// Empty lists with room for what comes back of all callers.
#[derive(Drop)]
pub struct FreshLists<Q> {
    pub lists: Lists<Q>,
    pub stopped: Vec<bool>,
}

/// Callers who give their commands each in a thread of its own, and keep receipts of their turns.
pub struct Receipted;

impl<'a, Q: Resting, G: Gate> OnThread<FreshBook<'a>, Q, (), FreshJob<'a, Q>, G> for Receipted {
    // the job is that of a caller of this lock
    ghost may = { λ _ has level tag sound _ j. sound × (level ≡ 0) × ((number : ℕ) × IsFreshJob Q.rest has level tag number j) };

    // and it comes back as its caller brings it
    ghost did = { λ _ has level tag _ j k. (number : ℕ) → IsFreshJob Q.rest has level tag number j
        → IsFreshServed Q.rest has level tag number k };

    fn serve<C: Waits<FreshBook<'a>, Pass = Q>, R: Wait>(
        rt: &R,
        lock: &C,
        gate: &G,
        _floor: &(),
        job: FreshJob<'a, Q>,
    ) -> FreshJob<'a, Q> {
        serve_fresh(rt, lock, gate, job)
    }
}

impl<'s, 'a, Q: Resting, G: Gate> UnderLock<
    FreshBook<'a>,
    Q,
    (),
    FreshJob<'a, Q>,
    FreshBrought<'s, 'a>,
    Marked<'a>,
    G,
> for Receipted {
    type Aside = FreshLists<Q>;

    type Crew = FreshCrew<Q>;

    ghost dealt = { λ _ course brought. IsFreshDealt course (map (λ section. section.bytes.now) brought.sections.now) brought.shares.items
        brought.seens.items };

    ghost is_open = { λ has level count tag _ jobs aside. AreDealt (IsFreshJob Q.rest has level tag) count
        (AreEmptied count aside.lists × (aside.stopped.items ≡ []) × (count ≤ vec_capacity aside.stopped)) jobs.items };

    ghost is_crew = { λ _. IsFreshCrew Q.rest };

    ghost left = { λ _ tag. IsLeftMarked (course_of tag) };

    fn deal<C: Composed<FreshBook<'a>, Pass = Q>, R: Wait>(
        _rt: &R,
        alloc: Global,
        lock: &C,
        _gate: &G,
        passes: Vec<Q>,
        brought: FreshBrought<'s, 'a>,
    ) -> Result<Dealt<(), FreshJob<'a, Q>, FreshLists<Q>>, FreshCrew<Q>>
        requires set { IsSet Q.rest (C.has lock.now) (C.sound lock.now) (C.level lock.now) (C.count lock.now) (C.tag lock.now)
            (λ course b. IsFreshDealt course (map (λ section. section.bytes.now) b.sections.now) b.shares.items b.seens.items) brought
            passes.items }
        ensures opened { IfOk result (λ made. AreDealt (IsFreshJob Q.rest (C.has lock.now) (C.level lock.now) (C.tag lock.now))
            (C.count lock.now) (AreEmptied (C.count lock.now) made.aside.lists × (made.aside.stopped.items ≡ [])
            × (C.count lock.now ≤ vec_capacity made.aside.stopped)) made.jobs.items) }
        ensures may { IfOk result (λ made. (k : ℕ) (j : _) → slice_get made.jobs.items k ≡ Some j → C.sound lock.now
            × (C.level lock.now ≡ 0) × ((number : ℕ) × IsFreshJob Q.rest (C.has lock.now) (C.level lock.now) (C.tag lock.now) number j)) }
        ensures crew { IfErr result (IsFreshCrew Q.rest (C.has lock.now) (C.level lock.now) (C.count lock.now) (C.tag lock.now)) }
    {
        let FreshBrought {
            shares,
            seens,
            sections,
        } = brought;
        match prepare_fresh(alloc, lock, passes, shares, seens, sections) {
            Ok(
                FreshPrepared {
                    jobs,
                    lists,
                    stopped,
                },
            ) => Ok(Dealt {
                floor: (),
                jobs,
                aside: FreshLists { lists, stopped },
            }),
            Err(crew) => Err(crew),
        }
    }

    fn gather<C: Waits<FreshBook<'a>, Pass = Q>, R: Wait>(
        _rt: &R,
        lock: &C,
        _gate: &G,
        _floor: (),
        jobs: Vec<FreshJob<'a, Q>>,
        aside: FreshLists<Q>,
    ) -> FreshCrew<Q>
        requires sound { C.sound lock.now }
        requires lowest { C.level lock.now ≡ 0 }
        requires did { AreBack (λ before. AreDealt (IsFreshJob Q.rest (C.has lock.now) (C.level lock.now) (C.tag lock.now))
            (C.count lock.now) (AreEmptied (C.count lock.now) aside.lists × (aside.stopped.items ≡ [])
            × (C.count lock.now ≤ vec_capacity aside.stopped)) before.items)
            (λ j k. (number : ℕ) → IsFreshJob Q.rest (C.has lock.now) (C.level lock.now) (C.tag lock.now) number j
            → IsFreshServed Q.rest (C.has lock.now) (C.level lock.now) (C.tag lock.now) number k) jobs }
        ensures { IsFreshCrew Q.rest (C.has lock.now) (C.level lock.now) (C.count lock.now) (C.tag lock.now) result }
    {
        are_served(lock, &jobs, &aside);
        fresh_crew_of(lock, jobs, aside.lists, aside.stopped)
    }

    fn close<C: Composed<FreshBook<'a>, Pass = Q> + Drop, R: Wait>(
        _rt: &R,
        lock: C,
        _gate: &G,
        crew: FreshCrew<Q>,
    ) -> Result<Marked<'a>, OutOfMemory>
        requires sound { C.sound lock }
        requires crew { IsFreshCrew Q.rest (C.has lock) (C.level lock) (C.count lock) (C.tag lock) crew }
        requires count { C.count lock ≡ callers_of (course_of (C.tag lock)).shape }
        requires some { (b : TheBrought) × IsFreshDealt (course_of (C.tag lock)) (map (λ section. section.bytes.now) b.sections.now)
            b.shares.items b.seens.items }
        ensures { IfOk result (IsLeftMarked (course_of (C.tag lock))) }
    {
        close_fresh(lock, crew)
    }

    fn refused(_gate: &G, root: Root<FreshBook<'a>>) -> Result<Marked<'a>, OutOfMemory>
        requires fit { IsFit fresh_book_calls root }
        ensures { IfOk result (IsLeftMarked (course_of (root_tag fresh_book_tag root.entry))) }
    {
        Err(OutOfMemory)
    }
}

// What came back of the threads is of all callers.
fn are_served<'a, Q: Resting, C: Composed<FreshBook<'a>, Pass = Q>>(
    _lock: &C,
    _jobs: &Vec<FreshJob<'a, Q>>,
    _aside: &FreshLists<Q>,
)
    requires did { AreBack (λ before. AreDealt (IsFreshJob Q.rest (C.has _lock.now) (C.level _lock.now) (C.tag _lock.now))
        (C.count _lock.now) (AreEmptied (C.count _lock.now) _aside.now.lists × (_aside.now.stopped.items ≡ [])
        × (C.count _lock.now ≤ vec_capacity _aside.now.stopped)) before.items)
        (λ j k. (number : ℕ) → IsFreshJob Q.rest (C.has _lock.now) (C.level _lock.now) (C.tag _lock.now) number j
        → IsFreshServed Q.rest (C.has _lock.now) (C.level _lock.now) (C.tag _lock.now) number k) _jobs.now }
    ensures each { (k : ℕ) (j : _) → slice_get _jobs.now.items k ≡ Some j → IsFreshServed Q.rest (C.has _lock.now) (C.level _lock.now)
        (C.tag _lock.now) k j }
    ensures many { length _jobs.now.items ≡ C.count _lock.now }
    ensures lists { AreEmptied (C.count _lock.now) _aside.now.lists }
    ensures stopped_empty { _aside.now.stopped.items ≡ [] }
    ensures stopped_room { C.count _lock.now ≤ vec_capacity _aside.now.stopped }
{}
