//! Callers who wait for threads that serve them in turn.
ghost use Rattle.std.specs.Prelude.{◌≡◌, ◌<◌, ℕ, length, map, slice_get, IfErr, IfOk, Some};
ghost use Rattle.keep_local.specs.Shapes.{callers_of};
ghost use Rattle.clof_compose.specs.Courses.{course_of};
ghost use Rattle.clof_compose.specs.Roots.{IsFit, root_tag};
ghost use Rattle.cohort_runner.specs.Rolls.{contexts_of};
ghost use Rattle.cohort_runner.specs.Runs.{HasSat, IsOpen, MaySit, run_of};
ghost use Rattle.lock_work.specs.Ready.{AreBack, IsSet};
ghost use Rattle.threaded_runner.specs.Books.{book_calls, book_tag};
ghost use Rattle.threaded_runner.specs.Crews.{IsCrew};
ghost use Rattle.threaded_runner.specs.Ready.{IsDealt};
ghost use Rattle.run_work.specs.Runs.{IsLeft};
ghost use Rattle.run_work.specs.declared.seated.Waiting.{Waiting as TheWaiting};

use crate::parts::{joined, parted};
use clof_compose::{Composed, Resting, Root, Waits};
use cohort_desks::Desk;
use cohort_runner::{Aside, Caller, Floor, end_run, open_run, serve_desk};
use keep_local::Share;
use lock_work::{Dealt, OnThread, UnderLock};
use out_of_memory::OutOfMemory;
use run_texts::{Gate, Section};
use std::alloc::Global;
use std::sync::Wait;
use threaded_runner::{Book, Crew, Finished, close_run};

/// What the callers of a run bring that share threads: their shares, their sections and the nodes where they are at home, in order; how
/// many threads serve them, the calling one among them, and how many commands of a caller one gives at a time.
#[derive(Drop)]
pub struct Waiting<'s, 'a> {
    pub shares: Vec<Share>,
    pub sections: &'s [Section<'a>],
    pub homes: Vec<u32>,
    pub threads: u32,
    pub quantum: u32,
}

/// What all threads have before them, and how many commands of a caller one gives at a time.
#[derive(Drop)]
pub struct Room<'a, Q: Resting> {
    pub floor: Floor<'a, Q>,
    pub quantum: u32,
}

/// Callers who wait for threads that serve them in turn.
pub struct Seated;

impl<'a, Q: Resting, G: Gate> OnThread<Book<'a>, Q, Room<'a, Q>, Desk<Caller<'a, Q>>, G>
    for Seated {
    // a thread may sit at this desk
    ghost may = { λ _ has level tag sound room desk. MaySit has level tag sound (contexts_of Q.rest room.floor.roll.told.value.items)
        room.floor.cohorts.items desk };

    // and it is left as it was, for the next one
    ghost did = { λ _ _ _ _ room before after. HasSat room.floor.cohorts.items before after };

    fn serve<C: Waits<Book<'a>, Pass = Q>, R: Wait>(
        rt: &R,
        lock: &C,
        gate: &G,
        room: &Room<'a, Q>,
        desk: Desk<Caller<'a, Q>>,
    ) -> Desk<Caller<'a, Q>> {
        let floor = &room.floor;
        serve_desk(
            rt,
            lock,
            gate,
            &floor.roll,
            &floor.cohorts,
            desk,
            room.quantum,
        )
    }
}

impl<'s, 'a, Q: Resting, G: Gate> UnderLock<
    Book<'a>,
    Q,
    Room<'a, Q>,
    Desk<Caller<'a, Q>>,
    Waiting<'s, 'a>,
    Finished<'a>,
    G,
> for Seated {
    type Aside = Aside<'a, Q>;

    type Crew = Crew<Q>;

    ghost dealt = { λ _ course w. IsDealt course (map (λ section. section.bytes.now) w.sections.now) w.shares.items
        × (length w.homes.items ≡ length w.sections.now) × (0 < w.threads) };

    ghost is_open = { λ has level count tag room desks aside. IsOpen Q.rest has level count tag (run_of room.floor desks aside) };

    ghost is_crew = { λ _. IsCrew Q.rest };

    ghost left = { λ _ tag. IsLeft (course_of tag) };

    fn deal<C: Composed<Book<'a>, Pass = Q>, R: Wait>(
        rt: &R,
        alloc: Global,
        lock: &C,
        _gate: &G,
        passes: Vec<Q>,
        waiting: Waiting<'s, 'a>,
    ) -> Result<Dealt<Room<'a, Q>, Desk<Caller<'a, Q>>, Aside<'a, Q>>, Crew<Q>>
        requires set { IsSet Q.rest (C.has lock.now) (C.sound lock.now) (C.level lock.now) (C.count lock.now) (C.tag lock.now)
            (λ course w. IsDealt course (map (λ section. section.bytes.now) w.sections.now) w.shares.items
            × (length w.homes.items ≡ length w.sections.now) × (0 < w.threads)) waiting passes.items }
        ensures opened { IfOk result (λ made. IsOpen Q.rest (C.has lock.now) (C.level lock.now) (C.count lock.now) (C.tag lock.now)
            (run_of made.floor.floor made.jobs made.aside)) }
        ensures may { IfOk result (λ made. (k : ℕ) (d : _) → slice_get made.jobs.items k ≡ Some d → MaySit (C.has lock.now)
            (C.level lock.now) (C.tag lock.now) (C.sound lock.now) (contexts_of Q.rest made.floor.floor.roll.told.value.items)
            made.floor.floor.cohorts.items d) }
        ensures crew { IfErr result (IsCrew Q.rest (C.has lock.now) (C.level lock.now) (C.count lock.now) (C.tag lock.now)) }
    {
        let Waiting {
            shares,
            sections,
            homes,
            threads,
            quantum,
        } = waiting;
        match open_run(rt, alloc, lock, passes, shares, sections, &homes, threads) {
            Ok(run) => Ok(parted(lock, run, quantum)),
            Err(crew) => Err(crew),
        }
    }

    fn gather<C: Waits<Book<'a>, Pass = Q>, R: Wait>(
        rt: &R,
        lock: &C,
        gate: &G,
        room: Room<'a, Q>,
        desks: Vec<Desk<Caller<'a, Q>>>,
        aside: Aside<'a, Q>,
    ) -> Crew<Q>
        requires sound { C.sound lock.now }
        requires lowest { C.level lock.now ≡ 0 }
        requires did { AreBack (λ before. IsOpen Q.rest (C.has lock.now) (C.level lock.now) (C.count lock.now) (C.tag lock.now)
            (run_of room.floor before aside)) (HasSat room.floor.cohorts.items) desks }
        ensures { IsCrew Q.rest (C.has lock.now) (C.level lock.now) (C.count lock.now) (C.tag lock.now) result }
    {
        end_run(rt, lock, gate, joined(lock, room.floor, desks, aside))
    }

    fn close<C: Composed<Book<'a>, Pass = Q> + Drop, R: Wait>(
        _rt: &R,
        lock: C,
        _gate: &G,
        crew: Crew<Q>,
    ) -> Result<Finished<'a>, OutOfMemory>
        requires sound { C.sound lock }
        requires crew { IsCrew Q.rest (C.has lock) (C.level lock) (C.count lock) (C.tag lock) crew }
        requires count { C.count lock ≡ callers_of (course_of (C.tag lock)).shape }
        requires some { (w : TheWaiting) × (IsDealt (course_of (C.tag lock)) (map (λ section. section.bytes.now) w.sections.now)
            w.shares.items × (length w.homes.items ≡ length w.sections.now) × (0 < w.threads)) }
        ensures { IfOk result (IsLeft (course_of (C.tag lock))) }
    {
        close_run(lock, crew)
    }

    fn refused(_gate: &G, root: Root<Book<'a>>) -> Result<Finished<'a>, OutOfMemory>
        requires fit { IsFit book_calls root }
        ensures { IfOk result (IsLeft (course_of (root_tag book_tag root.entry))) }
    {
        Err(OutOfMemory)
    }
}
