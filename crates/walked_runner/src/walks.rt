//! A walk: all callers of a lock on one thread.
ghost use Rattle.std.specs.Prelude.{◌≡◌, length, map, IfOk};
ghost use Rattle.clof_compose.specs.Courses.{course_of};
ghost use Rattle.clof_compose.specs.Passes.{AreAll};
ghost use Rattle.threaded_runner.specs.Crews.{IsCrew};
ghost use Rattle.threaded_runner.specs.Finished.{IsFinished};
ghost use Rattle.threaded_runner.specs.Ready.{IsDealt, IsReady};

use crate::rounds::make_rounds;
use crate::seating::{rise, seat};
use clof_compose::{Composed, Resting};
use keep_local::Share;
use out_of_memory::OutOfMemory;
use run_texts::Section;
use std::alloc::Global;
use std::sync::Wait;
use threaded_runner::{Book, Crew, Finished, Prepared, close_run, crew_of, not_started, prepare};

/// Has each caller of a lock give its commands, all on the calling thread, in rounds: a round makes a step of each caller, in ascending
/// order. The lock is one whose payload is a journal for these sections; there is a pass and a share for each of them, in order, and each
/// may hold as often as its section has commands. All passes and shares come back. A caller stops before its commands end, and a run
/// doesn't start, for want of memory alone.
pub fn run_walk<'a, C: Composed<Book<'a>>, R: Wait>(
    rt: &R,
    alloc: Global,
    lock: &C,
    passes: Vec<C::Pass>,
    shares: Vec<Share>,
    sections: &[Section<'a>],
) -> Crew<C::Pass>
    requires sound { C.sound lock.now }
    requires lowest { C.level lock.now ≡ 0 }
    requires passes { AreAll (λ p. (C.Pass.rest p).context) (C.has lock.now) (C.level lock.now) (C.tag lock.now) (C.count lock.now)
        passes.items }
    requires count { C.count lock.now ≡ length sections.now }
    requires dealt { IsDealt (course_of (C.tag lock.now)) (map (λ section. section.bytes.now) sections.now) shares.items }
    ensures crew { IsCrew C.Pass.rest (C.has lock.now) (C.level lock.now) (C.count lock.now) (C.tag lock.now) result }
{
    let Ok(walkers) = Vec::with_capacity(alloc, passes.len()) else {
        return not_started(alloc, lock, passes, shares, sections);
    };
    let prepared = match prepare(alloc, lock, passes, shares, sections) {
        Ok(prepared) => prepared,
        Err(crew) => return crew,
    };
    let Prepared {
        jobs,
        passes,
        shares,
        stopped,
    } = prepared;
    let (walkers, jobs) = seat(lock, jobs, walkers);
    let walkers = make_rounds(rt, lock, walkers);
    let jobs = rise(lock, walkers, jobs);
    crew_of(lock, jobs, passes, shares, stopped)
}

/// Has the callers of a lock that is ready walk, as `run_walk` does, takes the lock apart, and gives what they leave. Without memory for
/// the run, or for a command in it, nothing is given.
pub fn walk_under<'a, C: Composed<Book<'a>> + Drop, R: Wait>(
    rt: &R,
    alloc: Global,
    lock: C,
    passes: Vec<C::Pass>,
    shares: Vec<Share>,
    sections: &[Section<'a>],
) -> Result<Finished<'a>, OutOfMemory>
    requires ready { IsReady C.Pass.rest (C.has lock) (C.sound lock) (C.level lock) (C.count lock) (C.tag lock)
        (map (λ section. section.bytes.now) sections.now) passes.items shares.items }
    ensures finished { IfOk result (λ left. IsFinished left.trail left.journal) }
    ensures shape { IfOk result (λ left. left.trail.shape ≡ (course_of (C.tag lock)).shape) }
    ensures sections { IfOk result (λ left. left.journal.sections ≡ map (λ section. section.bytes.now) sections.now) }
{
    let crew = run_walk(rt, alloc, &lock, passes, shares, sections);
    close_run(lock, crew)
}
