//! How a run ends: its Cohorts are closed, and all callers come back.
ghost use Rattle.std.specs.Prelude.{◌≡◌, ◌<◌, ◌≤◌, ℕ, [], Some, length, slice_get, vec_capacity};
ghost use Rattle.cohort_desks.specs.Slots.{AreOwn, IsFull};
ghost use Rattle.cohort_runner.specs.Rolls.{IsRoll, contexts_of, roll_tag};
ghost use Rattle.cohort_runner.specs.Runs.{IsOpen, number_of, tag_of};
ghost use Rattle.threaded_runner.specs.Crews.{IsCrew};
ghost use Rattle.threaded_runner.specs.Jobs.{IsJob, IsServed};

use crate::caller::Caller;
use crate::roll::Roll;
use crate::run::{Lists, Run};
use crate::serving::job_of;
use clof_compose::{Resting, Waits};
use cohort_desks::close_all;
use run_texts::Gate;
use std::sync::Wait;
use threaded_runner::{Book, Crew, Job, crew_of, serve};

// Serves all commands that a caller has left, unless it stopped.
fn serve_out<'a, C: Waits<Book<'a>>, G: Gate, R: Wait>(
    rt: &R,
    lock: &C,
    gate: &G,
    job: Job<'a, C::Pass>,
) -> Job<'a, C::Pass>
    requires sound { C.sound lock.now }
    requires lowest { C.level lock.now ≡ 0 }
    requires job { IsJob C.Pass.rest (C.has lock.now) (C.level lock.now) (C.tag lock.now) job.share.caller job }
    ensures served { IsServed C.Pass.rest (C.has lock.now) (C.level lock.now) (C.tag lock.now) job.entry.share.caller result }
{
    if job.stopped {
        return job;
    }
    serve(rt, lock, gate, job)
}

// Serves the callers in their slots, in order, and puts their jobs into an empty list that has room for them.
fn serve_rest<'a, C: Waits<Book<'a>>, G: Gate, R: Wait>(
    rt: &R,
    lock: &C,
    gate: &G,
    roll: &Roll<'a, C::Pass>,
    slots: Vec<Option<Caller<'a, C::Pass>>>,
    jobs: Vec<Job<'a, C::Pass>>,
) -> Vec<Job<'a, C::Pass>>
    requires sound { C.sound lock.now }
    requires lowest { C.level lock.now ≡ 0 }
    requires roll { IsRoll (C.has lock.now) (C.level lock.now) (C.tag lock.now) (contexts_of C.Pass.rest roll.now.told.value.items) }
    requires own { AreOwn number_of tag_of (roll_tag (contexts_of C.Pass.rest roll.now.told.value.items)) slots.items }
    requires full { (x : ℕ) → x < length slots.items
        → IsFull number_of tag_of (roll_tag (contexts_of C.Pass.rest roll.now.told.value.items)) slots.items x }
    requires empty { jobs.items ≡ [] }
    requires room { length slots.items ≤ vec_capacity jobs }
    ensures many { length result.items ≡ length slots.entry.items }
    ensures each { (k : ℕ) (j : _) → slice_get result.items k ≡ Some j → IsServed C.Pass.rest (C.has lock.now) (C.level lock.now)
        (C.tag lock.now) k j }
{
    let mut jobs = jobs;
    for slot in slots {
        let Some(caller) = slot else { unreachable!() };
        let job = job_of(lock, roll, caller);
        jobs.push_reserved(serve_out(rt, lock, gate, job));
    }
    jobs
}

/// Closes the Cohorts of a run, serves what its callers have left, and has what comes back of all of them.
pub fn end_run<'a, C: Waits<Book<'a>>, G: Gate, R: Wait>(
    rt: &R,
    lock: &C,
    gate: &G,
    run: Run<'a, C::Pass>,
) -> Crew<C::Pass>
    requires sound { C.sound lock.now }
    requires lowest { C.level lock.now ≡ 0 }
    requires opened { IsOpen C.Pass.rest (C.has lock.now) (C.level lock.now) (C.count lock.now) (C.tag lock.now) run }
    ensures { IsCrew C.Pass.rest (C.has lock.now) (C.level lock.now) (C.count lock.now) (C.tag lock.now) result }
{
    let Run { roll, hall, lists } = run;
    let Lists {
        jobs,
        passes,
        shares,
        stopped,
    } = lists;
    let slots = close_all(&roll, rt, hall);
    let jobs = serve_rest(rt, lock, gate, &roll, slots, jobs);
    crew_of(lock, jobs, passes, shares, stopped)
}
