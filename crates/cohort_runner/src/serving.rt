//! What one thread does: it goes round the Cohorts, takes the caller that has waited longest, and serves some of its commands.
ghost use Rattle.std.specs.Prelude.{◌≡◌, ◌<◌, ◌≤◌, IfNone, IfSome, Some, length, slice_get, true};
ghost use Rattle.cohort_desks.specs.Desks.{HasTakenAt, IsDesk};
ghost use Rattle.cohort_runner.specs.Callers.{IsCaller};
ghost use Rattle.cohort_runner.specs.Rolls.{IsRoll, contexts_of, roll_tag};
ghost use Rattle.cohort_runner.specs.Runs.{HasSat, MaySit, number_of, tag_of};
ghost use Rattle.threaded_runner.specs.Jobs.{IsJob};

use crate::caller::Caller;
use crate::roll::Roll;
use clof_compose::{Composed, Resting, Waits};
use cohort_desks::{Desk, settle_at, take_from};
use cohort_queue::Cohort;
use run_texts::Gate;
use std::sync::Wait;
use threaded_runner::{Book, Job, give_next};

// Whether a caller has commands left and didn't stop.
fn goes_on<Q>(job: &Job<'_, Q>) -> bool
    ensures { result ≡ true → job.now.share.made < job.now.share.quota }
{
    !job.stopped && job.share.may_turn()
}

// Serves up to so many commands of a caller.
fn give_some<'a, C: Waits<Book<'a>>, G: Gate, R: Wait>(
    rt: &R,
    lock: &C,
    gate: &G,
    job: Job<'a, C::Pass>,
    quantum: u32,
) -> Job<'a, C::Pass>
    requires sound { C.sound lock.now }
    requires lowest { C.level lock.now ≡ 0 }
    requires job { IsJob C.Pass.rest (C.has lock.now) (C.level lock.now) (C.tag lock.now) job.share.caller job }
    ensures job { IsJob C.Pass.rest (C.has lock.now) (C.level lock.now) (C.tag lock.now) job.entry.share.caller result }
    ensures pass { (C.Pass.rest result.pass).context ≡ (C.Pass.rest job.entry.pass).context }
{
    let mut job = job;
    for _ in 0..quantum {
        if !goes_on(&job) {
            return job;
        }
        job = give_next(rt, lock, gate, job);
    }
    job
}

/// The job of a caller on the roll of a lock's callers.
pub(crate) fn job_of<'a, C: Composed<Book<'a>>>(
    _lock: &C,
    _roll: &Roll<'a, C::Pass>,
    caller: Caller<'a, C::Pass>,
) -> Job<'a, C::Pass>
    requires roll { IsRoll (C.has _lock.now) (C.level _lock.now) (C.tag _lock.now) (contexts_of C.Pass.rest _roll.now.told.value.items) }
    requires caller { caller.tag ≡ roll_tag (contexts_of C.Pass.rest _roll.now.told.value.items) }
    ensures job { IsJob C.Pass.rest (C.has _lock.now) (C.level _lock.now) (C.tag _lock.now) caller.entry.number result }
    ensures at { slice_get (contexts_of C.Pass.rest _roll.now.told.value.items) caller.entry.number
        ≡ Some (C.Pass.rest result.pass).context }
    ensures number { result.share.caller ≡ caller.entry.number }
    ensures own { IsJob C.Pass.rest (C.has _lock.now) (C.level _lock.now) (C.tag _lock.now) result.share.caller result }
    ensures placed { slice_get (contexts_of C.Pass.rest _roll.now.told.value.items) result.share.caller
        ≡ Some (C.Pass.rest result.pass).context }
{
    let (job, _) = caller.into_parts();
    job
}

// The caller with this job, which is that of the caller with its number on the roll.
fn caller_of<'a, C: Composed<Book<'a>>>(
    _lock: &C,
    roll: &Roll<'a, C::Pass>,
    job: Job<'a, C::Pass>,
) -> Caller<'a, C::Pass>
    requires job { IsJob C.Pass.rest (C.has _lock.now) (C.level _lock.now) (C.tag _lock.now) job.share.caller job }
    requires at { slice_get (contexts_of C.Pass.rest roll.now.told.value.items) job.share.caller ≡ Some (C.Pass.rest job.pass).context }
    ensures number { result.number ≡ job.entry.share.caller }
    ensures tag { result.tag ≡ roll_tag (contexts_of C.Pass.rest roll.now.told.value.items) }
{
    Caller::on(roll, job)
}

// Serves up to so many commands of the job of a caller on the roll, which it stays.
fn serve_job<'a, C: Waits<Book<'a>>, G: Gate, R: Wait>(
    rt: &R,
    lock: &C,
    gate: &G,
    _roll: &Roll<'a, C::Pass>,
    job: Job<'a, C::Pass>,
    quantum: u32,
) -> Job<'a, C::Pass>
    requires sound { C.sound lock.now }
    requires lowest { C.level lock.now ≡ 0 }
    requires job { IsJob C.Pass.rest (C.has lock.now) (C.level lock.now) (C.tag lock.now) job.share.caller job }
    requires at { slice_get (contexts_of C.Pass.rest _roll.now.told.value.items) job.share.caller ≡ Some (C.Pass.rest job.pass).context }
    ensures job { IsJob C.Pass.rest (C.has lock.now) (C.level lock.now) (C.tag lock.now) result.share.caller result }
    ensures at { slice_get (contexts_of C.Pass.rest _roll.now.told.value.items) result.share.caller
        ≡ Some (C.Pass.rest result.pass).context }
    ensures number { result.share.caller ≡ job.entry.share.caller }
{
    give_some(rt, lock, gate, job, quantum)
}

// Serves up to so many commands of a caller on the roll. The answer has the caller, and whether it has commands left and didn't stop.
fn serve_some<'a, C: Waits<Book<'a>>, G: Gate, R: Wait>(
    rt: &R,
    lock: &C,
    gate: &G,
    roll: &Roll<'a, C::Pass>,
    caller: Caller<'a, C::Pass>,
    quantum: u32,
) -> (Caller<'a, C::Pass>, bool)
    requires sound { C.sound lock.now }
    requires lowest { C.level lock.now ≡ 0 }
    requires roll { IsRoll (C.has lock.now) (C.level lock.now) (C.tag lock.now) (contexts_of C.Pass.rest roll.now.told.value.items) }
    requires caller { caller.tag ≡ roll_tag (contexts_of C.Pass.rest roll.now.told.value.items) }
    ensures number { result.0.number ≡ caller.entry.number }
    ensures tag { result.0.tag ≡ caller.entry.tag }
{
    let job = job_of(lock, roll, caller);
    let job = serve_job(rt, lock, gate, roll, job, quantum);
    let more = goes_on(&job);
    (caller_of(lock, roll, job), more)
}

// Takes the caller that has waited longest at one of the Cohorts, which is one on the roll.
fn take<'a, C: Composed<Book<'a>>, R: Wait>(
    rt: &R,
    _lock: &C,
    _roll: &Roll<'a, C::Pass>,
    cohorts: &[Cohort<Caller<'a, C::Pass>>],
    desk: &mut Desk<Caller<'a, C::Pass>>,
    at: usize,
) -> Option<Caller<'a, C::Pass>>
    requires may { MaySit (C.has _lock.now) (C.level _lock.now) (C.tag _lock.now) (C.sound _lock.now)
        (contexts_of C.Pass.rest _roll.now.told.value.items) cohorts.now desk.old }
    requires at { at < length cohorts.now }
    ensures number { desk.new.number ≡ desk.old.number }
    ensures taken { IfSome result (λ c. HasTakenAt number_of tag_of cohorts.now desk.new at c.number c.tag) }
    ensures tag { IfSome result (λ c. c.tag ≡ roll_tag (contexts_of C.Pass.rest _roll.now.told.value.items)) }
    ensures none { IfNone result (IsDesk number_of tag_of cohorts.now desk.new) }
{
    let Some(caller) = take_from(rt, cohorts, desk, at) else {
        return None;
    };
    Some(caller)
}

// Serves the caller that has waited longest at one of the Cohorts, and puts it back behind all others there if it goes on. The answer has
// the desk, and whether a caller was there.
fn visit<'a, C: Waits<Book<'a>>, G: Gate, R: Wait>(
    rt: &R,
    lock: &C,
    gate: &G,
    roll: &Roll<'a, C::Pass>,
    cohorts: &[Cohort<Caller<'a, C::Pass>>],
    desk: Desk<Caller<'a, C::Pass>>,
    at: usize,
    quantum: u32,
) -> (Desk<Caller<'a, C::Pass>>, bool)
    requires may { MaySit (C.has lock.now) (C.level lock.now) (C.tag lock.now) (C.sound lock.now)
        (contexts_of C.Pass.rest roll.now.told.value.items) cohorts.now desk }
    requires at { at < length cohorts.now }
    ensures sat { HasSat cohorts.now desk.entry result.0 }
    ensures may { MaySit (C.has lock.now) (C.level lock.now) (C.tag lock.now) (C.sound lock.now)
        (contexts_of C.Pass.rest roll.now.told.value.items) cohorts.now result.0 }
{
    let mut desk = desk;
    let Some(caller) = take(rt, lock, roll, cohorts, &mut desk, at) else {
        return (desk, false);
    };
    let (caller, more) = serve_some(rt, lock, gate, roll, caller, quantum);
    settle_at(rt, cohorts, &mut desk, at, caller, more);
    (desk, true)
}

// Where a thread goes next, of so many Cohorts, and how many in a row had no caller: where it found one it stays, and else it goes on to
// the next, round about.
fn onward(at: usize, empty: usize, found: bool, count: usize) -> (usize, usize)
    requires at { at < count }
    requires empty { empty < count }
    ensures at { result.0 < count }
    ensures empty { result.1 ≤ count }
{
    if found {
        return (at, 0);
    }
    if at + 1 < count {
        return (at + 1, empty + 1);
    }
    (0, empty + 1)
}

/// What one thread does at its desk. It begins at the Cohort with the desk's number, modulo their number. There it serves the caller that
/// has waited longest, up to `quantum` commands, and puts it back behind all others unless it has no command left or was refused memory.
/// Where it finds no caller it goes to the next Cohort, round about, and it ends when each Cohort in turn had none.
pub fn serve_desk<'a, C: Waits<Book<'a>>, G: Gate, R: Wait>(
    rt: &R,
    lock: &C,
    gate: &G,
    roll: &Roll<'a, C::Pass>,
    cohorts: &[Cohort<Caller<'a, C::Pass>>],
    desk: Desk<Caller<'a, C::Pass>>,
    quantum: u32,
) -> Desk<Caller<'a, C::Pass>>
    requires may { MaySit (C.has lock.now) (C.level lock.now) (C.tag lock.now) (C.sound lock.now)
        (contexts_of C.Pass.rest roll.now.told.value.items) cohorts.now desk }
    ensures sat { HasSat cohorts.now desk.entry result }
{
    if cohorts.is_empty() {
        return desk;
    }
    let mut at = desk.number as usize % cohorts.len();
    let mut desk = desk;
    let mut empty = 0;
    for _ in rt.forever() {
        let (left, found) = visit(rt, lock, gate, roll, cohorts, desk, at, quantum);
        desk = left;
        (at, empty) = onward(at, empty, found, cohorts.len());
        if empty == cohorts.len() {
            return desk;
        }
    }
    unreachable!()
}
