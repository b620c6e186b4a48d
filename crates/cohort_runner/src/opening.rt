//! How a run begins: its callers are dealt to Cohorts.
ghost use Rattle.std.specs.Prelude.{◌≡◌, ◌<◌, ◌≤◌, ◌++◌, ◌∷◌, ℕ, [], IfErr, IfOk, IfSome, Some, length, map, slice_get, vec_capacity};
ghost use Rattle.clof_compose.specs.Courses.{course_of};
ghost use Rattle.clof_compose.specs.Passes.{AreAll};
ghost use Rattle.cohort_desks.specs.Halls.{HasRoomFor, IsEmpty};
ghost use Rattle.cohort_desks.specs.Slots.{AreOwn, IsFull};
ghost use Rattle.cohort_runner.specs.Callers.{IsCaller};
ghost use Rattle.cohort_runner.specs.Rolls.{contexts_of, roll_tag};
ghost use Rattle.cohort_runner.specs.Runs.{IsOpen, number_of, tag_of};
ghost use Rattle.threaded_runner.specs.Crews.{HasRoom, IsCrew};
ghost use Rattle.threaded_runner.specs.Jobs.{IsJob};
ghost use Rattle.threaded_runner.specs.Ready.{IsDealt};

use crate::caller::Caller;
use crate::roll::Roll;
use crate::run::{Lists, Run};
use clof_compose::{Composed, Resting};
use cohort_desks::{Hall, deal, empty_hall, seat};
use keep_local::Share;
use run_texts::Section;
use std::alloc::Global;
use std::sync::Wait;
use threaded_runner::{Book, Crew, Job, Prepared, not_started, prepare};

// An empty hall and an empty list of slots, with room for so many callers; none for want of memory.
fn rooms<'a, Q: Resting>(
    alloc: Global,
    _jobs: &[Section<'a>],
    count: usize,
    threads: u32,
) -> Option<(Hall<Caller<'a, Q>>, Vec<Option<Caller<'a, Q>>>)>
    ensures empty { IfSome result (λ made. IsEmpty number_of tag_of made.0) }
    ensures many { IfSome result (λ made. length made.0.desks.items ≡ threads) }
    ensures room { IfSome result (λ made. HasRoomFor count made.0) }
    ensures no_slot { IfSome result (λ made. made.1.items ≡ []) }
    ensures slots_room { IfSome result (λ made. count ≤ vec_capacity made.1) }
{
    let hall = empty_hall(alloc, count, threads)?;
    let slots = Vec::with_capacity(alloc, count).ok()?;
    Some((hall, slots))
}

// Adds a slot with a caller.
fn with_slot<'a, Q: Resting>(
    slots: Vec<Option<Caller<'a, Q>>>,
    caller: Caller<'a, Q>,
) -> Vec<Option<Caller<'a, Q>>>
    requires room { length slots.items < vec_capacity slots }
    ensures more { result.items ≡ slots.entry.items ++ Some caller.entry ∷ [] }
    ensures room { vec_capacity result ≡ vec_capacity slots.entry }
{
    let mut slots = slots;
    slots.push_reserved(Some(caller));
    slots
}

// A slot with a caller for each job, in order, and the emptied list of the jobs.
fn seat_all<'a, Q: Resting>(
    roll: &Roll<'a, Q>,
    jobs: Vec<Job<'a, Q>>,
    slots: Vec<Option<Caller<'a, Q>>>,
) -> (Vec<Option<Caller<'a, Q>>>, Vec<Job<'a, Q>>)
    requires jobs { (k : ℕ) (j : _) → slice_get jobs.items k ≡ Some j
        → IsCaller Q.rest (contexts_of Q.rest roll.now.told.value.items) j × (j.share.caller ≡ k) }
    requires empty { slots.items ≡ [] }
    requires room { length jobs.items ≤ vec_capacity slots }
    ensures many { length result.0.items ≡ length jobs.entry.items }
    ensures own { AreOwn number_of tag_of (roll_tag (contexts_of Q.rest roll.now.told.value.items)) result.0.items }
    ensures full { (x : ℕ) → x < length result.0.items
        → IsFull number_of tag_of (roll_tag (contexts_of Q.rest roll.now.told.value.items)) result.0.items x }
    ensures no_jobs { result.1.items ≡ [] }
    ensures jobs_room { vec_capacity result.1 ≡ vec_capacity jobs.entry }
{
    let mut jobs = jobs;
    let mut slots = slots;
    while let Some(job) = jobs.pop() {
        slots = with_slot(slots, Caller::on(roll, job));
    }
    slots.reverse();
    (slots, jobs)
}

// Deals the callers of prepared jobs.
fn begin<'a, C: Composed<Book<'a>>, R: Wait>(
    rt: &R,
    alloc: Global,
    _lock: &C,
    prepared: Prepared<'a, C::Pass>,
    hall: Hall<Caller<'a, C::Pass>>,
    slots: Vec<Option<Caller<'a, C::Pass>>>,
    homes: &[u32],
    threads: u32,
) -> Run<'a, C::Pass>
    requires each { (k : ℕ) (j : _) → slice_get prepared.jobs.items k ≡ Some j
        → IsJob C.Pass.rest (C.has _lock.now) (C.level _lock.now) (C.tag _lock.now) k j }
    requires many { length prepared.jobs.items ≡ C.count _lock.now }
    requires lists { HasRoom (C.count _lock.now) prepared.passes prepared.shares prepared.stopped }
    requires empty { IsEmpty number_of tag_of hall }
    requires desks { length hall.desks.items ≡ threads }
    requires room { HasRoomFor (length homes.now) hall }
    requires no_slot { slots.items ≡ [] }
    requires slots_room { length homes.now ≤ vec_capacity slots }
    requires homes { length homes.now ≡ C.count _lock.now }
    requires threads { 0 < threads }
    ensures opened { IsOpen C.Pass.rest (C.has _lock.now) (C.level _lock.now) (C.count _lock.now) (C.tag _lock.now) result }
{
    let Prepared {
        jobs,
        passes,
        shares,
        stopped,
    } = prepared;
    let roll = Roll::of(&jobs);
    let (slots, jobs) = seat_all(&roll, jobs, slots);
    let hall = deal(&roll, rt, alloc, seat(&roll, hall, slots), homes, threads);
    let lists = Lists {
        jobs,
        passes,
        shares,
        stopped,
    };
    Run { roll, hall, lists }
}

/// Makes a run of a lock's callers and deals each to the Cohort of its home, with a place at each Cohort for each of so many threads.
/// Without memory for it, it gives back what a run gives back that didn't start.
pub fn open_run<'a, C: Composed<Book<'a>>, R: Wait>(
    rt: &R,
    alloc: Global,
    lock: &C,
    passes: Vec<C::Pass>,
    shares: Vec<Share>,
    sections: &[Section<'a>],
    homes: &[u32],
    threads: u32,
) -> Result<Run<'a, C::Pass>, Crew<C::Pass>>
    requires passes { AreAll (λ p. (C.Pass.rest p).context) (C.has lock.now) (C.level lock.now) (C.tag lock.now) (C.count lock.now)
        passes.items }
    requires count { C.count lock.now ≡ length sections.now }
    requires dealt { IsDealt (course_of (C.tag lock.now)) (map (λ section. section.bytes.now) sections.now) shares.items }
    requires homes { length homes.now ≡ length sections.now }
    requires threads { 0 < threads }
    ensures opened { IfOk result (IsOpen C.Pass.rest (C.has lock.now) (C.level lock.now) (C.count lock.now) (C.tag lock.now)) }
    ensures refused { IfErr result (λ crew. IsCrew C.Pass.rest (C.has lock.now) (C.level lock.now) (C.count lock.now) (C.tag lock.now)
        crew) }
{
    let Some((hall, slots)) = rooms::<C::Pass>(alloc, sections, homes.len(), threads) else {
        return Err(not_started(alloc, lock, passes, shares, sections));
    };
    match prepare(alloc, lock, passes, shares, sections) {
        Ok(prepared) => Ok(begin(rt, alloc, lock, prepared, hall, slots, homes, threads)),
        Err(crew) => Err(crew),
    }
}
