//! Jobs in a queue, and the seats of the threads that take them.
ghost use Rattle.std.specs.Prelude.{◌≡◌, ◌<◌, ◌≤◌, ◌+◌, ℕ, [], ◌∷◌, ◌++◌, All, None, Some, IfOk, IfErr, IfSome, length, map, slice_get};
ghost use Rattle.std.specs.Prelude.{vec_capacity};
ghost use Rattle.crossbeam_queue.specs.Passes.{view, IsPassOf, IsSamePass, ruled_capacity};
ghost use Rattle.cohort_queue.specs.Numbers.{AreDistinct, IsIn, IsNotIn, without};
ghost use Rattle.cohort_queue.specs.Jobs.{HaveOneTag, IsGiven, IsUnsplit, MayTag};
ghost use Rattle.cohort_queue.specs.Seats.{FoundEmpty, HasTag, cohort_state};
ghost use Rattle.cohort_queue.specs.States.{SeatState, IsSeatOf, AreAll, outs_of, new_seat};
ghost use Rattle.cohort_queue.specs.Steps.{with_given};
ghost use Rattle.cohort_queue.specs.Views.{first_view};

use crate::numbered::Numbered;
use crate::rest::Rest;
use crate::rule::{Give, Place, PutBack, Queue, SplitOff, Take, TakeOver};
use crate::seat::Seat;
use lock_rules::Refused;
use std::alloc::Global;
use std::marker::Model;
use std::snapshot::Snapshot;
use std::sync::Wait;

/// Jobs in a queue with room for all of them.
///
/// Contracts see the `numbers` of the jobs that it was made with, their `tag`, and how many seats it has.
#[derive(Drop)]
pub struct Cohort<J: Numbered> {
    queue: Queue<J>,
    told: Snapshot<Place<J>>,
}

impl<J: Numbered> Model for Cohort<J> {
    ghost use Rattle.std.specs.Coded.{codes};
    ghost use Rattle.lock_rules.specs.Tag.{tag_code};
    ghost use Rattle.cohort_queue.specs.Seats.{cohort_at, IsOpen};
    ghost use Rattle.cohort_queue.specs.States.{CohortState};

    ghost Value = { CohortState };

    ghost coded = { Prim.hlevel (codes, tag_code) };

    ghost view = { λ c. cohort_at c.told.value };

    ghost invariant = { λ c. IsOpen c.queue c.told.value };
}

impl<J: Numbered> Cohort<J> {
    /// Puts the jobs into a new queue, in order, and gives this many seats. It is refused for want of memory alone, and then the jobs come
    /// back.
    pub fn make<R: Wait>(
        rt: &R,
        alloc: Global,
        jobs: Vec<J>,
        seats: u32,
    ) -> Result<(Cohort<J>, Vec<Seat<J>>), Refused<Vec<J>>>
        requires some { 0 < length jobs.items }
        requires distinct { AreDistinct (map J.number jobs.items) }
        requires tag { HaveOneTag J.tag jobs.items }
        requires seats { 0 < seats }
        ensures numbers { IfOk result (λ made. made.0.numbers ≡ map J.number jobs.items) }
        ensures tag { IfOk result (λ made. All (λ j. J.tag j ≡ made.0.tag) jobs.items) }
        ensures count { IfOk result (λ made. made.0.seats ≡ seats) }
        ensures seats { IfOk result (λ made. AreAll made.0 made.1.items) }
        ensures none_out { IfOk result (λ made. All (λ s. s.outs ≡ []) made.1.items) }
        ensures refused { IfErr result (λ refused. refused.value ≡ jobs) }
    {
        let Ok((queue, first)) = Queue::ruled(alloc, jobs.len()) else {
            return Err(Refused { value: jobs });
        };
        let Ok(room) = Vec::with_capacity(alloc, seats as usize) else {
            return Err(Refused { value: jobs });
        };
        let mut first = give_all(rt, &queue, first, jobs);
        let mut list = split(&queue, &mut first, seats - 1, room);
        let told = Snapshot::of(&first);
        list.push_reserved(Seat { place: first });
        Ok((Cohort { queue, told }, list))
    }

    /// Takes the job that has waited longest. It is `None` only where the queue was empty at a moment of this call.
    pub fn take<R: Wait>(&self, rt: &R, seat: &mut Seat<J>) -> Option<J>
        requires seat { IsSeatOf self.now seat.old }
        ensures tagged { IfSome result (λ job. J.tag job ≡ self.now.tag) }
        ensures given { IfSome result (λ job. IsIn (J.number job) self.now.numbers) }
        ensures new { IfSome result (λ job. IsNotIn (J.number job) seat.old.outs) }
        ensures few { IfSome result (λ _. length seat.old.outs < length self.now.numbers) }
        ensures out { IfSome result (λ job. seat.new ≡ record seat.old { outs = seat.old.outs ++ J.number job ∷ [] }) }
        ensures same { result ≡ None → seat.new ≡ seat.old }
        ensures empty { result ≡ None → FoundEmpty J.number J.tag seat.old }
    {
        self.queue.pop_as::<Take, R>(rt, &mut seat.place)
    }

    /// Puts a job that the seat has out behind all others.
    pub fn put<R: Wait>(&self, rt: &R, seat: &mut Seat<J>, job: J)
        requires seat { IsSeatOf self.now seat.old }
        requires tagged { J.tag job ≡ self.now.tag }
        requires out { IsIn (J.number job) seat.old.outs }
        ensures back { seat.new ≡ record seat.old { outs = without (J.number job) seat.old.outs } }
    {
        let Ok(()) = self.queue.push_as::<PutBack, R>(rt, &mut seat.place, job) else {
            unreachable!()
        };
    }

    /// Takes all seats back, in the order in which `make` gave them. The answer hands out what is still in the queue.
    pub fn close(self, mut seats: Vec<Seat<J>>) -> Rest<J>
        requires all { AreAll self seats.items }
        ensures numbers { result.numbers ≡ self.numbers }
        ensures tag { result.tag ≡ self.tag }
        ensures outs { result.outs ≡ outs_of seats.items }
    {
        let Cohort { queue, told: _ } = self;
        let Some(seat) = seats.pop() else {
            unreachable!()
        };
        let Seat { place: mut first } = seat;
        while let Some(seat) = seats.pop() {
            let Seat { place } = seat;
            queue.absorb::<TakeOver>(&mut first, place);
        }
        Rest { queue, first }
    }
}

// Puts all jobs into a new queue, in order.
fn give_all<J: Numbered, R: Wait>(
    rt: &R,
    queue: &Queue<J>,
    mut first: Place<J>,
    jobs: Vec<J>,
) -> Place<J>
    requires queue { IsPassOf queue.now first × (first.id ≡ 0) }
    requires view { view first ≡ first_view }
    requires room { length jobs.items ≡ ruled_capacity queue.now }
    requires some { 0 < length jobs.items }
    requires distinct { AreDistinct (map J.number jobs.items) }
    requires tag { HaveOneTag J.tag jobs.items }
    ensures queue { IsSamePass first result }
    ensures given { IsGiven J.tag J.number jobs.items (view result) }
{
    for job in jobs {
        give(rt, queue, &mut first, job);
    }
    first
}

// Puts one more job into a new queue.
fn give<J: Numbered, R: Wait>(rt: &R, queue: &Queue<J>, first: &mut Place<J>, job: J)
    requires queue { IsPassOf queue.now first.old × (first.old.id ≡ 0) }
    requires alone { IsUnsplit (view first.old) }
    requires room { length (view first.old).given < ruled_capacity queue.now }
    requires new { IsNotIn (J.number job) (view first.old).given }
    requires tag { MayTag (view first.old) (J.tag job) }
    ensures queue { IsSamePass first.old first.new }
    ensures given { view first.new ≡ with_given (view first.old) (J.number job) (J.tag job) }
{
    let Ok(()) = queue.push_as::<Give, R>(rt, first, job) else {
        unreachable!()
    };
}

// Splits off this many seats, in a list that has room for one more.
fn split<J: Numbered>(
    queue: &Queue<J>,
    first: &mut Place<J>,
    seats: u32,
    room: Vec<Seat<J>>,
) -> Vec<Seat<J>>
    requires queue { IsPassOf queue.now first.old × (first.old.id ≡ 0) }
    requires alone { IsUnsplit (view first.old) }
    requires tag { HasTag (view first.old) }
    requires room { (room.items ≡ []) × (seats < vec_capacity room) }
    ensures queue { IsSamePass first.old first.new }
    ensures first { view first.new ≡ record (view first.old) { split = seats + 1 } }
    ensures count { length result.items ≡ seats }
    ensures room { seats < vec_capacity result }
    ensures each { (k : ℕ) (s : SeatState) → slice_get result.items k ≡ Some s
        → s ≡ new_seat (cohort_state first.old.table_id (view first.old)) k }
{
    let mut list = room;
    for _ in 0..seats {
        let place = queue.another::<SplitOff>(first);
        list.push_reserved(Seat { place });
    }
    list
}
