//! The Cohorts of a run: one for each home that has a job, with a place for each thread.
ghost use Rattle.std.specs.Prelude.{◌≡◌, ◌<◌, ◌≤◌, ◌+◌, ◌++◌, ◌∷◌, ◌^◌, [], ℕ, All, Some, length, map, slice_get, vec_capacity};
ghost use Rattle.cohort_queue.specs.Numbers.{AreDistinct};
ghost use Rattle.cohort_queue.specs.States.{AreAll};
ghost use Rattle.cohort_desks.specs.Changes.{HasChanged, HasPlaceMore};
ghost use Rattle.cohort_desks.specs.Desks.{AreDesks, HaveRoom};
ghost use Rattle.cohort_desks.specs.Halls.{HasRoomFor, IsCohortOf, IsHall, IsWhole};
ghost use Rattle.cohort_desks.specs.Slots.{AreFit};
ghost use Rattle.cohort_desks.specs.Makings.{IsMaking};

use crate::desk::{Desk, Place};
use crate::hall::Hall;
use crate::making::Making;
use crate::slots::{gather, put_all};
use crate::tells::Tells;
use cohort_queue::{Cohort, Numbered, Seat};
use std::alloc::Global;
use std::sync::Wait;

// One of the desks gets a place more.
fn add_place<J: Numbered>(desks: Vec<Desk<J>>, at: usize, place: Place<J>) -> Vec<Desk<J>>
    requires at { at < length desks.items }
    requires room { (d : _) → slice_get desks.items at ≡ Some d → length d.places.items < vec_capacity d.places }
    ensures { HasChanged (HasPlaceMore place) desks.items result.items at }
{
    let mut desks = desks;
    desks[at].places.push_reserved(place);
    desks
}

// A place at a new Cohort for each thread, behind its places at those before, and the emptied list of the seats.
fn sit<J: Numbered>(
    _cohorts: &[Cohort<J>],
    _cohort: &Cohort<J>,
    desks: Vec<Desk<J>>,
    seats: Vec<Seat<J>>,
    lists: Vec<Vec<J>>,
) -> (Vec<Desk<J>>, Vec<Seat<J>>)
    requires desks { AreDesks J.number J.tag _cohorts.now _cohort.now.seats desks.items }
    requires room { HaveRoom (length _cohorts.now + 1) desks.items }
    requires seats { AreAll _cohort.now seats.items }
    requires none_out { All (λ s. s.outs ≡ []) seats.items }
    requires many { length lists.items ≡ _cohort.now.seats }
    requires lists { (i : ℕ) (v : _) → slice_get lists.items i ≡ Some v
        → (v.items ≡ []) × (length _cohort.now.numbers ≤ vec_capacity v) }
    ensures desks { AreDesks J.number J.tag (_cohorts.now ++ _cohort.now ∷ []) _cohort.now.seats result.0.items }
    ensures room { (room : ℕ) → HaveRoom room desks.items → HaveRoom room result.0.items }
    ensures emptied { result.1.items ≡ [] }
    ensures seats_room { _cohort.now.seats ≤ vec_capacity result.1 }
{
    let mut desks = desks;
    let mut seats = seats;
    let mut lists = lists;
    while let Some(seat) = seats.pop() {
        let Some(kept) = lists.pop() else {
            unreachable!()
        };
        desks = add_place(desks, seats.len(), Place { seat, kept });
    }
    (desks, seats)
}

// A hall with a new Cohort, to which the jobs were given that are missing.
fn with_cohort<J: Numbered, T: Tells>(_roll: &T, hall: Hall<J>, making: Making<J>) -> Hall<J>
    requires hall { IsHall J.number J.tag (T.told _roll.now) making.cohort.numbers hall }
    requires room { HasRoomFor (length hall.cohorts.items + 1) hall }
    requires cohort { IsCohortOf (T.told _roll.now) (length hall.slots.items) (length hall.desks.items) making.cohort }
    requires making { IsMaking (length hall.desks.items) making }
    ensures hall { IsHall J.number J.tag (T.told _roll.now) [] result }
    ensures room { (room : ℕ) → HasRoomFor room hall → HasRoomFor room result }
    ensures slots { result.slots ≡ hall.slots }
    ensures many { length result.desks.items ≡ length hall.desks.items }
    ensures one_more { length result.cohorts.items ≡ length hall.cohorts.items + 1 }
{
    let Hall {
        mut cohorts,
        desks,
        mut emptied,
        slots,
    } = hall;
    let Making {
        cohort,
        seats,
        lists,
    } = making;
    let (desks, seats) = sit(&cohorts, &cohort, desks, seats, lists);
    cohorts.push_reserved(cohort);
    emptied.push_reserved(seats);
    Hall {
        cohorts,
        desks,
        emptied,
        slots,
    }
}

// A hall with the jobs that are missing in their slots again.
fn with_jobs<J: Numbered, T: Tells>(_roll: &T, hall: Hall<J>, jobs: Vec<J>) -> Hall<J>
    requires hall { IsHall J.number J.tag (T.told _roll.now) (map J.number jobs.items) hall }
    requires fit { AreFit J.number J.tag (T.told _roll.now) (length hall.slots.items) jobs.items }
    ensures hall { IsHall J.number J.tag (T.told _roll.now) [] result }
    ensures room { (room : ℕ) → HasRoomFor room hall → HasRoomFor room result }
    ensures slots { length result.slots.items ≡ length hall.slots.items }
    ensures many { length result.desks.items ≡ length hall.desks.items }
    ensures as_many { length result.cohorts.items ≡ length hall.cohorts.items }
{
    let Hall {
        cohorts,
        desks,
        emptied,
        slots,
    } = hall;
    let slots = put_all(slots, jobs);
    Hall {
        cohorts,
        desks,
        emptied,
        slots,
    }
}

// Makes a Cohort of the jobs that are missing. Without memory for it they go back into their slots.
fn add_cohort<J: Numbered, T: Tells, R: Wait>(
    roll: &T,
    rt: &R,
    alloc: Global,
    hall: Hall<J>,
    jobs: Vec<J>,
    threads: u32,
) -> Hall<J>
    requires hall { IsHall J.number J.tag (T.told roll.now) (map J.number jobs.items) hall }
    requires room { HasRoomFor (length hall.cohorts.items + 1) hall }
    requires fit { AreFit J.number J.tag (T.told roll.now) (length hall.slots.items) jobs.items }
    requires some { 0 < length jobs.items }
    requires distinct { AreDistinct (map J.number jobs.items) }
    requires many { threads ≡ length hall.desks.items }
    requires threads { 0 < threads }
    ensures hall { IsHall J.number J.tag (T.told roll.now) [] result }
    ensures room { (room : ℕ) → HasRoomFor room hall → HasRoomFor room result }
    ensures slots { length result.slots.items ≡ length hall.slots.items }
    ensures many { length result.desks.items ≡ length hall.desks.items }
    ensures few { length result.cohorts.items ≤ length hall.cohorts.items + 1 }
{
    match Making::new(rt, alloc, jobs, threads) {
        Ok(making) => with_cohort(roll, hall, making),
        Err(refused) => with_jobs(roll, hall, refused.value),
    }
}

// A hall without the jobs of a home, which are in a list of their own.
fn without_home<J: Numbered, T: Tells>(
    _roll: &T,
    hall: Hall<J>,
    homes: &[u32],
    node: usize,
    list: Vec<J>,
) -> (Hall<J>, Vec<J>)
    requires hall { IsHall J.number J.tag (T.told _roll.now) [] hall }
    requires homes { length homes.now ≡ length hall.slots.items }
    requires empty { list.items ≡ [] }
    requires list_room { length homes.now ≤ vec_capacity list }
    ensures hall { IsHall J.number J.tag (T.told _roll.now) (map J.number result.1.items) result.0 }
    ensures fit { AreFit J.number J.tag (T.told _roll.now) (length result.0.slots.items) result.1.items }
    ensures distinct { AreDistinct (map J.number result.1.items) }
    ensures room { (room : ℕ) → HasRoomFor room hall → HasRoomFor room result.0 }
    ensures slots { length result.0.slots.items ≡ length hall.slots.items }
    ensures many { length result.0.desks.items ≡ length hall.desks.items }
    ensures as_many { length result.0.cohorts.items ≡ length hall.cohorts.items }
{
    let Hall {
        cohorts,
        desks,
        emptied,
        slots,
    } = hall;
    let (slots, jobs) = gather(slots, homes, node, list);
    let hall = Hall {
        cohorts,
        desks,
        emptied,
        slots,
    };
    (hall, jobs)
}

// Makes the Cohort of a home, where it has a job.
fn deal_home<J: Numbered, T: Tells, R: Wait>(
    roll: &T,
    rt: &R,
    alloc: Global,
    hall: Hall<J>,
    homes: &[u32],
    node: usize,
    threads: u32,
) -> Hall<J>
    requires hall { IsHall J.number J.tag (T.told roll.now) [] hall }
    requires room { HasRoomFor (length hall.cohorts.items + 1) hall }
    requires homes { length homes.now ≡ length hall.slots.items }
    requires many { threads ≡ length hall.desks.items }
    requires threads { 0 < threads }
    ensures hall { IsHall J.number J.tag (T.told roll.now) [] result }
    ensures room { (room : ℕ) → HasRoomFor room hall → HasRoomFor room result }
    ensures slots { length result.slots.items ≡ length hall.slots.items }
    ensures many { length result.desks.items ≡ length hall.desks.items }
    ensures few { length result.cohorts.items ≤ length hall.cohorts.items + 1 }
{
    let Ok(list) = Vec::with_capacity(alloc, homes.len()) else {
        return hall;
    };
    let (hall, jobs) = without_home(roll, hall, homes, node, list);
    if jobs.is_empty() {
        return with_jobs(roll, hall, jobs);
    }
    add_cohort(roll, rt, alloc, hall, jobs, threads)
}

/// Makes a Cohort of the jobs of each home that has one, in ascending order, with a place for each thread. The jobs of a home for whose
/// Cohort there is no memory stay in their slots.
pub fn deal<J: Numbered, T: Tells, R: Wait>(
    roll: &T,
    rt: &R,
    alloc: Global,
    hall: Hall<J>,
    homes: &[u32],
    threads: u32,
) -> Hall<J>
    requires hall { IsWhole J.number J.tag (T.told roll.now) hall }
    requires no_cohort { length hall.cohorts.items ≡ 0 }
    requires room { HasRoomFor (length homes.now) hall }
    requires homes { length homes.now ≡ length hall.slots.items }
    requires many { threads ≡ length hall.desks.items }
    requires threads { 0 < threads }
    ensures hall { IsWhole J.number J.tag (T.told roll.now) result }
    ensures slots { length result.slots.items ≡ length hall.slots.items }
    ensures many { length result.desks.items ≡ length hall.desks.items }
{
    let mut hall = hall;
    for node in 0..homes.len() {
        hall = deal_home(roll, rt, alloc, hall, homes, node, threads);
    }
    hall
}
