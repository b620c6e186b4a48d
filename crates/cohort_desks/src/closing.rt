//! Cohorts are taken apart, and each job comes back into its slot.
ghost use Rattle.std.specs.Prelude.{◌≡◌, ◌<◌, ◌≤◌, ◌+◌, ◌++◌, ◌∷◌, ◌⊎◌, [], ℕ, Some, length, slice_get, vec_capacity};
ghost use Rattle.cohort_queue.specs.Numbers.{IsIn};
ghost use Rattle.cohort_queue.specs.States.{AreAll, outs_of};
ghost use Rattle.cohort_desks.specs.Changes.{HasChanged, HasPlaceLess};
ghost use Rattle.cohort_desks.specs.Desks.{AreDesks};
ghost use Rattle.cohort_desks.specs.Halls.{IsCohortOf, IsHall, IsWhole};
ghost use Rattle.cohort_desks.specs.Slots.{AreOwn, IsFull};

use crate::desk::{Desk, Place};
use crate::hall::Hall;
use crate::slots::{put_all, put_one};
use crate::tells::Tells;
use cohort_queue::{Cohort, Numbered, Rest, Seat};
use std::sync::Wait;

// One of the desks leaves its last place.
fn leave_place<J: Numbered>(desks: Vec<Desk<J>>, at: usize) -> (Vec<Desk<J>>, Place<J>)
    requires at { at < length desks.items }
    requires some { (d : _) → slice_get desks.items at ≡ Some d → 0 < length d.places.items }
    ensures { HasChanged (HasPlaceLess result.1) desks.items result.0.items at }
{
    let mut desks = desks;
    let Some(place) = desks[at].places.pop() else {
        unreachable!()
    };
    (desks, place)
}

// All threads leave their last place, and the jobs that they kept there go into their slots. The answer has the desks, the seats, in order,
// and the slots.
fn rise<J: Numbered>(
    _cohorts: &[Cohort<J>],
    _cohort: &Cohort<J>,
    desks: Vec<Desk<J>>,
    seats: Vec<Seat<J>>,
    slots: Vec<Option<J>>,
) -> (Vec<Desk<J>>, Vec<Seat<J>>, Vec<Option<J>>)
    requires desks { AreDesks J.number J.tag (_cohorts.now ++ _cohort.now ∷ []) (length desks.items) desks.items }
    requires cohort { IsCohortOf _cohort.now.tag (length slots.items) (length desks.items) _cohort.now }
    requires empty { seats.items ≡ [] }
    requires room { length desks.items ≤ vec_capacity seats }
    requires own { AreOwn J.number J.tag _cohort.now.tag slots.items }
    ensures desks { AreDesks J.number J.tag _cohorts.now (length desks.items) result.0.items }
    ensures seats { AreAll _cohort.now result.1.items }
    ensures slots_many { length result.2.items ≡ length slots.items }
    ensures own { AreOwn J.number J.tag _cohort.now.tag result.2.items }
    ensures there { (x : ℕ) → IsFull J.number J.tag _cohort.now.tag slots.items x ⊎ IsIn x (outs_of result.1.items)
        → IsFull J.number J.tag _cohort.now.tag result.2.items x }
{
    let mut desks = desks;
    let mut seats = seats;
    let mut slots = slots;
    for at in 0..desks.len() {
        let (left, place) = leave_place(desks, at);
        let Place { seat, kept } = place;
        desks = left;
        slots = put_all(slots, kept);
        seats.push_reserved(seat);
    }
    (desks, seats, slots)
}

// Puts what is left in the queue of a Cohort into the slots.
fn drain<J: Numbered, R: Wait>(rt: &R, rest: Rest<J>, slots: Vec<Option<J>>) -> Vec<Option<J>>
    requires within { (x : ℕ) → IsIn x rest.numbers → x < length slots.items }
    requires outs { (x : ℕ) → IsIn x rest.outs → IsFull J.number J.tag rest.tag slots.items x }
    requires own { AreOwn J.number J.tag rest.tag slots.items }
    ensures slots_many { length result.items ≡ length slots.items }
    ensures own { AreOwn J.number J.tag rest.tag result.items }
    ensures kept { (x : ℕ) → IsFull J.number J.tag rest.tag slots.items x → IsFull J.number J.tag rest.tag result.items x }
    ensures all { (x : ℕ) → IsIn x rest.numbers → IsFull J.number J.tag rest.tag result.items x }
{
    let mut rest = rest;
    let mut slots = slots;
    for _ in rt.forever() {
        let Some(job) = rest.next(rt) else {
            return slots;
        };
        slots = put_one(slots, job);
    }
    unreachable!()
}

// Takes a hall's last Cohort apart.
fn close_last<J: Numbered, R: Wait>(
    rt: &R,
    cohorts: &[Cohort<J>],
    cohort: Cohort<J>,
    desks: Vec<Desk<J>>,
    seats: Vec<Seat<J>>,
    slots: Vec<Option<J>>,
) -> (Vec<Desk<J>>, Vec<Option<J>>)
    requires desks { AreDesks J.number J.tag (cohorts.now ++ cohort ∷ []) (length desks.items) desks.items }
    requires cohort { IsCohortOf cohort.tag (length slots.items) (length desks.items) cohort }
    requires empty { seats.items ≡ [] }
    requires room { length desks.items ≤ vec_capacity seats }
    requires own { AreOwn J.number J.tag cohort.tag slots.items }
    ensures desks { AreDesks J.number J.tag cohorts.now (length desks.items) result.0.items }
    ensures slots_many { length result.1.items ≡ length slots.items }
    ensures own { AreOwn J.number J.tag cohort.tag result.1.items }
    ensures there { (x : ℕ) → IsFull J.number J.tag cohort.tag slots.items x ⊎ IsIn x cohort.numbers
        → IsFull J.number J.tag cohort.tag result.1.items x }
{
    let (desks, seats, slots) = rise(cohorts, &cohort, desks, seats, slots);
    let rest = cohort.close(seats);
    let slots = drain(rt, rest, slots);
    (desks, slots)
}

// A hall without its last Cohort.
fn close_one<J: Numbered, T: Tells, R: Wait>(_roll: &T, rt: &R, hall: Hall<J>) -> Hall<J>
    requires hall { IsHall J.number J.tag (T.told _roll.now) [] hall }
    requires some { 0 < length hall.cohorts.items }
    ensures hall { IsHall J.number J.tag (T.told _roll.now) [] result }
    ensures slots { length result.slots.items ≡ length hall.slots.items }
    ensures fewer { length result.cohorts.items + 1 ≡ length hall.cohorts.items }
{
    let Hall {
        mut cohorts,
        desks,
        mut emptied,
        slots,
    } = hall;
    let Some(cohort) = cohorts.pop() else {
        unreachable!()
    };
    let Some(seats) = emptied.pop() else {
        unreachable!()
    };
    let (desks, slots) = close_last(rt, &cohorts, cohort, desks, seats, slots);
    Hall {
        cohorts,
        desks,
        emptied,
        slots,
    }
}

/// Takes all Cohorts apart. The answer has each job in its slot.
pub fn close_all<J: Numbered, T: Tells, R: Wait>(roll: &T, rt: &R, hall: Hall<J>) -> Vec<Option<J>>
    requires hall { IsWhole J.number J.tag (T.told roll.now) hall }
    ensures many { length result.items ≡ length hall.slots.items }
    ensures own { AreOwn J.number J.tag (T.told roll.now) result.items }
    ensures full { (x : ℕ) → x < length hall.slots.items → IsFull J.number J.tag (T.told roll.now) result.items x }
{
    let mut hall = hall;
    for _ in 0..hall.cohorts.len() {
        hall = close_one(roll, rt, hall);
    }
    let Hall { slots, .. } = hall;
    slots
}
