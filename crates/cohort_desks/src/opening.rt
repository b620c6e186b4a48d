//! The memory of a run, before any Cohort is made.
ghost use Rattle.std.specs.Prelude.{◌≡◌, ◌<◌, ◌≤◌, ℕ, [], IfSome, length, vec_capacity};
ghost use Rattle.cohort_desks.specs.Desks.{AreDesks, HaveRoom};
ghost use Rattle.cohort_desks.specs.Halls.{HasRoomFor, IsEmpty, IsWhole};
ghost use Rattle.cohort_desks.specs.Slots.{AreOwn, IsFull};
ghost use Rattle.cohort_desks.specs.Makings.{IsNewDesk};

use crate::desk::Desk;
use crate::hall::Hall;
use crate::tells::Tells;
use cohort_queue::Numbered;
use std::alloc::Global;

// A desk without a place, with room for so many; none for want of memory.
fn new_desk<J: Numbered>(alloc: Global, number: u32, cohorts: usize) -> Option<Desk<J>>
    ensures { IfSome result (IsNewDesk number cohorts) }
{
    let Ok(places) = Vec::with_capacity(alloc, cohorts) else {
        return None;
    };
    Some(Desk { number, places })
}

// A desk for each thread, with room for a place at so many Cohorts; none for want of memory.
fn desks<J: Numbered>(alloc: Global, threads: u32, cohorts: usize) -> Option<Vec<Desk<J>>>
    ensures desks { IfSome result (λ desks. AreDesks J.number J.tag [] threads desks.items) }
    ensures room { IfSome result (λ desks. HaveRoom cohorts desks.items) }
{
    let Ok(mut desks) = Vec::with_capacity(alloc, threads as usize) else {
        return None;
    };
    for number in 0..threads {
        let Some(desk) = new_desk(alloc, number, cohorts) else {
            return None;
        };
        desks.push_reserved(desk);
    }
    Some(desks)
}

/// A hall for so many jobs and threads, with no slot yet, and room for a Cohort of each job; none for want of memory.
pub fn empty_hall<J: Numbered>(alloc: Global, jobs: usize, threads: u32) -> Option<Hall<J>>
    ensures empty { IfSome result (IsEmpty J.number J.tag) }
    ensures many { IfSome result (λ hall. length hall.desks.items ≡ threads) }
    ensures room { IfSome result (HasRoomFor jobs) }
{
    let cohorts = Vec::with_capacity(alloc, jobs).ok()?;
    let emptied = Vec::with_capacity(alloc, jobs).ok()?;
    let desks = desks(alloc, threads, jobs)?;
    Some(Hall {
        cohorts,
        desks,
        emptied,
        slots: Vec::new(alloc),
    })
}

/// The same hall with each job in its slot.
pub fn seat<J: Numbered, T: Tells>(_roll: &T, hall: Hall<J>, slots: Vec<Option<J>>) -> Hall<J>
    requires empty { IsEmpty J.number J.tag hall }
    requires own { AreOwn J.number J.tag (T.told _roll.now) slots.items }
    requires full { (x : ℕ) → x < length slots.items → IsFull J.number J.tag (T.told _roll.now) slots.items x }
    ensures hall { IsWhole J.number J.tag (T.told _roll.now) result }
    ensures no_cohort { length result.cohorts.items ≡ 0 }
    ensures slots { result.slots ≡ slots }
    ensures many { length result.desks.items ≡ length hall.desks.items }
    ensures room { (room : ℕ) → HasRoomFor room hall → HasRoomFor room result }
{
    let Hall {
        cohorts,
        desks,
        emptied,
        slots: _,
    } = hall;
    Hall {
        cohorts,
        desks,
        emptied,
        slots,
    }
}
