//! The callers of a new lock, each in a box: one function a lock.
ghost use Rattle.std.specs.Prelude.{◌≡◌, ◌<◌, length, IfSome};
ghost use Rattle.std.specs.List.{All};
ghost use Rattle.lock_rules.specs.Tag.{Tag};
ghost use Rattle.lock_callers.specs.Seen.{idle_of};
ghost use Rattle.lock_handles.specs.Making.{IsAdded};
ghost use Rattle.lock_handles.specs.declared.any.AnyCaller.TheVariants as TheVariants;

use crate::any::AnyCaller;
use clh_lock::Clh;
use hemlock_lock::Hemlock;
use lock_callers::make_callers;
use lock_rules::{Plain, Waiters};
use mcs_lock::Mcs;
use std::alloc::Global;
use ticket_lock::Ticket;

/// The callers of a new Ticket lock, as many as asked. `None` for want of memory.
pub(crate) fn ticket_boxes(alloc: Global, count: u32) -> Option<Vec<Box<AnyCaller>>>
    requires some { 0 < count }
    ensures count { IfSome result (λ made. length made.items ≡ count) }
    ensures callers { IfSome result (λ made. (lock : Tag) × All (λ b. b.value ≡ TheVariants.Ticket (idle_of lock)) made.items) }
{
    let mut callers = make_callers::<Ticket<Plain<()>>>(alloc, Waiters::Queue, count)?;
    let mut boxes = Vec::new(alloc);
    while let Some(caller) = callers.pop() {
        add(alloc, &mut boxes, AnyCaller::Ticket(caller))?;
    }
    Some(boxes)
}

/// The callers of a new MCS lock, as many as asked. `None` for want of memory.
pub(crate) fn mcs_boxes(alloc: Global, count: u32) -> Option<Vec<Box<AnyCaller>>>
    requires some { 0 < count }
    ensures count { IfSome result (λ made. length made.items ≡ count) }
    ensures callers { IfSome result (λ made. (lock : Tag) × All (λ b. b.value ≡ TheVariants.Mcs (idle_of lock)) made.items) }
{
    let mut callers = make_callers::<Mcs<Plain<()>>>(alloc, Waiters::Queue, count)?;
    let mut boxes = Vec::new(alloc);
    while let Some(caller) = callers.pop() {
        add(alloc, &mut boxes, AnyCaller::Mcs(caller))?;
    }
    Some(boxes)
}

/// The callers of a new CLH lock, as many as asked. `None` for want of memory.
pub(crate) fn clh_boxes(alloc: Global, count: u32) -> Option<Vec<Box<AnyCaller>>>
    requires some { 0 < count }
    ensures count { IfSome result (λ made. length made.items ≡ count) }
    ensures callers { IfSome result (λ made. (lock : Tag) × All (λ b. b.value ≡ TheVariants.Clh (idle_of lock)) made.items) }
{
    let mut callers = make_callers::<Clh<Plain<()>>>(alloc, Waiters::Queue, count)?;
    let mut boxes = Vec::new(alloc);
    while let Some(caller) = callers.pop() {
        add(alloc, &mut boxes, AnyCaller::Clh(caller))?;
    }
    Some(boxes)
}

/// The callers of a new Hemlock lock, as many as asked. `None` for want of memory.
pub(crate) fn hemlock_boxes(alloc: Global, count: u32) -> Option<Vec<Box<AnyCaller>>>
    requires some { 0 < count }
    ensures count { IfSome result (λ made. length made.items ≡ count) }
    ensures callers { IfSome result (λ made. (lock : Tag) × All (λ b. b.value ≡ TheVariants.Hemlock (idle_of lock)) made.items) }
{
    let mut callers = make_callers::<Hemlock<Plain<()>>>(alloc, Waiters::Queue, count)?;
    let mut boxes = Vec::new(alloc);
    while let Some(caller) = callers.pop() {
        add(alloc, &mut boxes, AnyCaller::Hemlock(caller))?;
    }
    Some(boxes)
}

/// Puts a caller into a box behind the others. `None` for want of memory.
fn add(alloc: Global, boxes: &mut Vec<Box<AnyCaller>>, caller: AnyCaller) -> Option<()>
    ensures added { IfSome result (λ _. IsAdded caller boxes.old.items boxes.new.items) }
{
    let boxed = Box::new(alloc, caller).ok()?;
    boxes.push(boxed).ok()
}
