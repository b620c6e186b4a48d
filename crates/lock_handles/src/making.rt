//! How the callers of a lock are made and put into handles.
ghost use Rattle.std.specs.Prelude.{◌≡◌, ◌<◌, ◌↔◌, length, map, IfSome, IsTrue};
ghost use Rattle.std.specs.List.{All};
ghost use Rattle.std.specs.declared.option.Option.TheVariants.{Some};
ghost use Rattle.lock_rules.specs.Tag.{Tag};
ghost use Rattle.lock_callers.specs.Seen.{idle_of};
ghost use Rattle.lock_handles.specs.Calls.{kind_of};
ghost use Rattle.lock_handles.specs.Making.{AreEmpty, Makes};
ghost use Rattle.lock_handles.specs.declared.any.AnyCaller.{AnyCaller};

use crate::any::{AnyCaller, Kind};
use crate::boxes::{clh_boxes, hemlock_boxes, mcs_boxes, ticket_boxes};
use crate::handle::ClofCaller;
use std::alloc::Global;

/// What making answers. `InUse` is a handle that has a caller already, `Refused` no handles, or more than 2^32 - 1.
#[derive(Clone, Copy, PartialEq, Eq, Debug, Drop)]
pub enum Made {
    Done,
    NoMemory,
    InUse,
    Refused,
}

/// Makes a lock of this kind, and a caller of it for each of the handles.
pub fn make(alloc: Global, kind: Kind, handles: &mut [ClofCaller]) -> Made
    ensures makes { Makes (kind_of kind) (map (λ h. h.held) handles.old) (map (λ h. h.held) handles.new) result }
{
    let Ok(count) = u32::try_from(handles.len()) else {
        return Made::Refused;
    };
    if count == 0 {
        return Made::Refused;
    }
    if !are_empty(alloc, handles) {
        return Made::InUse;
    }
    match boxes_of(alloc, kind, count) {
        None => Made::NoMemory,
        Some(boxes) => {
            fill(handles, boxes);
            Made::Done
        }
    }
}

/// Whether each handle is empty.
fn are_empty(alloc: Global, handles: &mut [ClofCaller]) -> bool
    ensures same { map (λ h. h.held) handles.new ≡ map (λ h. h.held) handles.old }
    ensures empty { IsTrue result ↔ AreEmpty (map (λ h. h.held) handles.old) }
{
    for index in 0..handles.len() {
        if !handles[index].is_empty(alloc) {
            return false;
        }
    }
    true
}

/// The callers of a new lock of this kind, each in a box, as many as asked. `None` for want of memory.
fn boxes_of(alloc: Global, kind: Kind, count: u32) -> Option<Vec<Box<AnyCaller>>>
    requires some { 0 < count }
    ensures count { IfSome result (λ made. length made.items ≡ count) }
    ensures callers { IfSome result (λ made. (lock : Tag) × All (λ b. b.value ≡ kind_of kind (idle_of lock)) made.items) }
{
    match kind {
        Kind::Ticket => ticket_boxes(alloc, count),
        Kind::Mcs => mcs_boxes(alloc, count),
        Kind::Clh => clh_boxes(alloc, count),
        Kind::Hemlock => hemlock_boxes(alloc, count),
    }
}

/// Puts a caller into each of the handles.
fn fill(handles: &mut [ClofCaller], mut boxes: Vec<Box<AnyCaller>>)
    requires enough { length boxes.items ≡ length handles.old }
    ensures filled { (caller : AnyCaller) → All (λ b. b.value ≡ caller) boxes.items
        → All (λ h. h ≡ Some caller) (map (λ h. h.held) handles.new) }
{
    for index in 0..handles.len() {
        match boxes.pop() {
            Some(caller) => handles[index].put(caller),
            None => unreachable!(),
        }
    }
}
