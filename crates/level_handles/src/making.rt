//! How the callers of a composed lock are made and put into handles.
ghost use Rattle.std.specs.Prelude.{◌≡◌, ◌+◌, ◌↔◌, ℕ, length, map, IsTrue};
ghost use Rattle.lock_rules.specs.Tag.{Tag};
ghost use Rattle.keep_local.specs.Shapes.{IsWellFormed, top_of};
ghost use Rattle.level_handles.specs.Making.{AreBoxed, AreEmpty, AreHeld, IsNew, Makes};

use crate::any_depth::AnyDepth;
use crate::boxes::boxes_for;
use crate::handle::ClofComposedCaller;
use keep_local::Shape;
use lock_levels::Plan;
use std::alloc::Global;

/// What making answers. `InUse` is a handle that has a caller already, `TooDeep` a plan of more than five levels, `Refused` not as many
/// handles as the shape has callers, or none, or more than 2^32 - 1.
#[derive(Clone, Copy, PartialEq, Eq, Debug, Drop)]
pub enum Made {
    Done,
    NoMemory,
    InUse,
    TooDeep,
    Refused,
}

/// Makes a lock for the callers of a shape, whose levels have the kinds of the plan, and puts its callers into the handles, in order.
pub fn make(alloc: Global, plan: &Plan, shape: &Shape, handles: &mut [ClofComposedCaller]) -> Made
    requires plan { length plan.now.kinds ≡ top_of shape.now + 1 }
    requires formed { IsWellFormed shape.now }
    ensures makes { Makes shape.now (map (λ h. h.held) handles.old) (map (λ h. h.held) handles.new) result }
{
    let Ok(count) = u32::try_from(handles.len()) else {
        return Made::Refused;
    };
    if count == 0 || handles.len() != shape.paths.as_slice().len() {
        return Made::Refused;
    }
    if plan.kinds.as_slice().len() > 5 {
        return Made::TooDeep;
    }
    if !are_empty(alloc, handles) {
        return Made::InUse;
    }
    match boxes_for(alloc, plan, shape) {
        None => Made::NoMemory,
        Some(boxes) => {
            fill(handles, boxes);
            Made::Done
        }
    }
}

// Whether each handle is empty.
fn are_empty(alloc: Global, handles: &mut [ClofComposedCaller]) -> bool
    ensures same { map (λ h. h.held) handles.new ≡ map (λ h. h.held) handles.old }
    ensures empty { IsTrue result ↔ AreEmpty (map (λ h. h.held) handles.old) }
{
    for index in 0..handles.len() {
        if !handles[index].is_empty(alloc) {
            return false;
        }
    }
    true
}

// Puts a caller into each of the handles, from the last box on.
fn fill(handles: &mut [ClofComposedCaller], mut boxes: Vec<Box<AnyDepth>>)
    requires enough { length boxes.items ≡ length handles.old }
    ensures filled { (lock : Tag) (levels : ℕ) → AreBoxed (IsNew lock levels) boxes.items
        → AreHeld (IsNew lock levels) (map (λ h. h.held) handles.new) }
{
    for index in 0..handles.len() {
        let Some(caller) = boxes.pop() else {
            unreachable!()
        };
        handles[index].put(caller);
    }
}
