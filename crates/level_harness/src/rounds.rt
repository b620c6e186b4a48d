//! The rounds of a walk.
ghost use Rattle.std.specs.Prelude.{◌≡◌, ◌≤◌, ℕ, [], length, slice_get, Some, IsTrue, vec_capacity};
ghost use Rattle.clof_compose.specs.Courses.{course_of};
ghost use Rattle.level_harness.specs.Rooms.{HasRoom};
ghost use Rattle.level_harness.specs.Walkers.{IsWalker, IsDone};

use crate::roll::Roll;
use crate::walker::{State, Stood, Walker, WalkerIn, step, stood_of};
use clof_compose::Composed;

/// A step of each caller, in ascending order.
pub(crate) fn round<C: Composed<Roll>>(lock: &C, walkers: &mut [WalkerIn<C>])
    requires sound { C.sound lock.now }
    requires lowest { C.level lock.now ≡ 0 }
    requires room { HasRoom (course_of (C.tag lock.now)) }
    requires each { (k : ℕ) (w : _) → slice_get walkers.old k ≡ Some w → IsWalker C.Pass.rest C.Queue.climb C.Queue.climbs C.Held.stand
        C.Held.stands C.Leave.descent C.Leave.descends (C.has lock.now) (C.level lock.now) (C.tag lock.now) k w }
    ensures each { (k : ℕ) (w : _) → slice_get walkers.new k ≡ Some w → IsWalker C.Pass.rest C.Queue.climb C.Queue.climbs C.Held.stand
        C.Held.stands C.Leave.descent C.Leave.descends (C.has lock.now) (C.level lock.now) (C.tag lock.now) k w }
{
    for walker in walkers.iter_mut() {
        step(lock, walker);
    }
}

// A step of the caller with this number. The answer is where it stands behind the step.
fn step_at<C: Composed<Roll>>(lock: &C, walkers: &mut [WalkerIn<C>], caller: usize) -> Stood
    requires sound { C.sound lock.now }
    requires lowest { C.level lock.now ≡ 0 }
    requires room { HasRoom (course_of (C.tag lock.now)) }
    requires each { (k : ℕ) (w : _) → slice_get walkers.old k ≡ Some w → IsWalker C.Pass.rest C.Queue.climb C.Queue.climbs C.Held.stand
        C.Held.stands C.Leave.descent C.Leave.descends (C.has lock.now) (C.level lock.now) (C.tag lock.now) k w }
    ensures each { (k : ℕ) (w : _) → slice_get walkers.new k ≡ Some w → IsWalker C.Pass.rest C.Queue.climb C.Queue.climbs C.Held.stand
        C.Held.stands C.Leave.descent C.Leave.descends (C.has lock.now) (C.level lock.now) (C.tag lock.now) k w }
{
    if caller >= walkers.len() {
        return Stood::Nowhere;
    }
    let walker = &mut walkers[caller];
    step(lock, walker);
    stood_of(walker)
}

/// A step of each of these callers, in this order. The answer is where each stood behind its step, in a list that has room for all.
pub(crate) fn steps<C: Composed<Roll>>(
    lock: &C,
    walkers: &mut [WalkerIn<C>],
    order: &[usize],
    mut stood: Vec<Stood>,
) -> Vec<Stood>
    requires sound { C.sound lock.now }
    requires lowest { C.level lock.now ≡ 0 }
    requires room { HasRoom (course_of (C.tag lock.now)) }
    requires each { (k : ℕ) (w : _) → slice_get walkers.old k ≡ Some w → IsWalker C.Pass.rest C.Queue.climb C.Queue.climbs C.Held.stand
        C.Held.stands C.Leave.descent C.Leave.descends (C.has lock.now) (C.level lock.now) (C.tag lock.now) k w }
    requires empty { stood.items ≡ [] }
    requires capacity { length order.now ≤ vec_capacity stood }
    ensures each { (k : ℕ) (w : _) → slice_get walkers.new k ≡ Some w → IsWalker C.Pass.rest C.Queue.climb C.Queue.climbs C.Held.stand
        C.Held.stands C.Leave.descent C.Leave.descends (C.has lock.now) (C.level lock.now) (C.tag lock.now) k w }
    ensures many { length result.items ≡ length order.now }
{
    for caller in order {
        stood.push_reserved(step_at(lock, walkers, *caller));
    }
    stood
}

/// Whether every caller is idle with no command left.
pub(crate) fn are_done<P, Q, H, L>(walkers: &[Walker<P, Q, H, L>]) -> bool
    ensures { IsTrue result → (k : ℕ) (w : Walker P Q H L) → slice_get walkers.now k ≡ Some w → IsDone w }
{
    for walker in walkers {
        if !is_done(walker) {
            return false;
        }
    }
    true
}

// Whether the caller is idle with no command left.
fn is_done<P, Q, H, L>(walker: &Walker<P, Q, H, L>) -> bool
    ensures { IsTrue result → IsDone walker.now }
{
    match &walker.state {
        State::Idle(_) => walker.share.turns_made() == walker.share.turns_allowed(),
        _ => false,
    }
}
