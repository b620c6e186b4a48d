//! The rounds of a walk.
ghost use Rattle.std.specs.Prelude.{◌≡◌, ℕ, length, slice_get, Some, IsTrue};
ghost use Rattle.walked_runner.specs.Steps.{HasStepped};
ghost use Rattle.walked_runner.specs.Walkers.{AreWalkers, IsDone, IsWalker};

use crate::moving::step;
use crate::walker::{State, Walker, WalkerIn};
use clof_compose::Composed;
use std::sync::Wait;
use threaded_runner::Book;

/// Makes rounds until every caller is idle with no command left.
pub(crate) fn make_rounds<'a, C: Composed<Book<'a>>, R: Wait>(
    rt: &R,
    lock: &C,
    walkers: Vec<WalkerIn<'a, C>>,
) -> Vec<WalkerIn<'a, C>>
    requires sound { C.sound lock.now }
    requires lowest { C.level lock.now ≡ 0 }
    requires each { (k : ℕ) (w : _) → slice_get walkers.items k ≡ Some w → IsWalker C.Pass.rest C.Queue.climb C.Queue.climbs C.Held.stand
        C.Held.stands C.Leave.descent C.Leave.descends (C.has lock.now) (C.level lock.now) (C.tag lock.now) k w }
    ensures each { (k : ℕ) (w : _) → slice_get result.items k ≡ Some w → IsWalker C.Pass.rest C.Queue.climb C.Queue.climbs C.Held.stand
        C.Held.stands C.Leave.descent C.Leave.descends (C.has lock.now) (C.level lock.now) (C.tag lock.now) k w }
    ensures done { (k : ℕ) (w : _) → slice_get result.items k ≡ Some w → IsDone w }
    ensures many { length result.items ≡ length walkers.entry.items }
{
    may_step_on(lock, &walkers);
    let mut walkers = walkers;
    step_on(rt, lock, &mut walkers);
    walkers
}

// What the callers of a list are, they are in any list that is the same.
fn may_step_on<'a, C: Composed<Book<'a>>>(_lock: &C, _walkers: &Vec<WalkerIn<'a, C>>)
    requires each { (k : ℕ) (w : _) → slice_get _walkers.now.items k ≡ Some w → IsWalker C.Pass.rest C.Queue.climb C.Queue.climbs
        C.Held.stand C.Held.stands C.Leave.descent C.Leave.descends (C.has _lock.now) (C.level _lock.now) (C.tag _lock.now) k w }
    ensures all { (l : _) → l ≡ _walkers.now.items → AreWalkers C.Pass.rest C.Queue.climb C.Queue.climbs C.Held.stand C.Held.stands
        C.Leave.descent C.Leave.descends (C.has _lock.now) (C.level _lock.now) (C.tag _lock.now) l }
{}

// Makes these rounds.
fn step_on<'a, C: Composed<Book<'a>>, R: Wait>(rt: &R, lock: &C, walkers: &mut [WalkerIn<'a, C>])
    requires sound { C.sound lock.now }
    requires lowest { C.level lock.now ≡ 0 }
    requires all { AreWalkers C.Pass.rest C.Queue.climb C.Queue.climbs C.Held.stand C.Held.stands C.Leave.descent C.Leave.descends
        (C.has lock.now) (C.level lock.now) (C.tag lock.now) walkers.old }
    ensures each { (k : ℕ) (w : _) → slice_get walkers.new k ≡ Some w → IsWalker C.Pass.rest C.Queue.climb C.Queue.climbs C.Held.stand
        C.Held.stands C.Leave.descent C.Leave.descends (C.has lock.now) (C.level lock.now) (C.tag lock.now) k w }
    ensures done { (k : ℕ) (w : _) → slice_get walkers.new k ≡ Some w → IsDone w }
{
    for _ in rt.forever() {
        if are_done(walkers) {
            return;
        }
        make_round(lock, walkers);
    }
}

// A step of each caller, in ascending order.
fn make_round<'a, C: Composed<Book<'a>>>(lock: &C, walkers: &mut [WalkerIn<'a, C>])
    requires sound { C.sound lock.now }
    requires lowest { C.level lock.now ≡ 0 }
    requires each { (k : ℕ) (w : _) → slice_get walkers.old k ≡ Some w → IsWalker C.Pass.rest C.Queue.climb C.Queue.climbs C.Held.stand
        C.Held.stands C.Leave.descent C.Leave.descends (C.has lock.now) (C.level lock.now) (C.tag lock.now) k w }
    ensures each { (k : ℕ) (w : _) → slice_get walkers.new k ≡ Some w → IsWalker C.Pass.rest C.Queue.climb C.Queue.climbs C.Held.stand
        C.Held.stands C.Leave.descent C.Leave.descends (C.has lock.now) (C.level lock.now) (C.tag lock.now) k w }
    ensures stepped { (k : ℕ) (w w' : _) → slice_get walkers.old k ≡ Some w → slice_get walkers.new k ≡ Some w'
        → HasStepped C.Queue.climb C.Leave.descent w w' }
{
    for walker in walkers.iter_mut() {
        step(lock, walker);
    }
}

// Whether every caller is idle with no command left.
fn are_done<P, Q, H, L>(walkers: &[Walker<'_, P, Q, H, L>]) -> bool
    ensures { IsTrue result → (k : ℕ) (w : _) → slice_get walkers.now k ≡ Some w → IsDone w }
{
    for walker in walkers {
        if !is_done(walker) {
            return false;
        }
    }
    true
}

// Whether the caller is idle with no command left.
fn is_done<P, Q, H, L>(walker: &Walker<'_, P, Q, H, L>) -> bool
    ensures { IsTrue result → IsDone walker.now }
{
    match &walker.state {
        State::Idle(_) => {
            walker.task.stopped
                || walker.task.share.turns_made() == walker.task.share.turns_allowed()
        }
        _ => false,
    }
}
