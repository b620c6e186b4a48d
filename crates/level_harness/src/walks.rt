//! A walk over a composed lock.
ghost use Rattle.std.specs.Prelude.{◌≡◌, ◌<◌, ◌≤◌, ℕ, [], length, map, slice_get, slice_index, Some, IfSome, vec_capacity};
ghost use Rattle.keep_local.specs.Shapes.{callers_of};
ghost use Rattle.keep_local.specs.States.{new_shares};
ghost use Rattle.clof_compose.specs.Courses.{course_of};
ghost use Rattle.clof_compose.specs.Passes.{AreAll, IsNumber};
ghost use Rattle.clof_compose.specs.Roots.{IsFit, root_tag};
ghost use Rattle.level_harness.specs.Rooms.{HasRoom, roll_tag};
ghost use Rattle.clof_compose.specs.Shares.{IsShareIn};
ghost use Rattle.level_harness.specs.Walkers.{IsDone, IsWalker};

use crate::roll::Roll;
use crate::rounds::{are_done, round, steps};
use crate::walker::{State, Stood, Walker, WalkerIn};
use clof_compose::{Composed, Resting, Root};
use keep_local::Share;
use std::alloc::Global;
use std::sync::Wait;

/// What a walk leaves: the root, where each caller that was told to step stood behind its step, and the tests that each caller's pass tells
/// at the end, which are those of its last turn, 0 without one.
#[derive(Drop)]
pub struct Walked {
    pub root: Root<Roll>,
    pub stood: Vec<Stood>,
    pub told: Vec<u32>,
}

/// All callers take turns on one thread. First the callers that `order` names make a step each, in that order, and then all make rounds. A
/// round is a step of each, in ascending order: an idle caller with turns left begins to take the lock, a queued one asks again, a holder
/// makes one call and begins to leave, and one that leaves asks again. The lock is taken apart when all are idle with no turn left. The
/// answer is `None` for want of memory alone.
pub fn walk<C: Composed<Roll> + Drop, R: Wait>(
    rt: &R,
    alloc: Global,
    lock: C,
    passes: Vec<C::Pass>,
    shares: Vec<Share>,
    order: &[usize],
) -> Option<Walked>
    requires sound { C.sound lock }
    requires lowest { C.level lock ≡ 0 }
    requires count { C.count lock ≡ callers_of (course_of (C.tag lock)).shape }
    requires all { AreAll (λ p. (C.Pass.rest p).context) (C.has lock) (C.level lock) (C.tag lock) (C.count lock) passes.items }
    requires quotas { length (course_of (C.tag lock)).quotas ≡ callers_of (course_of (C.tag lock)).shape }
    requires shares { shares.items ≡ new_shares (course_of (C.tag lock)).name (course_of (C.tag lock)).quotas }
    requires room { HasRoom (course_of (C.tag lock)) }
    ensures fit { IfSome result (λ w. IsFit (λ r. r.callers.items) w.root) }
    ensures tagged { IfSome result (λ w. root_tag roll_tag w.root ≡ C.tag lock) }
{
    let stood = Vec::with_capacity(alloc, order.len()).ok()?;
    let walkers = Vec::with_capacity(alloc, passes.len()).ok()?;
    let (mut walkers, passes) = seat(&lock, passes, shares, walkers);
    let stood = make_steps(rt, &lock, &mut walkers, order, stood);
    let passes = idle_passes(&lock, walkers, passes);
    let told = tests_of(alloc, &passes)?;
    let root = lock.close(passes);
    Some(Walked { root, stood, told })
}

// Makes the steps of an order, and then rounds until every caller is idle with no turn left.
fn make_steps<C: Composed<Roll>, R: Wait>(
    rt: &R,
    lock: &C,
    walkers: &mut [WalkerIn<C>],
    order: &[usize],
    stood: Vec<Stood>,
) -> Vec<Stood>
    requires sound { C.sound lock.now }
    requires lowest { C.level lock.now ≡ 0 }
    requires room { HasRoom (course_of (C.tag lock.now)) }
    requires each { (k : ℕ) (w : _) → slice_get walkers.old k ≡ Some w → IsWalker C.Pass.rest C.Queue.climb C.Queue.climbs C.Held.stand
        C.Held.stands C.Leave.descent C.Leave.descends (C.has lock.now) (C.level lock.now) (C.tag lock.now) k w }
    requires empty { stood.items ≡ [] }
    requires capacity { length order.now ≤ vec_capacity stood }
    ensures each { (k : ℕ) (w : _) → slice_get walkers.new k ≡ Some w → IsWalker C.Pass.rest C.Queue.climb C.Queue.climbs C.Held.stand
        C.Held.stands C.Leave.descent C.Leave.descends (C.has lock.now) (C.level lock.now) (C.tag lock.now) k w }
    ensures done { (k : ℕ) (w : _) → slice_get walkers.new k ≡ Some w → IsDone w }
{
    let stood = steps(lock, walkers, order, stood);
    make_rounds(rt, lock, walkers);
    stood
}

// The tests that each pass tells. The answer is `None` for want of memory.
fn tests_of<P: Resting>(alloc: Global, passes: &[P]) -> Option<Vec<u32>>
    ensures { IfSome result (λ told. told.items ≡ map (λ p. (P.rest p).report.tests) passes.now) }
{
    let mut told = Vec::new(alloc);
    for pass in passes {
        told.push(pass.tests()).ok()?;
    }
    Some(told)
}

// Makes rounds until every caller is idle with no turn left.
fn make_rounds<C: Composed<Roll>, R: Wait>(rt: &R, lock: &C, walkers: &mut [WalkerIn<C>])
    requires sound { C.sound lock.now }
    requires lowest { C.level lock.now ≡ 0 }
    requires room { HasRoom (course_of (C.tag lock.now)) }
    requires each { (k : ℕ) (w : _) → slice_get walkers.old k ≡ Some w → IsWalker C.Pass.rest C.Queue.climb C.Queue.climbs C.Held.stand
        C.Held.stands C.Leave.descent C.Leave.descends (C.has lock.now) (C.level lock.now) (C.tag lock.now) k w }
    ensures each { (k : ℕ) (w : _) → slice_get walkers.new k ≡ Some w → IsWalker C.Pass.rest C.Queue.climb C.Queue.climbs C.Held.stand
        C.Held.stands C.Leave.descent C.Leave.descends (C.has lock.now) (C.level lock.now) (C.tag lock.now) k w }
    ensures done { (k : ℕ) (w : _) → slice_get walkers.new k ≡ Some w → IsDone w }
{
    for _ in rt.forever() {
        if are_done(walkers) {
            return;
        }
        round(lock, walkers);
    }
}

// A caller for each pass and each share, all idle, and the emptied list of the passes.
fn seat<C: Composed<Roll>>(
    _lock: &C,
    mut passes: Vec<C::Pass>,
    mut shares: Vec<Share>,
    mut walkers: Vec<WalkerIn<C>>,
) -> (Vec<WalkerIn<C>>, Vec<C::Pass>)
    requires passes { (k : ℕ) (p : C.Pass) → slice_get passes.items k ≡ Some p
        → IsNumber (C.has _lock.now) (C.level _lock.now) (C.tag _lock.now) k (C.Pass.rest p).context }
    requires shares { (k : ℕ) (s : _) → slice_get shares.items k ≡ Some s → IsShareIn (course_of (C.tag _lock.now)) k s }
    requires many { length shares.items ≡ length passes.items }
    requires empty { walkers.items ≡ [] }
    requires room { length passes.items ≤ vec_capacity walkers }
    ensures each { (k : ℕ) (w : _) → slice_get result.0.items k ≡ Some w → IsWalker C.Pass.rest C.Queue.climb C.Queue.climbs C.Held.stand
        C.Held.stands C.Leave.descent C.Leave.descends (C.has _lock.now) (C.level _lock.now) (C.tag _lock.now) k w }
    ensures many { length result.0.items ≡ length passes.items }
    ensures emptied { result.1.items ≡ [] }
    ensures room { vec_capacity result.1 ≡ vec_capacity passes }
{
    while let Some(pass) = passes.pop() {
        let Some(share) = shares.pop() else {
            unreachable!()
        };
        let state = State::Idle(pass);
        walkers.push_reserved(Walker { state, share });
    }
    walkers.reverse();
    (walkers, passes)
}

// The passes of callers that are idle, in a list that has room for them.
fn idle_passes<C: Composed<Roll>>(
    _lock: &C,
    mut walkers: Vec<WalkerIn<C>>,
    mut passes: Vec<C::Pass>,
) -> Vec<C::Pass>
    requires each { (k : ℕ) (w : _) → slice_get walkers.items k ≡ Some w → IsWalker C.Pass.rest C.Queue.climb C.Queue.climbs C.Held.stand
        C.Held.stands C.Leave.descent C.Leave.descends (C.has _lock.now) (C.level _lock.now) (C.tag _lock.now) k w }
    requires done { (k : ℕ) (w : _) → slice_get walkers.items k ≡ Some w → IsDone w }
    requires empty { passes.items ≡ [] }
    requires room { length walkers.items ≤ vec_capacity passes }
    ensures { AreAll (λ p. (C.Pass.rest p).context) (C.has _lock.now) (C.level _lock.now) (C.tag _lock.now) (length walkers.items)
        result.items }
{
    while let Some(walker) = walkers.pop() {
        let Walker { state, .. } = walker;
        let State::Idle(pass) = state else {
            unreachable!()
        };
        passes.push_reserved(pass);
    }
    passes.reverse();
    passes
}
