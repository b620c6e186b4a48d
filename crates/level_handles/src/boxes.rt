//! The callers of a new lock, each in a box. The lock is made level by level, from the top down.
ghost use Rattle.std.specs.Prelude.{◌≡◌, ◌+◌, ◌<◌, ◌^◌, length, IfSome};
ghost use Rattle.lock_rules.specs.Tag.{Tag, leaf};
ghost use Rattle.keep_local.specs.Shapes.{IsWellFormed, callers_of, top_of};
ghost use Rattle.clof_compose.specs.Roots.{IsFit, root_tag, trail_of};
ghost use Rattle.lock_levels.specs.Raised.{IsRaised};
ghost use Rattle.level_callers.specs.Seen.{AreFresh};
ghost use Rattle.level_handles.specs.Making.{AreBoxed, IsAdded, IsLockOf, IsNew, MayMake};

use crate::any_depth::AnyDepth;
use crate::depths::{
    FifthLock, FirstLock, FiveLevels, FourLevels, FourthLock, OneLevel, SecondLock, ThirdLock,
    ThreeLevels, TwoLevels,
};
use clof_compose::{Composed, Resting, Root};
use keep_local::{Shape, Share};
use level_callers::{Caller, make_callers};
use lock_depths::{
    LockOfFour, LockOfThree, LockOfTwo, level_below, make_of_four, make_of_three, make_of_two,
};
use lock_levels::{HasKinds, LevelOver, Plan, make_top_of};
use own_payload::{Noted, new_unrecorded_root};
use std::alloc::Global;

/// The callers of a new lock for the callers of a shape, whose levels have the kinds of the plan, each in a box, the last one first.
/// `None` for want of memory.
pub(crate) fn boxes_for(alloc: Global, plan: &Plan, shape: &Shape) -> Option<Vec<Box<AnyDepth>>>
    requires plan { length plan.now.kinds ≡ top_of shape.now + 1 }
    requires levels { top_of shape.now < 5 }
    requires formed { IsWellFormed shape.now }
    requires some { 0 < callers_of shape.now }
    requires few { callers_of shape.now < 2 ^ 32 }
    ensures count { IfSome result (λ made. length made.items ≡ callers_of shape.now) }
    ensures callers { IfSome result (λ made. (lock : Tag) × IsLockOf shape.now lock
        × AreBoxed (IsNew lock (top_of shape.now + 1)) made.items) }
{
    let Some((root, shares)) = new_unrecorded_root(alloc, shape, ()) else {
        return None;
    };
    let levels = plan.kinds.as_slice().len();
    if levels == 1 {
        one_level(alloc, plan, shape, root, shares)
    } else if levels == 2 {
        two_levels(alloc, plan, shape, root, shares)
    } else if levels == 3 {
        three_levels(alloc, plan, shape, root, shares)
    } else if levels == 4 {
        four_levels(alloc, plan, shape, root, shares)
    } else {
        five_levels(alloc, plan, shape, root, shares)
    }
}

// The callers of a lock of one level around this root.
fn one_level(
    alloc: Global,
    plan: &Plan,
    shape: &Shape,
    root: Root<Noted<()>>,
    shares: Vec<Share>,
) -> Option<Vec<Box<AnyDepth>>>
    requires plan { length plan.now.kinds ≡ 1 }
    requires top { top_of shape.now ≡ 0 }
    requires some { 0 < callers_of shape.now }
    requires fit { IsFit (λ n. n.calls.callers) root }
    requires shape { (trail_of root).shape ≡ shape.now }
    requires may { MayMake (root_tag (λ _. leaf 0) root) shape.now shares.items }
    ensures count { IfSome result (λ made. length made.items ≡ callers_of shape.now) }
    ensures callers { IfSome result (λ made. (lock : Tag) × IsLockOf shape.now lock × AreBoxed (IsNew lock 1) made.items) }
{
    let Ok((lock, passes)) = make_top_of::<Noted<()>>(alloc, plan, root, shape, 0) else {
        return None;
    };
    let callers = callers_for::<FirstLock>(alloc, plan, shape, lock, passes, shares)?;
    one_boxes(alloc, callers)
}

// The callers of a lock of two levels around this root.
fn two_levels(
    alloc: Global,
    plan: &Plan,
    shape: &Shape,
    root: Root<Noted<()>>,
    shares: Vec<Share>,
) -> Option<Vec<Box<AnyDepth>>>
    requires plan { length plan.now.kinds ≡ 2 }
    requires top { top_of shape.now ≡ 1 }
    requires formed { IsWellFormed shape.now }
    requires some { 0 < callers_of shape.now }
    requires few { callers_of shape.now < 2 ^ 32 }
    requires fit { IsFit (λ n. n.calls.callers) root }
    requires shape { (trail_of root).shape ≡ shape.now }
    requires may { MayMake (root_tag (λ _. leaf 0) root) shape.now shares.items }
    ensures count { IfSome result (λ made. length made.items ≡ callers_of shape.now) }
    ensures callers { IfSome result (λ made. (lock : Tag) × IsLockOf shape.now lock × AreBoxed (IsNew lock 2) made.items) }
{
    let Ok((lock, passes)) = make_top_of::<Noted<()>>(alloc, plan, root, shape, 1) else {
        return None;
    };
    let callers = with_lowest::<FirstLock>(alloc, plan, shape, lock, passes, shares)?;
    two_boxes(alloc, callers)
}

// The callers of a lock of three levels around this root.
fn three_levels(
    alloc: Global,
    plan: &Plan,
    shape: &Shape,
    root: Root<Noted<()>>,
    shares: Vec<Share>,
) -> Option<Vec<Box<AnyDepth>>>
    requires plan { length plan.now.kinds ≡ 3 }
    requires top { top_of shape.now ≡ 2 }
    requires formed { IsWellFormed shape.now }
    requires some { 0 < callers_of shape.now }
    requires few { callers_of shape.now < 2 ^ 32 }
    requires fit { IsFit (λ n. n.calls.callers) root }
    requires shape { (trail_of root).shape ≡ shape.now }
    requires may { MayMake (root_tag (λ _. leaf 0) root) shape.now shares.items }
    ensures count { IfSome result (λ made. length made.items ≡ callers_of shape.now) }
    ensures callers { IfSome result (λ made. (lock : Tag) × IsLockOf shape.now lock × AreBoxed (IsNew lock 3) made.items) }
{
    let Some((lock, passes)) = make_of_two(alloc, plan, shape, root, 1) else {
        return None;
    };
    let callers = with_lowest::<LockOfTwo>(alloc, plan, shape, lock, passes, shares)?;
    three_boxes(alloc, callers)
}

// The callers of a lock of four levels around this root.
fn four_levels(
    alloc: Global,
    plan: &Plan,
    shape: &Shape,
    root: Root<Noted<()>>,
    shares: Vec<Share>,
) -> Option<Vec<Box<AnyDepth>>>
    requires plan { length plan.now.kinds ≡ 4 }
    requires top { top_of shape.now ≡ 3 }
    requires formed { IsWellFormed shape.now }
    requires some { 0 < callers_of shape.now }
    requires few { callers_of shape.now < 2 ^ 32 }
    requires fit { IsFit (λ n. n.calls.callers) root }
    requires shape { (trail_of root).shape ≡ shape.now }
    requires may { MayMake (root_tag (λ _. leaf 0) root) shape.now shares.items }
    ensures count { IfSome result (λ made. length made.items ≡ callers_of shape.now) }
    ensures callers { IfSome result (λ made. (lock : Tag) × IsLockOf shape.now lock × AreBoxed (IsNew lock 4) made.items) }
{
    let Some((lock, passes)) = make_of_three(alloc, plan, shape, root, 1) else {
        return None;
    };
    let callers = with_lowest::<LockOfThree>(alloc, plan, shape, lock, passes, shares)?;
    four_boxes(alloc, callers)
}

// The callers of a lock of five levels around this root.
fn five_levels(
    alloc: Global,
    plan: &Plan,
    shape: &Shape,
    root: Root<Noted<()>>,
    shares: Vec<Share>,
) -> Option<Vec<Box<AnyDepth>>>
    requires plan { length plan.now.kinds ≡ 5 }
    requires top { top_of shape.now ≡ 4 }
    requires formed { IsWellFormed shape.now }
    requires some { 0 < callers_of shape.now }
    requires few { callers_of shape.now < 2 ^ 32 }
    requires fit { IsFit (λ n. n.calls.callers) root }
    requires shape { (trail_of root).shape ≡ shape.now }
    requires may { MayMake (root_tag (λ _. leaf 0) root) shape.now shares.items }
    ensures count { IfSome result (λ made. length made.items ≡ callers_of shape.now) }
    ensures callers { IfSome result (λ made. (lock : Tag) × IsLockOf shape.now lock × AreBoxed (IsNew lock 5) made.items) }
{
    let Some((lock, passes)) = make_of_four(alloc, plan, shape, root, 1) else {
        return None;
    };
    let callers = with_lowest::<LockOfFour>(alloc, plan, shape, lock, passes, shares)?;
    five_boxes(alloc, callers)
}

// The callers of a lock of which the levels from 1 on are made.
fn with_lowest<H: HasKinds<Noted<()>> + Drop>(
    alloc: Global,
    plan: &Plan,
    shape: &Shape,
    high: H,
    passes: Vec<H::Pass>,
    shares: Vec<Share>,
) -> Option<Vec<Caller<LevelOver<Noted<()>, H>>>>
    requires raised { IsRaised H.Pass.rest (H.has high) (H.sound high) (H.level high) (H.count high) (H.tag high) shape.now 1
        (H.tag high) passes.items }
    requires kinds { H.has_kinds high plan.now.kinds 1 }
    requires plan { length plan.now.kinds ≡ top_of shape.now + 1 }
    requires level { 0 < top_of shape.now }
    requires formed { IsWellFormed shape.now }
    requires few { callers_of shape.now < 2 ^ 32 }
    requires may { MayMake (H.tag high) shape.now shares.items }
    ensures count { IfSome result (λ made. length made.items ≡ callers_of shape.now) }
    ensures callers { IfSome result (λ made. (lock : Tag) × IsLockOf shape.now lock × AreFresh lock made.items) }
{
    let Some((lock, passes)) = level_below::<H>(alloc, plan, shape, 0, high, passes) else {
        return None;
    };
    callers_for::<LevelOver<Noted<()>, H>>(alloc, plan, shape, lock, passes, shares)
}

// The callers of a lock that was made for a shape, and whose levels have the plan's kinds.
fn callers_for<C: HasKinds<Noted<()>> + Drop>(
    alloc: Global,
    _plan: &Plan,
    _shape: &Shape,
    lock: C,
    passes: Vec<C::Pass>,
    shares: Vec<Share>,
) -> Option<Vec<Caller<C>>>
    requires raised { IsRaised C.Pass.rest (C.has lock) (C.sound lock) (C.level lock) (C.count lock) (C.tag lock) _shape.now 0
        (C.tag lock) passes.items }
    requires kinds { C.has_kinds lock _plan.now.kinds 0 }
    requires may { MayMake (C.tag lock) _shape.now shares.items }
    ensures count { IfSome result (λ made. length made.items ≡ callers_of _shape.now) }
    ensures callers { IfSome result (λ made. (lock : Tag) × IsLockOf _shape.now lock × AreFresh lock made.items) }
{
    make_callers(alloc, lock, passes, shares)
}

// The callers of a lock of one level, each in a box, the last one first.
fn one_boxes(alloc: Global, mut callers: Vec<Caller<FirstLock>>) -> Option<Vec<Box<AnyDepth>>>
    ensures count { IfSome result (λ made. length made.items ≡ length callers.items) }
    ensures callers { (lock : Tag) → AreFresh lock callers.items → IfSome result (λ made. AreBoxed (IsNew lock 1) made.items) }
{
    let mut boxes = Vec::new(alloc);
    while let Some(caller) = callers.pop() {
        add(alloc, &mut boxes, AnyDepth::One(OneLevel::of(caller)))?;
    }
    Some(boxes)
}

// The callers of a lock of two levels, each in a box, the last one first.
fn two_boxes(alloc: Global, mut callers: Vec<Caller<SecondLock>>) -> Option<Vec<Box<AnyDepth>>>
    ensures count { IfSome result (λ made. length made.items ≡ length callers.items) }
    ensures callers { (lock : Tag) → AreFresh lock callers.items → IfSome result (λ made. AreBoxed (IsNew lock 2) made.items) }
{
    let mut boxes = Vec::new(alloc);
    while let Some(caller) = callers.pop() {
        add(alloc, &mut boxes, AnyDepth::Two(TwoLevels::of(caller)))?;
    }
    Some(boxes)
}

// The callers of a lock of three levels, each in a box, the last one first.
fn three_boxes(alloc: Global, mut callers: Vec<Caller<ThirdLock>>) -> Option<Vec<Box<AnyDepth>>>
    ensures count { IfSome result (λ made. length made.items ≡ length callers.items) }
    ensures callers { (lock : Tag) → AreFresh lock callers.items → IfSome result (λ made. AreBoxed (IsNew lock 3) made.items) }
{
    let mut boxes = Vec::new(alloc);
    while let Some(caller) = callers.pop() {
        add(alloc, &mut boxes, AnyDepth::Three(ThreeLevels::of(caller)))?;
    }
    Some(boxes)
}

// The callers of a lock of four levels, each in a box, the last one first.
fn four_boxes(alloc: Global, mut callers: Vec<Caller<FourthLock>>) -> Option<Vec<Box<AnyDepth>>>
    ensures count { IfSome result (λ made. length made.items ≡ length callers.items) }
    ensures callers { (lock : Tag) → AreFresh lock callers.items → IfSome result (λ made. AreBoxed (IsNew lock 4) made.items) }
{
    let mut boxes = Vec::new(alloc);
    while let Some(caller) = callers.pop() {
        add(alloc, &mut boxes, AnyDepth::Four(FourLevels::of(caller)))?;
    }
    Some(boxes)
}

// The callers of a lock of five levels, each in a box, the last one first.
fn five_boxes(alloc: Global, mut callers: Vec<Caller<FifthLock>>) -> Option<Vec<Box<AnyDepth>>>
    ensures count { IfSome result (λ made. length made.items ≡ length callers.items) }
    ensures callers { (lock : Tag) → AreFresh lock callers.items → IfSome result (λ made. AreBoxed (IsNew lock 5) made.items) }
{
    let mut boxes = Vec::new(alloc);
    while let Some(caller) = callers.pop() {
        add(alloc, &mut boxes, AnyDepth::Five(FiveLevels::of(caller)))?;
    }
    Some(boxes)
}

// Puts a caller into a box behind the others. `None` for want of memory.
fn add(alloc: Global, boxes: &mut Vec<Box<AnyDepth>>, caller: AnyDepth) -> Option<()>
    ensures added { IfSome result (λ _. IsAdded caller boxes.old.items boxes.new.items) }
{
    let boxed = Box::new(alloc, caller).ok()?;
    boxes.push(boxed).ok()
}
