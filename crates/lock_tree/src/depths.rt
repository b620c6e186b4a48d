//! Composed locks of one to five levels. No function here names a type of more than one level: the caller does.
ghost use Rattle.std.specs.Prelude.{◌≡◌, ◌<◌, length, IfOk, IfErr};
ghost use Rattle.keep_local.specs.Shapes.{callers_of, top_of};
ghost use Rattle.clof_compose.specs.Roots.{IsFit, root_tag, trail_of};
ghost use Rattle.lock_tree.specs.Made.{IsMade};

use crate::tiers::Tiers;
use clof_compose::{Composed, Payload, Resting, Root, TopPass};
use keep_local::Shape;
use lock_levels::{HasKinds, LevelOver, TopOf, make_top_of};
use lock_plan::Plan;
use lock_rules::{Pass, Refused};
use std::alloc::Global;

/// One level: the top.
pub type Lock1<P> = TopOf<P>;

/// Two levels.
pub type Lock2<P> = LevelOver<P, Lock1<P>>;

/// Three levels.
pub type Lock3<P> = LevelOver<P, Lock2<P>>;

/// Four levels.
pub type Lock4<P> = LevelOver<P, Lock3<P>>;

/// Five levels.
pub type Lock5<P> = LevelOver<P, Lock4<P>>;

/// A lock of one level around a root, for the callers of the shape of its trail, whose levels have the kinds of the plan. It is refused
/// for want of memory alone, and gives the root back.
pub fn make_1<P: Payload>(
    alloc: Global,
    plan: &Plan,
    root: Root<P>,
    shape: &Shape,
) -> Result<(Lock1<P>, Vec<TopPass<Pass>>), Refused<Root<P>>>
    requires kinds { length plan.now.kinds ≡ 1 }
    requires top { top_of shape.now ≡ 0 }
    requires callers { 0 < callers_of shape.now }
    requires fit { IsFit P.calls root }
    requires shape { (trail_of root).shape ≡ shape.now }
    ensures made { IfOk result (λ m. IsMade ⟦<TopPass<Pass> as Resting>⟧.rest (⟦<Lock1<P> as Composed<P>>⟧.has m.0)
        (⟦<Lock1<P> as Composed<P>>⟧.sound m.0) (⟦<Lock1<P> as Composed<P>>⟧.level m.0) (⟦<Lock1<P> as Composed<P>>⟧.count m.0)
        (⟦<Lock1<P> as Composed<P>>⟧.tag m.0) shape.now (root_tag P.tag root) m.1.items) }
    ensures kinds { IfOk result (λ m. ⟦<Lock1<P> as HasKinds<P>>⟧.has_kinds m.0 plan.now.kinds 0) }
    ensures refused { IfErr result (λ r. r.value ≡ root) }
{
    make_top_of(alloc, plan, root, shape, 0)
}

/// A lock of two levels, as `Lock2<P>`, around a root, for the callers of the shape of its trail, whose levels have the kinds of the
/// plan. It is refused for want of memory alone. It then closes the levels that it had made, and gives their root back.
pub fn make_2<P: Payload, L: Tiers<P>>(
    alloc: Global,
    plan: &Plan,
    root: Root<P>,
    shape: &Shape,
) -> Result<(L, Vec<L::Pass>), Refused<Root<P>>>
    requires levels { L.lower ≡ 1 }
    requires kinds { length plan.now.kinds ≡ 2 }
    requires top { top_of shape.now ≡ 1 }
    requires callers { 0 < callers_of shape.now }
    requires fit { IsFit P.calls root }
    requires shape { (trail_of root).shape ≡ shape.now }
    ensures made { IfOk result (λ m. IsMade L.Pass.rest (L.has m.0) (L.sound m.0) (L.level m.0) (L.count m.0)
        (L.tag m.0) shape.now (root_tag P.tag root) m.1.items) }
    ensures kinds { IfOk result (λ m. L.has_kinds m.0 plan.now.kinds 0) }
    ensures fit { IfErr result (λ r. IsFit P.calls r.value) }
    ensures tagged { IfErr result (λ r. root_tag P.tag r.value ≡ root_tag P.tag root) }
{
    match L::raise(alloc, plan, root, shape, 0) {
        Ok(made) => Ok(made),
        Err(refused) => Err(refused),
    }
}

/// A lock of three levels, as `Lock3<P>`, around a root, for the callers of the shape of its trail, whose levels have the kinds of the
/// plan. It is refused for want of memory alone. It then closes the levels that it had made, and gives their root back.
pub fn make_3<P: Payload, L: Tiers<P>>(
    alloc: Global,
    plan: &Plan,
    root: Root<P>,
    shape: &Shape,
) -> Result<(L, Vec<L::Pass>), Refused<Root<P>>>
    requires levels { L.lower ≡ 2 }
    requires kinds { length plan.now.kinds ≡ 3 }
    requires top { top_of shape.now ≡ 2 }
    requires callers { 0 < callers_of shape.now }
    requires fit { IsFit P.calls root }
    requires shape { (trail_of root).shape ≡ shape.now }
    ensures made { IfOk result (λ m. IsMade L.Pass.rest (L.has m.0) (L.sound m.0) (L.level m.0) (L.count m.0)
        (L.tag m.0) shape.now (root_tag P.tag root) m.1.items) }
    ensures kinds { IfOk result (λ m. L.has_kinds m.0 plan.now.kinds 0) }
    ensures fit { IfErr result (λ r. IsFit P.calls r.value) }
    ensures tagged { IfErr result (λ r. root_tag P.tag r.value ≡ root_tag P.tag root) }
{
    match L::raise(alloc, plan, root, shape, 0) {
        Ok(made) => Ok(made),
        Err(refused) => Err(refused),
    }
}

/// A lock of four levels, as `Lock4<P>`, around a root, for the callers of the shape of its trail, whose levels have the kinds of the
/// plan. It is refused for want of memory alone. It then closes the levels that it had made, and gives their root back.
pub fn make_4<P: Payload, L: Tiers<P>>(
    alloc: Global,
    plan: &Plan,
    root: Root<P>,
    shape: &Shape,
) -> Result<(L, Vec<L::Pass>), Refused<Root<P>>>
    requires levels { L.lower ≡ 3 }
    requires kinds { length plan.now.kinds ≡ 4 }
    requires top { top_of shape.now ≡ 3 }
    requires callers { 0 < callers_of shape.now }
    requires fit { IsFit P.calls root }
    requires shape { (trail_of root).shape ≡ shape.now }
    ensures made { IfOk result (λ m. IsMade L.Pass.rest (L.has m.0) (L.sound m.0) (L.level m.0) (L.count m.0)
        (L.tag m.0) shape.now (root_tag P.tag root) m.1.items) }
    ensures kinds { IfOk result (λ m. L.has_kinds m.0 plan.now.kinds 0) }
    ensures fit { IfErr result (λ r. IsFit P.calls r.value) }
    ensures tagged { IfErr result (λ r. root_tag P.tag r.value ≡ root_tag P.tag root) }
{
    match L::raise(alloc, plan, root, shape, 0) {
        Ok(made) => Ok(made),
        Err(refused) => Err(refused),
    }
}

/// A lock of five levels, as `Lock5<P>`, around a root, for the callers of the shape of its trail, whose levels have the kinds of the
/// plan. It is refused for want of memory alone. It then closes the levels that it had made, and gives their root back.
pub fn make_5<P: Payload, L: Tiers<P>>(
    alloc: Global,
    plan: &Plan,
    root: Root<P>,
    shape: &Shape,
) -> Result<(L, Vec<L::Pass>), Refused<Root<P>>>
    requires levels { L.lower ≡ 4 }
    requires kinds { length plan.now.kinds ≡ 5 }
    requires top { top_of shape.now ≡ 4 }
    requires callers { 0 < callers_of shape.now }
    requires fit { IsFit P.calls root }
    requires shape { (trail_of root).shape ≡ shape.now }
    ensures made { IfOk result (λ m. IsMade L.Pass.rest (L.has m.0) (L.sound m.0) (L.level m.0) (L.count m.0)
        (L.tag m.0) shape.now (root_tag P.tag root) m.1.items) }
    ensures kinds { IfOk result (λ m. L.has_kinds m.0 plan.now.kinds 0) }
    ensures fit { IfErr result (λ r. IsFit P.calls r.value) }
    ensures tagged { IfErr result (λ r. root_tag P.tag r.value ≡ root_tag P.tag root) }
{
    match L::raise(alloc, plan, root, shape, 0) {
        Ok(made) => Ok(made),
        Err(refused) => Err(refused),
    }
}
