//! Locks of any number of levels, each made from the one with a level less.
ghost use Rattle.std.specs.Prelude.{◌≡◌, ◌+◌, ◌<◌, ℕ, length, IfOk, IfErr};
ghost use Rattle.keep_local.specs.Shapes.{callers_of, top_of};
ghost use Rattle.clof_compose.specs.Roots.{IsFit, root_tag, trail_of};
ghost use Rattle.lock_levels.specs.Raised.{IsRaised};

use clof_compose::{Composed, Level, Own, Payload, Resting, Root, Top, TopPass};
use keep_local::Shape;
use lock_levels::{AnyLock, HasKinds, LevelOver, LowPass, TopOf, add_below, kind_at, make_top_of};
use lock_plan::Plan;
use lock_rules::{Pass, Refused};
use std::alloc::Global;

/// A composed lock whose levels are of kinds that a plan chooses, made from the top down.
///
/// `lower` is how many levels it has below its top: 0 of a `Lock1`, 4 of a `Lock5`.
pub trait Tiers<P: Payload>: HasKinds<P> + Drop {
    ghost lower: { ℕ };

    /// A lock for a shape, from this level up to the top, around a root. For want of memory the levels that were made are closed, and the
    /// root comes back.
    fn raise(
        alloc: Global,
        plan: &Plan,
        root: Root<P>,
        shape: &Shape,
        level: u32,
    ) -> Result<(Self, Vec<Self::Pass>), Refused<Root<P>>>
        requires kinds { length plan.now.kinds ≡ top_of shape.now + 1 }
        requires lower { level + lower ≡ top_of shape.now }
        requires callers { 0 < callers_of shape.now }
        requires fit { IsFit P.calls root }
        requires shape { (trail_of root).shape ≡ shape.now }
        ensures raised { IfOk result (λ m. IsRaised Self.Pass.rest (Self.has m.0) (Self.sound m.0) (Self.level m.0) (Self.count m.0)
            (Self.tag m.0) shape.now level (root_tag P.tag root) m.1.items) }
        ensures kinds { IfOk result (λ m. Self.has_kinds m.0 plan.now.kinds level) }
        ensures fit { IfErr result (λ r. IsFit P.calls r.value) }
        ensures tagged { IfErr result (λ r. root_tag P.tag r.value ≡ root_tag P.tag root) };
}

impl<P: Payload> Tiers<P> for Top<AnyLock<Root<P>>, Pass> {
    ghost lower = { 0 };

    fn raise(
        alloc: Global,
        plan: &Plan,
        root: Root<P>,
        shape: &Shape,
        level: u32,
    ) -> Result<(TopOf<P>, Vec<TopPass<Pass>>), Refused<Root<P>>>
        requires kinds { length plan.now.kinds ≡ top_of shape.now + 1 }
        requires lower { level + 0 ≡ top_of shape.now }
        requires callers { 0 < callers_of shape.now }
        requires fit { IsFit P.calls root }
        requires shape { (trail_of root).shape ≡ shape.now }
        ensures raised { IfOk result (λ m. IsRaised ⟦<TopPass<Pass> as Resting>⟧.rest (⟦<TopOf<P> as Composed<P>>⟧.has m.0)
            (⟦<TopOf<P> as Composed<P>>⟧.sound m.0) (⟦<TopOf<P> as Composed<P>>⟧.level m.0) (⟦<TopOf<P> as Composed<P>>⟧.count m.0)
            (⟦<TopOf<P> as Composed<P>>⟧.tag m.0) shape.now level (root_tag P.tag root) m.1.items) }
        ensures kinds { IfOk result (λ m. ⟦<TopOf<P> as HasKinds<P>>⟧.has_kinds m.0 plan.now.kinds level) }
        ensures fit { IfErr result (λ r. IsFit P.calls r.value) }
        ensures tagged { IfErr result (λ r. root_tag P.tag r.value ≡ root_tag P.tag root) }
    {
        make_top_of(alloc, plan, root, shape, level)
    }
}

impl<P: Payload, H: Tiers<P>> Tiers<P>
    for Level<AnyLock<Own<P, H::Pass, H::Held>>, H, Pass, H::Pass> {
    ghost lower = { H.lower + 1 };

    fn raise(
        alloc: Global,
        plan: &Plan,
        root: Root<P>,
        shape: &Shape,
        level: u32,
    ) -> Result<(LevelOver<P, H>, Vec<LowPass>), Refused<Root<P>>>
        requires kinds { length plan.now.kinds ≡ top_of shape.now + 1 }
        requires lower { level + (H.lower + 1) ≡ top_of shape.now }
        requires callers { 0 < callers_of shape.now }
        requires fit { IsFit P.calls root }
        requires shape { (trail_of root).shape ≡ shape.now }
        ensures raised { IfOk result (λ m. IsRaised ⟦<LowPass as Resting>⟧.rest (⟦<LevelOver<P, H> as Composed<P>>⟧.has m.0)
            (⟦<LevelOver<P, H> as Composed<P>>⟧.sound m.0) (⟦<LevelOver<P, H> as Composed<P>>⟧.level m.0)
            (⟦<LevelOver<P, H> as Composed<P>>⟧.count m.0) (⟦<LevelOver<P, H> as Composed<P>>⟧.tag m.0)
            shape.now level (root_tag P.tag root) m.1.items) }
        ensures kinds { IfOk result (λ m. ⟦<LevelOver<P, H> as HasKinds<P>>⟧.has_kinds m.0 plan.now.kinds level) }
        ensures fit { IfErr result (λ r. IsFit P.calls r.value) }
        ensures tagged { IfErr result (λ r. root_tag P.tag r.value ≡ root_tag P.tag root) }
    {
        let (high, passes) = H::raise(alloc, plan, root, shape, level + 1)?;
        add_below::<P, H>(alloc, kind_at(plan, level), shape, level, high, passes)
    }
}
