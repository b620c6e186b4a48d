//! The levels of a composed lock, of kinds that a plan chooses: the top, and one level more below any lock.
ghost use Rattle.std.specs.Prelude.{◌≡◌, ◌+◌, ◌<◌, ◌^◌, ℕ, length, slice_get, All, Some, IfOk, IfErr};
ghost use Rattle.keep_local.specs.Shapes.{IsWellFormed, callers_of, top_of};
ghost use Rattle.clof_compose.specs.Courses.{course_of};
ghost use Rattle.clof_compose.specs.Inside.{high_lock, node_locks};
ghost use Rattle.clof_compose.specs.Roots.{IsFit, root_tag, trail_of};
ghost use Rattle.lock_levels.specs.AnyKinds.{any_kind};
ghost use Rattle.lock_levels.specs.Raised.{IsRaised};

use crate::any_lock::AnyLock;
use crate::has_kinds::HasKinds;
use clof_compose::{
    Composed, Level, LevelPass, Own, Payload, Resting, Root, Top, TopPass, make_top,
};
use keep_local::Shape;
use lock_plan::{LockKind, Plan};
use lock_rules::{Pass, Refused};
use lock_shape::{add_level, contexts_at};
use std::alloc::Global;

/// The value of a node's basic lock below H.
pub type Owned<P, H> = Own<P, <H as Composed<P>>::Pass, <H as Composed<P>>::Held>;

/// A level below H, whose basic locks are of one of the four kinds.
pub type LevelOver<P, H> = Level<AnyLock<Owned<P, H>>, H, Pass, <H as Composed<P>>::Pass>;

/// The top lock, of one of the four kinds.
pub type TopOf<P> = Top<AnyLock<Root<P>>, Pass>;

/// A pass of a lock of more than one level.
pub type LowPass = LevelPass<Pass>;

/// The kind of a level.
pub fn kind_at(plan: &Plan, level: u32) -> LockKind
    requires { level < length plan.now.kinds }
    ensures { slice_get plan.now.kinds level ≡ Some result }
{
    plan.kinds.as_slice()[level as usize]
}

/// The top lock of a shape, around a root. It is refused for want of memory alone, and gives the root back.
pub fn make_top_of<P: Payload>(
    alloc: Global,
    plan: &Plan,
    root: Root<P>,
    shape: &Shape,
    level: u32,
) -> Result<(TopOf<P>, Vec<TopPass<Pass>>), Refused<Root<P>>>
    requires kinds { level < length plan.now.kinds }
    requires level { level ≡ top_of shape.now }
    requires callers { 0 < callers_of shape.now }
    requires fit { IsFit P.calls root }
    requires shape { (trail_of root).shape ≡ shape.now }
    ensures raised { IfOk result (λ m. IsRaised ⟦<TopPass<Pass> as Resting>⟧.rest (⟦<TopOf<P> as Composed<P>>⟧.has m.0)
        (⟦<TopOf<P> as Composed<P>>⟧.sound m.0) (⟦<TopOf<P> as Composed<P>>⟧.level m.0) (⟦<TopOf<P> as Composed<P>>⟧.count m.0)
        (⟦<TopOf<P> as Composed<P>>⟧.tag m.0) shape.now level (root_tag P.tag root) m.1.items) }
    ensures kinds { IfOk result (λ m. ⟦<TopOf<P> as HasKinds<P>>⟧.has_kinds m.0 plan.now.kinds level) }
    ensures refused { IfErr result (λ r. r.value ≡ root) }
{
    let contexts = contexts_at(shape, level) as u32;
    make_top::<P, AnyLock<Root<P>>>(alloc, kind_at(plan, level), level, contexts, root)
}

/// One level more, below a lock. For want of memory the lock is closed, and its root comes back.
pub fn add_below<P: Payload, H: Composed<P> + Drop>(
    alloc: Global,
    kind: LockKind,
    shape: &Shape,
    level: u32,
    high: H,
    passes: Vec<H::Pass>,
) -> Result<(LevelOver<P, H>, Vec<LowPass>), Refused<Root<P>>>
    requires raised { IsRaised H.Pass.rest (H.has high) (H.sound high) (H.level high) (H.count high) (H.tag high) shape.now (level + 1)
        (H.tag high) passes.items }
    requires level { level < top_of shape.now }
    requires shaped { IsWellFormed shape.now }
    requires few { callers_of shape.now < 2 ^ 32 }
    requires same { (course_of (H.tag high)).shape ≡ shape.now }
    ensures raised { IfOk result (λ m. IsRaised ⟦<LowPass as Resting>⟧.rest (⟦<LevelOver<P, H> as Composed<P>>⟧.has m.0)
        (⟦<LevelOver<P, H> as Composed<P>>⟧.sound m.0) (⟦<LevelOver<P, H> as Composed<P>>⟧.level m.0)
        (⟦<LevelOver<P, H> as Composed<P>>⟧.count m.0) (⟦<LevelOver<P, H> as Composed<P>>⟧.tag m.0) shape.now level (H.tag high)
        m.1.items) }
    ensures over { IfOk result (λ m. high_lock m.0 ≡ high) }
    ensures made { IfOk result (λ m. All (λ b. any_kind b ≡ kind) (node_locks m.0)) }
    ensures fit { IfErr result (λ r. IsFit P.calls r.value) }
    ensures tagged { IfErr result (λ r. root_tag P.tag r.value ≡ H.tag high) }
{
    match add_level::<P, H, AnyLock<Owned<P, H>>>(alloc, kind, level, shape, high, passes) {
        Ok(made) => Ok(made),
        Err(returned) => Err(Refused {
            value: returned.high.close(returned.passes),
        }),
    }
}
