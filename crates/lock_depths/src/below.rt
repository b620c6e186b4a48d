//! One level more, below a lock.
ghost use Rattle.std.specs.Prelude.{◌≡◌, ◌+◌, ◌<◌, ◌^◌, length, IfSome};
ghost use Rattle.keep_local.specs.Shapes.{IsWellFormed, callers_of, top_of};
ghost use Rattle.clof_compose.specs.Courses.{course_of};
ghost use Rattle.lock_levels.specs.Raised.{IsRaised};

use clof_compose::{Composed, Resting};
use keep_local::Shape;
use lock_levels::{HasKinds, LevelOver, LowPass, Plan, add_below, kind_at};
use own_payload::Noted;
use std::alloc::Global;

/// A level below a lock, of the kind that the plan has for it. `None` for want of memory.
pub fn level_below<H: HasKinds<Noted<()>> + Drop>(
    alloc: Global,
    plan: &Plan,
    shape: &Shape,
    level: u32,
    high: H,
    passes: Vec<H::Pass>,
) -> Option<(LevelOver<Noted<()>, H>, Vec<LowPass>)>
    requires raised { IsRaised H.Pass.rest (H.has high) (H.sound high) (H.level high) (H.count high) (H.tag high) shape.now (level + 1)
        (H.tag high) passes.items }
    requires kinds { H.has_kinds high plan.now.kinds (level + 1) }
    requires plan { length plan.now.kinds ≡ top_of shape.now + 1 }
    requires level { level < top_of shape.now }
    requires formed { IsWellFormed shape.now }
    requires few { callers_of shape.now < 2 ^ 32 }
    requires same { (course_of (H.tag high)).shape ≡ shape.now }
    ensures raised { IfSome result (λ m. IsRaised ⟦<LowPass as Resting>⟧.rest (⟦<LevelOver<Noted<()>, H> as Composed<Noted<()>>>⟧.has m.0)
        (⟦<LevelOver<Noted<()>, H> as Composed<Noted<()>>>⟧.sound m.0) (⟦<LevelOver<Noted<()>, H> as Composed<Noted<()>>>⟧.level m.0)
        (⟦<LevelOver<Noted<()>, H> as Composed<Noted<()>>>⟧.count m.0) (⟦<LevelOver<Noted<()>, H> as Composed<Noted<()>>>⟧.tag m.0)
        shape.now level (H.tag high) m.1.items) }
    ensures kinds { IfSome result (λ m. ⟦<LevelOver<Noted<()>, H> as HasKinds<Noted<()>>>⟧.has_kinds m.0 plan.now.kinds level) }
{
    let kind = kind_at(plan, level);
    let Ok(made) = add_below::<Noted<()>, H>(alloc, kind, shape, level, high, passes) else {
        return None;
    };
    Some(made)
}
