//! What a trial makes a lock of.
ghost use Rattle.std.specs.Prelude.{◌≡◌, ◌^◌, ◌<◌, length, sum, IfSome};
ghost use Rattle.keep_local.specs.Shapes.{IsWellFormed, callers_of};
ghost use Rattle.keep_local.specs.States.{new_shares};
ghost use Rattle.clof_compose.specs.Courses.{course_of};
ghost use Rattle.clof_compose.specs.Roots.{IsFit, root_tag, trail_of};
ghost use Rattle.level_harness.specs.Rooms.{HasRoom, roll_tag};

use clof_compose::Root;
use keep_local::{Shape, Share, Trail};
use level_harness::{Roll, copy_of};
use lock_levels::{LockKind, Plan};
use sequence::Sequence;
use std::alloc::Global;

/// A plan, the shape of its callers, a root of this shape, and the shares of its trail.
#[derive(Drop)]
pub struct Start {
    pub plan: Plan,
    pub shape: Shape,
    pub root: Root<Roll>,
    pub shares: Vec<Share>,
}

/// A plan of these kinds for a shape, with a new trail of these quotas and a roll that has room for all turns. The answer is `None` for
/// want of memory.
pub fn make_start(alloc: Global, kinds: &[LockKind], shape: Shape, quotas: &[u32]) -> Option<Start>
    requires shaped { IsWellFormed shape }
    requires few { callers_of shape < 2 ^ 32 }
    requires quotas { length quotas.now ≡ callers_of shape }
    requires fits { sum quotas.now < 2 ^ 32 }
    ensures kinds { IfSome result (λ s. s.plan.kinds ≡ kinds.now) }
    ensures shape { IfSome result (λ s. s.shape ≡ shape) }
    ensures fit { IfSome result (λ s. IsFit (λ r. r.callers.items) s.root) }
    ensures same { IfSome result (λ s. (trail_of s.root).shape ≡ shape) }
    ensures quotas { IfSome result (λ s. (trail_of s.root).quotas ≡ quotas.now) }
    ensures shares { IfSome result (λ s. s.shares.items ≡ new_shares (course_of (root_tag roll_tag s.root)).name
        (course_of (root_tag roll_tag s.root)).quotas) }
    ensures room { IfSome result (λ s. HasRoom (course_of (root_tag roll_tag s.root))) }
{
    let plan = plan_of(alloc, kinds, &shape)?;
    let same = copy_of(alloc, &shape)?;
    let room: u32 = quotas.iter().sum();
    let Ok(roll) = Roll::reserve(alloc, room as usize) else {
        return None;
    };
    let Ok((trail, shares)) = Trail::reserve(alloc, shape, quotas) else {
        return None;
    };
    let root = Root::new(trail, roll);
    Some(Start {
        plan,
        shape: same,
        root,
        shares,
    })
}

// A plan of these kinds with the keeps of the shape. Its depths are left out, since a lock is made without them.
fn plan_of(alloc: Global, kinds: &[LockKind], shape: &Shape) -> Option<Plan>
    ensures { IfSome result (λ p. p.kinds ≡ kinds.now) }
{
    let list = Vec::from_slice(alloc, kinds).ok()?;
    let keeps = Vec::from_slice(alloc, shape.keeps.as_slice()).ok()?;
    Some(Plan {
        depths: Sequence::from_vec(Vec::new(alloc)),
        kinds: Sequence::from_vec(list),
        keeps: Sequence::from_vec(keeps),
    })
}
