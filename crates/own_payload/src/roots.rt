//! What a lock is made around.
ghost use Rattle.std.specs.Prelude.{◌≡◌, ◌^◌, ◌<◌, true, false, length, sum, IfOk, IfSome};
ghost use Rattle.lock_rules.specs.Tag.{leaf};
ghost use Rattle.keep_local.specs.Shapes.{IsWellFormed, callers_of};
ghost use Rattle.keep_local.specs.States.{free_quotas, new_shares};
ghost use Rattle.clof_compose.specs.Courses.{course_of};
ghost use Rattle.clof_compose.specs.Roots.{IsFit, root_tag, payload_of, trail_of};

use crate::noted::Noted;
use clof_compose::Root;
use keep_local::{Shape, Share, Trail};
use sequence::Sequence;
use std::alloc::{AllocError, Global};

/// A root with this value and a trail without turns, for the callers of a shape, and a share for each caller, in order, who may hold as
/// often as its quota says. The answer is `None` for want of memory.
pub fn new_root<T: Drop>(
    alloc: Global,
    shape: &Shape,
    quotas: &[u32],
    value: T,
) -> Option<(Root<Noted<T>>, Vec<Share>)>
    requires shaped { IsWellFormed shape.now }
    requires few { callers_of shape.now < 2 ^ 32 }
    requires quotas { length quotas.now ≡ callers_of shape.now }
    requires fits { sum quotas.now < 2 ^ 32 }
    ensures fit { IfSome result (λ m. IsFit (λ n. n.calls.callers) m.0) }
    ensures value { IfSome result (λ m. (payload_of m.0).value ≡ value) }
    ensures recorded { IfSome result (λ m. (trail_of m.0).recorded ≡ true) }
    ensures shape { IfSome result (λ m. (trail_of m.0).shape ≡ shape.now) }
    ensures quotas { IfSome result (λ m. (trail_of m.0).quotas ≡ quotas.now) }
    ensures shares { IfSome result (λ m. m.1.items ≡ new_shares (course_of (root_tag (λ _. leaf 0) m.0)).name quotas.now) }
{
    let Ok(own) = copied(alloc, shape) else {
        return None;
    };
    let Ok((trail, shares)) = Trail::reserve(alloc, own, quotas) else {
        return None;
    };
    Some((Root::new(trail, Noted::new(value)), shares))
}

/// The same with a trail that keeps no turns in memory, for callers who hold again and again: each may hold as often as its equal part of
/// 2^64 - 1 turns says. The answer is `None` for want of memory.
pub fn new_unrecorded_root<T: Drop>(
    alloc: Global,
    shape: &Shape,
    value: T,
) -> Option<(Root<Noted<T>>, Vec<Share>)>
    requires shaped { IsWellFormed shape.now }
    requires few { callers_of shape.now < 2 ^ 32 }
    ensures fit { IfSome result (λ m. IsFit (λ n. n.calls.callers) m.0) }
    ensures value { IfSome result (λ m. (payload_of m.0).value ≡ value) }
    ensures recorded { IfSome result (λ m. (trail_of m.0).recorded ≡ false) }
    ensures shape { IfSome result (λ m. (trail_of m.0).shape ≡ shape.now) }
    ensures quotas { IfSome result (λ m. (trail_of m.0).quotas ≡ free_quotas (callers_of shape.now)) }
    ensures shares { IfSome result (λ m. m.1.items ≡ new_shares (course_of (root_tag (λ _. leaf 0) m.0)).name
        (free_quotas (callers_of shape.now))) }
{
    let Ok(own) = copied(alloc, shape) else {
        return None;
    };
    let Ok((trail, shares)) = Trail::unrecorded(alloc, own) else {
        return None;
    };
    Some((Root::new(trail, Noted::new(value)), shares))
}

// The same shape once more, which the trail keeps.
fn copied(alloc: Global, shape: &Shape) -> Result<Shape, AllocError>
    ensures { IfOk result (λ copy. copy ≡ shape.now) }
{
    let mut paths = Vec::with_capacity(alloc, shape.paths.as_slice().len())?;
    for path in shape.paths.as_slice() {
        paths.push(Sequence::from_vec(Vec::from_slice(alloc, path.as_slice())?))?;
    }
    Ok(Shape {
        paths: Sequence::from_vec(paths),
        keeps: Sequence::from_vec(Vec::from_slice(alloc, shape.keeps.as_slice())?),
    })
}
