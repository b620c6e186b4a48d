//! A trial of a lock, from its making to its end.
ghost use Rattle.std.specs.Prelude.{◌≡◌, ◌+◌, ◌^◌, ◌<◌, length, sum, true, IfSome};
ghost use Rattle.keep_local.specs.Shapes.{IsWellFormed, callers_of, top_of};
ghost use Rattle.clof_compose.specs.Roots.{IsFit, trail_of};

use crate::given::{Brought, Trial};
use crate::outcome::Outcome;
use crate::rising::{try_deep, try_flat};
use crate::start::{Start, make_start};
use keep_local::Shape;
use level_harness::Roll;
use lock_levels::LockKind;
use lock_rising::Given;
use std::alloc::Global;
use std::sync::Wait;
use std::thread::Threads;

/// The callers of a shape, each with as many turns as its quota, have a trial of a lock whose levels have these kinds. Where there is no
/// memory for the lock, its root comes back all the same. The answer is `None` for want of memory for what the lock is made of or for the
/// trial, and where the shape has no callers.
pub fn try_lock<R: Threads + Wait + Sync>(
    rt: &R,
    alloc: Global,
    kinds: &[LockKind],
    shape: Shape,
    quotas: &[u32],
    trial: Trial<'_>,
) -> Option<Outcome<Roll>>
    requires shaped { IsWellFormed shape }
    requires few { callers_of shape < 2 ^ 32 }
    requires kinds { length kinds.now ≡ top_of shape + 1 }
    requires levels { top_of shape < 5 }
    requires quotas { length quotas.now ≡ callers_of shape }
    requires fits { sum quotas.now < 2 ^ 32 }
    ensures fit { IfSome result (λ o. IsFit (λ r. r.callers.items) o.root) }
    ensures shape { IfSome result (λ o. (trail_of o.root).shape ≡ shape) }
    ensures quotas { IfSome result (λ o. (trail_of o.root).quotas ≡ quotas.now) }
    ensures recorded { IfSome result (λ o. (trail_of o.root).recorded ≡ true) }
{
    if quotas.is_empty() {
        return None;
    }
    let Some(start) = make_start(alloc, kinds, shape, quotas) else {
        return None;
    };
    let Start {
        plan,
        shape,
        root,
        shares,
    } = start;
    let nothing = ();
    let given = Given {
        rt,
        alloc,
        plan: &plan,
        shape: &shape,
        brought: Brought { shares, trial },
        shared: &nothing,
    };
    let top = kinds.len() - 1;
    if top == 0 {
        try_flat::<R>(given, root)
    } else {
        try_deep::<R>(given, root, top as u32)
    }
}
