//! Holds of a lock whose trail keeps no turns in memory.
ghost use Rattle.std.specs.Prelude.{◌≡◌, ◌+◌, ◌^◌, ◌<◌, ◌≤◌, length, IfSome};
ghost use Rattle.keep_local.specs.Shapes.{IsWellFormed, callers_of, top_of};

use crate::rising::{hold_deep, hold_flat};
use crate::shapes::two_by_two;
use keep_local::Shape;
use lock_levels::{LockKind, Plan};
use lock_rising::Given;
use own_payload::new_unrecorded_root;
use sequence::Sequence;
use std::alloc::Global;
use std::sync::Wait;
use std::thread::Threads;

/// Up to four callers hold a lock of these kinds, each in a thread of its own and so often. The answer is how many holds they have
/// counted, or `None` for want of memory, and where there is no level, or more than five.
pub(crate) fn hold_unrecorded<R: Threads + Wait + Sync>(
    rt: &R,
    alloc: Global,
    kinds: &[LockKind],
    keep: u32,
    threads: usize,
    holds: u32,
) -> Option<u64>
    requires some { 0 < threads }
    requires few { threads ≤ 4 }
{
    let shape = two_by_two(alloc, kinds.len(), keep, threads)?;
    let plan = plan_of(alloc, kinds, &shape)?;
    run_plan(rt, alloc, &plan, &shape, holds)
}

// A plan of these kinds with the keeps of the shape. Its depths are left out, since a lock is made without them.
fn plan_of(alloc: Global, kinds: &[LockKind], shape: &Shape) -> Option<Plan>
    ensures { IfSome result (λ p. p.kinds ≡ kinds.now) }
{
    let list = Vec::from_slice(alloc, kinds).ok()?;
    let keeps = Vec::from_slice(alloc, shape.keeps.as_slice()).ok()?;
    Some(Plan {
        depths: Sequence::from_vec(Vec::new(alloc)),
        kinds: Sequence::from_vec(list),
        keeps: Sequence::from_vec(keeps),
    })
}

// The callers of a shape hold the lock of a plan so often.
fn run_plan<R: Threads + Wait + Sync>(
    rt: &R,
    alloc: Global,
    plan: &Plan,
    shape: &Shape,
    holds: u32,
) -> Option<u64>
    requires plan { length plan.now.kinds ≡ top_of shape.now + 1 }
    requires levels { top_of shape.now < 5 }
    requires formed { IsWellFormed shape.now }
    requires some { 0 < callers_of shape.now }
    requires few { callers_of shape.now < 2 ^ 32 }
{
    let Some((root, shares)) = new_unrecorded_root(alloc, shape, 0_u64) else {
        return None;
    };
    let given = Given {
        rt,
        alloc,
        plan,
        shape,
        brought: shares,
        shared: &holds,
    };
    let top = plan.kinds.as_slice().len() - 1;
    if top == 0 {
        hold_flat::<R>(given, root)
    } else {
        hold_deep::<R>(given, root, top as u32)
    }
}
