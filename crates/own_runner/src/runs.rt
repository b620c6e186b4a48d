//! Runs under a plan.
ghost use Rattle.std.specs.Prelude.{◌≡◌, ◌+◌, ◌<◌, ◌^◌, ℕ, true, false, length, sum, IfSome};
ghost use Rattle.lock_rules.specs.Tag.{leaf};
ghost use Rattle.keep_local.specs.Shapes.{IsWellFormed, callers_of, top_of};
ghost use Rattle.keep_local.specs.States.{free_quotas};
ghost use Rattle.clof_compose.specs.Roots.{IsFit, root_tag, trail_of};
ghost use Rattle.lock_rising.specs.Ready.{MayRise};
ghost use Rattle.own_payload.specs.Jobs.{EachEnded, EachMadeAll};
ghost use Rattle.own_runner.specs.Runs.{AreBrought};

use crate::rising::{run_deep, run_flat};
use clof_compose::Root;
use keep_local::{Shape, Share};
use lock_levels::Plan;
use lock_rising::Given;
use own_payload::{Always, Noted, Serves, new_root, new_unrecorded_root};
use std::alloc::Global;
use std::sync::Wait;
use std::thread::Threads;

/// Has the callers of a shape hold the lock of a plan around a value, each in a thread of its own and as often as its quota says, and has
/// `work` change the value in each hold, which is told the caller. It gives the root of the lock, which is taken apart. The answer is
/// `None` for want of memory.
pub fn run<T: Send + Sync + Drop, F: Fn(&mut T, u32) + Sync, R: Threads + Wait + Sync>(
    rt: &R,
    alloc: Global,
    plan: &Plan,
    shape: &Shape,
    quotas: &[u32],
    value: T,
    work: &F,
) -> Option<Root<Noted<T>>>
    requires plan { length plan.now.kinds ≡ top_of shape.now + 1 }
    requires levels { top_of shape.now < 5 }
    requires formed { IsWellFormed shape.now }
    requires some { 0 < callers_of shape.now }
    requires few { callers_of shape.now < 2 ^ 32 }
    requires quotas { length quotas.now ≡ callers_of shape.now }
    requires fits { sum quotas.now < 2 ^ 32 }
    requires callable { F.IsAlwaysCallable work.now }
    ensures fit { IfSome result (IsFit (λ n. n.calls.callers)) }
    ensures recorded { IfSome result (λ r. (trail_of r).recorded ≡ true) }
    ensures shape { IfSome result (λ r. (trail_of r).shape ≡ shape.now) }
    ensures quotas { IfSome result (λ r. (trail_of r).quotas ≡ quotas.now) }
    ensures made { IfSome result (λ r. EachMadeAll (trail_of r)) }
{
    let Some((root, shares)) = new_root(alloc, shape, quotas, value) else {
        return None;
    };
    let server = Always { work };
    let given = Given {
        rt,
        alloc,
        plan,
        shape,
        brought: shares,
        shared: &server,
    };
    run_given::<T, Always<'_, F>, R>(given, root)
}

/// Has the callers of a shape hold the lock of a plan around a value, each in a thread of its own, for each task that the server has for
/// them, until it has none. The lock's trail keeps no turns in memory, and a caller may hold as often as its equal part of 2^64 - 1 turns
/// says. It gives the root of the lock, which is taken apart. The answer is `None` for want of memory.
pub fn serve<T: Send + Sync + Drop, S: Serves<T> + Sync, R: Threads + Wait + Sync>(
    rt: &R,
    alloc: Global,
    plan: &Plan,
    shape: &Shape,
    value: T,
    server: &S,
) -> Option<Root<Noted<T>>>
where
    S::Task: Send,
    S::Answer: Send,
    requires plan { length plan.now.kinds ≡ top_of shape.now + 1 }
    requires levels { top_of shape.now < 5 }
    requires formed { IsWellFormed shape.now }
    requires some { 0 < callers_of shape.now }
    requires few { callers_of shape.now < 2 ^ 32 }
    requires asked { (caller : ℕ) → S.may server.now caller }
    ensures fit { IfSome result (IsFit (λ n. n.calls.callers)) }
    ensures recorded { IfSome result (λ r. (trail_of r).recorded ≡ false) }
    ensures shape { IfSome result (λ r. (trail_of r).shape ≡ shape.now) }
    ensures quotas { IfSome result (λ r. (trail_of r).quotas ≡ free_quotas (callers_of shape.now)) }
    ensures ended { IfSome result (λ r. EachEnded (S.stops server.now) (trail_of r)) }
{
    let Some((root, shares)) = new_unrecorded_root(alloc, shape, value) else {
        return None;
    };
    let given = Given {
        rt,
        alloc,
        plan,
        shape,
        brought: shares,
        shared: server,
    };
    run_given::<T, S, R>(given, root)
}

// A run around a root, under a lock of as many levels as the plan has.
fn run_given<'r, T: Send + Sync + Drop, S: Serves<T> + Sync, R: Threads + Wait + Sync>(
    given: Given<'r, Vec<Share>, R, S>,
    root: Root<Noted<T>>,
) -> Option<Root<Noted<T>>>
where
    S::Task: Send,
    S::Answer: Send,
    requires plan { length given.plan.now.kinds ≡ top_of given.shape.now + 1 }
    requires levels { top_of given.shape.now < 5 }
    requires callers { 0 < callers_of given.shape.now }
    requires fit { IsFit (λ n. n.calls.callers) root }
    requires shape { (trail_of root).shape ≡ given.shape.now }
    requires may { MayRise (root_tag (λ _. leaf 0) root) given.shape.now given.plan.now.kinds AreBrought given.brought }
    requires asked { (caller : ℕ) → S.may given.shared.now caller }
    ensures fit { IfSome result (IsFit (λ n. n.calls.callers)) }
    ensures tagged { IfSome result (λ r. root_tag (λ _. leaf 0) r ≡ root_tag (λ _. leaf 0) root) }
    ensures ended { IfSome result (λ r. EachEnded (S.stops given.entry.shared.now) (trail_of r)) }
{
    let top = given.plan.kinds.as_slice().len() - 1;
    if top == 0 {
        run_flat::<T, S, R>(given, root)
    } else {
        run_deep::<T, S, R>(given, root, top as u32)
    }
}
