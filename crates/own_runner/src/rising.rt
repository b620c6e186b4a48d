//! A run under the lock of a plan, which is made from the top down.
ghost use Rattle.std.specs.Prelude.{◌≡◌, ◌<◌, ◌≤◌, ℕ, IfSome};
ghost use Rattle.lock_rules.specs.Tag.{leaf};
ghost use Rattle.keep_local.specs.Shapes.{callers_of, top_of};
ghost use Rattle.clof_compose.specs.Roots.{IsFit, root_tag, trail_of};
ghost use Rattle.lock_rising.specs.Ready.{MayRise};
ghost use Rattle.own_payload.specs.Jobs.{EachEnded};
ghost use Rattle.own_runner.specs.Runs.{AreBrought};

use crate::tasked::Tasked;
use clof_compose::{Root, TopPass};
use keep_local::Share;
use lock_levels::LowPass;
use lock_rising::{Given, rise, rise_flat};
use lock_rules::Pass;
use own_payload::{Job, Noted, Serves};
use std::sync::Wait;
use std::thread::Threads;

/// A run under a lock of one level.
pub(crate) fn run_flat<'r, T: Send + Sync + Drop, S: Serves<T> + Sync, R: Threads + Wait + Sync>(
    given: Given<'r, Vec<Share>, R, S>,
    root: Root<Noted<T>>,
) -> Option<Root<Noted<T>>>
where
    S::Task: Send,
    S::Answer: Send,
    requires top { top_of given.shape.now ≡ 0 }
    requires callers { 0 < callers_of given.shape.now }
    requires fit { IsFit (λ n. n.calls.callers) root }
    requires shape { (trail_of root).shape ≡ given.shape.now }
    requires may { MayRise (root_tag (λ _. leaf 0) root) given.shape.now given.plan.now.kinds AreBrought given.brought }
    requires asked { (caller : ℕ) → S.may given.shared.now caller }
    ensures fit { IfSome result (IsFit (λ n. n.calls.callers)) }
    ensures tagged { IfSome result (λ r. root_tag (λ _. leaf 0) r ≡ root_tag (λ _. leaf 0) root) }
    ensures ended { IfSome result (λ r. EachEnded (S.stops given.entry.shared.now) (trail_of r)) }
{
    match rise_flat::<Noted<T>, (), Job<TopPass<Pass>>, Vec<Share>, Root<Noted<T>>, S, Tasked, R>(
        given, root,
    ) {
        Ok(root) => Some(root),
        Err(_) => None,
    }
}

/// A run under a lock of two to five levels.
pub(crate) fn run_deep<'r, T: Send + Sync + Drop, S: Serves<T> + Sync, R: Threads + Wait + Sync>(
    given: Given<'r, Vec<Share>, R, S>,
    root: Root<Noted<T>>,
    top: u32,
) -> Option<Root<Noted<T>>>
where
    S::Task: Send,
    S::Answer: Send,
    requires top { top_of given.shape.now ≡ top }
    requires some { 0 < top }
    requires most { top ≤ 4 }
    requires callers { 0 < callers_of given.shape.now }
    requires fit { IsFit (λ n. n.calls.callers) root }
    requires shape { (trail_of root).shape ≡ given.shape.now }
    requires may { MayRise (root_tag (λ _. leaf 0) root) given.shape.now given.plan.now.kinds AreBrought given.brought }
    requires asked { (caller : ℕ) → S.may given.shared.now caller }
    ensures fit { IfSome result (IsFit (λ n. n.calls.callers)) }
    ensures tagged { IfSome result (λ r. root_tag (λ _. leaf 0) r ≡ root_tag (λ _. leaf 0) root) }
    ensures ended { IfSome result (λ r. EachEnded (S.stops given.entry.shared.now) (trail_of r)) }
{
    match rise::<Noted<T>, (), Job<LowPass>, Vec<Share>, Root<Noted<T>>, S, Tasked, R>(
        given, root, top,
    ) {
        Ok(root) => Some(root),
        Err(_) => None,
    }
}
