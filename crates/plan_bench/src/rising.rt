//! Holds under the lock of a plan, which is made from the top down.
ghost use Rattle.std.specs.Prelude.{◌≡◌, ◌<◌, ◌≤◌};
ghost use Rattle.lock_rules.specs.Tag.{leaf};
ghost use Rattle.keep_local.specs.Shapes.{callers_of, top_of};
ghost use Rattle.clof_compose.specs.Roots.{IsFit, root_tag, trail_of};
ghost use Rattle.lock_rising.specs.Ready.{MayRise};
ghost use Rattle.own_runner.specs.Runs.{AreBrought};

use crate::repeated::Repeated;
use clof_compose::{Root, TopPass};
use keep_local::Share;
use lock_levels::LowPass;
use lock_rising::{Given, rise, rise_flat};
use lock_rules::Pass;
use own_payload::{Job, Noted};
use std::sync::Wait;
use std::thread::Threads;

/// Holds of a lock of one level.
pub(crate) fn hold_flat<'r, R: Threads + Wait + Sync>(
    given: Given<'r, Vec<Share>, R, u32>,
    root: Root<Noted<u64>>,
) -> Option<u64>
    requires top { top_of given.shape.now ≡ 0 }
    requires callers { 0 < callers_of given.shape.now }
    requires fit { IsFit (λ n. n.calls.callers) root }
    requires shape { (trail_of root).shape ≡ given.shape.now }
    requires may { MayRise (root_tag (λ _. leaf 0) root) given.shape.now given.plan.now.kinds AreBrought given.brought }
{
    match rise_flat::<Noted<u64>, (), Job<TopPass<Pass>>, Vec<Share>, u64, u32, Repeated, R>(
        given, root,
    ) {
        Ok(count) => Some(count),
        Err(_) => None,
    }
}

/// Holds of a lock of two to five levels.
pub(crate) fn hold_deep<'r, R: Threads + Wait + Sync>(
    given: Given<'r, Vec<Share>, R, u32>,
    root: Root<Noted<u64>>,
    top: u32,
) -> Option<u64>
    requires top { top_of given.shape.now ≡ top }
    requires some { 0 < top }
    requires most { top ≤ 4 }
    requires callers { 0 < callers_of given.shape.now }
    requires fit { IsFit (λ n. n.calls.callers) root }
    requires shape { (trail_of root).shape ≡ given.shape.now }
    requires may { MayRise (root_tag (λ _. leaf 0) root) given.shape.now given.plan.now.kinds AreBrought given.brought }
{
    match rise::<Noted<u64>, (), Job<LowPass>, Vec<Share>, u64, u32, Repeated, R>(
        given, root, top,
    ) {
        Ok(count) => Some(count),
        Err(_) => None,
    }
}
