//! A trial under the lock of a plan, which is made from the top down.
ghost use Rattle.std.specs.Prelude.{◌≡◌, ◌<◌, ◌≤◌, IfSome};
ghost use Rattle.keep_local.specs.Shapes.{callers_of, top_of};
ghost use Rattle.clof_compose.specs.Roots.{IsFit, root_tag, trail_of};
ghost use Rattle.level_harness.specs.Rooms.{roll_tag};
ghost use Rattle.lock_rising.specs.Ready.{MayRise};
ghost use Rattle.tree_harness.specs.Ready.{IsBrought};

use crate::given::Brought;
use crate::outcome::Outcome;
use crate::tried::Tried;
use clof_compose::{Root, TopPass};
use level_harness::{Job, Roll};
use lock_levels::LowPass;
use lock_rising::{Given, rise, rise_flat};
use lock_rules::Pass;
use std::sync::Wait;
use std::thread::Threads;

/// A trial of a lock of one level.
pub(crate) fn try_flat<'r, 't, R: Threads + Wait + Sync>(
    given: Given<'r, Brought<'t>, R, ()>,
    root: Root<Roll>,
) -> Option<Outcome<Roll>>
    requires top { top_of given.shape.now ≡ 0 }
    requires callers { 0 < callers_of given.shape.now }
    requires fit { IsFit (λ r. r.callers.items) root }
    requires shape { (trail_of root).shape ≡ given.shape.now }
    requires may { MayRise (root_tag roll_tag root) given.shape.now given.plan.now.kinds IsBrought given.brought }
    ensures fit { IfSome result (λ o. IsFit (λ r. r.callers.items) o.root) }
    ensures tagged { IfSome result (λ o. root_tag roll_tag o.root ≡ root_tag roll_tag root) }
{
    match rise_flat::<Roll, (), Job<TopPass<Pass>>, Brought<'t>, Outcome<Roll>, (), Tried, R>(
        given, root,
    ) {
        Ok(outcome) => Some(outcome),
        Err(_) => None,
    }
}

/// A trial of a lock of two to five levels.
pub(crate) fn try_deep<'r, 't, R: Threads + Wait + Sync>(
    given: Given<'r, Brought<'t>, R, ()>,
    root: Root<Roll>,
    top: u32,
) -> Option<Outcome<Roll>>
    requires top { top_of given.shape.now ≡ top }
    requires some { 0 < top }
    requires most { top ≤ 4 }
    requires callers { 0 < callers_of given.shape.now }
    requires fit { IsFit (λ r. r.callers.items) root }
    requires shape { (trail_of root).shape ≡ given.shape.now }
    requires may { MayRise (root_tag roll_tag root) given.shape.now given.plan.now.kinds IsBrought given.brought }
    ensures fit { IfSome result (λ o. IsFit (λ r. r.callers.items) o.root) }
    ensures tagged { IfSome result (λ o. root_tag roll_tag o.root ≡ root_tag roll_tag root) }
{
    match rise::<Roll, (), Job<LowPass>, Brought<'t>, Outcome<Roll>, (), Tried, R>(
        given, root, top,
    ) {
        Ok(outcome) => Some(outcome),
        Err(_) => None,
    }
}
