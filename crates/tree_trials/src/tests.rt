//! What the tests share.
ghost use Rattle.std.specs.Prelude.{◌^◌, ◌<◌, sum};
ghost use Rattle.std.specs.Bool.{OnTrue};

mod any_lock;
mod cohorts;
mod made;
mod own;
mod steps;
mod threads;
mod walks;

use clof_compose::Root;
use keep_local::{Turn, is_lawful};
use level_harness::{Roll, Stood, shape_of};
use lock_levels::LockKind;
use std::alloc::Global;
use std::process::Abort;
use std::sync::Wait;
use std::thread::Threads;
use tree_harness::{End, Outcome, Trial, try_lock};

/// What a lock is made of: the kinds of the levels, the paths of the callers, the keeps of the levels below the top, and how many turns
/// each caller makes.
#[derive(Clone, Copy)]
pub(crate) struct Setting {
    pub(crate) kinds: &'static [LockKind],
    pub(crate) paths: &'static [&'static [u32]],
    pub(crate) keeps: &'static [u32],
    pub(crate) quotas: &'static [u32],
}

/// A walk: its lock, the callers that make a step each before the rounds, where each of them stands behind it, the turns in their order,
/// and the tests that the callers' passes tell at the end.
#[derive(Clone, Copy)]
pub(crate) struct Walk {
    pub(crate) setting: Setting,
    pub(crate) order: &'static [usize],
    pub(crate) stood: &'static [Stood],
    pub(crate) turns: &'static [TurnRow],
    pub(crate) told: &'static [u32],
}

/// One row of a table of turns: the caller, the climb, the tests, and the level left at.
pub(crate) type TurnRow = (u32, u32, u32, u32);

/// Whether a turn is that of a row.
pub(crate) fn is_turn(turn: Turn, (caller, climb, tests, left): TurnRow) -> bool {
    turn.caller == caller && turn.climb == climb && turn.tests == tests && turn.left == left
}

/// Whether the turns are those of a table.
fn are_turns(turns: &[Turn], rows: &[TurnRow]) -> bool {
    if turns.len() != rows.len() {
        return false;
    }
    for (place, turn) in turns.iter().enumerate() {
        if !is_turn(*turn, rows[place]) {
            return false;
        }
    }
    true
}

/// The turns that the trail of a root has in memory, none where it isn't recorded.
pub(crate) fn turns_in(root: &Root<Roll>) -> &[Turn] {
    let trail = root.trail();
    if trail.is_recorded() {
        trail.turns()
    } else {
        &[]
    }
}

/// Whether the turns are lawful by the plain checker, and the roll has a call of each one's caller, in order.
pub(crate) fn is_of_its_turns(root: &Root<Roll>) -> bool {
    let turns = turns_in(root);
    let callers = root.payload().callers.get().as_slice();
    is_lawful(root.trail().shape(), turns) && are_by(turns, callers)
}

/// Whether the turns are of these callers, in order.
fn are_by(turns: &[Turn], callers: &[u32]) -> bool {
    if turns.len() != callers.len() {
        return false;
    }
    for (place, turn) in turns.iter().enumerate() {
        if turn.caller != callers[place] {
            return false;
        }
    }
    true
}

/// Checks that the turns are those of the table, and that the rest of the root fits them.
pub(crate) fn has_turns(rt: &impl Abort, root: &Root<Roll>, turns: &[TurnRow]) {
    assert!(rt; are_turns(turns_in(root), turns) && is_of_its_turns(root));
}

/// Checks that a walk was made, in which callers stood so behind their steps, and whose passes told these tests at its end.
pub(crate) fn has_walked(rt: &impl Abort, end: &End, stood: &[Stood], tests: &[u32]) {
    let End::Walked {
        stood: places,
        told,
    } = end
    else {
        panic!(rt; "no walk was made")
    };
    assert!(rt; places.as_slice() == stood && told.as_slice() == tests);
}

/// Whether the quotas add up to less than 2^32.
fn fits(quotas: &[u32]) -> bool
    ensures { OnTrue result (sum quotas.now < 2 ^ 32) }
{
    let mut total: u64 = 0;
    for quota in quotas {
        total += u64::from(*quota);
        if total >= 1 << 32 {
            return false;
        }
    }
    true
}

/// The callers of a setting have a trial of its lock. The answer is `None` where there is no such lock, and for want of memory.
pub(crate) fn tried<R: Threads + Wait + Sync>(
    rt: &R,
    alloc: Global,
    setting: Setting,
    trial: Trial<'_>,
) -> Option<Outcome<Roll>> {
    let (levels, callers) = (setting.kinds.len(), setting.paths.len());
    let shape = shape_of(alloc, setting.paths, setting.keeps)?;
    if !shape.is_well_formed() || levels > 5 || levels != setting.keeps.len() + 1 {
        return None;
    }
    if callers > 100 || callers != setting.quotas.len() || !fits(setting.quotas) {
        return None;
    }
    try_lock(rt, alloc, setting.kinds, shape, setting.quotas, trial)
}

/// Checks walks.
pub(crate) fn walks_each<R: Threads + Wait + Sync + Abort>(rt: &R, alloc: Global, walks: &[Walk]) {
    for walk in walks {
        let Some(outcome) = tried(rt, alloc, walk.setting, Trial::Walk(walk.order)) else {
            panic!(rt; "the lock could not be made")
        };
        has_turns(rt, &outcome.root, walk.turns);
        has_walked(rt, &outcome.end, walk.stood, walk.told);
    }
}
