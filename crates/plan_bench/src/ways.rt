//! What is told of a run, in each way to hold a lock.
ghost use Rattle.std.specs.Prelude.{◌<◌, ◌≤◌};

use crate::recorded::hold_recorded;
use crate::unrecorded::hold_unrecorded;
use anyhow::{Context, bail};
use level_harness::Roll;
use lock_levels::LockKind;
use std::alloc::Global;
use std::sync::Wait;
use std::thread::Threads;
use tree_harness::{End, Outcome};

/// How a lock is held.
#[derive(Clone, Copy)]
pub(crate) enum Way {
    /// Its trail keeps the turns in memory, and a list the callers of the holds.
    Recorded,
    /// Its trail keeps no turns, and its value counts the holds.
    Free,
}

/// The way that a word names.
pub(crate) fn way_named(word: &str) -> Option<Way> {
    match word {
        "recorded" => Some(Way::Recorded),
        "free" => Some(Way::Free),
        _ => None,
    }
}

/// How many turns the trail of a lock has in memory, and how many calls its payload has noted, behind all holds.
pub(crate) fn counts<R: Threads + Wait + Sync>(
    rt: &R,
    alloc: Global,
    way: Way,
    kinds: &[LockKind],
    keep: u32,
    threads: usize,
    holds: u32,
) -> anyhow::Result<(usize, u64)>
    requires some { 0 < threads }
    requires few { threads ≤ 4 }
{
    match way {
        Way::Recorded => {
            let outcome = hold_recorded(rt, alloc, kinds, keep, threads, holds).context(
                "there was no memory, or these are too many levels or holds",
            )?;
            recorded(outcome)
        }
        Way::Free => {
            let count = hold_unrecorded(rt, alloc, kinds, keep, threads, holds).context(
                "there was no memory, or these are too many levels",
            )?;
            Ok((0, count))
        }
    }
}

// What a lock left whose trail keeps its turns, or that there was no memory for it.
fn recorded(outcome: Outcome<Roll>) -> anyhow::Result<(usize, u64)> {
    let Outcome { root, end } = outcome;
    let (trail, roll) = root.into_parts();
    let turns = if trail.is_recorded() {
        trail.turns().len()
    } else {
        0
    };
    let calls = roll.callers.get().len() as u64;
    match end {
        End::Walked { .. } | End::Done => Ok((turns, calls)),
        End::Refused => bail!(
            "there was no memory for the lock; its root came back with {turns} turns and {calls} calls"
        ),
    }
}
