//! Callers in threads of their own. In which order they come is up to the machine.
use super::{Setting, has_turns, is_of_its_turns, tried, turns_in};
use clof_compose::Root;
use keep_local::Turn;
use level_harness::Roll;
use lock_levels::LockKind::{Clh, Hem, Mcs, Tkt};
use std::alloc::Global;
use std::process::Abort;
use std::sync::Wait;
use std::thread::Threads;
use tree_harness::Trial;

/// How often each thread holds the lock.
const HOLDS: u32 = 1000;

/// Checks that the turns are lawful by the plain checker, that the calls are theirs, and that each caller has made so many holds.
fn has_all(rt: &impl Abort, root: &Root<Roll>, callers: u32) {
    let turns = turns_in(root);
    assert!(rt; is_of_its_turns(root) && turns.len() == callers as usize * HOLDS as usize);
    for caller in 0..callers {
        assert!(rt; holds_of(turns, caller) == HOLDS, "of caller {caller}");
    }
}

/// How many of the turns are a caller's.
fn holds_of(turns: &[Turn], caller: u32) -> u32 {
    let mut holds: u32 = 0;
    for turn in turns {
        if turn.caller == caller {
            holds = holds.wrapping_add(1);
        }
    }
    holds
}

/// Checks that these callers make all their holds under each lock.
fn hold_each<R: Threads + Wait + Sync + Abort>(
    rt: &R,
    alloc: Global,
    settings: &[Setting],
    callers: u32,
) {
    for setting in settings {
        let Some(outcome) = tried(rt, alloc, *setting, Trial::Hold) else {
            panic!(rt; "the lock could not be made")
        };
        has_all(rt, &outcome.root, callers);
    }
}

/// Two callers of a lock of one level.
const ONE_LEVEL: &[Setting] = &[
    Setting {
        kinds: &[Tkt],
        paths: &[&[0], &[0]],
        keeps: &[],
        quotas: &[HOLDS; 2],
    },
    Setting {
        kinds: &[Mcs],
        paths: &[&[0], &[0]],
        keeps: &[],
        quotas: &[HOLDS; 2],
    },
    Setting {
        kinds: &[Clh],
        paths: &[&[0], &[0]],
        keeps: &[],
        quotas: &[HOLDS; 2],
    },
    Setting {
        kinds: &[Hem],
        paths: &[&[0], &[0]],
        keeps: &[],
        quotas: &[HOLDS; 2],
    },
];

#[test]
fn two_threads_hold_one_level_of_each_kind(rt: HostRuntime) {
    hold_each(&rt, rt.alloc(), ONE_LEVEL, 2);
}

/// Two cohorts of two callers each under one to five levels. They meet at the top, and of five levels at the third.
const EACH_NUMBER: &[Setting] = &[
    Setting {
        kinds: &[Clh],
        paths: &[&[0], &[0], &[0], &[0]],
        keeps: &[],
        quotas: &[HOLDS; 4],
    },
    Setting {
        kinds: &[Mcs, Clh],
        paths: &[&[0, 0], &[0, 0], &[1, 0], &[1, 0]],
        keeps: &[9],
        quotas: &[HOLDS; 4],
    },
    Setting {
        kinds: &[Tkt, Hem, Mcs],
        paths: &[&[0, 0, 0], &[0, 0, 0], &[1, 1, 0], &[1, 1, 0]],
        keeps: &[9; 2],
        quotas: &[HOLDS; 4],
    },
    Setting {
        kinds: &[Hem, Hem, Tkt, Clh],
        paths: &[&[0, 0, 0, 0], &[0, 0, 0, 0], &[1, 1, 1, 0], &[1, 1, 1, 0]],
        keeps: &[9; 3],
        quotas: &[HOLDS; 4],
    },
    Setting {
        kinds: &[Clh, Tkt, Hem, Mcs, Hem],
        paths: &[
            &[0, 0, 0, 0, 0],
            &[0, 0, 0, 0, 0],
            &[1, 1, 0, 0, 0],
            &[1, 1, 0, 0, 0],
        ],
        keeps: &[9; 4],
        quotas: &[HOLDS; 4],
    },
];

#[test]
fn four_threads_hold_each_number_of_levels(rt: HostRuntime) {
    hold_each(&rt, rt.alloc(), EACH_NUMBER, 4);
}

/// One caller alone climbs to the top at each hold, and leaves there.
#[test]
fn one_caller_holds_five_levels_twice(rt: HostRuntime) {
    let setting = Setting {
        kinds: &[Tkt; 5],
        paths: &[&[0, 0, 0, 0, 0]],
        keeps: &[1; 4],
        quotas: &[2],
    };
    let Some(outcome) = tried(&rt, rt.alloc(), setting, Trial::Hold) else {
        panic!(rt; "the lock could not be made")
    };
    has_turns(&rt, &outcome.root, &[(0, 4, 0, 4), (0, 4, 0, 4)]);
}
