//! The turns of walks, in their order, by hand and by the plain model in bench/walk_model.py.
use super::{Setting, Walk, has_walked, is_turn, tried, turns_in, walks_each};
use keep_local::Turn;
use lock_levels::LockKind::{self, Clh, Hem, Mcs, Tkt};
use std::process::Abort;
use tree_harness::Trial;

/// Two callers take turns at one level of this kind.
const fn at_one_level(kinds: &'static [LockKind]) -> Walk {
    Walk {
        setting: Setting {
            kinds,
            paths: &[&[0], &[0]],
            keeps: &[],
            quotas: &[2, 1],
        },
        order: &[],
        stood: &[],
        turns: &[(0, 0, 0, 0), (1, 0, 0, 0), (0, 0, 0, 0)],
        told: &[0, 0],
    }
}

#[test]
fn two_callers_take_turns_at_one_level(rt: HostRuntime) {
    let walks = [
        at_one_level(&[Tkt]),
        at_one_level(&[Mcs]),
        at_one_level(&[Clh]),
        at_one_level(&[Hem]),
    ];
    walks_each(&rt, rt.alloc(), &walks);
}

/// A node of two hands the lock over once.
const HANDED_OVER: Walk = Walk {
    setting: Setting {
        kinds: &[Mcs, Mcs],
        paths: &[&[0, 0], &[0, 0]],
        keeps: &[1],
        quotas: &[1, 1],
    },
    order: &[],
    stood: &[],
    turns: &[(0, 1, 1, 0), (1, 0, 0, 1)],
    told: &[1, 0],
};

/// A node that keeps none lets go.
const LET_GO: Walk = Walk {
    setting: Setting {
        kinds: &[Mcs, Mcs],
        paths: &[&[0, 0], &[0, 0]],
        keeps: &[0],
        quotas: &[1, 1],
    },
    order: &[],
    stood: &[],
    turns: &[(0, 1, 1, 1), (1, 1, 0, 1)],
    told: &[1, 0],
};

/// A node of three lets go at its threshold.
const AT_THRESHOLD: Walk = Walk {
    setting: Setting {
        kinds: &[Mcs, Mcs],
        paths: &[&[0, 0], &[0, 0], &[0, 0]],
        keeps: &[1],
        quotas: &[1, 1, 1],
    },
    order: &[],
    stood: &[],
    turns: &[(0, 1, 1, 0), (1, 0, 1, 1), (2, 1, 0, 1)],
    told: &[1, 1, 0],
};

#[test]
fn a_node_of_two_hands_the_lock_over_once(rt: HostRuntime) {
    walks_each(&rt, rt.alloc(), &[HANDED_OVER, LET_GO, AT_THRESHOLD]);
}

/// One caller climbs three levels of these kinds.
const fn of_three_levels(kinds: &'static [LockKind]) -> Walk {
    Walk {
        setting: Setting {
            kinds,
            paths: &[&[0, 0, 0]],
            keeps: &[1, 1],
            quotas: &[2],
        },
        order: &[],
        stood: &[],
        turns: &[(0, 2, 0, 2), (0, 2, 0, 2)],
        told: &[0],
    }
}

#[test]
fn one_caller_climbs_three_levels(rt: HostRuntime) {
    let walks = [
        of_three_levels(&[Tkt, Clh, Hem]),
        of_three_levels(&[Tkt, Tkt, Tkt]),
    ];
    walks_each(&rt, rt.alloc(), &walks);
}

/// Two callers of one core, one of the next core, one of the next cache, and one of the other package.
const OF_FIVE_LEVELS: Walk = Walk {
    setting: Setting {
        kinds: &[Tkt, Mcs, Clh, Hem, Tkt],
        paths: &[
            &[0, 0, 0, 0, 0],
            &[0, 0, 0, 0, 0],
            &[1, 0, 0, 0, 0],
            &[2, 1, 0, 0, 0],
            &[3, 2, 1, 1, 0],
        ],
        keeps: &[128, 128, 128, 128],
        quotas: &[1, 1, 1, 1, 1],
    },
    order: &[],
    stood: &[],
    turns: &[
        (0, 4, 1, 0),
        (1, 0, 2, 1),
        (2, 1, 4, 2),
        (3, 2, 0, 4),
        (4, 4, 0, 4),
    ],
    told: &[1, 2, 4, 0, 0],
};

#[test]
fn five_callers_walk_over_five_levels_of_four_kinds(rt: HostRuntime) {
    walks_each(&rt, rt.alloc(), &[OF_FIVE_LEVELS]);
}

/// Six choices of kinds and their turns, by the plain model: a caller and its tests at level 0, for each turn. All climb to the top and
/// leave there, since no node keeps the lock.
const CHOICES: &[(&[LockKind], [u32; 11], [u32; 11])] = &[
    (
        &[Tkt, Tkt],
        [0, 1, 2, 3, 1, 0, 1, 2, 3, 2, 3],
        [1, 0, 1, 1, 0, 1, 0, 1, 1, 1, 0],
    ),
    (
        &[Clh, Hem],
        [0, 1, 2, 3, 1, 0, 2, 1, 3, 2, 3],
        [1, 0, 1, 1, 0, 1, 1, 0, 1, 1, 0],
    ),
    (
        &[Mcs, Mcs],
        [0, 1, 2, 1, 3, 1, 0, 2, 3, 2, 3],
        [1, 0, 1, 0, 1, 0, 1, 1, 1, 1, 0],
    ),
    (
        &[Mcs, Hem],
        [0, 1, 2, 1, 3, 0, 1, 2, 3, 2, 3],
        [1, 0, 1, 0, 1, 1, 0, 1, 1, 1, 0],
    ),
    (
        &[Hem, Mcs],
        [0, 1, 2, 1, 3, 1, 0, 2, 3, 2, 3],
        [1, 0, 1, 0, 1, 0, 1, 1, 0, 1, 0],
    ),
    (
        &[Hem, Hem],
        [0, 1, 2, 1, 3, 0, 1, 2, 3, 2, 3],
        [1, 0, 1, 0, 1, 1, 0, 1, 0, 1, 0],
    ),
];

/// Checks that the turns are of these callers, with these tests.
fn are_turns_of(rt: &impl Abort, turns: &[Turn], callers: &[u32; 11], tests: &[u32; 11]) {
    assert!(rt; turns.len() == 11);
    for (place, found) in turns.iter().enumerate() {
        assert!(rt;
            is_turn(*found, (callers[place], 1, tests[place], 1)),
            "at {place}"
        );
    }
}

/// Three callers of one node and one of another, whose nodes keep nothing: the kinds of the two levels tell the turns apart.
#[test]
fn a_walk_tells_kinds_apart(rt: HostRuntime) {
    for (kinds, callers, tests) in CHOICES {
        let setting = Setting {
            kinds: *kinds,
            paths: &[&[1, 0], &[0, 0], &[1, 0], &[1, 0]],
            keeps: &[0],
            quotas: &[2, 3, 3, 3],
        };
        let Some(outcome) = tried(&rt, rt.alloc(), setting, Trial::Walk(&[])) else {
            panic!(rt; "the lock could not be made")
        };
        are_turns_of(&rt, turns_in(&outcome.root), callers, tests);
        has_walked(&rt, &outcome.end, &[], &[1, 0, 1, 0]);
    }
}
