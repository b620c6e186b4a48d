//! Locks that are made and closed again.
use super::{Setting, has_turns, tried};
use lock_levels::LockKind::{Clh, Hem, Mcs, Tkt};
use tree_harness::Trial;

/// Locks of one to five levels, each of several kinds.
const SETTINGS: &[Setting] = &[
    Setting {
        kinds: &[Mcs],
        paths: &[&[0], &[0]],
        keeps: &[],
        quotas: &[1, 1],
    },
    Setting {
        kinds: &[Clh, Mcs],
        paths: &[&[0, 0], &[1, 0]],
        keeps: &[1],
        quotas: &[1, 1],
    },
    Setting {
        kinds: &[Hem, Clh, Tkt],
        paths: &[&[0, 0, 0], &[1, 0, 0]],
        keeps: &[1; 2],
        quotas: &[1, 1],
    },
    Setting {
        kinds: &[Tkt, Hem, Clh, Mcs],
        paths: &[&[0, 0, 0, 0], &[1, 1, 0, 0]],
        keeps: &[1; 3],
        quotas: &[1, 1],
    },
    Setting {
        kinds: &[Mcs, Tkt, Hem, Clh, Hem],
        paths: &[&[0, 0, 0, 0, 0], &[1, 1, 1, 0, 0]],
        keeps: &[1; 4],
        quotas: &[1, 1],
    },
];

#[test]
fn a_root_comes_back_from_each_number_of_levels(rt: HostRuntime) {
    for setting in SETTINGS {
        let Some(outcome) = tried(&rt, rt.alloc(), *setting, Trial::Close) else {
            panic!(rt; "the lock could not be made")
        };
        has_turns(&rt, &outcome.root, &[]);
    }
}
