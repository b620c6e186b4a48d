//! Orders of steps that no round makes: a caller that leaves asks more than once before the one behind it looks.
use super::{Setting, Walk, walks_each};
use level_harness::Stood::{Holding, Idle, Leaving, Nowhere, Queued};
use lock_levels::LockKind::{Hem, Mcs, Tkt};

const LATE: &[Walk] = &[
    // The node lets the top go, and its own Hemlock has the grant taken late.
    Walk {
        setting: Setting {
            kinds: &[Hem, Mcs],
            paths: &[&[0, 0], &[0, 0]],
            keeps: &[0],
            quotas: &[1, 1],
        },
        order: &[0, 1, 0, 0, 0, 1, 0],
        stood: &[
            Holding,
            Queued(0),
            Leaving(0),
            Leaving(0),
            Leaving(0),
            Holding,
            Idle,
        ],
        turns: &[(0, 1, 1, 1), (1, 1, 0, 1)],
        told: &[1, 0],
    },
    // Nobody is behind in the node, and the top Hemlock has the grant taken late.
    Walk {
        setting: Setting {
            kinds: &[Tkt, Hem],
            paths: &[&[0, 0], &[1, 0]],
            keeps: &[1],
            quotas: &[1, 1],
        },
        order: &[0, 0, 1, 1, 0, 0, 0, 1, 0],
        stood: &[
            Queued(0),
            Holding,
            Queued(0),
            Queued(1),
            Leaving(1),
            Leaving(1),
            Leaving(1),
            Holding,
            Idle,
        ],
        turns: &[(0, 1, 0, 1), (1, 1, 0, 1)],
        told: &[0, 0],
    },
    // Both levels have the grant taken late, the top first; in between the caller goes down a level.
    Walk {
        setting: Setting {
            kinds: &[Hem, Hem],
            paths: &[&[0, 0], &[0, 0], &[1, 0]],
            keeps: &[0],
            quotas: &[1, 1, 1],
        },
        order: &[0, 1, 2, 0, 0, 2, 0, 0, 1, 0, 5],
        stood: &[
            Holding,
            Queued(0),
            Queued(1),
            Leaving(1),
            Leaving(1),
            Holding,
            Leaving(0),
            Leaving(0),
            Queued(1),
            Idle,
            Nowhere,
        ],
        turns: &[(0, 1, 1, 1), (2, 1, 0, 1), (1, 1, 0, 1)],
        told: &[1, 0, 0],
    },
];

#[test]
fn a_caller_leaves_late(rt: HostRuntime) {
    walks_each(&rt, rt.alloc(), LATE);
}
