//! Walks: the turns of callers on one thread, in their order, as they were worked out by hand.
use super::{Printed, prints_each};
use std::test::Fail;

const TWO_GETS: &[u8] = b"worker * 7\nget a\r\n\nworker * 7\nget a\r\n\n";

const THREE_GETS: &[u8] = b"worker * 7\nget a\r\n\nworker * 7\nget a\r\n\nworker * 7\nget a\r\n\n";

// The second caller waits below the lock that the first one has, and gets it without a climb.
const HANDED_ON: &str =
    "turn 0 caller 0 pu 0 climb 1 tests 1 left 0 \"get a\\r\\n\" \"END\\r\\n\"\n\
    turn 1 caller 1 pu 1 climb 0 tests 0 left 1 \"get a\\r\\n\" \"END\\r\\n\"\n\
    caller 0 pu 0 commands 1 rest 0\n\
    caller 1 pu 1 commands 1 rest 0\n";

// With a keep of 0 each caller leaves the lock at the top.
const NOT_KEPT: &str = "turn 0 caller 0 pu 0 climb 1 tests 1 left 1 \"get a\\r\\n\" \"END\\r\\n\"\n\
    turn 1 caller 1 pu 1 climb 1 tests 0 left 1 \"get a\\r\\n\" \"END\\r\\n\"\n\
    caller 0 pu 0 commands 1 rest 0\n\
    caller 1 pu 1 commands 1 rest 0\n";

// With a keep of 1 the third caller of a package has to climb again.
const KEPT_ONCE: &str =
    "turn 0 caller 0 pu 0 climb 1 tests 1 left 0 \"get a\\r\\n\" \"END\\r\\n\"\n\
    turn 1 caller 1 pu 1 climb 0 tests 1 left 1 \"get a\\r\\n\" \"END\\r\\n\"\n\
    turn 2 caller 2 pu 2 climb 1 tests 0 left 1 \"get a\\r\\n\" \"END\\r\\n\"\n\
    caller 0 pu 0 commands 1 rest 0\n\
    caller 1 pu 1 commands 1 rest 0\n\
    caller 2 pu 2 commands 1 rest 0\n";

// Two packages: each keeps the machine's lock for its second caller, and then the other has it.
const TWO_PACKAGES: &str =
    "turn 0 caller 0 pu 0 climb 1 tests 1 left 0 \"get a\\r\\n\" \"END\\r\\n\"\n\
    turn 1 caller 1 pu 1 climb 0 tests 0 left 1 \"get a\\r\\n\" \"END\\r\\n\"\n\
    turn 2 caller 2 pu 2 climb 1 tests 1 left 0 \"get a\\r\\n\" \"END\\r\\n\"\n\
    turn 3 caller 3 pu 3 climb 0 tests 0 left 1 \"get a\\r\\n\" \"END\\r\\n\"\n\
    caller 0 pu 0 commands 1 rest 0\n\
    caller 1 pu 1 commands 1 rest 0\n\
    caller 2 pu 2 commands 1 rest 0\n\
    caller 3 pu 3 commands 1 rest 0\n";

// Locks of two levels, over the packages and the machine. Where they count their waiters the walk is the same.
const TWO_LEVELS: &[Printed] = &[
    (
        "run --walk --levels package,machine --locks mcs-mcs --keep 1 'Package:1 Core:2 PU:1'",
        TWO_GETS,
        HANDED_ON,
    ),
    (
        "run --walk --levels package,machine --locks mcsc-mcsc --keep 1 'Package:1 Core:2 PU:1'",
        TWO_GETS,
        HANDED_ON,
    ),
    (
        "run --walk --levels package,machine --locks mcs-mcs --keep 0 'Package:1 Core:2 PU:1'",
        TWO_GETS,
        NOT_KEPT,
    ),
    (
        "run --walk --levels package,machine --locks mcsc-mcsc --keep 0 'Package:1 Core:2 PU:1'",
        TWO_GETS,
        NOT_KEPT,
    ),
    (
        "run --walk --levels package,machine --locks mcs-mcs --keep 1 'Package:1 Core:3 PU:1'",
        THREE_GETS,
        KEPT_ONCE,
    ),
    (
        "run --walk --levels package,machine --locks mcsc-mcsc --keep 1 'Package:1 Core:3 PU:1'",
        THREE_GETS,
        KEPT_ONCE,
    ),
    (
        "run --walk --levels package,machine --keep 1 'Package:2 Core:2 PU:1'",
        b"worker * 7\nget a\r\n\nworker * 7\nget a\r\n\nworker * 7\nget a\r\n\nworker * 7\nget a\r\n\n",
        TWO_PACKAGES,
    ),
];

#[test]
fn walks_over_two_levels(rt: HostRuntime) -> Result<(), Fail> {
    prints_each(&rt, rt.alloc(), TWO_LEVELS)
}

// Callers on one core, on another core of its cache, on another cache of its die, and on another package.
const NEAR_AND_FAR: &[u8] =
    b"worker pu:0 7\nget a\r\n\nworker pu:0 7\nget a\r\n\nworker pu:1 7\nget a\r\n\n\
    worker pu:2 7\nget a\r\n\nworker pu:7 7\nget a\r\n\n";

// Each caller finds the lock kept where its way meets that of the one before.
const OVER_THREE: &str =
    "turn 0 caller 0 pu 0 climb 2 tests 1 left 0 \"get a\\r\\n\" \"END\\r\\n\"\n\
    turn 1 caller 1 pu 0 climb 0 tests 2 left 1 \"get a\\r\\n\" \"END\\r\\n\"\n\
    turn 2 caller 2 pu 1 climb 1 tests 0 left 2 \"get a\\r\\n\" \"END\\r\\n\"\n\
    turn 3 caller 3 pu 2 climb 2 tests 0 left 2 \"get a\\r\\n\" \"END\\r\\n\"\n\
    turn 4 caller 4 pu 7 climb 2 tests 0 left 2 \"get a\\r\\n\" \"END\\r\\n\"\n\
    caller 0 pu 0 commands 1 rest 0\n\
    caller 1 pu 0 commands 1 rest 0\n\
    caller 2 pu 1 commands 1 rest 0\n\
    caller 3 pu 2 commands 1 rest 0\n\
    caller 4 pu 7 commands 1 rest 0\n";

const OVER_FOUR: &str =
    "turn 0 caller 0 pu 0 climb 3 tests 1 left 0 \"get a\\r\\n\" \"END\\r\\n\"\n\
    turn 1 caller 1 pu 0 climb 0 tests 2 left 1 \"get a\\r\\n\" \"END\\r\\n\"\n\
    turn 2 caller 2 pu 1 climb 1 tests 4 left 2 \"get a\\r\\n\" \"END\\r\\n\"\n\
    turn 3 caller 3 pu 2 climb 2 tests 0 left 3 \"get a\\r\\n\" \"END\\r\\n\"\n\
    turn 4 caller 4 pu 7 climb 3 tests 0 left 3 \"get a\\r\\n\" \"END\\r\\n\"\n\
    caller 0 pu 0 commands 1 rest 0\n\
    caller 1 pu 0 commands 1 rest 0\n\
    caller 2 pu 1 commands 1 rest 0\n\
    caller 3 pu 2 commands 1 rest 0\n\
    caller 4 pu 7 commands 1 rest 0\n";

// Who goes over to the other package climbs one level higher.
const OVER_FIVE: &str =
    "turn 0 caller 0 pu 0 climb 4 tests 1 left 0 \"get a\\r\\n\" \"END\\r\\n\"\n\
    turn 1 caller 1 pu 0 climb 0 tests 2 left 1 \"get a\\r\\n\" \"END\\r\\n\"\n\
    turn 2 caller 2 pu 1 climb 1 tests 4 left 2 \"get a\\r\\n\" \"END\\r\\n\"\n\
    turn 3 caller 3 pu 2 climb 2 tests 0 left 4 \"get a\\r\\n\" \"END\\r\\n\"\n\
    turn 4 caller 4 pu 7 climb 4 tests 0 left 4 \"get a\\r\\n\" \"END\\r\\n\"\n\
    caller 0 pu 0 commands 1 rest 0\n\
    caller 1 pu 0 commands 1 rest 0\n\
    caller 2 pu 1 commands 1 rest 0\n\
    caller 3 pu 2 commands 1 rest 0\n\
    caller 4 pu 7 commands 1 rest 0\n";

// Locks of three to five levels, of several kinds. Where they count their waiters the walk is the same.
const MORE_LEVELS: &[Printed] = &[
    (
        "run --walk --levels core,l3,machine --locks tkt-clh-hem 'Package:2 Die:1 L3Cache:2 Core:2 PU:1'",
        NEAR_AND_FAR,
        OVER_THREE,
    ),
    (
        "run --walk --levels core,l3,die,machine --locks tkt-mcs-clh-hem 'Package:2 Die:1 L3Cache:2 Core:2 PU:1'",
        NEAR_AND_FAR,
        OVER_FOUR,
    ),
    (
        "run --walk --levels core,l3,die,machine --locks tktc-mcsc-clhc-hemc 'Package:2 Die:1 L3Cache:2 Core:2 PU:1'",
        NEAR_AND_FAR,
        OVER_FOUR,
    ),
    (
        "run --walk --levels core,l3,die,package,machine --locks tkt-mcs-clh-hem-tkt 'Package:2 Die:1 L3Cache:2 Core:2 PU:1'",
        NEAR_AND_FAR,
        OVER_FIVE,
    ),
    (
        "run --walk --levels core,l3,die,package,machine --locks tktc-mcsc-clhc-hemc-tktc 'Package:2 Die:1 L3Cache:2 Core:2 PU:1'",
        NEAR_AND_FAR,
        OVER_FIVE,
    ),
    // As a plain model of the locks has it. The first caller has a second command, and queues again behind the second one; a keep of 1
    // lets the second take the core from the first, and no more.
    (
        "run --walk --levels core,l3,die,package,machine --locks tkt-mcs-clh-hem-mcs --keep 1,2,1,1 \
         'Package:2 Die:1 L3Cache:2 Core:2 PU:1'",
        b"worker pu:0 14\nget a\r\nget a\r\n\nworker pu:0 7\nget a\r\n\n\
         worker pu:1 7\nget a\r\n\nworker pu:2 7\nget a\r\n\nworker pu:7 7\nget a\r\n\n",
        "turn 0 caller 0 pu 0 climb 4 tests 1 left 0 \"get a\\r\\n\" \"END\\r\\n\"\n\
         turn 1 caller 1 pu 0 climb 0 tests 3 left 1 \"get a\\r\\n\" \"END\\r\\n\"\n\
         turn 2 caller 2 pu 1 climb 1 tests 2 left 1 \"get a\\r\\n\" \"END\\r\\n\"\n\
         turn 3 caller 0 pu 0 climb 1 tests 4 left 2 \"get a\\r\\n\" \"END\\r\\n\"\n\
         turn 4 caller 3 pu 2 climb 2 tests 0 left 4 \"get a\\r\\n\" \"END\\r\\n\"\n\
         turn 5 caller 4 pu 7 climb 4 tests 0 left 4 \"get a\\r\\n\" \"END\\r\\n\"\n\
         caller 0 pu 0 commands 2 rest 0\n\
         caller 1 pu 0 commands 1 rest 0\n\
         caller 2 pu 1 commands 1 rest 0\n\
         caller 3 pu 2 commands 1 rest 0\n\
         caller 4 pu 7 commands 1 rest 0\n",
    ),
];

#[test]
fn walks_over_more_levels(rt: HostRuntime) -> Result<(), Fail> {
    prints_each(&rt, rt.alloc(), MORE_LEVELS)
}
