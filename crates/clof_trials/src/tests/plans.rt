//! Plans: how they are refused, and runs of one caller and of none.
use super::{Printed, Refused, prints_each, refuses_each};
use clof_tool::Fault::Plan;
use clof_tool::Status::{Malformed, Usage};
use lock_plan::PlanFault::{KeepRange, Lengths, LevelOrder, LevelUnknown, LockUnknown, TooDeep};
use std::test::Fail;

const PLANS: &[Refused] = &[
    (
        "run --levels machine,l3 'L3:1 PU:1'",
        b"x",
        Malformed(Plan(LevelOrder { place: 1 })),
        "clof: plan LevelOrder 1\n",
    ),
    (
        "run --levels core PU:1",
        b"x",
        Malformed(Plan(LevelUnknown { place: 0 })),
        "clof: plan LevelUnknown 0\n",
    ),
    (
        "run --levels core,l3,die,package,machine,machine 'Package:1 Die:1 L3Cache:1 Core:1 PU:1'",
        b"x",
        Malformed(Plan(TooDeep)),
        "clof: plan TooDeep\n",
    ),
    (
        "run --locks mcs-foo",
        b"x",
        Malformed(Plan(LockUnknown { place: 1 })),
        "clof: plan LockUnknown 1\n",
    ),
    (
        "run --locks tkt-mcsd",
        b"x",
        Malformed(Plan(LockUnknown { place: 1 })),
        "clof: plan LockUnknown 1\n",
    ),
    (
        "run --locks mcs-mcs",
        b"x",
        Malformed(Plan(Lengths {
            levels: 1,
            given: 2,
        })),
        "clof: plan Lengths 1 2\n",
    ),
    (
        "run --keep 65536",
        b"x",
        Malformed(Plan(KeepRange { place: 0 })),
        "clof: plan KeepRange 0\n",
    ),
];

#[test]
fn refuses_plans(rt: HostRuntime) -> Result<(), Fail> {
    refuses_each(&rt, rt.alloc(), 3, PLANS)
}

const WORDS: &[Refused] = &[
    ("frob", b"x", Usage, "clof: usage\n"),
    ("run --quantum 2", b"", Usage, "clof: usage\n"),
    ("run --threads 0", b"", Usage, "clof: usage\n"),
    ("run --threads 257", b"", Usage, "clof: usage\n"),
    ("run --threads 2 --quantum 0", b"", Usage, "clof: usage\n"),
    (
        "run --threads 2 --quantum 65536",
        b"",
        Usage,
        "clof: usage\n",
    ),
    ("run --threads 2 --walk", b"", Usage, "clof: usage\n"),
    ("run --receipts --walk", b"", Usage, "clof: usage\n"),
    ("check --walk PU:0", b"x", Usage, "clof: usage\n"),
    ("check --locks mcs", b"x", Usage, "clof: usage\n"),
];

#[test]
fn refuses_words(rt: HostRuntime) -> Result<(), Fail> {
    refuses_each(&rt, rt.alloc(), 2, WORDS)
}

const SERVED: &[Printed] = &[
    // No section needs no lock.
    (
        "run --levels core,package,machine --locks clh-hem-tkt 'Package:2 Core:2 PU:1'",
        b"",
        "",
    ),
    // One caller climbs to the top for each command, since nobody waits.
    (
        "run --levels core,package,machine --locks clh-hem-tkt 'Package:2 Core:2 PU:1'",
        b"worker * 124\nset n 0 0 20\r\n18446744073709551615\r\nincr n 1\r\ndecr n 5\r\n\
         cas n 0 0 1 1\r\n7\r\ncas n 0 0 1 3\r\n7\r\ngets n\r\nset n 0 0 1 noreply\r\n8\r\n\n",
        "turn 0 caller 0 pu 0 climb 2 tests 0 left 2 \"set n 0 0 20\\r\\n18446744073709551615\\r\\n\" \"STORED\\r\\n\"\n\
         turn 1 caller 0 pu 0 climb 2 tests 0 left 2 \"incr n 1\\r\\n\" \"0\\r\\n\"\n\
         turn 2 caller 0 pu 0 climb 2 tests 0 left 2 \"decr n 5\\r\\n\" \"0\\r\\n\"\n\
         turn 3 caller 0 pu 0 climb 2 tests 0 left 2 \"cas n 0 0 1 1\\r\\n7\\r\\n\" \"EXISTS\\r\\n\"\n\
         turn 4 caller 0 pu 0 climb 2 tests 0 left 2 \"cas n 0 0 1 3\\r\\n7\\r\\n\" \"STORED\\r\\n\"\n\
         turn 5 caller 0 pu 0 climb 2 tests 0 left 2 \"gets n\\r\\n\" \"VALUE n 0 1 4\\r\\n7\\r\\nEND\\r\\n\"\n\
         turn 6 caller 0 pu 0 climb 2 tests 0 left 2 \"set n 0 0 1 noreply\\r\\n8\\r\\n\" \"\"\n\
         caller 0 pu 0 commands 7 rest 0\n",
    ),
];

#[test]
fn serves_one_caller_and_none(rt: HostRuntime) -> Result<(), Fail> {
    prints_each(&rt, rt.alloc(), SERVED)
}
