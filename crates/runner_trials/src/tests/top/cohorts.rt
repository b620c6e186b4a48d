//! Runs whose callers share threads.
use super::{Printed, prints_each};
use std::test::Fail;

// Two callers, each of whom sets one key and reads it.
const TWO: &[u8] =
    b"worker * 23\nset k 0 0 1\r\na\r\nget k\r\n\nworker * 23\nset k 0 0 1\r\nb\r\nget k\r\n\n";

const SHARED: &[Printed] = &[
    // One thread serves the two in turn.
    (
        "run --threads 1 PU:2",
        TWO,
        "turn 0 caller 0 pu 0 climb 0 tests 0 left 0 \"set k 0 0 1\\r\\na\\r\\n\" \"STORED\\r\\n\"\n\
         turn 1 caller 1 pu 1 climb 0 tests 0 left 0 \"set k 0 0 1\\r\\nb\\r\\n\" \"STORED\\r\\n\"\n\
         turn 2 caller 0 pu 0 climb 0 tests 0 left 0 \"get k\\r\\n\" \"VALUE k 0 1\\r\\nb\\r\\nEND\\r\\n\"\n\
         turn 3 caller 1 pu 1 climb 0 tests 0 left 0 \"get k\\r\\n\" \"VALUE k 0 1\\r\\nb\\r\\nEND\\r\\n\"\n\
         caller 0 pu 0 commands 2 rest 0\n\
         caller 1 pu 1 commands 2 rest 0\n",
    ),
    // With a quantum of two commands each gives both before the other.
    (
        "run --threads 1 --quantum 2 PU:2",
        TWO,
        "turn 0 caller 0 pu 0 climb 0 tests 0 left 0 \"set k 0 0 1\\r\\na\\r\\n\" \"STORED\\r\\n\"\n\
         turn 1 caller 0 pu 0 climb 0 tests 0 left 0 \"get k\\r\\n\" \"VALUE k 0 1\\r\\na\\r\\nEND\\r\\n\"\n\
         turn 2 caller 1 pu 1 climb 0 tests 0 left 0 \"set k 0 0 1\\r\\nb\\r\\n\" \"STORED\\r\\n\"\n\
         turn 3 caller 1 pu 1 climb 0 tests 0 left 0 \"get k\\r\\n\" \"VALUE k 0 1\\r\\nb\\r\\nEND\\r\\n\"\n\
         caller 0 pu 0 commands 2 rest 0\n\
         caller 1 pu 1 commands 2 rest 0\n",
    ),
    // The packages in ascending order, and the callers of each: one is put back behind the others.
    (
        "run --levels package,machine --threads 1 'Package:2 PU:2'",
        b"worker pu:2 14\nget a\r\nget a\r\n\nworker pu:0 7\nget a\r\n\nworker pu:3 7\nget a\r\n\n",
        "turn 0 caller 1 pu 0 climb 1 tests 0 left 1 \"get a\\r\\n\" \"END\\r\\n\"\n\
         turn 1 caller 0 pu 2 climb 1 tests 0 left 1 \"get a\\r\\n\" \"END\\r\\n\"\n\
         turn 2 caller 2 pu 3 climb 1 tests 0 left 1 \"get a\\r\\n\" \"END\\r\\n\"\n\
         turn 3 caller 0 pu 2 climb 1 tests 0 left 1 \"get a\\r\\n\" \"END\\r\\n\"\n\
         caller 0 pu 2 commands 2 rest 0\n\
         caller 1 pu 0 commands 1 rest 0\n\
         caller 2 pu 3 commands 1 rest 0\n",
    ),
    // As many threads as may be, of which all but one find nobody; and no caller at all.
    (
        "run --threads 9 --quantum 65535 PU:1",
        b"worker * 9\nget a\r\nge\n",
        "turn 0 caller 0 pu 0 climb 0 tests 0 left 0 \"get a\\r\\n\" \"END\\r\\n\"\n\
         caller 0 pu 0 commands 1 rest 2\n",
    ),
    ("run --threads 9 --quantum 65535 PU:1", b"", ""),
];

#[test]
fn threads_serve_callers(rt: HostRuntime) -> Result<(), Fail> {
    prints_each(&rt, rt.alloc(), SHARED)
}
