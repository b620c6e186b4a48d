//! Runs on threads, whose turns come as it happens, through gates that are told of them.
use super::gates::{Counter, Meeting, have_met};
use super::{WELL, call, counting, has_number, has_parts, has_text};
use std::alloc::Global;
use std::process::Abort;
use std::sync::Wait;
use std::test::Fail;
use std::thread::Threads;

const TWO_GETS: &[u8] = b"worker * 7\nget a\r\n\nworker * 7\nget a\r\n\n";

// Command lines of two callers who meet, and what is printed where the first of them holds first, and where the second does.
const MEETINGS: &[(&str, &str, &str)] = &[
    // Whichever of two callers in a package holds first keeps the lock for the other, which is queued by then.
    (
        "run --levels package,machine --locks mcs-mcs --keep 1 'Package:1 Core:2 PU:1'",
        "turn 0 caller 0 pu 0 climb 1 tests 1 left 0 \"get a\\r\\n\" \"END\\r\\n\"\n\
         turn 1 caller 1 pu 1 climb 0 tests 0 left 1 \"get a\\r\\n\" \"END\\r\\n\"\n\
         caller 0 pu 0 commands 1 rest 0\n\
         caller 1 pu 1 commands 1 rest 0\n",
        "turn 0 caller 1 pu 1 climb 1 tests 1 left 0 \"get a\\r\\n\" \"END\\r\\n\"\n\
         turn 1 caller 0 pu 0 climb 0 tests 0 left 1 \"get a\\r\\n\" \"END\\r\\n\"\n\
         caller 0 pu 0 commands 1 rest 0\n\
         caller 1 pu 1 commands 1 rest 0\n",
    ),
    // Two threads serve two callers at the same time.
    (
        "run --threads 2 PU:2",
        "turn 0 caller 0 pu 0 climb 0 tests 0 left 0 \"get a\\r\\n\" \"END\\r\\n\"\n\
         turn 1 caller 1 pu 1 climb 0 tests 0 left 0 \"get a\\r\\n\" \"END\\r\\n\"\n\
         caller 0 pu 0 commands 1 rest 0\n\
         caller 1 pu 1 commands 1 rest 0\n",
        "turn 0 caller 1 pu 1 climb 0 tests 0 left 0 \"get a\\r\\n\" \"END\\r\\n\"\n\
         turn 1 caller 0 pu 0 climb 0 tests 0 left 0 \"get a\\r\\n\" \"END\\r\\n\"\n\
         caller 0 pu 0 commands 1 rest 0\n\
         caller 1 pu 1 commands 1 rest 0\n",
    ),
    // Whichever holds first, its turn has the number 0 in its receipts.
    (
        "run --receipts PU:2",
        "turn 0 caller 0 pu 0 climb 0 tests 0 left 0 \"get a\\r\\n\" \"END\\r\\n\"\n\
         turn 1 caller 1 pu 1 climb 0 tests 0 left 0 \"get a\\r\\n\" \"END\\r\\n\"\n\
         caller 0 pu 0 commands 1 rest 0\n\
         caller 1 pu 1 commands 1 rest 0\n\
         receipts 0 0\n\
         receipts 1 1\n",
        "turn 0 caller 1 pu 1 climb 0 tests 0 left 0 \"get a\\r\\n\" \"END\\r\\n\"\n\
         turn 1 caller 0 pu 0 climb 0 tests 0 left 0 \"get a\\r\\n\" \"END\\r\\n\"\n\
         caller 0 pu 0 commands 1 rest 0\n\
         caller 1 pu 1 commands 1 rest 0\n\
         receipts 0 1\n\
         receipts 1 0\n",
    ),
];

// Checks that two callers meet, and that what is printed is one of two texts.
fn meet<R: Threads + Wait + Sync + Abort>(
    rt: &R,
    alloc: Global,
    (line, one, other): (&str, &str, &str),
) -> Result<(), Fail> {
    let gate = Meeting::new();
    let out = call(rt, alloc, line, TWO_GETS, &gate, WELL)?;
    is_either(rt, line, out.bytes(), one, other);
    have_met(rt, line, &gate);
    Ok(())
}

fn is_either(rt: &impl Abort, line: &str, text: &[u8], one: &str, other: &str) {
    assert!(rt;
        text == one.as_bytes() || text == other.as_bytes(),
        "at {line}"
    );
}

#[test]
fn two_callers_meet(rt: HostRuntime) -> Result<(), Fail> {
    for row in MEETINGS {
        meet(&rt, rt.alloc(), *row)?;
    }
    Ok(())
}

// A command line of callers who count together, how many callers and holds there are, and how often parts stand in what is printed.
type Tally = (&'static str, usize, usize, &'static [(&'static str, usize)]);

// Each command is answered once, and its caller held the lock for it.
const COUNTED: &[Tally] = &[
    (
        "run --levels core,l3,machine --locks clh-tkt-mcs --keep 2,1 'Package:2 Die:1 L3Cache:2 Core:2 PU:1'",
        8,
        32,
        &[
            ("turn ", 32),
            (" \"STORED\\r\\n\"\n", 1),
            (" \"NOT_STORED\\r\\n\"\n", 7),
            (" \"get a\\r\\n\" \"END\\r\\n\"\n", 8),
            (" \"incr n 1\\r\\n\" \"16\\r\\n\"\n", 1),
            (" commands 4 rest 0\n", 8),
        ],
    ),
    // Callers in four packages who share three threads.
    (
        "run --levels core,package,machine --locks clh-tkt-mcs --keep 2,1 --threads 3 --quantum 3 'Package:4 Core:3 PU:1'",
        12,
        48,
        &[
            ("turn ", 48),
            (" \"STORED\\r\\n\"\n", 1),
            (" \"incr n 1\\r\\n\" \"24\\r\\n\"\n", 1),
            (" commands 4 rest 0\n", 12),
        ],
    ),
];

// Checks how often callers hold, and how often each part stands in what is printed.
fn count<R: Threads + Wait + Sync + Abort>(
    rt: &R,
    alloc: Global,
    (line, callers, holds, parts): Tally,
) -> Result<(), Fail> {
    let gate = Counter::new();
    let input = counting(alloc, callers)?;
    let out = call(rt, alloc, line, input.as_bytes(), &gate, WELL)?;
    has_number(rt, line, gate.count(), holds);
    has_parts(rt, std::str::from_utf8(out.bytes())?, parts);
    Ok(())
}

#[test]
fn each_command_is_a_hold(rt: HostRuntime) -> Result<(), Fail> {
    for row in COUNTED {
        count(&rt, rt.alloc(), *row)?;
    }
    Ok(())
}

// Lines with an input and a text, and how often callers tell the gate that they hold.
const HELD: &[(&str, &str, &str, usize)] = &[
    // The sums were made by a plain script. Each command is a hold of its own.
    (
        "drill 7",
        "",
        "drill 7 callers 64 commands 20512\n\
         k0 1257500\nk1 1240000\nk2 1242500\nk3 1245000\n\
         k4 1247500\nk5 1250000\nk6 1252500\nk7 1255000\n",
        20_512,
    ),
    // Under one lock the callers of a walk take turns. It tells no gate of them.
    (
        "run --walk PU:2",
        "worker * 23\nset k 0 0 1\r\na\r\nget k\r\n\nworker * 23\nset k 0 0 1\r\nb\r\nget k\r\n\n",
        "turn 0 caller 0 pu 0 climb 0 tests 0 left 0 \"set k 0 0 1\\r\\na\\r\\n\" \"STORED\\r\\n\"\n\
         turn 1 caller 1 pu 1 climb 0 tests 0 left 0 \"set k 0 0 1\\r\\nb\\r\\n\" \"STORED\\r\\n\"\n\
         turn 2 caller 0 pu 0 climb 0 tests 0 left 0 \"get k\\r\\n\" \"VALUE k 0 1\\r\\nb\\r\\nEND\\r\\n\"\n\
         turn 3 caller 1 pu 1 climb 0 tests 0 left 0 \"get k\\r\\n\" \"VALUE k 0 1\\r\\nb\\r\\nEND\\r\\n\"\n\
         caller 0 pu 0 commands 2 rest 0\n\
         caller 1 pu 1 commands 2 rest 0\n",
        0,
    ),
];

// Checks what is printed, and how often callers hold.
fn hold<R: Threads + Wait + Sync + Abort>(
    rt: &R,
    alloc: Global,
    (line, input, text, holds): (&str, &str, &str, usize),
) -> Result<(), Fail> {
    let gate = Counter::new();
    let out = call(rt, alloc, line, input.as_bytes(), &gate, WELL)?;
    has_text(rt, line, out.bytes(), text);
    has_number(rt, line, gate.count(), holds);
    Ok(())
}

#[test]
fn drills_and_walks_tell_a_gate(rt: HostRuntime) -> Result<(), Fail> {
    for row in HELD {
        hold(&rt, rt.alloc(), *row)?;
    }
    Ok(())
}
