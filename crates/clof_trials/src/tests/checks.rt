//! Checks of printed runs: the verdict on a text, and how what was read is refused.
use super::{Ending, Printed, Refused, WELL, call, counting, ends, prints_each, refuses_each};
use clof_tool::Fault::{Check, Input, Plan, Section};
use clof_tool::Status::{Limit, Malformed};
use lock_plan::PlanFault;
use placed_runner::{OpenGate, SectionFault};
use run_check::CheckFault;
use std::alloc::Global;
use std::process::Abort;
use std::sync::Wait;
use std::test::Fail;
use std::thread::Threads;

// What was read of the same input with several texts. The first is of a run; a store gives no other replies.
const READ: &[Printed] = &[
    (
        "check",
        b"input 36\nworker * 23\nset a 5 0 1\r\nx\r\nget a\r\n\n\n\
         turn 0 caller 0 pu 0 climb 0 tests 0 left 0 \"set a 5 0 1\\r\\nx\\r\\n\" \"STORED\\r\\n\"\n\
         turn 1 caller 0 pu 0 climb 0 tests 0 left 0 \"get a\\r\\n\" \"VALUE a 5 1\\r\\nx\\r\\nEND\\r\\n\"\n\
         caller 0 pu 0 commands 2 rest 0\n",
        "yes\n",
    ),
    (
        "check",
        b"input 36\nworker * 23\nset a 5 0 1\r\nx\r\nget a\r\n\n\n\
         turn 0 caller 0 pu 0 climb 0 tests 0 left 0 \"set a 5 0 1\\r\\nx\\r\\n\" \"STORED\\r\\n\"\n\
         turn 1 caller 0 pu 0 climb 0 tests 0 left 0 \"get a\\r\\n\" \"END\\r\\n\"\n\
         caller 0 pu 0 commands 2 rest 0\n",
        "no 1\n",
    ),
    (
        "check",
        b"input 36\nworker * 23\nset a 5 0 1\r\nx\r\nget a\r\n\n\n\
         turn 0 caller 0 pu 0 climb 0 tests 0 left 0 \"set a 5 0 1\\r\\nx\\r\\n\" \"STORED\\r\\n\"\n\
         turn 1 caller 0 pu 0 climb 0 tests 0 left 0 \"get a\\r\\n\" \"VALUE a 5 1\\r\\nx\\r\\nEND\\r\\n\"\n",
        "no 2\n",
    ),
    ("check", b"input 0\n\n", "yes\n"),
    ("check", b"input 0\n\n\n", "no 0\n"),
];

#[test]
fn tells_a_reply_that_no_store_gives(rt: HostRuntime) -> Result<(), Fail> {
    prints_each(&rt, rt.alloc(), READ)
}

// Checks what the program says of an input with a printed text.
pub(super) fn says<R: Threads + Wait + Sync + Abort>(
    rt: &R,
    alloc: Global,
    (line, input, printed, verdict): (&str, &str, &str, &str),
) -> Result<(), Fail> {
    let read = format!(in alloc; "input {}\n{input}\n{printed}", input.len())?;
    ends(rt, alloc, (line, read.as_bytes()), WELL, verdict)
}

// Two callers on the cores of a package, each with one command, and what a run of them prints under two levels.
const TWO_GETS: &str = "worker * 7\nget a\r\n\nworker * 7\nget a\r\n\n";

const TWO_TURNS: &str =
    "turn 0 caller 0 pu 0 climb 1 tests 1 left 0 \"get a\\r\\n\" \"END\\r\\n\"\n\
    turn 1 caller 1 pu 1 climb 0 tests 0 left 1 \"get a\\r\\n\" \"END\\r\\n\"\n\
    caller 0 pu 0 commands 1 rest 0\n\
    caller 1 pu 1 commands 1 rest 0\n";

// Command lines, inputs, printed texts, and what is said of them.
const SAID: &[(&str, &str, &str, &str)] = &[
    (
        "check --levels package,machine --keep 1 'Package:1 Core:2 PU:1'",
        TWO_GETS,
        TWO_TURNS,
        "yes\n",
    ),
    (
        "check --levels package,machine --keep 1 'Package:1 Core:2 PU:1'",
        TWO_GETS,
        "turn 0 caller 0 pu 0 climb 1 tests 1 left 1 \"get a\\r\\n\" \"END\\r\\n\"\n\
         turn 1 caller 1 pu 1 climb 0 tests 0 left 1 \"get a\\r\\n\" \"END\\r\\n\"\n\
         caller 0 pu 0 commands 1 rest 0\n\
         caller 1 pu 1 commands 1 rest 0\n",
        "no 0\n",
    ),
    (
        "check --levels package,machine --keep 1 'Package:1 Core:2 PU:1'",
        TWO_GETS,
        "turn 0 caller 0 pu 0 climb 1 tests 1 left 0 \"get a\\r\\n\" \"END\\r\\n\"\n\
         turn 1 caller 1 pu 1 climb 0 tests 0 left 1 \"get a\\r\\n\" \"END\\r\\n\"\n\
         caller 0 pu 0 commands 1 rest 0\n",
        "no 3\n",
    ),
    // Under one lock, and with another keep, other texts are printed.
    (
        "check 'Package:1 Core:2 PU:1'",
        TWO_GETS,
        TWO_TURNS,
        "no 0\n",
    ),
    (
        "check --keep=0 --levels=package,machine 'Package:1 Core:2 PU:1'",
        TWO_GETS,
        TWO_TURNS,
        "no 0\n",
    ),
    // Five levels, as they were worked out by hand.
    (
        "check --levels core,l3,die,package,machine 'Package:2 Die:1 L3Cache:2 Core:2 PU:1'",
        "worker pu:0 7\nget a\r\n\nworker pu:0 7\nget a\r\n\nworker pu:1 7\nget a\r\n\n\
         worker pu:2 7\nget a\r\n\nworker pu:7 7\nget a\r\n\n",
        "turn 0 caller 0 pu 0 climb 4 tests 1 left 0 \"get a\\r\\n\" \"END\\r\\n\"\n\
         turn 1 caller 1 pu 0 climb 0 tests 2 left 1 \"get a\\r\\n\" \"END\\r\\n\"\n\
         turn 2 caller 2 pu 1 climb 1 tests 4 left 2 \"get a\\r\\n\" \"END\\r\\n\"\n\
         turn 3 caller 3 pu 2 climb 2 tests 0 left 4 \"get a\\r\\n\" \"END\\r\\n\"\n\
         turn 4 caller 4 pu 7 climb 4 tests 0 left 4 \"get a\\r\\n\" \"END\\r\\n\"\n\
         caller 0 pu 0 commands 1 rest 0\n\
         caller 1 pu 0 commands 1 rest 0\n\
         caller 2 pu 1 commands 1 rest 0\n\
         caller 3 pu 2 commands 1 rest 0\n\
         caller 4 pu 7 commands 1 rest 0\n",
        "yes\n",
    ),
];

#[test]
fn tells_turns_and_lines_of_callers(rt: HostRuntime) -> Result<(), Fail> {
    for row in SAID {
        says(&rt, rt.alloc(), *row)?;
    }
    Ok(())
}

// Runs of eight callers who count together, with the command lines of their checks: on threads, and stepped on one.
const RUNS: &[(&str, &str)] = &[
    (
        "run --levels=l3,package,machine --locks=mcs-clh-hem --keep=16 'Package:2 L3Cache:2 Core:4 PU:2'",
        "check --levels=l3,package,machine --keep=16 'Package:2 L3Cache:2 Core:4 PU:2'",
    ),
    (
        "run --walk --levels=l3,package,machine --keep=16 'Package:2 L3Cache:2 Core:4 PU:2'",
        "check --levels=l3,package,machine --keep=16 'Package:2 L3Cache:2 Core:4 PU:2'",
    ),
    (
        "run --levels=core,l3,die,machine --locks=hem-mcs-tkt-clh --keep=2 'Package:2 Die:1 L3Cache:2 Core:2 PU:1'",
        "check --levels=core,l3,die,machine --keep=2 'Package:2 Die:1 L3Cache:2 Core:2 PU:1'",
    ),
    (
        "run --levels=core,l3,die,package,machine --locks=clh-tkt-mcs-hem-mcs --keep=2 'Package:2 Die:1 L3Cache:2 Core:2 PU:1'",
        "check --levels=core,l3,die,package,machine --keep=2 'Package:2 Die:1 L3Cache:2 Core:2 PU:1'",
    ),
];

// Checks that what a run prints is one of a run.
fn is_one_of_a_run<R: Threads + Wait + Sync + Abort>(
    rt: &R,
    alloc: Global,
    (run, check): (&str, &str),
) -> Result<(), Fail> {
    let input = counting(alloc, 8)?;
    let out = call(rt, alloc, run, input.as_bytes(), &OpenGate, WELL)?;
    let printed = std::str::from_utf8(out.bytes())?;
    says(rt, alloc, (check, &input, printed, "yes\n"))
}

#[test]
fn says_yes_of_what_a_run_prints(rt: HostRuntime) -> Result<(), Fail> {
    for row in RUNS {
        is_one_of_a_run(&rt, rt.alloc(), *row)?;
    }
    Ok(())
}

const PAIRS: &[Refused] = &[
    (
        "check",
        b"input 3\nab",
        Malformed(Check(CheckFault::Short)),
        "clof: check Short\n",
    ),
    (
        "check",
        b"input 2\nabc\n",
        Malformed(Check(CheckFault::Short)),
        "clof: check Short\n",
    ),
    (
        "check",
        b"",
        Malformed(Check(CheckFault::BadHead)),
        "clof: check BadHead\n",
    ),
    (
        "check",
        b"input 16777217\n",
        Malformed(Check(CheckFault::BadHead)),
        "clof: check BadHead\n",
    ),
    // The sections come behind the form, and their places are those in the input.
    (
        "check",
        b"input 20\nworker * 7\nget a\r\n\nx\nturn ",
        Malformed(Section(SectionFault::BadHead { at: 19 })),
        "clof: section BadHead 19\n",
    ),
    // The plan comes before what was read.
    (
        "check --keep=65536",
        b"x",
        Malformed(Plan(PlanFault::KeepRange { place: 0 })),
        "clof: plan KeepRange 0\n",
    ),
];

#[test]
fn refuses_what_is_no_pair(rt: HostRuntime) -> Result<(), Fail> {
    refuses_each(&rt, rt.alloc(), 3, PAIRS)
}

// Four times as much may be read as for a run: one byte more is too much, whatever it says.
const LONG: &[(usize, Ending<'static>)] = &[
    (
        67_108_864,
        (
            Some(Malformed(Check(CheckFault::BadHead))),
            3,
            "clof: check BadHead\n",
        ),
    ),
    (67_108_865, (Some(Limit(Input)), 4, "clof: input\n")),
];

#[test]
fn limits_what_is_read(rt: HostRuntime) -> Result<(), Fail> {
    for row in LONG {
        let (size, ending) = *row;
        let read = vec![in rt.alloc(); b'x'; size]?;
        ends(&rt, rt.alloc(), ("check", &read), ending, "")?;
    }
    Ok(())
}
