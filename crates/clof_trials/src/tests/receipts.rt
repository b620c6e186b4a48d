//! Runs whose callers keep receipts of their turns.
use super::checks::says;
use super::{Printed, WELL, call, counting, has_text, prints_each};
use placed_runner::OpenGate;
use std::alloc::Global;
use std::process::Abort;
use std::sync::Wait;
use std::test::Fail;
use std::thread::Threads;

const KEPT: &[Printed] = &[
    (
        "run --receipts",
        b"worker * 23\nset a 5 0 1\r\nx\r\nget a\r\n\n",
        "turn 0 caller 0 pu 0 climb 0 tests 0 left 0 \"set a 5 0 1\\r\\nx\\r\\n\" \"STORED\\r\\n\"\n\
         turn 1 caller 0 pu 0 climb 0 tests 0 left 0 \"get a\\r\\n\" \"VALUE a 5 1\\r\\nx\\r\\nEND\\r\\n\"\n\
         caller 0 pu 0 commands 2 rest 0\n\
         receipts 0 0 1\n",
    ),
    (
        "run --receipts",
        b"worker * 0\n\n",
        "caller 0 pu 0 commands 0 rest 0\nreceipts 0\n",
    ),
    ("run --receipts", b"", ""),
];

#[test]
fn one_caller_keeps_receipts(rt: HostRuntime) -> Result<(), Fail> {
    prints_each(&rt, rt.alloc(), KEPT)
}

// Runs of eight callers who count together, with the command lines of their checks, under one to five levels.
const RUNS: &[(&str, &str)] = &[
    (
        "run --receipts --levels=machine --keep=2 'Package:2 Die:1 L3Cache:2 Core:2 PU:1'",
        "check --levels=machine --keep=2 'Package:2 Die:1 L3Cache:2 Core:2 PU:1'",
    ),
    (
        "run --receipts --levels=core,machine --keep=2 'Package:2 Die:1 L3Cache:2 Core:2 PU:1'",
        "check --levels=core,machine --keep=2 'Package:2 Die:1 L3Cache:2 Core:2 PU:1'",
    ),
    (
        "run --receipts --levels=core,package,machine --keep=2 'Package:2 Die:1 L3Cache:2 Core:2 PU:1'",
        "check --levels=core,package,machine --keep=2 'Package:2 Die:1 L3Cache:2 Core:2 PU:1'",
    ),
    (
        "run --receipts --levels=core,l3,package,machine --keep=2 'Package:2 Die:1 L3Cache:2 Core:2 PU:1'",
        "check --levels=core,l3,package,machine --keep=2 'Package:2 Die:1 L3Cache:2 Core:2 PU:1'",
    ),
    (
        "run --receipts --levels=core,l3,die,package,machine --keep=2 'Package:2 Die:1 L3Cache:2 Core:2 PU:1'",
        "check --levels=core,l3,die,package,machine --keep=2 'Package:2 Die:1 L3Cache:2 Core:2 PU:1'",
    ),
];

// Checks that a run prints what a run prints, and behind it the receipts that its turns tell.
fn keeps_receipts<R: Threads + Wait + Sync + Abort>(
    rt: &R,
    alloc: Global,
    (run, check): (&str, &str),
) -> Result<(), Fail> {
    let input = counting(alloc, 8)?;
    let out = call(rt, alloc, run, input.as_bytes(), &OpenGate, WELL)?;
    let printed = std::str::from_utf8(out.bytes())?;
    let (text, receipts) = printed.split_once("receipts 0").ok_or("no receipts")?;
    let told = told_by(alloc, text)?;
    has_text(
        rt,
        run,
        receipts.as_bytes(),
        told.strip_prefix("receipts 0").ok_or("no caller")?,
    );
    says(rt, alloc, (check, &input, text, "yes\n"))
}

// The lines of receipts that the turns of a text tell, of eight callers.
fn told_by(alloc: Global, text: &str) -> Result<String, Fail> {
    let mut lines = String::new(alloc);
    for caller in 0..8 {
        lines.push_str(&receipts_of(alloc, text, caller)?)?;
    }
    Ok(lines)
}

// The line of a caller, with the numbers of its turns.
fn receipts_of(alloc: Global, text: &str, caller: u32) -> Result<String, Fail> {
    let mut line = format!(in alloc; "receipts {caller}")?;
    for (number, turn) in text.lines().enumerate() {
        if is_of(alloc, turn, number, caller)? {
            push_number(&mut line, alloc, number)?;
        }
    }
    line.push('\n')?;
    Ok(line)
}

// Whether a line is the turn of this number, and a caller's.
fn is_of(alloc: Global, line: &str, number: usize, caller: u32) -> Result<bool, Fail> {
    let front = format!(in alloc; "turn {number} caller {caller} ")?;
    Ok(line.as_bytes().starts_with(front.as_bytes()))
}

fn push_number(line: &mut String, alloc: Global, number: usize) -> Result<(), Fail> {
    line.push_str(&format!(in alloc; " {number}")?)?;
    Ok(())
}

#[test]
fn callers_keep_receipts_under_each_depth(rt: HostRuntime) -> Result<(), Fail> {
    for row in RUNS {
        keeps_receipts(&rt, rt.alloc(), *row)?;
    }
    Ok(())
}
