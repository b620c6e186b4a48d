//! `select`: texts, refusals, and which of two comes.
use super::{Printed, Refused, ends, prints_each, refuses_each};
use clof_tool::Fault::{Input, Select};
use clof_tool::Status;
use clof_tool::Status::{Limit, Malformed, Usage};
use lock_select::SelectFault::{Keep, Line, Place, TooManyTurns, Weights};
use std::alloc::Global;
use std::process::Abort;
use std::sync::Wait;
use std::test::Fail;
use std::thread::Threads;

const TURNS: &[u8] = b"0\n1\n0\n1\n2\n3\n2\n3\n";

const CHEAPEST: &[Printed] = &[
    (
        "select 'Package:2 PU:2'",
        TURNS,
        "levels Package,Machine\ncost 24 turns 8\n",
    ),
    (
        "select 'Package:2 PU:2' --keep 1",
        TURNS,
        "levels Machine\ncost 32 turns 8\n",
    ),
    (
        "select 'Package:2 PU:2'",
        b"",
        "levels Machine\ncost 0 turns 0\n",
    ),
    (
        "select --weights=4,2,1,1 'Group:2 L3:1 PU:2'",
        TURNS,
        "levels L3Cache,Machine\ncost 16 turns 8\n",
    ),
    (
        "select --weights=4,1,2,1 'Group:2 L3:1 PU:2'",
        TURNS,
        "levels Group0,Machine\ncost 16 turns 8\n",
    ),
];

#[test]
fn prints_the_cheapest_levels(rt: HostRuntime) -> Result<(), Fail> {
    prints_each(&rt, rt.alloc(), CHEAPEST)
}

const BROKEN: &[Refused] = &[
    (
        "select 'Package:2 PU:2'",
        b"0\n4\n",
        Malformed(Select(Place { at: 2 })),
        "clof: select Place 2\n",
    ),
    (
        "select 'Package:2 PU:2'",
        b"0\n1",
        Malformed(Select(Line { at: 2 })),
        "clof: select Line 2\n",
    ),
    (
        "select --weights 4,2 'Package:2 PU:2'",
        b"",
        Malformed(Select(Weights)),
        "clof: select Weights\n",
    ),
    // The weights come before the keep, and both before the lines.
    (
        "select --weights 4,2 --keep x 'Package:2 PU:2'",
        b"9\n",
        Malformed(Select(Weights)),
        "clof: select Weights\n",
    ),
    (
        "select --keep 65536 'Package:2 PU:2'",
        b"9\n",
        Malformed(Select(Keep)),
        "clof: select Keep\n",
    ),
];

#[test]
fn refuses_weights_keeps_and_lines(rt: HostRuntime) -> Result<(), Fail> {
    refuses_each(&rt, rt.alloc(), 3, BROKEN)
}

// More lines, or more bytes, than there may be.
fn is_too_long<R: Threads + Wait + Sync + Abort>(
    rt: &R,
    alloc: Global,
    input: &[u8],
    status: Status,
    told: &str,
) -> Result<(), Fail> {
    let ending = (Some(status), 4, told);
    ends(rt, alloc, ("select PU:1", input), ending, "")
}

// Too few words, too many lines, and too many bytes, which come before what is wrong with the lines.
#[test]
fn ends_otherwise(rt: HostRuntime) -> Result<(), Fail> {
    let alloc = rt.alloc();
    let ending = (Some(Usage), 2, "clof: usage\n");
    ends(&rt, alloc, ("select", b""), ending, "")?;
    let lines = "0\n".repeat(alloc, 16_385)?;
    let status = Limit(Select(TooManyTurns));
    is_too_long(
        &rt,
        alloc,
        lines.as_bytes(),
        status,
        "clof: select TooManyTurns\n",
    )?;
    let long = vec![in alloc; b'x'; 16_777_217]?;
    is_too_long(&rt, alloc, &long, Limit(Input), "clof: input\n")
}
