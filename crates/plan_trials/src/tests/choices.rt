//! Choices for small traces, whose costs a plain program outside counted (bench/selections.py), and all refusals.
ghost use Rattle.std.specs.Prelude.{◌≤◌};
ghost use Rattle.lock_select.specs.Texts.{keep_limit, Weighs};
ghost use Rattle.lock_select.specs.Traces.{Visits};

use crate::tests::{expect_words, topology_of, tree_of};
use lock_select::{Choice, SelectFault, choose, cost, read_keep, read_trace, read_weights};
use std::alloc::Global;
use std::process::Abort;
use std::test::Fail;
use topo_tree::{Topology, Tree};

// The texts of weights, of a keep and of a trace.
type Texts<'a> = (Option<&'a [u8]>, &'a [u8], &'a [u8]);

// A topology, such texts, the depths that are chosen and what they cost.
type Choosing = (&'static [u8], Texts<'static>, &'static [u32], u64);

const PACKAGES: &[u8] = b"Package:2 PU:2";

const SIXTEEN_DEPTHS: &[u8] = b"1 1 1 1 1 1 1 1 1 1 1 1 1 1 2";

const NEIGHBOURS: &[u8] = b"0\n1\n0\n1\n2\n3\n2\n3\n";

const NEAR: &[u8] = b"0\n1\n0\n1\n0\n1\n0\n1\n";

const FAR: &[u8] = b"0\n2\n0\n2\n0\n2\n0\n2\n";

// Neighbours share a level.
const NEIGHBOURLY: &[Choosing] = &[
    (PACKAGES, (None, b"128", NEIGHBOURS), &[1, 0], 24),
    (
        PACKAGES,
        (Some(b"7,3,2"), b"3", b"0\n0\n1\n1\n2\n3\n0\n1\n3\n3\n"),
        &[1, 0],
        58,
    ),
    (
        SIXTEEN_DEPTHS,
        (None, b"128", b"0\n1\n0\n1\n0\n1\n"),
        &[14, 0],
        32780,
    ),
];

// Among equals fewer levels come first: Machine alone and Package with Machine both cost 32. Then the least list: those of two levels
// that end a run of turns on one PU cost the same, and the one with the lesser depth is first.
const EQUALS: &[Choosing] = &[
    (PACKAGES, (None, b"1", NEIGHBOURS), &[0], 32),
    (
        b"Package:1 Core:1 PU:2",
        (Some(b"3,1,1,1"), b"128", b"0\n0\n0\n0\n"),
        &[1, 0],
        7,
    ),
    (PACKAGES, (Some(b"1,1,1"), b"128", NEIGHBOURS), &[0], 8),
    (
        PACKAGES,
        (Some(b"1,1000000,1"), b"128", NEIGHBOURS),
        &[0],
        8,
    ),
];

// Short traces, and two PUs in turn: with a keep of 0 nothing is handed on below the top.
const SHORT: &[Choosing] = &[
    (PACKAGES, (None, b"128", b""), &[0], 0),
    (PACKAGES, (None, b"128", b"3\n"), &[0], 4),
    (PACKAGES, (None, b"128", b"3\n3\n3\n3\n3\n3\n"), &[2, 0], 10),
    (PACKAGES, (Some(b"10,1,1"), b"0", NEAR), &[0], 80),
    (PACKAGES, (Some(b"10,1,1"), b"1", NEAR), &[1, 0], 48),
    (PACKAGES, (Some(b"10,1,1"), b"2", NEAR), &[1, 0], 38),
    (PACKAGES, (Some(b"10,1,1"), b"2", FAR), &[0], 80),
];

// Topologies and texts of weights, which are these or none.
const WEIGHTS: &[(&[u8], Option<&[u8]>, Result<&[u64], SelectFault>)] = &[
    (PACKAGES, Some(b"4,2,1"), Ok(&[4, 2, 1])),
    (PACKAGES, Some(b"1000000,1,0001"), Ok(&[1_000_000, 1, 1])),
    (PACKAGES, Some(b"1,1,1"), Ok(&[1, 1, 1])),
    (
        SIXTEEN_DEPTHS,
        None,
        Ok(&[
            32768, 16384, 8192, 4096, 2048, 1024, 512, 256, 128, 64, 32, 16, 8, 4, 2, 1,
        ]),
    ),
    (PACKAGES, Some(b""), Err(SelectFault::Weights)),
    (PACKAGES, Some(b"4"), Err(SelectFault::Weights)),
    (PACKAGES, Some(b"4,2"), Err(SelectFault::Weights)),
    (PACKAGES, Some(b"4,2,1,1"), Err(SelectFault::Weights)),
    (PACKAGES, Some(b"4,2,1,"), Err(SelectFault::Weights)),
    (PACKAGES, Some(b",2,1"), Err(SelectFault::Weights)),
    (PACKAGES, Some(b"4,,1"), Err(SelectFault::Weights)),
    (PACKAGES, Some(b"0,2,1"), Err(SelectFault::Weights)),
    (PACKAGES, Some(b"4,2,0"), Err(SelectFault::Weights)),
    (PACKAGES, Some(b"1000001,1,1"), Err(SelectFault::Weights)),
    (PACKAGES, Some(b"4,2,x"), Err(SelectFault::Weights)),
    (PACKAGES, Some(b"4 2 1"), Err(SelectFault::Weights)),
    (PACKAGES, Some(b"4,-2,1"), Err(SelectFault::Weights)),
    (
        PACKAGES,
        Some(b"18446744073709551617,1,1"),
        Err(SelectFault::Weights),
    ),
];

// Texts of keeps.
const KEEPS: &[(&str, Result<u32, SelectFault>)] = &[
    ("0", Ok(0)),
    ("128", Ok(128)),
    ("65535", Ok(65535)),
    ("000065535", Ok(65535)),
    ("", Err(SelectFault::Keep)),
    ("65536", Err(SelectFault::Keep)),
    ("-1", Err(SelectFault::Keep)),
    ("1x", Err(SelectFault::Keep)),
    (" 1", Err(SelectFault::Keep)),
    ("99999999999999999999", Err(SelectFault::Keep)),
];

// Lines, and the trace that they are or the line that is told.
const TRACES: &[(&[u8], Result<&[u32], SelectFault>)] = &[
    (b"0000000003\n0\n", Ok(&[3, 0])),
    (b"\n", Err(SelectFault::Line { at: 0 })),
    (b"0\n\n", Err(SelectFault::Line { at: 2 })),
    (b"00000000003\n", Err(SelectFault::Line { at: 0 })),
    (b"0\n00000000003\n", Err(SelectFault::Line { at: 2 })),
    (b"0", Err(SelectFault::Line { at: 0 })),
    (b"0\n1", Err(SelectFault::Line { at: 2 })),
    (b"0\n1\n2\n3", Err(SelectFault::Line { at: 6 })),
    (b"x\n", Err(SelectFault::Line { at: 0 })),
    (b"0 \n", Err(SelectFault::Line { at: 0 })),
    (b"0\r\n", Err(SelectFault::Line { at: 0 })),
    (b"-1\n9\n", Err(SelectFault::Line { at: 0 })),
    (b"1\nx\n9\n", Err(SelectFault::Line { at: 2 })),
    (b"4\n", Err(SelectFault::Place { at: 0 })),
    (b"0\n4\n", Err(SelectFault::Place { at: 2 })),
    (b"9999999999\n", Err(SelectFault::Place { at: 0 })),
    (b"0\n1\n2\n3\n4\nx\n", Err(SelectFault::Place { at: 8 })),
    (b"1\n9\nx\n", Err(SelectFault::Place { at: 2 })),
];

// So many lines of PU 0 with others behind them, and how many turns these are. Bytes behind the last line that there may be come before
// what is wrong with them, and the lines before it come before them.
const LONG_TRACES: &[(u32, &[u8], Result<usize, SelectFault>)] = &[
    (16384, b"", Ok(16384)),
    (16384, b"0\n", Err(SelectFault::TooManyTurns)),
    (16384, b"x\n", Err(SelectFault::TooManyTurns)),
    (16384, b"7", Err(SelectFault::TooManyTurns)),
    (16383, b"x\n0\n", Err(SelectFault::Line { at: 32766 })),
];

const WORDS: &[(SelectFault, &str)] = &[
    (SelectFault::Weights, "the weights"),
    (SelectFault::Keep, "the keep"),
    (SelectFault::Line { at: 2 }, "the line at byte 2"),
    (SelectFault::Place { at: 4 }, "the PU of the line at byte 4"),
    (SelectFault::TooManyTurns, "more than 16384 turns"),
    (SelectFault::OutOfMemory, "out of memory"),
];

// Whether these depths are chosen, and cost this much, both as the choice tells and as they are counted by themselves.
fn is_chosen(
    alloc: Global,
    tree: &Tree,
    texts: Texts<'_>,
    depths: &[u32],
    wanted: u64,
) -> Result<bool, SelectFault> {
    let keep = read_keep(texts.1)?;
    let weights = read_weights(alloc, tree, texts.0)?;
    let trace = read_trace(alloc, tree, texts.2)?;
    is_cheapest(alloc, tree, &weights, keep, &trace, depths, wanted)
}

// Whether these depths are chosen, and cost that much.
fn is_cheapest(
    alloc: Global,
    tree: &Tree,
    weights: &[u64],
    keep: u32,
    trace: &[u32],
    depths: &[u32],
    wanted: u64,
) -> Result<bool, SelectFault>
    requires weights { Weighs tree.now weights.now }
    requires keep { keep ≤ keep_limit }
    requires trace { Visits tree.now trace.now }
{
    let Ok(choice) = choose(alloc, tree, weights, keep, trace) else {
        return Err(SelectFault::OutOfMemory);
    };
    let counted = cost(tree, weights, choice.depths.as_slice(), keep, trace);
    Ok(is_choice(&choice, depths, wanted) && counted == wanted)
}

fn is_choice(choice: &Choice, depths: &[u32], wanted: u64) -> bool {
    choice.depths.as_slice() == depths && choice.cost == wanted
}

fn expect_choice(rt: &impl Abort, alloc: Global, tree: &Tree, row: &Choosing) {
    let (_, texts, depths, wanted) = *row;
    let chosen = is_chosen(alloc, tree, texts, depths, wanted);
    assert_eq!(rt; chosen, Ok(true), "at a cost of {wanted}");
}

fn expect_choices(rt: &impl Abort, alloc: Global, rows: &[Choosing]) {
    for row in rows {
        expect_choice(rt, alloc, &tree_of(rt, alloc, row.0), row);
    }
}

// Whether a text is read as these weights, or refused for this fault.
fn has_weights(
    alloc: Global,
    tree: &Tree,
    text: Option<&[u8]>,
    wanted: Result<&[u64], SelectFault>,
) -> bool {
    match read_weights(alloc, tree, text) {
        Ok(weights) => wanted == Ok(weights.as_slice()),
        Err(fault) => wanted == Err(fault),
    }
}

// Whether bytes are read as this trace, or refused for this fault.
fn has_trace(
    alloc: Global,
    tree: &Tree,
    bytes: &[u8],
    wanted: Result<&[u32], SelectFault>,
) -> bool {
    match read_trace(alloc, tree, bytes) {
        Ok(trace) => wanted == Ok(trace.as_slice()),
        Err(fault) => wanted == Err(fault),
    }
}

fn count_turns(alloc: Global, tree: &Tree, bytes: &[u8]) -> Result<usize, SelectFault> {
    let trace = read_trace(alloc, tree, bytes)?;
    Ok(trace.len())
}

// Adds so many lines of PU 0, and others behind them.
fn add_lines(bytes: &mut Vec<u8>, count: u32, last: &[u8]) -> Result<(), Fail> {
    for _ in 0..count {
        bytes.extend_from_slice(b"0\n")?;
    }
    bytes.extend_from_slice(last)?;
    Ok(())
}

fn lines(alloc: Global, count: u32, last: &[u8]) -> Result<Vec<u8>, Fail> {
    let mut bytes = Vec::new(alloc);
    add_lines(&mut bytes, count, last)?;
    Ok(bytes)
}

#[test]
fn neighbours_share_a_level(rt: HostRuntime) {
    expect_choices(&rt, rt.alloc(), NEIGHBOURLY);
}

#[test]
fn the_first_among_equals(rt: HostRuntime) {
    expect_choices(&rt, rt.alloc(), EQUALS);
}

#[test]
fn short_traces(rt: HostRuntime) {
    expect_choices(&rt, rt.alloc(), SHORT);
}

fn expect_weights(
    rt: &impl Abort,
    alloc: Global,
    tree: &Tree,
    text: Option<&[u8]>,
    wanted: Result<&[u64], SelectFault>,
) {
    assert!(rt; has_weights(alloc, tree, text, wanted), "not {wanted:?}");
}

#[test]
fn reads_weights(rt: HostRuntime) {
    let alloc = rt.alloc();
    for (topology, text, wanted) in WEIGHTS {
        expect_weights(&rt, alloc, &tree_of(&rt, alloc, topology), *text, *wanted);
    }
}

#[test]
fn keeps(rt: HostRuntime) {
    for (text, wanted) in KEEPS {
        assert_eq!(rt; read_keep(text.as_bytes()), *wanted, "at {text}");
    }
}

fn expect_traces(rt: &impl Abort, alloc: Global, tree: &Tree) {
    for (bytes, wanted) in TRACES {
        assert!(rt; has_trace(alloc, tree, bytes, *wanted), "not {wanted:?}");
    }
}

#[test]
fn reads_lines(rt: HostRuntime) {
    expect_traces(&rt, rt.alloc(), &tree_of(&rt, rt.alloc(), PACKAGES));
}

fn expect_turns(rt: &impl Abort, alloc: Global, tree: &Tree) -> Result<(), Fail> {
    for (count, last, wanted) in LONG_TRACES {
        let bytes = lines(alloc, *count, last)?;
        assert_eq!(rt; count_turns(alloc, tree, &bytes), *wanted);
    }
    Ok(())
}

#[test]
fn reads_longest_traces(rt: HostRuntime) -> Result<(), Fail> {
    expect_turns(&rt, rt.alloc(), &tree_of(&rt, rt.alloc(), b"PU:1"))
}

fn expect_two_levels(rt: &impl Abort, alloc: Global, tree: &Tree, bytes: &[u8]) {
    let texts = (None, b"65535".as_slice(), bytes);
    let chosen = is_chosen(alloc, tree, texts, &[1, 0], 16386);
    assert_eq!(rt; chosen, Ok(true));
}

#[test]
fn chooses_for_longest_traces(rt: HostRuntime) -> Result<(), Fail> {
    let alloc = rt.alloc();
    let bytes = lines(alloc, 16384, b"")?;
    expect_two_levels(&rt, alloc, &tree_of(&rt, alloc, b"PU:1"), &bytes);
    Ok(())
}

// What is chosen on a topology where neighbours take turns.
fn choice_on(alloc: Global, topology: &Topology) -> Result<Choice, SelectFault> {
    let weights = read_weights(alloc, topology, None)?;
    let trace = read_trace(alloc, topology, NEIGHBOURS)?;
    match choose(alloc, topology, &weights, 128, &trace) {
        Ok(choice) => Ok(choice),
        Err(_) => Err(SelectFault::OutOfMemory),
    }
}

fn expect_choice_on(rt: &impl Abort, alloc: Global, topology: &Topology) {
    let choice = choice_on(alloc, topology).expect(rt, "a choice");
    assert!(rt; is_choice(&choice, &[1, 0], 24));
}

#[test]
fn choices_on_a_topology(rt: HostRuntime) {
    expect_choice_on(&rt, rt.alloc(), &topology_of(&rt, rt.alloc(), PACKAGES));
}

#[test]
fn tells_each_fault(rt: HostRuntime) -> Result<(), Fail> {
    expect_words(&rt, rt.alloc(), WORDS)
}
