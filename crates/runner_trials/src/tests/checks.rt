//! Texts with their verdicts, worked out by hand.
ghost use Rattle.std.specs.Prelude.{◌<◌, ◌≤◌, ◌^◌, length, sum_by};
ghost use Rattle.std.specs.Bool.{OnTrue};
ghost use Rattle.keep_local.specs.Shapes.{top_of};

use keep_local::Shape;
use out_of_memory::OutOfMemory;
use placed_runner::Section;
use run_check::{CheckFault, Verdict, check, read_pair};
use sequence::Sequence;
use std::alloc::Global;
use std::process::Abort;
use std::test::Fail;

// A shape, the callers' sections with their PUs, and a text that is a run of them.
#[derive(Clone, Copy)]
struct Case {
    paths: &'static [&'static [u32]],
    keeps: &'static [u32],
    sections: &'static [Section<'static>],
    printed: &'static [u8],
}

// A case, a text and the verdict on it.
type Judged = (Case, &'static [u8], Verdict);

const ALONE_RUN: &[u8] =
    b"turn 0 caller 0 pu 0 climb 0 tests 0 left 0 \"set a 5 0 1\\r\\nx\\r\\n\" \"STORED\\r\\n\"\n\
    turn 1 caller 0 pu 0 climb 0 tests 0 left 0 \"get a\\r\\n\" \"VALUE a 5 1\\r\\nx\\r\\nEND\\r\\n\"\n\
    caller 0 pu 0 commands 2 rest 0\n";

// One caller that has the lock alone.
const ALONE: Case = Case {
    paths: &[&[0]],
    keeps: &[],
    sections: &[Section {
        pu: 0,
        bytes: b"set a 5 0 1\r\nx\r\nget a\r\n",
    }],
    printed: ALONE_RUN,
};

const PAIR_RUN: &[u8] =
    b"turn 0 caller 0 pu 0 climb 1 tests 1 left 0 \"get a\\r\\n\" \"END\\r\\n\"\n\
    turn 1 caller 1 pu 1 climb 0 tests 0 left 1 \"get a\\r\\n\" \"END\\r\\n\"\n\
    caller 0 pu 0 commands 1 rest 0\n\
    caller 1 pu 1 commands 1 rest 0\n";

// Two callers under one node, which keeps the lock once.
const PAIR: Case = Case {
    paths: &[&[0, 0], &[0, 0]],
    keeps: &[1],
    sections: &[
        Section {
            pu: 0,
            bytes: b"get a\r\n",
        },
        Section {
            pu: 1,
            bytes: b"get a\r\n",
        },
    ],
    printed: PAIR_RUN,
};

const LEVELS_RUN: &[u8] =
    b"turn 0 caller 0 pu 0 climb 2 tests 1 left 0 \"set a 0 0 1\\r\\nx\\r\\n\" \"STORED\\r\\n\"\n\
    turn 1 caller 1 pu 1 climb 0 tests 2 left 1 \"get a\\r\\n\" \"VALUE a 0 1\\r\\nx\\r\\nEND\\r\\n\"\n\
    turn 2 caller 2 pu 2 climb 1 tests 0 left 2 \"delete a\\r\\n\" \"DELETED\\r\\n\"\n\
    turn 3 caller 0 pu 0 climb 2 tests 0 left 2 \"quit\\r\\n\" \"\"\n\
    caller 0 pu 0 commands 2 rest 7\n\
    caller 1 pu 1 commands 1 rest 2\n\
    caller 2 pu 2 commands 1 rest 0\n\
    caller 3 pu 3 commands 0 rest 0\n";

// Three levels: two callers under one node and a third under another of the same node above, and a fourth apart.
const LEVELS: Case = Case {
    paths: &[&[0, 0, 0], &[0, 0, 0], &[1, 0, 0], &[2, 1, 0]],
    keeps: &[2, 2],
    sections: &[
        Section {
            pu: 0,
            bytes: b"set a 0 0 1\r\nx\r\nquit\r\nget a\r\n",
        },
        Section {
            pu: 1,
            bytes: b"get a\r\nge",
        },
        Section {
            pu: 2,
            bytes: b"delete a\r\n",
        },
        Section { pu: 3, bytes: b"" },
    ],
    printed: LEVELS_RUN,
};

// A level that keeps the lock never, and one that keeps it twice. The latter is still due behind the first turn, so that no other test may
// stand in the second.
const NEVER: Case = Case {
    keeps: &[0],
    ..PAIR
};

const TWICE: Case = Case {
    keeps: &[2],
    ..PAIR
};

// Two callers under different nodes.
const APART: Case = Case {
    paths: &[&[0, 0], &[1, 0]],
    ..PAIR
};

// Levels that keep the lock once.
const ONCE: Case = Case {
    keeps: &[1, 1],
    ..LEVELS
};

const NONE: Case = Case {
    paths: &[],
    keeps: &[],
    sections: &[],
    printed: b"",
};

const IDLE: Case = Case {
    paths: &[&[0], &[0]],
    keeps: &[],
    sections: &[
        Section { pu: 7, bytes: b"" },
        Section {
            pu: 8,
            bytes: b"get a",
        },
    ],
    printed: b"",
};

const RUNS: &[Judged] = &[
    (ALONE, ALONE_RUN, Verdict::Yes),
    (PAIR, PAIR_RUN, Verdict::Yes),
    (LEVELS, LEVELS_RUN, Verdict::Yes),
];

const LAWLESS: &[Judged] = &[
    // The first turn has left higher than its tests say.
    (
        PAIR,
        b"turn 0 caller 0 pu 0 climb 1 tests 1 left 1 \"get a\\r\\n\" \"END\\r\\n\"\n",
        Verdict::No { line: 0 },
    ),
    // A test above the level left at, and one at the top.
    (
        PAIR,
        b"turn 0 caller 0 pu 0 climb 1 tests 3 left 0 \"get a\\r\\n\" \"END\\r\\n\"\n",
        Verdict::No { line: 0 },
    ),
    (
        PAIR,
        b"turn 0 caller 0 pu 0 climb 1 tests 2 left 1 \"get a\\r\\n\" \"END\\r\\n\"\n",
        Verdict::No { line: 0 },
    ),
    // A caller without a command left, and one without a section.
    (
        PAIR,
        b"turn 0 caller 0 pu 0 climb 1 tests 0 left 1 \"get a\\r\\n\" \"END\\r\\n\"\n\
          turn 1 caller 0 pu 0 climb 1 tests 0 left 1 \"get a\\r\\n\" \"END\\r\\n\"\n",
        Verdict::No { line: 1 },
    ),
    (
        PAIR,
        b"turn 0 caller 2 pu 0 climb 1 tests 0 left 1 \"get a\\r\\n\" \"END\\r\\n\"\n",
        Verdict::No { line: 0 },
    ),
];

const UNDER_NODES: &[Judged] = &[(APART, PAIR_RUN, Verdict::No { line: 1 })];

// Two turns that each leave the lock free.
const FREE: &[u8] = b"turn 0 caller 0 pu 0 climb 1 tests 1 left 1 \"get a\\r\\n\" \"END\\r\\n\"\n\
    turn 1 caller 1 pu 1 climb 1 tests 0 left 1 \"get a\\r\\n\" \"END\\r\\n\"\n\
    caller 0 pu 0 commands 1 rest 0\n\
    caller 1 pu 1 commands 1 rest 0\n";

const KEPT: &[Judged] = &[
    (NEVER, PAIR_RUN, Verdict::No { line: 0 }),
    (NEVER, FREE, Verdict::Yes),
    (PAIR, FREE, Verdict::No { line: 0 }),
    (TWICE, PAIR_RUN, Verdict::Yes),
];

// The callers' lines are all, and where there is no caller, there is none.
const CALLERS: &[Judged] = &[
    (NONE, b"", Verdict::Yes),
    (NONE, b"\n", Verdict::No { line: 0 }),
    (NONE, b"turn ", Verdict::No { line: 0 }),
    (
        IDLE,
        b"caller 0 pu 7 commands 0 rest 0\ncaller 1 pu 8 commands 0 rest 5\n",
        Verdict::Yes,
    ),
    (IDLE, b"", Verdict::No { line: 0 }),
    (
        IDLE,
        b"caller 0 pu 7 commands 0 rest 0\n",
        Verdict::No { line: 1 },
    ),
    (
        IDLE,
        b"caller 0 pu 7 commands 0 rest 0\ncaller 1 pu 8 commands 0 rest 5",
        Verdict::No { line: 1 },
    ),
    (
        IDLE,
        b"caller 1 pu 8 commands 0 rest 5\ncaller 0 pu 7 commands 0 rest 0\n",
        Verdict::No { line: 0 },
    ),
    (
        IDLE,
        b"caller 0 pu 7 commands 0 rest 0\ncaller 1 pu 8 commands 0 rest 5\nx",
        Verdict::No { line: 2 },
    ),
];

// The tests of the second and the third turn of a run.
const TESTS: &[(&[u8], &[u8])] = &[(b"2", b"0"), (b"2", b"2"), (b"3", b"0"), (b"3", b"2")];

const PAIRS: &[(&[u8], Result<(&[u8], &[u8]), CheckFault>)] = &[
    (b"input 0\n\n", Ok((b"", b""))),
    (b"input 2\na\n\nturn ", Ok((b"a\n", b"turn "))),
    (b"input 0000000001\nab\n", Err(CheckFault::Short)),
    (b"input 0000000002\nab\n\n", Ok((b"ab", b"\n"))),
    (b"input 16777216\n", Err(CheckFault::Short)),
    (b"input 16777217\n", Err(CheckFault::BadHead)),
    (b"input 4294967296\n", Err(CheckFault::BadHead)),
    (b"input 00000000000\n\n", Err(CheckFault::BadHead)),
    (b"input \n\n", Err(CheckFault::BadHead)),
    (b"input +1\na\n", Err(CheckFault::BadHead)),
    (b"input  1\na\n", Err(CheckFault::BadHead)),
    (b"input 1 \na\n", Err(CheckFault::BadHead)),
    (b"Input 1\na\n", Err(CheckFault::BadHead)),
    (b"input 1", Err(CheckFault::BadHead)),
    (b"", Err(CheckFault::BadHead)),
    (b"\n", Err(CheckFault::BadHead)),
    (b"input 3\nab", Err(CheckFault::Short)),
    (b"input 3\nabc", Err(CheckFault::Short)),
    (b"input 2\nabc\n", Err(CheckFault::Short)),
];

fn list_of(alloc: Global, numbers: &[u32]) -> Result<Sequence<u32>, OutOfMemory> {
    Ok(Sequence::from_vec(numbers.to_vec(alloc)?))
}

fn shape_of(alloc: Global, case: &Case) -> Result<Shape, OutOfMemory> {
    let mut paths = Vec::new(alloc);
    for path in case.paths {
        paths.push(list_of(alloc, path)?)?;
    }
    Ok(Shape {
        paths: Sequence::from_vec(paths),
        keeps: list_of(alloc, case.keeps)?,
    })
}

// Whether sections together have less than 2^32 bytes.
fn fit(sections: &[Section<'_>]) -> bool
    ensures { OnTrue result (sum_by (λ section. length section.bytes.now) sections.now < 2 ^ 32) }
{
    let mut total: usize = 0;
    for section in sections {
        total = total.saturating_add(section.bytes.len());
        if total >= 1 << 32 {
            return false;
        }
    }
    true
}

// Whether this is the verdict on a text, for the shape and the sections of a case.
fn is_judged(
    alloc: Global,
    case: &Case,
    printed: &[u8],
    want: Verdict,
) -> Result<bool, OutOfMemory> {
    let shape = shape_of(alloc, case)?;
    is_judged_on(alloc, &shape, case, printed, want)
}

fn is_judged_on(
    alloc: Global,
    shape: &Shape,
    case: &Case,
    printed: &[u8],
    want: Verdict,
) -> Result<bool, OutOfMemory> {
    if !shape.is_well_formed() || !fit(case.sections) {
        return Ok(false);
    }
    if case.sections.len() >= 1 << 32 || printed.len() >= 1 << 32 {
        return Ok(false);
    }
    Ok(check(alloc, shape, case.sections, printed)? == want)
}

// A text with the bytes from one place to another taken out, and others in their place.
fn spliced(
    alloc: Global,
    text: &[u8],
    from: usize,
    to: usize,
    other: &[u8],
) -> Result<Vec<u8>, OutOfMemory> {
    let mut new = Vec::new(alloc);
    if from <= to && to <= text.len() {
        new.extend_from_slice(&text[..from])?;
        new.extend_from_slice(other)?;
        new.extend_from_slice(&text[to..])?;
    }
    Ok(new)
}

fn expect_verdicts(rt: &impl Abort, alloc: Global, rows: &[Judged]) -> Result<(), Fail> {
    for (case, text, want) in rows {
        let judged = is_judged(alloc, case, text, *want)?;
        assert!(rt; judged, "not {want:?}");
    }
    Ok(())
}

#[test]
fn a_run_is_one(rt: HostRuntime) -> Result<(), Fail> {
    expect_verdicts(&rt, rt.alloc(), RUNS)
}

// Whether a case's text breaks at a line, once the bytes from one place to another are replaced.
fn is_broken(
    alloc: Global,
    case: &Case,
    (from, to): (usize, usize),
    other: &[u8],
    line: u32,
) -> Result<bool, OutOfMemory> {
    let text = spliced(alloc, case.printed, from, to, other)?;
    is_judged(alloc, case, &text, Verdict::No { line })
}

// Whether a case's text breaks at a line, once the byte at a place of it is another, and once it is left out.
fn is_broken_at(
    alloc: Global,
    case: &Case,
    at: usize,
    byte: u8,
    line: u32,
) -> Result<bool, OutOfMemory> {
    let places = (at, at.saturating_add(1));
    for other in [byte ^ 1, byte ^ 2, b' ', b'\n', b'0'] {
        if other != byte && !is_broken(alloc, case, places, &[other], line)? {
            return Ok(false);
        }
    }
    is_broken(alloc, case, places, &[], line)
}

// The number of the line behind a byte.
fn line_behind(line: u32, byte: u8) -> u32 {
    line.saturating_add(u32::from(byte == b'\n'))
}

fn expect_breaks(rt: &impl Abort, alloc: Global, case: &Case) -> Result<(), Fail> {
    let mut line = 0;
    for at in 0..case.printed.len() {
        let byte = case.printed[at];
        let changed = is_broken_at(alloc, case, at, byte, line)?;
        line = line_behind(line, byte);
        let doubled = is_broken(alloc, case, (at, at), &[byte], line)?;
        assert!(rt; changed && doubled, "at byte {at}");
    }
    Ok(())
}

#[test]
fn tells_the_line_of_each_changed_byte(rt: HostRuntime) -> Result<(), Fail> {
    expect_breaks(&rt, rt.alloc(), &ALONE)?;
    expect_breaks(&rt, rt.alloc(), &TWICE)?;
    expect_breaks(&rt, rt.alloc(), &LEVELS)
}

fn expect_cuts(rt: &impl Abort, alloc: Global, case: &Case) -> Result<(), Fail> {
    let mut line = 0;
    for at in 0..case.printed.len() {
        let judged = is_judged(alloc, case, &case.printed[..at], Verdict::No { line })?;
        assert!(rt; judged, "at byte {at}");
        line = line_behind(line, case.printed[at]);
    }
    Ok(())
}

#[test]
fn tells_where_a_text_is_cut(rt: HostRuntime) -> Result<(), Fail> {
    expect_cuts(&rt, rt.alloc(), &ALONE)?;
    expect_cuts(&rt, rt.alloc(), &PAIR)?;
    expect_cuts(&rt, rt.alloc(), &LEVELS)
}

#[test]
fn tells_turns_that_are_not_lawful(rt: HostRuntime) -> Result<(), Fail> {
    expect_verdicts(&rt, rt.alloc(), LAWLESS)
}

#[test]
fn a_kept_lock_stays_under_its_node(rt: HostRuntime) -> Result<(), Fail> {
    expect_verdicts(&rt, rt.alloc(), UNDER_NODES)
}

#[test]
fn counts_what_a_level_keeps(rt: HostRuntime) -> Result<(), Fail> {
    expect_verdicts(&rt, rt.alloc(), KEPT)
}

fn expect_yes(rt: &impl Abort, alloc: Global, case: &Case, text: &[u8]) {
    let judged = is_judged(alloc, case, text, Verdict::Yes);
    assert!(rt; judged.expect(rt, "memory"));
}

// A level that has kept the lock often enough isn't due, whether or not another caller was queued there.
#[test]
fn a_test_may_stand_where_a_level_is_not_due(rt: HostRuntime) {
    let alloc = rt.alloc();
    let text = ONCE.printed;
    assert!(rt; text.len() > 201 && text[115] == b'2' && text[201] == b'0');
    for (second, third) in TESTS {
        let changed = spliced(alloc, text, 115, 116, second).expect(&rt, "memory");
        let changed = spliced(alloc, &changed, 201, 202, third).expect(&rt, "memory");
        expect_yes(&rt, alloc, &ONCE, &changed);
    }
}

#[test]
fn the_callers_lines_are_all(rt: HostRuntime) -> Result<(), Fail> {
    expect_verdicts(&rt, rt.alloc(), CALLERS)
}

#[test]
fn reads_pairs(rt: HostRuntime) {
    for (bytes, want) in PAIRS {
        assert!(rt; read_pair(bytes) == *want);
    }
}
