//! A walk that tells kinds of locks apart.
use super::{WELL, ends};
use std::alloc::Global;
use std::test::Fail;

// Four callers on two packages, the first and the last of them on one PU.
const INPUT: &[u8] = b"worker pu:2 14\nget a\r\nget a\r\n\n\
    worker pu:0 21\nget a\r\nget a\r\nget a\r\n\n\
    worker pu:3 21\nget a\r\nget a\r\nget a\r\n\n\
    worker pu:2 21\nget a\r\nget a\r\nget a\r\n\n";

const CALLERS: &str = "caller 0 pu 2 commands 2 rest 0\ncaller 1 pu 0 commands 3 rest 0\n\
    caller 2 pu 3 commands 3 rest 0\ncaller 3 pu 2 commands 3 rest 0\n";

// What the turns are under locks of these kinds, the package's first, as a plain model of the locks has them (`bench/walk_model.py`): the
// callers of the turns, and their tests. In this model the sixteen choices of two kinds make six different walks of these callers, of which
// there is one in each row, and they make the same where the locks count their waiters.
const WALKS: &[(&str, [u32; 11], [u32; 11])] = &[
    (
        "run --walk --levels package,machine --locks tkt-tkt --keep 0 'Package:2 PU:2'",
        [0, 1, 2, 3, 1, 0, 1, 2, 3, 2, 3],
        [1, 0, 1, 1, 0, 1, 0, 1, 1, 1, 0],
    ),
    (
        "run --walk --levels package,machine --locks clh-hem --keep 0 'Package:2 PU:2'",
        [0, 1, 2, 3, 1, 0, 2, 1, 3, 2, 3],
        [1, 0, 1, 1, 0, 1, 1, 0, 1, 1, 0],
    ),
    (
        "run --walk --levels package,machine --locks mcs-mcs --keep 0 'Package:2 PU:2'",
        [0, 1, 2, 1, 3, 1, 0, 2, 3, 2, 3],
        [1, 0, 1, 0, 1, 0, 1, 1, 1, 1, 0],
    ),
    (
        "run --walk --levels package,machine --locks mcs-hem --keep 0 'Package:2 PU:2'",
        [0, 1, 2, 1, 3, 0, 1, 2, 3, 2, 3],
        [1, 0, 1, 0, 1, 1, 0, 1, 1, 1, 0],
    ),
    (
        "run --walk --levels package,machine --locks hem-mcs --keep 0 'Package:2 PU:2'",
        [0, 1, 2, 1, 3, 1, 0, 2, 3, 2, 3],
        [1, 0, 1, 0, 1, 0, 1, 1, 0, 1, 0],
    ),
    (
        "run --walk --levels package,machine --locks hem-hem --keep 0 'Package:2 PU:2'",
        [0, 1, 2, 1, 3, 0, 1, 2, 3, 2, 3],
        [1, 0, 1, 0, 1, 1, 0, 1, 0, 1, 0],
    ),
];

// The text of a walk whose turns are of these callers, with these tests.
fn text_of(alloc: Global, callers: &[u32; 11], tests: &[u32; 11]) -> Result<String, Fail> {
    let mut text = String::new(alloc);
    for number in 0..11 {
        text.push_str(&line_of(alloc, number, callers[number], tests[number])?)?;
    }
    text.push_str(CALLERS)?;
    Ok(text)
}

// The line of a turn. With a keep of 0 each turn climbs to the top and leaves there.
fn line_of(alloc: Global, number: usize, caller: u32, tests: u32) -> Result<String, Fail> {
    let pu = match caller {
        1 => 0,
        2 => 3,
        _ => 2,
    };
    Ok(format!(in alloc;
        "turn {number} caller {caller} pu {pu} climb 1 tests {tests} left 1 \"get a\\r\\n\" \"END\\r\\n\"\n"
    )?)
}

#[test]
fn tells_kinds_apart(rt: HostRuntime) -> Result<(), Fail> {
    for row in WALKS {
        let (line, callers, tests) = row;
        let text = text_of(rt.alloc(), callers, tests)?;
        ends(&rt, rt.alloc(), (line, INPUT), WELL, &text)?;
    }
    Ok(())
}
