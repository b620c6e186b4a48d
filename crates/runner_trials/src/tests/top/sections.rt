//! The sections of `run`: what is served of them, and how they are refused.
use super::gates::{Meeting, have_met};
use super::{
    Printed, Refused, WELL, call, ends, has_end, has_parts, prints_each, prints_last, refuses_each,
};
use clof_tool::Fault::Section;
use clof_tool::Status::Malformed;
use placed_runner::OpenGate;
use placed_runner::SectionFault::{BadHead, BadPlace, Short};
use std::alloc::Global;
use std::process::Abort;
use std::sync::Wait;
use std::test::Fail;
use std::thread::Threads;

const SERVED: &[Printed] = &[
    ("run", b"", ""),
    (
        "run",
        b"worker * 0\n\n",
        "caller 0 pu 0 commands 0 rest 0\n",
    ),
    (
        "run",
        b"worker * 5\nget a\n",
        "caller 0 pu 0 commands 0 rest 5\n",
    ),
    (
        "run",
        b"worker * 23\nset a 5 0 1\r\nx\r\nget a\r\n\n",
        "turn 0 caller 0 pu 0 climb 0 tests 0 left 0 \"set a 5 0 1\\r\\nx\\r\\n\" \"STORED\\r\\n\"\n\
         turn 1 caller 0 pu 0 climb 0 tests 0 left 0 \"get a\\r\\n\" \"VALUE a 5 1\\r\\nx\\r\\nEND\\r\\n\"\n\
         caller 0 pu 0 commands 2 rest 0\n",
    ),
    // Each kind of answer.
    (
        "run",
        b"worker * 124\nset n 0 0 20\r\n18446744073709551615\r\nincr n 1\r\ndecr n 5\r\n\
          cas n 0 0 1 1\r\n7\r\ncas n 0 0 1 3\r\n7\r\ngets n\r\nset n 0 0 1 noreply\r\n8\r\n\n",
        "turn 0 caller 0 pu 0 climb 0 tests 0 left 0 \"set n 0 0 20\\r\\n18446744073709551615\\r\\n\" \"STORED\\r\\n\"\n\
         turn 1 caller 0 pu 0 climb 0 tests 0 left 0 \"incr n 1\\r\\n\" \"0\\r\\n\"\n\
         turn 2 caller 0 pu 0 climb 0 tests 0 left 0 \"decr n 5\\r\\n\" \"0\\r\\n\"\n\
         turn 3 caller 0 pu 0 climb 0 tests 0 left 0 \"cas n 0 0 1 1\\r\\n7\\r\\n\" \"EXISTS\\r\\n\"\n\
         turn 4 caller 0 pu 0 climb 0 tests 0 left 0 \"cas n 0 0 1 3\\r\\n7\\r\\n\" \"STORED\\r\\n\"\n\
         turn 5 caller 0 pu 0 climb 0 tests 0 left 0 \"gets n\\r\\n\" \"VALUE n 0 1 4\\r\\n7\\r\\nEND\\r\\n\"\n\
         turn 6 caller 0 pu 0 climb 0 tests 0 left 0 \"set n 0 0 1 noreply\\r\\n8\\r\\n\" \"\"\n\
         caller 0 pu 0 commands 7 rest 0\n",
    ),
    // Line ends of one byte, and no reply.
    (
        "run",
        b"worker * 30\nset a 0 0 1 noreply\r\nx\r\nget a\n\n",
        "turn 0 caller 0 pu 0 climb 0 tests 0 left 0 \"set a 0 0 1 noreply\\r\\nx\\r\\n\" \"\"\n\
         turn 1 caller 0 pu 0 climb 0 tests 0 left 0 \"get a\\n\" \"VALUE a 0 1\\r\\nx\\r\\nEND\\r\\n\"\n\
         caller 0 pu 0 commands 2 rest 0\n",
    ),
    // A time to live below 0.
    (
        "run",
        b"worker * 48\nset a 0 -1 1\r\nx\r\nget a\r\nset b 0 -0 1\r\ny\r\nget b\r\n\n",
        "turn 0 caller 0 pu 0 climb 0 tests 0 left 0 \"set a 0 -1 1\\r\\nx\\r\\n\" \"STORED\\r\\n\"\n\
         turn 1 caller 0 pu 0 climb 0 tests 0 left 0 \"get a\\r\\n\" \"END\\r\\n\"\n\
         turn 2 caller 0 pu 0 climb 0 tests 0 left 0 \"set b 0 -0 1\\r\\ny\\r\\n\" \"STORED\\r\\n\"\n\
         turn 3 caller 0 pu 0 climb 0 tests 0 left 0 \"get b\\r\\n\" \"VALUE b 0 1\\r\\ny\\r\\nEND\\r\\n\"\n\
         caller 0 pu 0 commands 4 rest 0\n",
    ),
    // Bytes of each sort in values, and several keys in a line.
    (
        "run",
        b"worker * 49\nset a 007 0 2\r\n\r\n\r\nset b 1 0 4\r\n\0\"\\\xff\r\nget a b a\r\n\n",
        "turn 0 caller 0 pu 0 climb 0 tests 0 left 0 \"set a 007 0 2\\r\\n\\r\\n\\r\\n\" \"STORED\\r\\n\"\n\
         turn 1 caller 0 pu 0 climb 0 tests 0 left 0 \"set b 1 0 4\\r\\n\\x00\\\"\\\\\\xff\\r\\n\" \"STORED\\r\\n\"\n\
         turn 2 caller 0 pu 0 climb 0 tests 0 left 0 \"get a b a\\r\\n\" \"VALUE a 7 2\\r\\n\\r\\n\\r\\n\
         VALUE b 1 4\\r\\n\\x00\\\"\\\\\\xff\\r\\nVALUE a 7 2\\r\\n\\r\\n\\r\\nEND\\r\\n\"\n\
         caller 0 pu 0 commands 3 rest 0\n",
    ),
];

#[test]
fn serves_one_section(rt: HostRuntime) -> Result<(), Fail> {
    prints_each(&rt, rt.alloc(), SERVED)
}

#[test]
fn leaves_a_cut_command_as_the_rest(rt: HostRuntime) -> Result<(), Fail> {
    let cut = "set abc 1 2 3 noreply\r\nxyz\r\n";
    for rest in 0..cut.len() {
        let length = rest.wrapping_add(7);
        let front = cut.get(..rest).ok_or("the command is shorter")?;
        let input = format!(in rt.alloc(); "worker * {length}\nget k\r\n{front}\n")?;
        let text = format!(in rt.alloc();
            "turn 0 caller 0 pu 0 climb 0 tests 0 left 0 \"get k\\r\\n\" \"END\\r\\n\"\ncaller 0 pu 0 commands 1 rest {rest}\n"
        )?;
        ends(&rt, rt.alloc(), ("run", input.as_bytes()), WELL, &text)?;
    }
    Ok(())
}

// The commands of a section.
const WHOLE: &str =
    "set n 0 0 20\r\n18446744073709551615\r\nincr n 1\r\ndecr n 5\r\ncas n 0 0 1 1\r\n7\r\n\
     cas n 0 0 1 3\r\n7\r\ngets n\r\nset n 0 0 1 noreply\r\n8\r\n";

// Where none, the first, the first two of them end, and so on, and where the next one ends.
const ENDS: &[(usize, usize)] = &[
    (0, 36),
    (36, 46),
    (46, 56),
    (56, 74),
    (74, 92),
    (92, 100),
    (100, 124),
    (124, 125),
];

// Checks the last line of a run of the section, cut behind so many bytes: what stands behind its last whole command is the rest.
fn cuts_at<R: Threads + Wait + Sync + Abort>(
    rt: &R,
    alloc: Global,
    size: usize,
    commands: usize,
    rest: usize,
) -> Result<(), Fail> {
    let section = WHOLE.get(..size).ok_or("the section is shorter")?;
    let input = format!(in alloc; "worker * {size}\n{section}\n")?;
    let last = format!(in alloc; "caller 0 pu 0 commands {commands} rest {rest}\n")?;
    prints_last(rt, alloc, input.as_bytes(), &last)
}

#[test]
fn cuts_a_section_behind_each_byte(rt: HostRuntime) -> Result<(), Fail> {
    for (commands, row) in ENDS.iter().enumerate() {
        let (end, next) = *row;
        for size in end..next {
            cuts_at(&rt, rt.alloc(), size, commands, size - end)?;
        }
    }
    Ok(())
}

const BROKEN: &[Refused] = &[
    (
        "run PU:1",
        b"\n",
        Malformed(Section(BadHead { at: 0 })),
        "clof: section BadHead 0\n",
    ),
    (
        "run PU:1",
        b"walker * 0\n\n",
        Malformed(Section(BadHead { at: 0 })),
        "clof: section BadHead 0\n",
    ),
    (
        "run PU:1",
        b"worker * 9\nget a\r\n\n",
        Malformed(Section(Short { at: 0 })),
        "clof: section Short 0\n",
    ),
    (
        "run PU:1",
        b"worker * 7\nget a\r\n\nx",
        Malformed(Section(BadHead { at: 19 })),
        "clof: section BadHead 19\n",
    ),
    (
        "run PU:1",
        b"worker * 7\nget a\r\n\nworker pu:1 9\n",
        Malformed(Section(BadPlace { at: 19 })),
        "clof: section BadPlace 19\n",
    ),
    (
        "run 'Core:1 PU:2'",
        b"worker core:0 0\n\n",
        Malformed(Section(BadPlace { at: 0 })),
        "clof: section BadPlace 0\n",
    ),
];

#[test]
fn refuses_the_first_broken_rule_of_the_sections(rt: HostRuntime) -> Result<(), Fail> {
    refuses_each(&rt, rt.alloc(), 3, BROKEN)
}

const TWO: &[u8] =
    b"worker * 23\nset a 5 0 1\r\nx\r\nget a\r\n\nworker pu:1 23\nset b 7 0 1\r\ny\r\nget b\r\n\n";

// Turns of one caller, of which the first stands before the second.
const ORDERED: &[(&str, &str)] = &[
    (
        " left 0 \"set a 5 0 1\\r\\nx\\r\\n\" \"STORED\\r\\n\"\n",
        " left 0 \"get a\\r\\n\" \"VALUE a 5 1\\r\\nx\\r\\nEND\\r\\n\"\n",
    ),
    (
        " left 0 \"set b 7 0 1\\r\\ny\\r\\n\" \"STORED\\r\\n\"\n",
        " left 0 \"get b\\r\\n\" \"VALUE b 7 1\\r\\ny\\r\\nEND\\r\\n\"\n",
    ),
];

const PARTS: &[(&str, usize)] = &[
    ("turn ", 4),
    (" caller 0 pu 0 climb 0 tests ", 2),
    (" caller 1 pu 1 climb 0 tests ", 2),
];

// The turns of two callers mix as it happens; what each is told of keys of its own doesn't depend on that, nor does the order of its own
// turns.
#[test]
fn serves_several_sections(rt: HostRuntime) -> Result<(), Fail> {
    let line = "run 'Core:2 PU:2'";
    let out = call(&rt, rt.alloc(), line, TWO, &OpenGate, WELL)?;
    let text = std::str::from_utf8(out.bytes())?;
    for row in ORDERED {
        has_in_order(&rt, text, row.0, row.1);
    }
    has_parts(&rt, text, PARTS);
    let end = "caller 0 pu 0 commands 2 rest 0\ncaller 1 pu 1 commands 2 rest 0\n";
    has_end(&rt, line, out.bytes(), end);
    Ok(())
}

// Checks that a part first stands before another one.
fn has_in_order(rt: &impl Abort, text: &str, first: &str, second: &str) {
    let (before, behind) = text.split_once(first).unwrap_or((text, ""));
    assert!(rt;
        !before.contains(second) && behind.contains(second),
        "at {first}"
    );
}

const GETS: &[(&str, usize)] = &[
    ("turn ", 2),
    (" left 0 \"get a\\r\\n\" \"END\\r\\n\"\n", 1),
    (" left 0 \"get b\\r\\n\" \"END\\r\\n\"\n", 1),
];

// Both callers are at the lock at once: one holds while the other is queued.
#[test]
fn holds_while_another_is_queued(rt: HostRuntime) -> Result<(), Fail> {
    let input = b"worker * 7\nget a\r\n\nworker * 7\nget b\r\n\n";
    let gate = Meeting::new();
    let out = call(&rt, rt.alloc(), "run", input, &gate, WELL)?;
    have_met(&rt, "run", &gate);
    has_parts(&rt, std::str::from_utf8(out.bytes())?, GETS);
    Ok(())
}
