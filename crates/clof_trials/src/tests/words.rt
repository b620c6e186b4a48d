//! Words that ask for nothing, and each command that reads no input.
use super::{Printed, Refused, prints_each, refuses_each};
use clof_tool::Fault::{Synth, TypeOf};
use clof_tool::OptionName::Intersect;
use clof_tool::Status::{Limit, Malformed, Usage};
use std::test::Fail;
use synth_text::SynthFault::{BadArity, TooManyObjects};

// What is read where the words ask for it.
const INPUT: &[u8] = b"worker * 0\n\n";

const OTHERS: &[Refused] = &[
    ("topo", INPUT, Usage, "clof: usage\n"),
    ("topo --export", INPUT, Usage, "clof: usage\n"),
    ("topo --list PU:1", INPUT, Usage, "clof: usage\n"),
    ("topo - PU:1", INPUT, Usage, "clof: usage\n"),
    // No word, and one that is empty.
    ("", INPUT, Usage, "clof: usage\n"),
    ("''", INPUT, Usage, "clof: usage\n"),
    ("frob", INPUT, Usage, "clof: usage\n"),
    ("run --walk --walk", INPUT, Usage, "clof: usage\n"),
    ("Run", INPUT, Usage, "clof: usage\n"),
    ("set", INPUT, Usage, "clof: usage\n"),
    ("set --list", INPUT, Usage, "clof: usage\n"),
    ("set --list -1", INPUT, Usage, "clof: usage\n"),
    ("set --list 1 2", INPUT, Usage, "clof: usage\n"),
    ("set --list 1 2 3", INPUT, Usage, "clof: usage\n"),
    (
        "run run run run run run run run run run",
        INPUT,
        Usage,
        "clof: usage\n",
    ),
];

#[test]
fn refuses_other_words(rt: HostRuntime) -> Result<(), Fail> {
    refuses_each(&rt, rt.alloc(), 2, OTHERS)
}

// Each command that reads no input, once: what it prints, and how it is refused.
const ANSWERS: &[Printed] = &[
    ("set --list 5,0-2,1", b"", "0x00000027\n0-2,5\n0x27\n"),
    ("topo --export '2 PU:3'", b"", "Core:2 PU:3\n"),
    (
        "calc 'Package:2 Core:2 PU:2' package:1.core:0- ~pu:5",
        b"",
        "0x000000d0\n",
    ),
    (
        "calc -pIpu --sep=; 'Package:2 Core:2 PU:2' core:1",
        b"",
        "2;3\n",
    ),
    (
        "distrib 3 'Package:2 Core:2 PU:2'",
        b"",
        "0x00000003\n0x0000000c\n0x000000f0\n",
    ),
];

const MALFORMED: &[Refused] = &[
    (
        "calc -I die 'Package:2 Core:2 PU:2' foo",
        b"",
        Malformed(TypeOf(Intersect)),
        "clof: type -I\n",
    ),
    // A description comes before the sections, and before the plan of a check.
    (
        "run PU:0",
        b"worker * 23\nset a 5 0 1\r\nx\r\nget a\r\n\nworker pu:1 23\nset b 7 0 1\r\ny\r\nget b\r\n\n",
        Malformed(Synth(BadArity { at: 0 })),
        "clof: synth BadArity 0\n",
    ),
    (
        "check --keep=65536 PU:0",
        b"x",
        Malformed(Synth(BadArity { at: 0 })),
        "clof: synth BadArity 0\n",
    ),
];

const TOO_MANY: &[Refused] = &[(
    "topo PU:4097",
    b"",
    Limit(Synth(TooManyObjects)),
    "clof: synth TooManyObjects\n",
)];

#[test]
fn answers_without_an_input(rt: HostRuntime) -> Result<(), Fail> {
    prints_each(&rt, rt.alloc(), ANSWERS)?;
    refuses_each(&rt, rt.alloc(), 3, MALFORMED)?;
    refuses_each(&rt, rt.alloc(), 4, TOO_MANY)
}
