//! Words read, and answers printed. Those of `command_trials` are compared with those of hwloc-calc.
use super::{expect_equal, tree};
use calc_query::{CalcFault, Numbering, select};
use calc_text::{AnswerKind, AnswerStyle, answer_text, read_layers, read_terms, set_text};
use cpu_set::CpuSet;
use std::alloc::Global;
use std::process::Abort;
use topo_tree::{Layer, Tree};

const PLAIN: &str = "Package:2 Core:2 PU:2";

const STYLE: AnswerStyle<'static> = AnswerStyle {
    numbering: Numbering::Logical,
    taskset: false,
    separator: None,
};

fn expect_printed(rt: &impl Abort, alloc: Global, tree: &Tree, set: &CpuSet) {
    let text = answer_text(alloc, tree, set, &AnswerKind::Largest, STYLE).expect(rt, "memory");
    expect_equal(rt, "the largest", text.as_slice(), b"PU:4 Core:3");
    let text = set_text(alloc, true, set).expect(rt, "memory");
    expect_equal(rt, "taskset's form", text.as_slice(), b"0xd0");
    let text = answer_text(alloc, tree, set, &AnswerKind::Set, STYLE).expect(rt, "memory");
    expect_equal(rt, "the set", text.as_slice(), b"0x000000d0");
}

fn expect_read(rt: &impl Abort, alloc: Global, tree: &Tree) {
    let words: [&[u8]; 2] = [b"package:1.core:0-", b"~pu:5"];
    let terms = read_terms(alloc, tree, &words).expect(rt, "terms");
    let set = select(tree, &terms, Numbering::Logical);
    expect_printed(rt, alloc, tree, &set);
}

#[test]
fn reads_and_prints(rt: HostRuntime) {
    expect_read(&rt, rt.alloc(), &tree(&rt, rt.alloc(), PLAIN));
}

// Names with dots between, and their layers.
const LAYERS: &[(&str, Option<&[Layer]>)] = &[
    ("package.PU", Some(&[Layer::Depth(1), Layer::Depth(3)])),
    ("package.", None),
    ("", None),
    (".pu", None),
    ("pu.die", None),
];

fn expect_layers(rt: &impl Abort, alloc: Global, tree: &Tree) {
    for (names, wanted) in LAYERS {
        match read_layers(alloc, tree, names.as_bytes()).expect(rt, "memory") {
            Some(layers) => expect_equal(rt, names, Some(layers.as_slice()), *wanted),
            None => expect_equal(rt, names, None, *wanted),
        }
    }
}

#[test]
fn reads_layers(rt: HostRuntime) {
    expect_layers(&rt, rt.alloc(), &tree(&rt, rt.alloc(), PLAIN));
}

#[test]
fn tells_the_first_bad_word(rt: HostRuntime) {
    let tree = tree(&rt, rt.alloc(), PLAIN);
    let words: [&[u8]; 3] = [b"all", b"^pu:0.pu:x", b"die:0"];
    let found = read_terms(rt.alloc(), &tree, &words).err();
    let wanted = CalcFault::Location { word: 1, at: 6 };
    expect_equal(&rt, "a bad word", found, Some(wanted));
}
