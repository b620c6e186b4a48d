//! What words select. Where no difference is listed, the sets are those of hwloc-calc 2.9. A row of a table has words and
//! their set in hexadecimal.
use super::*;

fn expect_sets_on(
    rt: &impl Abort,
    alloc: Global,
    topology: &Topology,
    numbering: Numbering,
    rows: &[(&str, &str)],
) {
    for (words, wanted) in rows {
        let set = selected(rt, alloc, topology, words.as_bytes(), numbering);
        expect_set(rt, words, &set, wanted);
    }
}

fn expect_sets(
    rt: &impl Abort,
    alloc: Global,
    text: &str,
    numbering: Numbering,
    rows: &[(&str, &str)],
) {
    expect_sets_on(rt, alloc, &built(rt, alloc, text), numbering, rows);
}

// Operators, and sets in hexadecimal.
const OPERATORS: &[(&str, &str)] = &[
    ("package:1.core:0- ~pu:5 x0xf0 core:3:2", "0xd3"),
    ("", "0x0"),
    ("all", "0xff"),
    ("root", "0xff"),
    ("0xff00 pu:0", "0xff01"),
    ("0x1,0x0", "0x1,0x0"),
    ("10 ~0x10", "0x0"),
    ("all ~core:1", "0xf3"),
    ("all x0x3c", "0x3c"),
    ("core:0 ^0x3", "0x0"),
    ("core:0 ^pu:1", "0x1"),
    ("~pu:0", "0x0"),
    ("x0x1", "0x0"),
    ("^0x6", "0x6"),
    ("all ~all all", "0xff"),
    ("0xf00 x0x100 ^pu:8 ~0x1", "0x100"),
    ("pu:7 xall", "0x80"),
];

#[test]
fn indexes_and_operators(rt: HostRuntime) {
    let text = "Package:2 Core:2 PU:2";
    expect_sets(&rt, rt.alloc(), text, Numbering::Logical, OPERATORS);
}

// Each form of an index.
const INDEXES: &[(&str, &str)] = &[
    ("core:9", "0x0"),
    ("core:1-2", "0x3c"),
    ("core:3-1", "0x0"),
    ("core:2-", "0xf0"),
    ("core:4-", "0x0"),
    ("core:2-4294967295", "0xf0"),
    ("core:3:2", "0xc3"),
    ("core:0:5", "0xff"),
    ("core:1:0", "0x0"),
    ("core:4:1", "0x0"),
    ("core:3:4294967295", "0xff"),
    ("core:4294967295", "0x0"),
    ("CORE:0001", "0xc"),
    ("core:all", "0xff"),
    ("core:odd", "0xcc"),
    ("core:even", "0x33"),
    ("package:all.core:1", "0xcc"),
    ("package:all.core:odd.pu:1", "0x88"),
    ("package:1.pu:3:2", "0x90"),
    ("package:0.pu:2-", "0xc"),
    ("core:1.core:0", "0xc"),
    ("core:1.core:1", "0x0"),
    ("core:1.package:0", "0x0"),
    ("package:1.machine:0", "0x0"),
    ("machine:0.pu:7", "0x80"),
    ("core:0-1.pu:1", "0xa"),
    ("core:0-1.core:0.pu:0", "0x5"),
];

#[test]
fn indexes(rt: HostRuntime) {
    let text = "Package:2 Core:2 PU:2";
    expect_sets(&rt, rt.alloc(), text, Numbering::Logical, INDEXES);
}

// Logical numbers of interleaved PUs.
const INTERLEAVED: &[(&str, &str)] = &[
    ("core:0", "0x11"),
    ("pu:4", "0x4"),
    ("core:1.pu:0", "0x2"),
    ("core:3.pu:1", "0x80"),
    ("pu:odd", "0xf0"),
    ("pu:6:3", "0x89"),
    ("core:0.pu:1", "0x10"),
    ("core:odd.pu:even", "0xa"),
];

#[test]
fn interleaved_pus(rt: HostRuntime) {
    let text = "Core:4 PU:2(indexes=2*4:1*2)";
    expect_sets(&rt, rt.alloc(), text, Numbering::Logical, INTERLEAVED);
}

// Physical numbers of interleaved PUs.
const PHYSICAL: &[(&str, &str)] = &[
    ("pu:4", "0x10"),
    ("pu:odd", "0xaa"),
    ("pu:even", "0x55"),
    ("pu:3-5", "0x38"),
    ("pu:6-", "0xc0"),
    ("core:1.pu:5", "0x20"),
    ("core:1.pu:1", "0x2"),
    ("core:1.pu:1-5", "0x22"),
    ("core:1.pu:0", "0x0"),
    ("pu:2:3", "0x1c"),
    ("pu:6:4", "0xc0"),
    ("pu:8", "0x0"),
    ("pu:9:3", "0x0"),
    ("core:2.pu:all", "0x44"),
    ("core:all.core:0", "0x11"),
    ("core:all.core:2", "0x44"),
];

#[test]
fn physical_numbers(rt: HostRuntime) {
    let text = "Core:4 PU:2(indexes=2*4:1*2)";
    expect_sets(&rt, rt.alloc(), text, Numbering::Physical, PHYSICAL);
}

// Groups by the number of their level.
const GROUPS: &[(&str, &str)] = &[
    ("group0:1", "0xf0"),
    ("group1:3", "0xc0"),
    ("group1:odd", "0xcc"),
    ("group0:1.group1:1", "0xc0"),
    ("group00:0", "0xf"),
    ("Group1:0-1", "0xf"),
];

#[test]
fn groups_by_number(rt: HostRuntime) {
    let text = "Group:2 Package:1 Group:2 PU:2";
    expect_sets(&rt, rt.alloc(), text, Numbering::Logical, GROUPS);
}

// Nodes of memory.
const NODES: &[(&str, &str)] = &[
    ("numa:1", "0xfc0"),
    ("numa:1.core:0", "0xc0"),
    ("package:1.numa:0", "0xfc0"),
    ("package:0.numa:1", "0x0"),
    ("core:0.numa:0", "0x0"),
    ("node:all.package:0", "0xfff"),
    ("NUMANode:0.pu:5", "0x20"),
];

#[test]
fn nodes_of_memory(rt: HostRuntime) {
    let text = "Package:2 [numa] Core:3 PU:2";
    expect_sets(&rt, rt.alloc(), text, Numbering::Logical, NODES);
}

// Physical numbers of nodes of memory.
const NUMBERED: &[(&str, &str)] = &[
    ("numa:7", "0xfc0"),
    ("numa:4", "0x3f"),
    ("numa:1", "0x0"),
    ("package:1.numa:7", "0xfc0"),
    ("numa:odd", "0xfc0"),
    ("package:1.core:3", "0xc0"),
    ("package:1.core:0", "0x0"),
];

#[test]
fn physical_numbers_of_nodes(rt: HostRuntime) {
    let text = "Package:2 [numa(indexes=4,7)] Core:3 PU:2";
    expect_sets(&rt, rt.alloc(), text, Numbering::Physical, NUMBERED);
}

const USUAL_MACHINE: &str =
    "Package:2 [NUMANode(memory=34359738368)] L3Cache:1(size=33554432) L2Cache:16(size=1048576) \
          L1dCache:1(size=32768) L1iCache:1(size=32768) Core:1 PU:2(indexes=2*32:1*2)";

// A usual machine.
const USUAL: &[(&str, &str)] = &[
    ("core:0", "0x1,0x1"),
    ("package:0", "0xffff,0xffff"),
    ("package:1.core:15.pu:1", "0x80000000,0x0"),
    ("pu:1", "0x1,0x0"),
];

#[test]
fn usual_machine(rt: HostRuntime) {
    expect_sets(&rt, rt.alloc(), USUAL_MACHINE, Numbering::Logical, USUAL);
}
