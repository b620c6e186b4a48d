//! What is refused, and which of two faults is told.
use super::*;
use std::fmt::Display;
use topo_tree::BuildFault::{IndexCount, IndexRange, IndexTwice};

fn expect_faults(rt: &impl Abort, alloc: Global, rows: &[(&str, BuildFault)]) {
    for (text, fault) in rows {
        let description = read(alloc, text.as_bytes()).expect(rt, text);
        let found = Topology::build(alloc, description).err();
        expect_equal(rt, text, found, Some(*fault));
    }
}

// Lists of numbers of PUs.
const LISTS: &[(&str, BuildFault)] = &[
    ("Core:1 PU:2(indexes=0,0)", IndexTwice { number: 0 }),
    (
        "PU:2(indexes=0,1,2)",
        IndexCount {
            found: 3,
            wanted: 2,
        },
    ),
    (
        "PU:3(indexes=1,1)",
        IndexCount {
            found: 2,
            wanted: 3,
        },
    ),
    (
        "PU:3(indexes=4096,0)",
        IndexCount {
            found: 2,
            wanted: 3,
        },
    ),
    ("PU:3(indexes=1,4096,1)", IndexRange { number: 4096 }),
    ("PU:3(indexes=1,1,4096)", IndexTwice { number: 1 }),
    ("PU:3(indexes=5000,5000,1)", IndexRange { number: 5000 }),
    ("PU:4(indexes=4095,2,2,4095)", IndexTwice { number: 2 }),
    (
        "PU:1(indexes=4294967295)",
        IndexRange { number: 4294967295 },
    ),
];

// Loops of numbers of PUs.
const LOOPS: &[(&str, BuildFault)] = &[
    (
        "PU:8(indexes=2*4:1*3)",
        IndexCount {
            found: 12,
            wanted: 8,
        },
    ),
    ("PU:8(indexes=2*4:2*2)", IndexTwice { number: 0 }),
    ("PU:8(indexes=1*4:3*2)", IndexTwice { number: 2 }),
    ("PU:8(indexes=4294967295*8)", IndexTwice { number: 0 }),
    (
        "PU:8(indexes=1*2:1*2147483647)",
        IndexCount {
            found: 4294967294,
            wanted: 8,
        },
    ),
    (
        "PU:8(indexes=1*65536:1*65536)",
        IndexCount {
            found: 4294967295,
            wanted: 8,
        },
    ),
    (
        "PU:8(indexes=1*65536:1*65536:1*65536:1*65536:1*8)",
        IndexCount {
            found: 4294967295,
            wanted: 8,
        },
    ),
];

// Numbers of the nodes of memory.
const MEMORY: &[(&str, BuildFault)] = &[
    (
        "[numa(indexes=0,1)] PU:2",
        IndexCount {
            found: 2,
            wanted: 1,
        },
    ),
    (
        "Core:3 [node(indexes=1,1)] PU:2",
        IndexCount {
            found: 2,
            wanted: 3,
        },
    ),
    (
        "Core:3 [node(indexes=4096,1)] PU:2",
        IndexCount {
            found: 2,
            wanted: 3,
        },
    ),
    (
        "Core:3 [node(indexes=1,4096,1)] PU:2",
        IndexRange { number: 4096 },
    ),
    ("numa:3(indexes=1,1,4096) PU:2", IndexTwice { number: 1 }),
    (
        "numa:2(indexes=1*3) PU:3",
        IndexCount {
            found: 3,
            wanted: 2,
        },
    ),
    ("numa:4(indexes=2*2:2*2) PU:1", IndexTwice { number: 0 }),
    (
        "numa:4(indexes=1*65536:1*65537) PU:1",
        IndexCount {
            found: 4294967295,
            wanted: 4,
        },
    ),
];

// A fault of the memory and one of the PUs.
const BOTH: &[(&str, BuildFault)] = &[
    (
        "numa:2(indexes=5) PU:1(indexes=6)",
        IndexCount {
            found: 1,
            wanted: 2,
        },
    ),
    (
        "numa:2(indexes=5) PU:1(indexes=0,5000)",
        IndexCount {
            found: 1,
            wanted: 2,
        },
    ),
    (
        "numa:2(indexes=5) PU:1(indexes=7,7)",
        IndexCount {
            found: 1,
            wanted: 2,
        },
    ),
    (
        "numa:2(indexes=0,4097) PU:1(indexes=6)",
        IndexRange { number: 4097 },
    ),
    (
        "numa:2(indexes=0,4097) PU:1(indexes=5000,0)",
        IndexRange { number: 4097 },
    ),
    (
        "numa:2(indexes=0,4097) PU:1(indexes=7,7)",
        IndexRange { number: 4097 },
    ),
    (
        "numa:2(indexes=3,3) PU:1(indexes=6)",
        IndexTwice { number: 3 },
    ),
    (
        "numa:2(indexes=3,3) PU:1(indexes=5000,0)",
        IndexTwice { number: 3 },
    ),
    (
        "numa:2(indexes=3,3) PU:1(indexes=7,7)",
        IndexTwice { number: 3 },
    ),
    (
        "[numa(indexes=4096)] PU:2(indexes=0,0)",
        IndexRange { number: 4096 },
    ),
    (
        "[numa(indexes=7)] PU:2(indexes=7,7)",
        IndexTwice { number: 7 },
    ),
    (
        "numa:2(indexes=7,3) PU:1(indexes=0,1,2)",
        IndexCount {
            found: 3,
            wanted: 2,
        },
    ),
];

#[test]
fn lists_of_pus(rt: HostRuntime) {
    expect_faults(&rt, rt.alloc(), LISTS);
}

#[test]
fn loops_of_pus(rt: HostRuntime) {
    expect_faults(&rt, rt.alloc(), LOOPS);
}

#[test]
fn numbers_of_memory(rt: HostRuntime) {
    expect_faults(&rt, rt.alloc(), MEMORY);
}

#[test]
fn memory_comes_first(rt: HostRuntime) {
    expect_faults(&rt, rt.alloc(), BOTH);
}

// A fault has these words.
fn expect_words(rt: &impl Abort, alloc: Global, fault: &impl Display, wanted: &str) {
    let found = format!(in alloc; "{fault}").expect(rt, "memory");
    expect_equal(rt, wanted, found.as_str(), wanted);
}

// Each fault, and its words.
const WORDS: &[(BuildFault, &str)] = &[
    (
        IndexCount {
            found: 3,
            wanted: 2,
        },
        "3 physical numbers for 2 objects",
    ),
    (
        IndexRange { number: 5000 },
        "the physical number 5000 is 4096 or more",
    ),
    (
        IndexTwice { number: 7 },
        "the physical number 7 comes twice",
    ),
    (BuildFault::OutOfMemory, "out of memory"),
];

#[test]
fn tells_each_fault(rt: HostRuntime) {
    for (fault, wanted) in WORDS {
        expect_words(&rt, rt.alloc(), fault, wanted);
    }
}
