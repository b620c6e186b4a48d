//! What is answered of sets. A row of a table has what is asked, words, and the answer.
use super::*;

const PLAIN: &str = "Package:2 Core:2 PU:2";

const LOOPS: &str = "Core:4 PU:2(indexes=2*4:1*2)";

const NODES: &str = "Package:2 [numa] Core:3 PU:2";

// A layer, words, and the objects of the layer that meet their set.
type Meeting<'a> = (&'a str, &'a str, &'a [u32]);

fn expect_intersecting(rt: &impl Abort, alloc: Global, topology: &Topology, rows: &[Meeting]) {
    for (name, words, wanted) in rows {
        let layer = layer(rt, topology, name);
        let set = selected(rt, alloc, topology, words.as_bytes(), Numbering::Logical);
        let found = intersecting(alloc, topology, &set, layer).expect(rt, "memory");
        expect_equal(rt, words, found.as_slice(), wanted);
    }
}

const PLAIN_MEETINGS: &[Meeting] = &[
    ("core", "package:1.core:0- ~pu:5 x0xf0 core:3:2", &[0, 2, 3]),
    ("pu", "all", &[0, 1, 2, 3, 4, 5, 6, 7]),
    ("package", "pu:3", &[0]),
    ("core", "0x0", &[]),
    ("machine", "0x100", &[]),
    ("machine", "pu:3", &[0]),
];

const LOOP_MEETINGS: &[Meeting] = &[("core", "pu:1 pu:6", &[0, 3]), ("core", "0x30", &[0, 1])];

const NODE_MEETINGS: &[Meeting] = &[("numa", "pu:7", &[1]), ("node", "all", &[0, 1])];

// Descriptions, each with the objects that meet sets.
const MEETINGS: &[(&str, &[Meeting])] = &[
    (PLAIN, PLAIN_MEETINGS),
    (LOOPS, LOOP_MEETINGS),
    (NODES, NODE_MEETINGS),
];

#[test]
fn objects_that_meet_a_set(rt: HostRuntime) {
    for (text, rows) in MEETINGS {
        expect_intersecting(&rt, rt.alloc(), &built(&rt, rt.alloc(), text), rows);
    }
}

// The index and the position of each of two steps.
type Chain = [(u32, u32); 2];

// The chains of a set, which have two steps each.
fn chains(
    rt: &impl Abort,
    alloc: Global,
    topology: &Topology,
    names: (&str, &str),
    set: &CpuSet,
) -> Vec<Chain> {
    let layers = [layer(rt, topology, names.0), layer(rt, topology, names.1)];
    let paths = hierarchical(alloc, topology, set, layers.as_slice()).expect(rt, "memory");
    let mut chains = Vec::new(alloc);
    for path in &paths {
        match path.steps.as_slice() {
            [outer, inner] => {
                let outer = (outer.object.index, outer.position);
                let inner = (inner.object.index, inner.position);
                chains.push([outer, inner]).expect(rt, "memory");
            }
            _ => panic!(rt; "not two steps"),
        }
    }
    chains
}

// Two layers, words, and the chains of their set.
type Chained<'a> = ((&'a str, &'a str), &'a str, &'a [Chain]);

fn expect_chains(rt: &impl Abort, alloc: Global, topology: &Topology, rows: &[Chained]) {
    for (names, words, wanted) in rows {
        let set = selected(rt, alloc, topology, words.as_bytes(), Numbering::Logical);
        let found = chains(rt, alloc, topology, *names, &set);
        expect_equal(rt, words, found.as_slice(), wanted);
    }
}

const PLAIN_CHAINS: &[Chained] = &[
    (
        ("package", "core"),
        "package:1.core:0- ~pu:5 x0xf0 core:3:2",
        &[[(0, 0), (0, 0)], [(1, 1), (2, 0)], [(1, 1), (3, 1)]],
    ),
    (("core", "package"), "all", &[]),
    (("core", "pu"), "pu:6", &[[(3, 3), (6, 0)]]),
    (("core", "core"), "pu:6", &[[(3, 3), (3, 0)]]),
    (("core", "pu"), "0x0", &[]),
];

const NODE_CHAINS: &[Chained] = &[
    (
        ("numa", "core"),
        "pu:7 pu:0",
        &[[(0, 0), (0, 0)], [(1, 1), (3, 0)]],
    ),
    (("package", "numa"), "pu:7", &[[(1, 1), (1, 0)]]),
];

#[test]
fn chains_of_objects(rt: HostRuntime) {
    let alloc = rt.alloc();
    expect_chains(&rt, alloc, &built(&rt, alloc, PLAIN), PLAIN_CHAINS);
    expect_chains(&rt, alloc, &built(&rt, alloc, NODES), NODE_CHAINS);
}

// The depth and the index of an object that is no node of memory.
fn place(rt: &impl Abort, object: &Object) -> (u32, u32) {
    match object.layer {
        Layer::Depth(depth) => (depth, object.index),
        Layer::Memory => panic!(rt; "a node of memory"),
    }
}

// Words, and the depth and the index of each of the largest objects in their set.
type Largest<'a> = (&'a str, &'a [(u32, u32)]);

fn expect_largest(rt: &impl Abort, alloc: Global, topology: &Topology, rows: &[Largest]) {
    for (words, wanted) in rows {
        let set = selected(rt, alloc, topology, words.as_bytes(), Numbering::Logical);
        let mut found = Vec::new(alloc);
        for object in &largest(alloc, topology, &set).expect(rt, "memory") {
            found.push(place(rt, object)).expect(rt, "memory");
        }
        expect_equal(rt, words, found.as_slice(), wanted);
    }
}

const PLAIN_LARGEST: &[Largest] = &[
    (
        "package:1.core:0- ~pu:5 x0xf0 core:3:2",
        &[(2, 0), (3, 4), (2, 3)],
    ),
    ("all", &[(0, 0)]),
    ("package:1 pu:0", &[(3, 0), (1, 1)]),
    ("0x1ff", &[(0, 0)]),
    ("0x100", &[]),
];

// Descriptions, each with the largest objects of sets.
const LARGEST: &[(&str, &[Largest])] = &[
    (PLAIN, PLAIN_LARGEST),
    ("PU:2", &[("0x7", &[(0, 0)])]),
    (LOOPS, &[("pu:0-2", &[(1, 0), (2, 2)])]),
    (
        "Group:2 Package:2 Group:1 PU:2",
        &[("pu:0-4", &[(1, 0), (4, 4)])],
    ),
];

#[test]
fn largest_objects(rt: HostRuntime) {
    for (text, rows) in LARGEST {
        expect_largest(&rt, rt.alloc(), &built(&rt, rt.alloc(), text), rows);
    }
}
