//! Which layer a word names.
use super::*;

type Names<'a> = &'a [(&'a str, Option<Layer>)];

fn expect_layers(rt: &impl Abort, topology: &Topology, rows: Names) {
    for (word, layer) in rows {
        expect_equal(rt, word, topology.layer_named(word.as_bytes()), *layer);
    }
}

fn expect_names(rt: &impl Abort, alloc: Global, text: &str, rows: Names) {
    expect_layers(rt, &built(rt, alloc, text), rows);
}

// Names of kinds, in several cases.
const KINDS: &[(&str, Option<Layer>)] = &[
    ("Machine", Some(Layer::Depth(0))),
    ("mAcHiNe", Some(Layer::Depth(0))),
    ("PACKAGE", Some(Layer::Depth(1))),
    ("Pack", Some(Layer::Depth(1))),
    ("sockeT", Some(Layer::Depth(1))),
    ("dIe", Some(Layer::Depth(2))),
    ("L2", Some(Layer::Depth(3))),
    ("l2CACHE", Some(Layer::Depth(3))),
    ("L1", Some(Layer::Depth(4))),
    ("l1Cache", Some(Layer::Depth(4))),
    ("L1DCache", Some(Layer::Depth(4))),
    ("L1i", Some(Layer::Depth(5))),
    ("l1ICACHE", Some(Layer::Depth(5))),
    ("cOrE", Some(Layer::Depth(6))),
    ("Pu", Some(Layer::Depth(7))),
    ("NUMA", Some(Layer::Memory)),
    ("NumaNode", Some(Layer::Memory)),
    ("nodE", Some(Layer::Memory)),
];

// Names where there are two layers of Groups.
const TWO_GROUPS: &[(&str, Option<Layer>)] = &[
    ("group", None),
    ("group0", Some(Layer::Depth(1))),
    ("GrouP0", Some(Layer::Depth(1))),
    ("group1", Some(Layer::Depth(3))),
    ("GROUP0001", Some(Layer::Depth(3))),
    ("group2", None),
    ("group7", None),
    ("group4294967296", None),
    ("group18446744073709551617", None),
];

// Names where there is one.
const ONE_GROUP: &[(&str, Option<Layer>)] = &[
    ("group", Some(Layer::Depth(1))),
    ("Group0", Some(Layer::Depth(1))),
    ("group1", None),
];

// Words that name none.
const NO_LAYERS: &[(&str, Option<Layer>)] = &[
    ("", None),
    ("cpu", None),
    ("pu ", None),
    (" pu", None),
    ("pu0", None),
    ("l", None),
    ("l3d", None),
    ("core", None),
    ("group", None),
    ("group0", None),
    ("node", None),
];

#[test]
fn kinds_in_any_case(rt: HostRuntime) {
    let text = "socket:1 [numa] die:1 l2:1 l1d:1 l1i:1 2 2";
    expect_names(&rt, rt.alloc(), text, KINDS);
}

#[test]
fn groups_by_number(rt: HostRuntime) {
    let text = "group7:1 package:1 group:1 pu:2";
    expect_names(&rt, rt.alloc(), text, TWO_GROUPS);
    expect_names(&rt, rt.alloc(), "Group:2 PU:1", ONE_GROUP);
}

#[test]
fn words_without_a_layer(rt: HostRuntime) {
    expect_names(&rt, rt.alloc(), "l3:2 pu:1", NO_LAYERS);
}

type Depths<'a> = &'a [(&'a str, Option<u32>)];

fn expect_depths(rt: &impl Abort, topology: &Topology, rows: Depths) {
    for (word, depth) in rows {
        expect_equal(rt, word, topology.depth_named(word.as_bytes()), *depth);
    }
}

fn expect_depth_names(rt: &impl Abort, alloc: Global, text: &str, rows: Depths) {
    expect_depths(rt, &built(rt, alloc, text), rows);
}

// Words, and the depths that they name.
const DEPTHS: &[(&str, Option<u32>)] = &[
    ("machine", Some(0)),
    ("node", Some(1)),
    ("package", Some(1)),
    ("PU", Some(3)),
    ("l3", None),
    ("group0", None),
];

#[test]
fn depths_by_name(rt: HostRuntime) {
    let text = "Package:2 [numa] Core:3 PU:2";
    expect_depth_names(&rt, rt.alloc(), text, DEPTHS);
    expect_depth_names(&rt, rt.alloc(), "Core:2 PU:2", &[("numa", None)]);
}
