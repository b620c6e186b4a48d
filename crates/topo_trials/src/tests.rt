//! Topologies and trees: what is asked of them, their two texts, and what is refused.
ghost use Rattle.std.specs.Prelude.{◌<◌};
ghost use Rattle.topo_tree.specs.Objects.{IsLayer, IsObject, count_of};

use cpu_set::CpuSet;
use std::alloc::Global;
use std::fmt::Debug;
use std::process::Abort;
use synth_text::{Kind, read};
use topo_tree::{AsTree, BuildFault, Layer, Object, Topology, Tree};

mod faults;
mod limits;
mod naming;
mod objects;
mod queries;
mod texts;

// What was found at a row of a table is what the row wants.
fn expect_equal<T: PartialEq + Debug + Drop>(rt: &impl Abort, row: &str, found: T, wanted: T) {
    assert_eq!(rt; found, wanted, "at {row}");
}

// The topology of a text.
fn built(rt: &impl Abort, alloc: Global, text: &str) -> Topology {
    let description = read(alloc, text.as_bytes()).expect(rt, text);
    Topology::build(alloc, description).expect(rt, text)
}

// Its tree alone.
fn built_tree(rt: &impl Abort, alloc: Global, text: &str) -> Tree {
    let description = read(alloc, text.as_bytes()).expect(rt, text);
    Tree::build(alloc, description).expect(rt, text)
}

fn check_layer(rt: &impl Abort, topology: &Topology, layer: Layer)
    ensures { IsLayer topology.now layer }
{
    match layer {
        Layer::Depth(depth) => assert!(rt; depth < topology.depths()),
        Layer::Memory => {}
    }
}

fn count(rt: &impl Abort, topology: &Topology, layer: Layer) -> u32 {
    check_layer(rt, topology, layer);
    topology.count(layer)
}

fn check_index(rt: &impl Abort, topology: &Topology, layer: Layer, index: u32)
    requires { IsLayer topology.now layer }
    ensures { index < count_of topology.now layer }
{
    assert!(rt; index < topology.count(layer));
}

fn object(rt: &impl Abort, topology: &Topology, layer: Layer, index: u32) -> Object
    ensures { IsObject topology.now result }
{
    check_layer(rt, topology, layer);
    check_index(rt, topology, layer, index);
    Object { layer, index }
}

// The set of an object, which its tree finds too.
fn set(rt: &impl Abort, topology: &Topology, layer: Layer, index: u32) -> CpuSet {
    let object = object(rt, topology, layer, index);
    let set = *topology.set(object);
    expect_found(rt, topology.as_tree(), object, &set);
    set
}

// A tree finds the set of an object: the same numbers, some of which are in it, and all.
fn expect_found(rt: &impl Abort, tree: &Tree, object: Object, set: &CpuSet)
    requires { IsObject tree.now object }
{
    let found = tree.set_of(object);
    let empty = CpuSet::empty();
    let same = [found.inside(set), set.inside(&found)];
    expect_equal(rt, "one set", same, [true; 2]);
    let own = [tree.meets(object, set), tree.inside(object, set)];
    expect_equal(rt, "its own set", own, [true; 2]);
    let none = [tree.meets(object, &empty), tree.inside(object, &empty)];
    expect_equal(rt, "no number", none, [false; 2]);
}
