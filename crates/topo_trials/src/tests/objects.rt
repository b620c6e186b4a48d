//! What is asked of single objects.
ghost use Rattle.std.specs.Prelude.{◌<◌};

use super::*;

const UNEVEN: &str =
    "Package:2 [numa(indexes=9,4)] Core:3 PU:2(indexes=10,0,11,1,2,12,3,13,14,4,5,4095)";

const MACHINE: Layer = Layer::Depth(0);

const PACKAGE: Layer = Layer::Depth(1);

const CORE: Layer = Layer::Depth(2);

const PU: Layer = Layer::Depth(3);

// A depth, its kind, and how many objects it has.
const DEPTHS: &[(u32, Kind, u32)] = &[
    (0, Kind::Machine, 1),
    (1, Kind::Package, 2),
    (2, Kind::Core, 6),
    (3, Kind::Pu, 12),
];

fn expect_depths(rt: &impl Abort, topology: &Topology) {
    for (depth, kind, count) in DEPTHS {
        assert!(rt; *depth < topology.depths());
        let found = (topology.kind(*depth), topology.count(Layer::Depth(*depth)));
        expect_equal(rt, "a depth", found, (*kind, *count));
    }
}

// A description, how many depths it has, which of them carries the memory, and how many nodes there are.
type Layers<'a> = (&'a str, u32, Option<u32>, u32);

const LAYERS: &[Layers] = &[
    (UNEVEN, 4, Some(1), 2),
    ("PU:3", 2, None, 0),
    ("[numa] PU:3", 2, Some(0), 1),
];

fn expect_layers(rt: &impl Abort, topology: &Topology, row: &Layers) {
    let (text, depths, carrier, nodes) = row;
    expect_equal(rt, text, topology.depths(), *depths);
    expect_equal(rt, text, topology.carrier(), *carrier);
    expect_equal(rt, text, count(rt, topology, Layer::Memory), *nodes);
}

#[test]
fn layers(rt: HostRuntime) {
    for row in LAYERS {
        expect_layers(&rt, &built(&rt, rt.alloc(), row.0), row);
    }
    expect_depths(&rt, &built(&rt, rt.alloc(), UNEVEN));
}

// An object's layer and index, its parent, the first and the number of its children, and its physical number.
type Row = (Layer, u32, Option<(Layer, u32)>, (u32, u32), u32);

const OBJECTS: &[Row] = &[
    (MACHINE, 0, None, (0, 2), 0),
    (PACKAGE, 0, Some((MACHINE, 0)), (0, 3), 0),
    (PACKAGE, 1, Some((MACHINE, 0)), (3, 3), 1),
    (CORE, 0, Some((PACKAGE, 0)), (0, 2), 0),
    (CORE, 2, Some((PACKAGE, 0)), (4, 2), 2),
    (CORE, 3, Some((PACKAGE, 1)), (6, 2), 3),
    (CORE, 5, Some((PACKAGE, 1)), (10, 2), 5),
    (PU, 0, Some((CORE, 0)), (0, 0), 10),
    (PU, 1, Some((CORE, 0)), (0, 0), 0),
    (PU, 2, Some((CORE, 1)), (0, 0), 11),
    (PU, 11, Some((CORE, 5)), (0, 0), 4095),
    (Layer::Memory, 0, Some((PACKAGE, 0)), (0, 0), 9),
    (Layer::Memory, 1, Some((PACKAGE, 1)), (0, 0), 4),
];

fn pair(object: Option<Object>) -> Option<(Layer, u32)> {
    match object {
        Some(object) => Some((object.layer, object.index)),
        None => None,
    }
}

fn expect_object(rt: &impl Abort, topology: &Topology, row: &Row) {
    let (layer, index, parent, children, number) = row;
    let object = object(rt, topology, *layer, *index);
    expect_equal(rt, "a parent", pair(topology.parent(object)), *parent);
    expect_equal(rt, "children", topology.children(object), *children);
    expect_equal(rt, "a number", topology.physical(object), *number);
}

fn expect_objects(rt: &impl Abort, topology: &Topology) {
    for row in OBJECTS {
        expect_object(rt, topology, row);
    }
}

#[test]
fn parents_children_and_numbers(rt: HostRuntime) {
    expect_objects(&rt, &built(&rt, rt.alloc(), UNEVEN));
}

// A physical number, and the PU that has it.
const LEAVES: &[(u32, Option<u32>)] = &[
    (10, Some(0)),
    (0, Some(1)),
    (4095, Some(11)),
    (6, None),
    (4096, None),
    (4294967295, None),
];

fn expect_leaves(rt: &impl Abort, topology: &Topology) {
    for (number, leaf) in LEAVES {
        expect_equal(rt, "a PU", topology.leaf_of(*number), *leaf);
    }
}

#[test]
fn physical_numbers(rt: HostRuntime) {
    expect_leaves(&rt, &built(&rt, rt.alloc(), UNEVEN));
}

// Each number is that of its PU, in order, and names that PU.
fn expect_numbers(rt: &impl Abort, topology: &Topology, numbers: &[u32]) {
    let pus = count(rt, topology, Layer::Depth(1));
    expect_equal(rt, "PUs", pus as usize, numbers.len());
    for index in 0..pus {
        let pu = object(rt, topology, Layer::Depth(1), index);
        let number = topology.physical(pu);
        expect_equal(rt, "a number", Some(&number), numbers.get(index as usize));
        expect_equal(rt, "a PU", topology.leaf_of(number), Some(index));
    }
}

// Descriptions whose PUs are numbered by loops, and these numbers.
const LOOPS: &[(&str, &[u32])] = &[
    ("PU:8(indexes=2*4:1*2)", &[0, 4, 1, 5, 2, 6, 3, 7]),
    (
        "PU:8(indexes=9*1:2*4:4294967295*1:1*2:1*1)",
        &[0, 4, 1, 5, 2, 6, 3, 7],
    ),
    ("PU:6(indexes=3*2:1*3)", &[0, 2, 4, 1, 3, 5]),
    ("PU:1(indexes=1*1:2*1)", &[0]),
    ("PU:6(indexes=1*6)", &[0, 1, 2, 3, 4, 5]),
    (
        "PU:12(indexes=4*3:7*1:2*2:1*2)",
        &[0, 6, 3, 9, 1, 7, 4, 10, 2, 8, 5, 11],
    ),
];

#[test]
fn numbers_of_loops(rt: HostRuntime) {
    for (text, numbers) in LOOPS {
        expect_numbers(&rt, &built(&rt, rt.alloc(), text), numbers);
    }
}

// A description, an object's layer and index, and the list of its set.
type SetRow<'a> = (&'a str, Layer, u32, &'a str);

const SETS: &[SetRow] = &[
    (UNEVEN, MACHINE, 0, "0-5,10-14,4095"),
    (UNEVEN, PACKAGE, 0, "0-2,10-12"),
    (UNEVEN, PACKAGE, 1, "3-5,13-14,4095"),
    (UNEVEN, CORE, 2, "2,12"),
    (UNEVEN, PU, 11, "4095"),
    (UNEVEN, Layer::Memory, 0, "0-2,10-12"),
    (UNEVEN, Layer::Memory, 1, "3-5,13-14,4095"),
    ("[numa] PU:3", Layer::Memory, 0, "0-2"),
];

fn expect_list(rt: &impl Abort, alloc: Global, set: &CpuSet, wanted: &str) {
    texts::expect_text(rt, &set.write_list(alloc).expect(rt, "memory"), wanted);
}

fn expect_set(rt: &impl Abort, alloc: Global, topology: &Topology, row: &SetRow) {
    expect_list(rt, alloc, &set(rt, topology, row.1, row.2), row.3);
}

#[test]
fn sets_of_objects(rt: HostRuntime) {
    for row in SETS {
        expect_set(&rt, rt.alloc(), &built(&rt, rt.alloc(), row.0), row);
    }
}

// An object meets no other of its depth.
fn expect_disjoint(rt: &impl Abort, topology: &Topology, layer: Layer, index: u32) {
    let own = set(rt, topology, layer, index);
    for other in 0..count(rt, topology, layer) {
        let beside = set(rt, topology, layer, other);
        expect_equal(rt, "two of a depth", own.meets(&beside), index == other);
    }
}

// An object is inside just those whose children's children it is one of, where each has two children.
fn expect_nested(rt: &impl Abort, topology: &Topology, depth: u32, index: u32)
    requires { depth < 4 }
{
    let own = set(rt, topology, Layer::Depth(depth), index);
    expect_equal(rt, "a weight", own.weight(), 8 >> depth);
    for (above, outer) in [(0, 0), (1, 0), (1, 1), (2, 0), (2, 3)] {
        let wider = set(rt, topology, Layer::Depth(above), outer);
        let inside = above <= depth && index >> (depth - above) == outer;
        expect_equal(rt, "an outer one", own.inside(&wider), inside);
    }
}

// Of every two objects, whether the one's set is inside the other's, and whether two of a depth meet.
fn expect_positions(rt: &impl Abort, topology: &Topology) {
    for depth in 0..4u32 {
        for index in 0..count(rt, topology, Layer::Depth(depth)) {
            expect_disjoint(rt, topology, Layer::Depth(depth), index);
            expect_nested(rt, topology, depth, index);
        }
    }
}

#[test]
fn sets_by_positions(rt: HostRuntime) {
    let text = "Package:2 Core:2 PU:2(indexes=2*4:1*2)";
    expect_positions(&rt, &built(&rt, rt.alloc(), text));
}

// The depth and the index of each object, in the order of the tree.
const ORDER: &[(u32, u32)] = &[
    (0, 0),
    (1, 0),
    (2, 0),
    (3, 0),
    (4, 0),
    (4, 1),
    (1, 1),
    (2, 1),
    (3, 1),
    (4, 2),
    (4, 3),
];

// A depth, and how many Groups stand above it.
const GROUPS: &[(u32, u32)] = &[(0, 0), (1, 0), (2, 1), (3, 1), (4, 2)];

const TWO_GROUPS: &str = "[numa] Group:2 Core:1 Group:1 PU:2";

fn expect_order(rt: &impl Abort, order: &[Object]) {
    expect_equal(rt, "all objects", order.len(), ORDER.len());
    for place in 0..ORDER.len() {
        let (depth, index) = ORDER[place];
        let layer = Layer::Depth(depth);
        let wanted = Object { layer, index };
        expect_equal(rt, "an object", order.get(place), Some(&wanted));
    }
}

fn expect_tree_order(rt: &impl Abort, alloc: Global, topology: &Topology) {
    expect_order(rt, &topology.tree_order(alloc).expect(rt, "memory"));
}

#[test]
fn order_of_the_tree(rt: HostRuntime) {
    expect_tree_order(&rt, rt.alloc(), &built(&rt, rt.alloc(), TWO_GROUPS));
}

fn expect_groups(rt: &impl Abort, topology: &Topology) {
    for (depth, number) in GROUPS {
        assert!(rt; *depth < topology.depths());
        expect_equal(rt, "a depth", topology.group_number(*depth), *number);
    }
}

#[test]
fn numbers_of_groups(rt: HostRuntime) {
    expect_groups(&rt, &built(&rt, rt.alloc(), TWO_GROUPS));
}

// How many depths the tree of something has.
fn depths<T: AsTree>(topology: &T) -> u32 {
    topology.as_tree().depths()
}

fn expect_tree(rt: &impl Abort, tree: &Tree) {
    expect_equal(rt, "depths", depths(tree), 4);
    expect_equal(rt, "the carrier", tree.carrier(), Some(1));
    expect_equal(rt, "a PU", tree.leaf_of(4095), Some(11));
    expect_equal(rt, "a layer", tree.layer_named(b"core"), Some(CORE));
    expect_equal(rt, "a depth", tree.depth_named(b"numa"), Some(1));
}

fn expect_four_depths(rt: &impl Abort, topology: &Topology) {
    expect_equal(rt, "depths", depths(topology), 4);
}

#[test]
fn topologies_and_trees_have_a_tree(rt: HostRuntime) {
    expect_four_depths(&rt, &built(&rt, rt.alloc(), UNEVEN));
    expect_tree(&rt, &built_tree(&rt, rt.alloc(), UNEVEN));
}
