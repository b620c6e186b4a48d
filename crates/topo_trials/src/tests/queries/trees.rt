//! A tree is asked as a topology is.
use super::*;

const PACKAGE: Object = Object {
    layer: Layer::Depth(1),
    index: 1,
};

// The answers on the set of the second package, in a tree of packages, cores and PUs.
fn expect_answers(rt: &impl Abort, alloc: Global, tree: &Tree, set: &CpuSet) {
    assert!(rt; tree.depths() == 4);
    let layers = [Layer::Depth(1), Layer::Depth(2)];
    let cores = intersecting(alloc, tree, set, Layer::Depth(2)).expect(rt, "memory");
    expect_equal(rt, "the cores", cores.as_slice(), &[2, 3]);
    let chains = hierarchical(alloc, tree, set, &layers).expect(rt, "memory");
    expect_equal(rt, "the chains", chains.len(), 2);
    let found = largest(alloc, tree, set).expect(rt, "memory");
    expect_equal(rt, "the largest", found.as_slice(), &[PACKAGE]);
}

fn expect_tree(rt: &impl Abort, alloc: Global, tree: &Tree) {
    let terms = [read_term(alloc, tree, b"package:1.core:0-", 0).expect(rt, "a term")];
    let set = select(tree, &terms, Numbering::Logical);
    expect_set(rt, "the set", &set, "0xf0");
    expect_equal(rt, "the weight", set.weight(), 4);
    expect_answers(rt, alloc, tree, &set);
    let fault = read_location(alloc, tree, b"die:0", 7).err();
    let wanted = CalcFault::NoSuchType { word: 7 };
    expect_equal(rt, "a bad location", fault, Some(wanted));
}

#[test]
fn answers_on_a_tree(rt: HostRuntime) {
    let text = "Package:2 Core:2 PU:2";
    expect_tree(&rt, rt.alloc(), &tree(&rt, rt.alloc(), text));
}
