//! What a drill runs on, as its constants read.
use crate::tests::tree_of;
use drill_text::{KEEPS, LEVELS, LOCKS, MACHINE};
use lock_plan::{LockKind, Plan};
use std::alloc::Global;
use std::process::Abort;
use topo_tree::{Layer, Tree};

// Two packages, each with two L3 caches of four cores, each of which has two PUs.
fn expect_32_pus(rt: &impl Abort, tree: &Tree) {
    assert_eq!(rt; tree.depths(), 5);
    for (depth, count) in [(0, 1), (1, 2), (2, 4), (3, 16), (4, 32)] {
        assert!(rt; depth < tree.depths());
        assert_eq!(rt; tree.count(Layer::Depth(depth)), count);
    }
}

#[test]
fn the_machine_has_32_pus(rt: HostRuntime) {
    expect_32_pus(&rt, &tree_of(&rt, rt.alloc(), MACHINE));
}

// MCS at the L3 caches, CLH at the packages and Hemlock at the machine, each below the machine kept for sixteen turns.
fn expect_three_levels(rt: &impl Abort, plan: &Plan) {
    let kinds = [LockKind::Mcs, LockKind::Clh, LockKind::Hem];
    assert!(rt; plan.depths.as_slice() == [2, 1, 0].as_slice());
    assert!(rt; plan.kinds.as_slice() == kinds.as_slice());
    assert!(rt; plan.keeps.as_slice() == [16, 16].as_slice());
}

fn expect_plan(rt: &impl Abort, alloc: Global, tree: &Tree) {
    let plan = Plan::read(alloc, tree, LEVELS, Some(LOCKS), KEEPS);
    expect_three_levels(rt, &plan.expect(rt, "a plan"));
}

#[test]
fn the_plan_has_three_levels(rt: HostRuntime) {
    expect_plan(&rt, rt.alloc(), &tree_of(&rt, rt.alloc(), MACHINE));
}
