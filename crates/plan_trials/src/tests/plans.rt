//! Plans and shapes that were worked out by hand, and all refusals.
ghost use Rattle.std.specs.Prelude.{◌≡◌, ◌<◌, ◌^◌, All, IfOk, IsTrue, length};
ghost use Rattle.synth_text.specs.Rules.{pu_count};
ghost use Rattle.lock_plan.specs.Plans.{IsPlanFor};

use crate::tests::{expect_words, tree_of};
use keep_local::Shape;
use lock_plan::LockKind::{self, Clh, Hem, Mcs, Tkt};
use lock_plan::Plan;
use lock_plan::PlanFault::{
    self, KeepRange, Lengths, LevelOrder, LevelUnknown, LockUnknown, TooDeep,
};
use std::alloc::Global;
use std::process::Abort;
use std::test::Fail;
use topo_tree::{AsTree, Layer, Topology, Tree};

// The texts of the levels, of their locks and of the keeps.
type Texts<'a> = (&'a str, Option<&'a str>, &'a str);

// Such texts, and the depths, the kinds and the keeps of their plan.
type Planning = (
    Texts<'static>,
    &'static [u32],
    &'static [LockKind],
    &'static [u32],
);

// Such texts, and why they are refused.
type Refusal = (Texts<'static>, PlanFault);

// A topology, the names of levels, PUs and the paths of the callers on them.
type Shaping = (
    &'static [u8],
    &'static str,
    &'static [u32],
    &'static [&'static [u32]],
);

const MACHINE: &[u8] = b"Package:2 L3Cache:2 Core:2 PU:2";

const PLANS: &[Planning] = &[
    (("machine", None, "128"), &[0], &[Mcs], &[]),
    (("MACHINE", Some("hem"), "65535"), &[0], &[Hem], &[]),
    (("l3cache,machine", None, "4"), &[2, 0], &[Mcs, Mcs], &[4]),
    (
        ("core,Socket,machine", Some("clh-hem-tkt"), "00009"),
        &[3, 1, 0],
        &[Clh, Hem, Tkt],
        &[9, 9],
    ),
    (
        (
            "pu,core,l3,pack,machine",
            Some("tkt-mcs-clh-hem-tkt"),
            "0,65535,3,00",
        ),
        &[4, 3, 2, 1, 0],
        &[Tkt, Mcs, Clh, Hem, Tkt],
        &[0, 65535, 3, 0],
    ),
];

const CARRIER: &[u8] = b"Package:2 L3:2 [NUMANode] Core:3 PU:1";

const CARRIER_PLANS: &[Planning] = &[(
    ("core,node,package,machine", None, "1,2,3"),
    &[3, 2, 1, 0],
    &[Mcs, Mcs, Mcs, Mcs],
    &[1, 2, 3],
)];

const CARRIER_REFUSALS: &[Refusal] = &[(("numa,l3,machine", None, "1"), LevelOrder { place: 1 })];

const NAMES: &[Refusal] = &[
    (("", Some("x"), "x"), LevelUnknown { place: 0 }),
    (
        ("core,foo,machine", Some("x"), "x"),
        LevelUnknown { place: 1 },
    ),
    (
        ("core,package,machine,", Some("x"), "x"),
        LevelUnknown { place: 3 },
    ),
    (("numa,machine", Some("x"), "x"), LevelUnknown { place: 0 }),
    (("core, machine", Some("x"), "x"), LevelUnknown { place: 1 }),
    (
        ("core,l4,machine", Some("x"), "x"),
        LevelUnknown { place: 1 },
    ),
    (
        ("machine,group0", Some("x"), "x"),
        LevelUnknown { place: 1 },
    ),
    (
        ("pu,core,l3,package,machine,machine,pus,x", Some("x"), "x"),
        LevelUnknown { place: 6 },
    ),
];

const ORDERS: &[Refusal] = &[
    (
        ("pu,core,l3,package,machine,machine", Some("x"), "x"),
        TooDeep,
    ),
    (
        (
            "machine,machine,machine,machine,machine,machine,machine",
            Some("x"),
            "x",
        ),
        TooDeep,
    ),
    (
        (
            "pu,pu,pu,pu,pu,pu,pu,pu,pu,pu,pu,pu,pu,pu,pu,pu,pu,pu,pu,pu,pu,pu,pu,pu,pu,pu,pu,pu,pu,pu,pu,pu,pu",
            Some("x"),
            "x",
        ),
        TooDeep,
    ),
    (("package", Some("x"), "x"), LevelOrder { place: 0 }),
    (("machine,l3", Some("x"), "x"), LevelOrder { place: 1 }),
    (
        ("core,core,machine", Some("x"), "x"),
        LevelOrder { place: 1 },
    ),
    (
        ("package,core,machine", Some("x"), "x"),
        LevelOrder { place: 1 },
    ),
    (("core,l3,package", Some("x"), "x"), LevelOrder { place: 2 }),
    (
        ("pu,core,l3,package,package", Some("x"), "x"),
        LevelOrder { place: 4 },
    ),
    (
        ("pu,core,l3,machine,package", Some("x"), "x"),
        LevelOrder { place: 4 },
    ),
    (
        ("pu,core,core,machine,machine", Some("x"), "x"),
        LevelOrder { place: 2 },
    ),
    (
        ("pu,machine,machine", Some("x"), "x"),
        LevelOrder { place: 2 },
    ),
];

const LOCKS: &[Refusal] = &[
    (("core,machine", Some(""), "x"), LockUnknown { place: 0 }),
    (
        ("core,machine", Some("mcs-"), "x"),
        LockUnknown { place: 1 },
    ),
    (
        ("core,machine", Some("-mcs"), "x"),
        LockUnknown { place: 0 },
    ),
    (("core,machine", Some("MCS"), "x"), LockUnknown { place: 0 }),
    (
        ("core,machine", Some("mcs,tkt"), "x"),
        LockUnknown { place: 0 },
    ),
    (
        ("core,machine", Some("mcs-tkt-clh-hem-qsp"), "x"),
        LockUnknown { place: 4 },
    ),
    (
        ("core,machine", Some("mcs-ticket"), "x"),
        LockUnknown { place: 1 },
    ),
    (
        ("machine", Some("mcs-mcs"), "x"),
        Lengths {
            levels: 1,
            given: 2,
        },
    ),
    (
        ("core,machine", Some("mcs"), "x"),
        Lengths {
            levels: 2,
            given: 1,
        },
    ),
    (
        ("pu,core,machine", Some("tkt-clh"), "x"),
        Lengths {
            levels: 3,
            given: 2,
        },
    ),
    (
        (
            "pu,core,l3,package,machine",
            Some("tkt-tkt-tkt-tkt-tkt-hem"),
            "x",
        ),
        Lengths {
            levels: 5,
            given: 6,
        },
    ),
];

const KEEPS: &[Refusal] = &[
    (("pu,core,machine", None, ""), KeepRange { place: 0 }),
    (("pu,core,machine", None, "65536"), KeepRange { place: 0 }),
    (
        ("pu,core,machine", None, "1,65536,x"),
        KeepRange { place: 1 },
    ),
    (
        ("pu,core,machine", None, "1,2,3,4,5,"),
        KeepRange { place: 5 },
    ),
    (("pu,core,machine", None, "+1"), KeepRange { place: 0 }),
    (("pu,core,machine", None, "1, 2"), KeepRange { place: 1 }),
    (
        ("pu,core,machine", None, "99999999999999999999999"),
        KeepRange { place: 0 },
    ),
    (
        ("machine", None, "1,1"),
        Lengths {
            levels: 1,
            given: 2,
        },
    ),
    (
        ("core,machine", None, "1,1"),
        Lengths {
            levels: 2,
            given: 2,
        },
    ),
    (
        ("pu,core,machine", None, "1,2,3"),
        Lengths {
            levels: 3,
            given: 3,
        },
    ),
    (
        ("pu,core,l3,package,machine", None, "1,2,3"),
        Lengths {
            levels: 5,
            given: 3,
        },
    ),
    (
        ("pu,core,l3,package,machine", None, "1,2,3,4,5"),
        Lengths {
            levels: 5,
            given: 5,
        },
    ),
];

// Nodes are numbered by rank.
const RANKS: &[Shaping] = &[
    (
        b"Package:2 [NUMANode] L3Cache:2 Core:2 PU:1",
        "core,l3,numa,machine",
        &[6, 1, 6, 7, 0],
        &[
            &[2, 1, 1, 0],
            &[1, 0, 0, 0],
            &[2, 1, 1, 0],
            &[3, 1, 1, 0],
            &[0, 0, 0, 0],
        ],
    ),
    (
        b"Group:3 Group:2 PU:5(indexes=2*15:1*2)",
        "pu,group1,group0,machine",
        &[29, 4, 12, 13, 5, 29],
        &[
            &[4, 3, 2, 0],
            &[0, 0, 0, 0],
            &[2, 2, 1, 0],
            &[3, 2, 1, 0],
            &[1, 1, 0, 0],
            &[4, 3, 2, 0],
        ],
    ),
];

// Objects without a caller are no nodes.
const CALLERS: &[Shaping] = &[
    (
        b"Package:4 PU:3",
        "package,machine",
        &[11, 7, 8],
        &[&[1, 0], &[0, 0], &[0, 0]],
    ),
    (b"Package:4 PU:3", "machine", &[11, 7], &[&[0], &[0]]),
    (b"Package:4 PU:3", "package,machine", &[], &[]),
];

const WORDS: &[(PlanFault, &str)] = &[
    (
        LevelUnknown { place: 3 },
        "no depth has the name of level 3",
    ),
    (TooDeep, "more than 5 levels"),
    (
        LockUnknown { place: 12 },
        "no kind of lock has the name at place 12",
    ),
    (
        Lengths {
            levels: 3,
            given: 4,
        },
        "4 locks or keeps for 3 levels",
    ),
    (KeepRange { place: 0 }, "no keep stands at place 0"),
    (PlanFault::OutOfMemory, "out of memory"),
];

// The bytes of a text, which is short.
fn short(text: &str) -> Result<&[u8], PlanFault>
    ensures { IfOk result (λ bytes. length bytes.now < 2 ^ 32) }
{
    if text.len() < 200 {
        Ok(text.as_bytes())
    } else {
        Err(PlanFault::OutOfMemory)
    }
}

fn read_plan(alloc: Global, tree: &Tree, texts: Texts<'_>) -> Result<Plan, PlanFault>
    ensures { IfOk result (IsPlanFor tree.now) }
{
    let (levels, locks, keeps) = texts;
    let locks = match locks {
        Some(text) => Some(short(text)?),
        None => None,
    };
    Plan::read(alloc, tree, short(levels)?, locks, short(keeps)?)
}

fn expect_plan(rt: &impl Abort, plan: &Plan, row: &Planning) {
    let (_, depths, kinds, keeps) = *row;
    assert_eq!(rt; plan.depths.as_slice(), depths);
    assert_eq!(rt; plan.kinds.as_slice(), kinds);
    assert_eq!(rt; plan.keeps.as_slice(), keeps);
}

fn expect_tree_plans(rt: &impl Abort, alloc: Global, tree: &Tree, rows: &[Planning]) {
    for row in rows {
        let plan = read_plan(alloc, tree, row.0);
        expect_plan(rt, &plan.expect(rt, "a plan"), row);
    }
}

fn expect_plans(rt: &impl Abort, alloc: Global, text: &[u8], rows: &[Planning]) {
    expect_tree_plans(rt, alloc, &tree_of(rt, alloc, text), rows);
}

fn expect_tree_refusals(rt: &impl Abort, alloc: Global, tree: &Tree, rows: &[Refusal]) {
    for (texts, fault) in rows {
        expect_refusal(rt, read_plan(alloc, tree, *texts), *fault);
    }
}

fn expect_refusals(rt: &impl Abort, alloc: Global, text: &[u8], rows: &[Refusal]) {
    expect_tree_refusals(rt, alloc, &tree_of(rt, alloc, text), rows);
}

fn expect_refusal(rt: &impl Abort, found: Result<Plan, PlanFault>, wanted: PlanFault) {
    match found {
        Ok(_) => panic!(rt; "not refused"),
        Err(fault) => assert_eq!(rt; fault, wanted),
    }
}

// How many PUs a topology has.
fn count_pus<T: AsTree>(topology: &T) -> u32
    ensures { result ≡ pu_count (T.described topology.now) }
{
    let tree = topology.as_tree();
    tree.count(Layer::Depth(tree.depths() - 1))
}

fn are_below(count: u32, pus: &[u32]) -> bool
    ensures { IsTrue result → All (λ pu. pu < count) pus.now }
{
    pus.iter().all(|pu| *pu < count)
}

fn shape_of<T: AsTree>(
    rt: &impl Abort,
    alloc: Global,
    topology: &T,
    plan: &Plan,
    pus: &[u32],
) -> Result<Shape, Fail>
    requires { IsPlanFor (T.described topology.now) plan.now }
{
    assert!(rt; are_below(count_pus(topology), pus));
    Ok(plan.shape(alloc, topology, pus)?)
}

// Whether the callers of a shape have these paths.
fn has_paths(shape: &Shape, wanted: &[&[u32]]) -> bool {
    let mut caller: usize = 0;
    for path in shape.paths.as_slice() {
        match wanted.get(caller) {
            Some(one) if path.as_slice() == *one => caller = caller.saturating_add(1),
            _ => return false,
        }
    }
    caller == wanted.len()
}

fn expect_shape(rt: &impl Abort, shape: &Shape, plan: &Plan, row: &Shaping) {
    let (_, levels, _, paths) = *row;
    assert!(rt;
        shape.keeps.as_slice() == plan.keeps.as_slice(),
        "at {levels}"
    );
    assert!(rt; has_paths(shape, paths), "at {levels}");
}

fn expect_plan_shape(
    rt: &impl Abort,
    alloc: Global,
    tree: &Tree,
    plan: &Plan,
    row: &Shaping,
) -> Result<(), Fail>
    requires { IsPlanFor tree.now plan.now }
{
    let shape = shape_of(rt, alloc, tree, plan, row.2)?;
    expect_shape(rt, &shape, plan, row);
    Ok(())
}

fn expect_tree_shape(
    rt: &impl Abort,
    alloc: Global,
    tree: &Tree,
    row: &Shaping,
) -> Result<(), Fail> {
    let plan = read_plan(alloc, tree, (row.1, None, "7"))?;
    expect_plan_shape(rt, alloc, tree, &plan, row)
}

fn expect_text_shape(rt: &impl Abort, alloc: Global, row: &Shaping) -> Result<(), Fail> {
    expect_tree_shape(rt, alloc, &tree_of(rt, alloc, row.0), row)
}

fn expect_shapes(rt: &impl Abort, alloc: Global, rows: &[Shaping]) -> Result<(), Fail> {
    for row in rows {
        expect_text_shape(rt, alloc, row)?;
    }
    Ok(())
}

// Adds so many PUs, from the last of the largest topology downwards, each 16 before the other.
fn spread(pus: &mut Vec<u32>, count: u32) -> Result<(), Fail> {
    let mut pu: u32 = 4094;
    for _ in 0..count {
        pus.push(pu)?;
        pu = pu.saturating_sub(16);
    }
    Ok(())
}

// Whether 256 callers stand under nodes of their own below the top, the last one under the first.
fn are_apart(shape: &Shape) -> bool {
    let mut node: u32 = 256;
    for path in shape.paths.as_slice() {
        node = node.saturating_sub(1);
        if path.as_slice() != [node, node, node, node, 0].as_slice() {
            return false;
        }
    }
    shape.paths.as_slice().len() == 256
}

#[test]
fn plans_of_texts(rt: HostRuntime) {
    expect_plans(&rt, rt.alloc(), MACHINE, PLANS);
}

#[test]
fn a_numa_node_stands_for_its_carrier(rt: HostRuntime) {
    expect_plans(&rt, rt.alloc(), CARRIER, CARRIER_PLANS);
    expect_refusals(&rt, rt.alloc(), CARRIER, CARRIER_REFUSALS);
}

#[test]
fn names_of_levels_that_are_refused(rt: HostRuntime) {
    expect_refusals(&rt, rt.alloc(), MACHINE, NAMES);
}

#[test]
fn levels_that_are_refused(rt: HostRuntime) {
    expect_refusals(&rt, rt.alloc(), MACHINE, ORDERS);
}

#[test]
fn locks_that_are_refused(rt: HostRuntime) {
    expect_refusals(&rt, rt.alloc(), MACHINE, LOCKS);
}

#[test]
fn keeps_that_are_refused(rt: HostRuntime) {
    expect_refusals(&rt, rt.alloc(), MACHINE, KEEPS);
}

#[test]
fn nodes_are_numbered_by_rank(rt: HostRuntime) -> Result<(), Fail> {
    expect_shapes(&rt, rt.alloc(), RANKS)
}

#[test]
fn objects_without_a_caller_are_no_nodes(rt: HostRuntime) -> Result<(), Fail> {
    expect_shapes(&rt, rt.alloc(), CALLERS)
}

fn expect_apart_on(
    rt: &impl Abort,
    alloc: Global,
    topology: &Topology,
    plan: &Plan,
    pus: &[u32],
) -> Result<(), Fail>
    requires { IsPlanFor topology.now plan.now }
{
    let shape = shape_of(rt, alloc, topology, plan, pus)?;
    assert!(rt; are_apart(&shape));
    Ok(())
}

fn expect_apart(
    rt: &impl Abort,
    alloc: Global,
    topology: &Topology,
    plan: &Plan,
) -> Result<(), Fail>
    requires { IsPlanFor topology.now plan.now }
{
    let mut pus = Vec::new(alloc);
    spread(&mut pus, 256)?;
    expect_apart_on(rt, alloc, topology, plan, &pus)
}

#[test]
fn as_many_callers_and_objects_as_there_may_be(rt: HostRuntime) -> Result<(), Fail> {
    let alloc = rt.alloc();
    let tree = tree_of(&rt, alloc, b"Package:3 Group:1365 Group:1 Group:1 PU:1");
    let plan = read_plan(alloc, &tree, ("pu,group2,group1,group0,machine", None, "1"))?;
    let topology = Topology::from_tree(alloc, tree)?;
    expect_apart(&rt, alloc, &topology, &plan)
}

#[test]
fn tells_each_fault(rt: HostRuntime) -> Result<(), Fail> {
    expect_words(&rt, rt.alloc(), WORDS)
}
