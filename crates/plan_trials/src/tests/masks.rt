//! Distributions over whole topologies. The masks of the tables are those of hwloc-distrib 2.9.
use crate::tests::{expect_words, topology_of, tree_of};
use cpu_set::CpuSet;
use distrib_rules::{DistribFault, distrib};
use std::alloc::Global;
use std::process::Abort;
use std::test::Fail;
use topo_tree::{Topology, Tree};

// The number of masks and the depths of the start and the end, the masks, and those where lists are taken backwards.
type Sharing = (u32, u32, u32, &'static str, &'static str);

const BETWEEN_EVERY_TWO_DEPTHS: &[Sharing] = &[
    (1, 0, 0, "0xff", "0xff"),
    (1, 0, 1, "0xff", "0xff"),
    (1, 0, 2, "0xff", "0xff"),
    (1, 0, 3, "0xff", "0xff"),
    (1, 1, 1, "0xff", "0xff"),
    (1, 1, 2, "0xff", "0xff"),
    (1, 1, 3, "0xff", "0xff"),
    (1, 2, 2, "0xff", "0xff"),
    (1, 2, 3, "0xff", "0xff"),
    (1, 3, 3, "0xff", "0xff"),
    (3, 0, 0, "0xff 0xff 0xff", "0xff 0xff 0xff"),
    (3, 0, 1, "0xf 0xf 0xf0", "0xf0 0xf0 0xf"),
    (3, 0, 2, "0x3 0xc 0xf0", "0xc0 0x30 0xf"),
    (3, 0, 3, "0x3 0xc 0xf0", "0xc0 0x30 0xf"),
    (3, 1, 1, "0xf 0xf 0xf0", "0xf0 0xf0 0xf"),
    (3, 1, 2, "0x3 0xc 0xf0", "0xc0 0x30 0xf"),
    (3, 1, 3, "0x3 0xc 0xf0", "0xc0 0x30 0xf"),
    (3, 2, 2, "0x3 0xc 0xf0", "0xc0 0x30 0xf"),
    (3, 2, 3, "0x3 0xc 0xf0", "0xc0 0x30 0xf"),
    (3, 3, 3, "0x3 0x1c 0xe0", "0xc0 0x38 0x7"),
    (
        5,
        0,
        0,
        "0xff 0xff 0xff 0xff 0xff",
        "0xff 0xff 0xff 0xff 0xff",
    ),
    (5, 0, 1, "0xf 0xf 0xf 0xf0 0xf0", "0xf0 0xf0 0xf0 0xf 0xf"),
    (5, 0, 2, "0x3 0x3 0xc 0x30 0xc0", "0xc0 0xc0 0x30 0xc 0x3"),
    (5, 0, 3, "0x1 0x2 0xc 0x30 0xc0", "0x80 0x40 0x30 0xc 0x3"),
    (5, 1, 1, "0xf 0xf 0xf 0xf0 0xf0", "0xf0 0xf0 0xf0 0xf 0xf"),
    (5, 1, 2, "0x3 0x3 0xc 0x30 0xc0", "0xc0 0xc0 0x30 0xc 0x3"),
    (5, 1, 3, "0x1 0x2 0xc 0x30 0xc0", "0x80 0x40 0x30 0xc 0x3"),
    (5, 2, 2, "0x3 0x3 0xc 0x30 0xc0", "0xc0 0xc0 0x30 0xc 0x3"),
    (5, 2, 3, "0x1 0x2 0xc 0x30 0xc0", "0x80 0x40 0x30 0xc 0x3"),
    (5, 3, 3, "0x1 0x6 0x8 0x30 0xc0", "0x80 0x60 0x10 0xc 0x3"),
];

const LEVELS_OF_ONE_CHILD: &[Sharing] = &[
    (2, 0, 0, "0x7 0x7", "0x7 0x7"),
    (2, 0, 1, "0x1 0x6", "0x4 0x3"),
    (2, 0, 2, "0x1 0x6", "0x4 0x3"),
    (2, 1, 1, "0x1 0x6", "0x4 0x3"),
    (2, 1, 2, "0x1 0x6", "0x4 0x3"),
    (2, 2, 2, "0x1 0x6", "0x4 0x3"),
];

const THREE_PACKAGES: &[Sharing] = &[
    (2, 0, 1, "0xfff 0xffffff000", "0xfff000000 0xffffff"),
    (
        5,
        1,
        3,
        "0x3f 0xfc0 0x3f000 0xfc0000 0xfff000000",
        "0xfc0000000 0x3f000000 0xfc0000 0x3f000 0xfff",
    ),
    (
        7,
        0,
        4,
        "0x7 0x38 0xfc0 0x3f000 0xfc0000 0x3f000000 0xfc0000000",
        "0xe00000000 0x1c0000000 0x3f000000 0xfc0000 0x3f000 0xfc0 0x3f",
    ),
    (
        11,
        2,
        4,
        "0x7 0x38 0x1c0 0xe00 0x7000 0x38000 0x1c0000 0xe00000 0x7000000 0x38000000 0xfc0000000",
        "0xe00000000 0x1c0000000 0x38000000 0x7000000 0xe00000 0x1c0000 0x38000 0x7000 0xe00 0x1c0 0x3f",
    ),
    (
        13,
        0,
        4,
        "0x1 0x6 0x38 0x1c0 0xe00 0x7000 0x38000 0x1c0000 0xe00000 0x7000000 0x38000000 0x1c0000000 0xe00000000",
        "0x800000000 0x600000000 0x1c0000000 0x38000000 0x7000000 0xe00000 0x1c0000 0x38000 0x7000 0xe00 0x1c0 0x38 0x7",
    ),
];

const SEVEN_PUS_EACH: &[Sharing] = &[
    (
        3,
        0,
        2,
        "0x7f 0x1fff80 0x7ffe00000",
        "0x7f0000000 0xfffc000 0x3fff",
    ),
    (
        4,
        1,
        1,
        "0x7f 0x3f80 0x1fc000 0x7ffe00000",
        "0x7f0000000 0xfe00000 0x1fc000 0x3fff",
    ),
    (
        8,
        0,
        2,
        "0x7 0x78 0x380 0x3c00 0x1fc000 0xe00000 0xf000000 0x7f0000000",
        "0x700000000 0xf0000000 0xe000000 0x1e00000 0x1fc000 0x3800 0x780 0x7f",
    ),
    (
        17,
        0,
        2,
        "0x1 0x6 0x18 0x60 0x180 0x600 0x3800 0x4000 0x18000 0x60000 0x180000 0x600000 0x1800000 0xe000000 0x30000000 \
         0xc0000000 0x700000000",
        "0x400000000 0x300000000 0xc0000000 0x30000000 0xc000000 0x3000000 0xe00000 0x100000 0xc0000 0x30000 0xc000 \
         0x3000 0xc00 0x380 0x60 0x18 0x7",
    ),
];

const INTERLEAVED_PUS: &[Sharing] = &[
    (1, 0, 2, "0xff", "0xff"),
    (3, 0, 2, "0x11 0x22 0xcc", "0x88 0x44 0x33"),
    (3, 1, 1, "0x11 0x22 0xcc", "0x88 0x44 0x33"),
    (
        5,
        1,
        2,
        "0x1 0x10 0x22 0x44 0x88",
        "0x80 0x8 0x44 0x22 0x11",
    ),
];

const SIXTY_PUS: &[Sharing] = &[
    (
        4,
        2,
        3,
        "0x3ff 0x3ffffc00 0xffc0000000 0xfffff0000000000",
        "0xffc000000000000 0x3ffffc0000000 0x3ff00000 0xfffff",
    ),
    (
        7,
        0,
        4,
        "0xf 0x3f0 0xffc00 0x3ff00000 0xffc0000000 0x3ff0000000000 0xffc000000000000",
        "0xf00000000000000 0xfc000000000000 0x3ff0000000000 0xffc0000000 0x3ff00000 0xffc00 0x3ff",
    ),
];

// What is refused: the number of masks, the depths of the start and the end, and why.
const REFUSALS: &[(u32, u32, u32, DistribFault)] = &[
    (0, 0, 2, DistribFault::ZeroMasks),
    (0, 2, 0, DistribFault::ZeroMasks),
    (4097, 0, 2, DistribFault::TooManyMasks),
    (4294967295, 2, 0, DistribFault::TooManyMasks),
    (1, 2, 0, DistribFault::Reversed),
    (4096, 1, 0, DistribFault::Reversed),
];

const WORDS: &[(DistribFault, &str)] = &[
    (DistribFault::ZeroMasks, "no mask"),
    (DistribFault::TooManyMasks, "more than 4096 masks"),
    (DistribFault::Reversed, "the start is below the end"),
    (DistribFault::OutOfMemory, "out of memory"),
];

fn shared_out(
    rt: &impl Abort,
    alloc: Global,
    topology: &Topology,
    n: u32,
    ends: (u32, u32),
    reverse: bool,
) -> Result<Vec<CpuSet>, DistribFault> {
    let (from, to) = ends;
    assert!(rt; from < topology.depths() && to < topology.depths());
    distrib(alloc, topology, n, from, to, reverse)
}

// Adds masks in taskset's form, with a space between two.
fn print(alloc: Global, text: &mut Vec<u8>, masks: &[CpuSet]) -> Result<(), Fail> {
    for mask in masks {
        if !text.is_empty() {
            text.push(b' ')?;
        }
        text.extend_from_slice(&mask.write_taskset(alloc)?)?;
    }
    Ok(())
}

fn printed(alloc: Global, masks: &[CpuSet]) -> Result<Vec<u8>, Fail> {
    let mut text = Vec::new(alloc);
    print(alloc, &mut text, masks)?;
    Ok(text)
}

fn expect_text(rt: &impl Abort, found: &[u8], wanted: &str) {
    assert_eq!(rt; found, wanted.as_bytes(), "at {wanted}");
}

fn expect_list(rt: &impl Abort, alloc: Global, masks: &[CpuSet], wanted: &str) -> Result<(), Fail> {
    expect_text(rt, &printed(alloc, masks)?, wanted);
    Ok(())
}

fn expect_sharing(
    rt: &impl Abort,
    alloc: Global,
    topology: &Topology,
    row: &Sharing,
    reverse: bool,
) -> Result<(), Fail> {
    let (n, from, to, forwards, backwards) = *row;
    let wanted = if reverse { backwards } else { forwards };
    let masks = shared_out(rt, alloc, topology, n, (from, to), reverse)?;
    expect_list(rt, alloc, &masks, wanted)
}

fn expect_sharings(
    rt: &impl Abort,
    alloc: Global,
    topology: &Topology,
    rows: &[Sharing],
) -> Result<(), Fail> {
    for row in rows {
        expect_sharing(rt, alloc, topology, row, false)?;
        expect_sharing(rt, alloc, topology, row, true)?;
    }
    Ok(())
}

fn expect_masks(rt: &impl Abort, alloc: Global, text: &[u8], rows: &[Sharing]) -> Result<(), Fail> {
    expect_sharings(rt, alloc, &topology_of(rt, alloc, text), rows)
}

fn expect_refusal(rt: &impl Abort, found: Result<Vec<CpuSet>, DistribFault>, wanted: DistribFault) {
    match found {
        Ok(_) => panic!(rt; "a bad distribution was made"),
        Err(fault) => assert_eq!(rt; fault, wanted),
    }
}

fn is_one_pu(mask: &CpuSet, pu: u32) -> bool {
    mask.weight() == 1 && mask.has(pu)
}

// Whether 4096 masks are each one of two PUs, the first half of them PU 0.
fn are_halves(masks: &[CpuSet]) -> bool {
    for place in 0..masks.len() {
        if !is_one_pu(&masks[place], u32::from(place >= 2048)) {
            return false;
        }
    }
    masks.len() == 4096
}

// Whether 4096 masks are each one PU, from the last to the first.
fn are_backwards(masks: &[CpuSet]) -> bool {
    let mut pu: u32 = 4096;
    for mask in masks {
        pu = pu.saturating_sub(1);
        if !is_one_pu(mask, pu) {
            return false;
        }
    }
    masks.len() == 4096
}

fn expect_halves(rt: &impl Abort, alloc: Global, topology: &Topology) {
    let masks = shared_out(rt, alloc, topology, 4096, (0, 1), false);
    assert!(rt; are_halves(&masks.expect(rt, "masks")));
}

#[test]
fn most_masks(rt: HostRuntime) {
    expect_halves(&rt, rt.alloc(), &topology_of(&rt, rt.alloc(), b"PU:2"));
}

fn expect_backwards(rt: &impl Abort, alloc: Global, topology: &Topology) {
    let masks = shared_out(rt, alloc, topology, 4096, (0, 3), true);
    assert!(rt; are_backwards(&masks.expect(rt, "masks")));
}

#[test]
fn masks_of_most_pus(rt: HostRuntime) {
    let text = b"Package:64 Core:64 PU:1";
    expect_backwards(&rt, rt.alloc(), &topology_of(&rt, rt.alloc(), text));
}

fn expect_tree_masks(rt: &impl Abort, alloc: Global, tree: &Tree) -> Result<(), Fail> {
    assert!(rt; tree.depths() == 4);
    let masks = distrib(alloc, tree, 3, 0, 3, false)?;
    expect_list(rt, alloc, &masks, "0x3 0xc 0xf0")
}

#[test]
fn masks_over_a_tree(rt: HostRuntime) -> Result<(), Fail> {
    let text = b"Package:2 Core:2 PU:2";
    expect_tree_masks(&rt, rt.alloc(), &tree_of(&rt, rt.alloc(), text))
}

fn expect_refusals(rt: &impl Abort, alloc: Global, topology: &Topology) {
    for (n, from, to, wanted) in REFUSALS {
        let found = shared_out(rt, alloc, topology, *n, (*from, *to), false);
        expect_refusal(rt, found, *wanted);
    }
}

#[test]
fn refusals(rt: HostRuntime) {
    let text = b"Core:2 PU:2";
    expect_refusals(&rt, rt.alloc(), &topology_of(&rt, rt.alloc(), text));
}

#[test]
fn between_every_two_depths(rt: HostRuntime) -> Result<(), Fail> {
    expect_masks(
        &rt,
        rt.alloc(),
        b"Package:2 Core:2 PU:2",
        BETWEEN_EVERY_TWO_DEPTHS,
    )
}

#[test]
fn levels_of_one_child(rt: HostRuntime) -> Result<(), Fail> {
    expect_masks(&rt, rt.alloc(), b"Core:3 PU:1", LEVELS_OF_ONE_CHILD)
}

#[test]
fn three_packages(rt: HostRuntime) -> Result<(), Fail> {
    expect_masks(
        &rt,
        rt.alloc(),
        b"Package:3 L2:2 Core:2 PU:3",
        THREE_PACKAGES,
    )
}

#[test]
fn seven_pus_each(rt: HostRuntime) -> Result<(), Fail> {
    expect_masks(&rt, rt.alloc(), b"Package:5 PU:7", SEVEN_PUS_EACH)
}

#[test]
fn interleaved_pus(rt: HostRuntime) -> Result<(), Fail> {
    expect_masks(
        &rt,
        rt.alloc(),
        b"Core:4 PU:2(indexes=2*4:1*2)",
        INTERLEAVED_PUS,
    )
}

#[test]
fn sixty_pus(rt: HostRuntime) -> Result<(), Fail> {
    expect_masks(&rt, rt.alloc(), b"Package:2 Die:3 Core:5 PU:2", SIXTY_PUS)
}

#[test]
fn tells_each_fault(rt: HostRuntime) -> Result<(), Fail> {
    expect_words(&rt, rt.alloc(), WORDS)
}
