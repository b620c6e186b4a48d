//! Topologies at the limits, and a usual one.
use super::texts::expect_text;
use super::*;

fn count_lines(text: &[u8]) -> usize {
    text.iter().filter(|byte| **byte == b'\n').count()
}

// The text has so many lines and bytes, and begins and ends so.
fn expect_long(rt: &impl Abort, text: &[u8], size: (usize, usize), begin: &str, end: &str) {
    expect_equal(rt, "the size", (count_lines(text), text.len()), size);
    expect_equal(rt, begin, text.starts_with(begin.as_bytes()), true);
    expect_equal(rt, end, text.ends_with(end.as_bytes()), true);
}

const MOST_OBJECTS_BEGIN: &str = "Machine L#0
  Package L#0
    Group0 L#0
      Group1 L#0
        Group2 L#0
          PU L#0 (P#0)
    Group0 L#1
";

const MOST_OBJECTS_END: &str = "
          PU L#4093 (P#4093)
    Group0 L#4094
      Group1 L#4094
        Group2 L#4094
          PU L#4094 (P#4094)
";

// A text that is shown: its lines and bytes, how it begins, and how it ends.
type Long<'a> = ((usize, usize), &'a str, &'a str);

fn expect_shown(rt: &impl Abort, alloc: Global, topology: &Topology, wanted: &Long) {
    let (size, begin, end) = *wanted;
    let shown = topology.show(alloc).expect(rt, "memory");
    expect_long(rt, &shown, size, begin, end);
}

fn expect_exported(rt: &impl Abort, alloc: Global, topology: &Topology, wanted: &str) {
    expect_text(rt, &topology.export(alloc).expect(rt, "memory"), wanted);
}

fn expect_thirds(rt: &impl Abort, most: &Topology) {
    expect_equal(rt, "PUs", count(rt, most, Layer::Depth(5)), 4095);
    let middle = set(rt, most, Layer::Depth(1), 1);
    expect_equal(rt, "package 1", middle.weight(), 1365);
    let last = set(rt, most, Layer::Depth(1), 2);
    expect_equal(rt, "package 2", last.first(), Some(2730));
}

const MOST_OBJECTS: Long = ((16384, 358959), MOST_OBJECTS_BEGIN, MOST_OBJECTS_END);

fn expect_most_objects(rt: &impl Abort, alloc: Global, most: &Topology) {
    expect_thirds(rt, most);
    expect_exported(
        rt,
        alloc,
        most,
        "Package:3 Group:1365 Group:1 Group:1 PU:1\n",
    );
    expect_shown(rt, alloc, most, &MOST_OBJECTS);
}

#[test]
fn most_objects(rt: HostRuntime) {
    let text = "Package:3 Group:1365 Group:1 Group:1 PU:1";
    expect_most_objects(&rt, rt.alloc(), &built(&rt, rt.alloc(), text));
}

const MOST_PUS_BEGIN: &str = "Machine L#0\n  NUMANode L#0 (P#0)\n  PU L#0 (P#0)\n";

const MOST_PUS_END: &str = "\n  PU L#4094 (P#4094)\n  PU L#4095 (P#4095)\n";

// The node of memory has all PUs, to the last.
fn expect_all(rt: &impl Abort, most: &Topology) {
    let all = set(rt, most, Layer::Memory, 0);
    expect_equal(rt, "the node", all.weight(), 4096);
    expect_equal(rt, "the last PU", most.leaf_of(4095), Some(4095));
}

const MOST_PUS: Long = ((4098, 83829), MOST_PUS_BEGIN, MOST_PUS_END);

fn expect_most_pus(rt: &impl Abort, alloc: Global, most: &Topology) {
    expect_all(rt, most);
    expect_shown(rt, alloc, most, &MOST_PUS);
}

#[test]
fn most_pus(rt: HostRuntime) {
    let text = "[numa] PU:4096(indexes=1*4096)";
    expect_most_pus(&rt, rt.alloc(), &built(&rt, rt.alloc(), text));
}

// A machine with interleaved PUs.
const USUAL: &str =
    "Package:2 [NUMANode(memory=34359738368)] L3Cache:1(size=33554432) L2Cache:16(size=1048576) L1dCache:1(size=32768) \
     L1iCache:1(size=32768) Core:1 PU:2(indexes=2*32:1*2)";

fn expect_packages(rt: &impl Abort, usual: &Topology) {
    let first = set(rt, usual, Layer::Depth(1), 0);
    let found = [first.has(0), first.has(15), first.has(32), first.has(47)];
    expect_equal(rt, "package 0", found, [true; 4]);
    let package = set(rt, usual, Layer::Depth(1), 1);
    expect_equal(rt, "package 1", package.weight(), 32);
    expect_equal(rt, "package 1", package.first(), Some(16));
    let found = [package.has(63), package.has(47)];
    expect_equal(rt, "package 1", found, [true, false]);
}

#[test]
fn usual(rt: HostRuntime) {
    expect_packages(&rt, &built(&rt, rt.alloc(), USUAL));
}
