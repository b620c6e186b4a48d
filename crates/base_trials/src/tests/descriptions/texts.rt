//! Texts and the canonical texts of what they describe.
use super::expect_texts;
use std::test::Fail;

// Canonical texts: whole descriptions, lists and loops, and the most levels, PUs and objects.
const CANONICAL: &[&str] = &[
    "PU:1",
    "Package:2 [NUMANode(memory=34359738368)] L3Cache:1(size=33554432) L2Cache:16(size=1048576) L1dCache:1(size=32768) \
     L1iCache:1(size=32768) Core:1 PU:2(indexes=2*32:1*2)",
    "[NUMANode(memory=0 indexes=1*1)] Package:1 Die:1 PU:1",
    "PU:3(indexes=2,0,1)",
    "PU:3(indexes=7)",
    "PU:1(indexes=4294967295,0)",
    "PU:4(indexes=1*4)",
    "PU:8(indexes=0,4,1,5,2,6,3,7)",
    "Core:4 PU:2(indexes=0,4,1,5,2,6,3,7)",
    "Package:2 [NUMANode(memory=5)] Core:4 PU:2(indexes=2*4:8*2:1*2)",
    "Core:4 [NUMANode(memory=5)] PU:1(indexes=1*4)",
    "[NUMANode(memory=5)] Package:1 Core:2 PU:2",
    "Core:1 Package:1 [NUMANode(memory=1)] PU:2",
    "PU:8(indexes=2*4:1*2)",
    "PU:1(indexes=4294967295*4294967295:1*1:3*2)",
    "PU:4096",
    "Core:64 PU:64",
    "Package:4096 [NUMANode] PU:1",
    "Group:1 Group:1 Group:1 Group:1 Group:1 Group:1 Group:1 Group:1 Group:1 Group:1 Group:1 Group:1 Group:1 Group:1 Group:1 PU:1",
    "Group:1 Group:1 Group:1 Group:1 Group:1 Group:1 Group:1 Group:1 Group:1 Group:1 Group:1 Group:1 Group:1 Group:1 Group:1 PU:4096",
    "Group:1 Group:1 Group:1 Group:1 Group:1 Group:1 Group:1 Group:1 [NUMANode] Group:1 Group:1 Group:1 Group:1 Group:1 Group:1 \
     Group:1 PU:1",
    "Package:3 Group:1365 Group:1 Group:1 PU:1",
    "[NUMANode] Package:2 Group:1638 Group:1 Group:1 Group:1 PU:1",
];

// Each kind with a size, each suffix in several cases, and the greatest size with it that is below 2^64.
const SIZES: &[&str] = &[
    "L5:1(size=0) L4:1(size=000000000000000000000007) L3:1(size=18446744073709551615) L2:1(size=1kB) L1d:1(size=2Kb) \
     L1i:1(size=18446744073709551KB) PU:1 => L5Cache:1(size=0) L4Cache:1(size=7) L3Cache:1(size=18446744073709551615) \
     L2Cache:1(size=1000) L1dCache:1(size=2000) L1iCache:1(size=18446744073709551000) PU:1",
    "L5:1(size=1MB) L4:1(size=2mB) L3:1(size=18446744073709mb) L2:1(size=1GB) L1d:1(size=2gb) L1i:1(size=18446744073Gb) PU:1 => \
     L5Cache:1(size=1000000) L4Cache:1(size=2000000) L3Cache:1(size=18446744073709000000) L2Cache:1(size=1000000000) \
     L1dCache:1(size=2000000000) L1iCache:1(size=18446744073000000000) PU:1",
    "L5:1(size=1TB) L4:1(size=2tB) L3:1(size=18446744tb) L2:1(size=1KiB) L1d:1(size=2kIB) L1i:1(size=18014398509481983kib) PU:1 \
     => L5Cache:1(size=1000000000000) L4Cache:1(size=2000000000000) L3Cache:1(size=18446744000000000000) L2Cache:1(size=1024) \
     L1dCache:1(size=2048) L1iCache:1(size=18446744073709550592) PU:1",
    "L5:1(size=1MiB) L4:1(size=2mib) L3:1(size=17592186044415MIB) L2:1(size=1GiB) L1d:1(size=2gIb) L1i:1(size=17179869183gib) \
     PU:1 => L5Cache:1(size=1048576) L4Cache:1(size=2097152) L3Cache:1(size=18446744073708503040) L2Cache:1(size=1073741824) \
     L1dCache:1(size=2147483648) L1iCache:1(size=18446744072635809792) PU:1",
    "L5:1(size=1TiB) L4:1(size=2tib) L3:1(size=16777215TIB) PU:1 => L5Cache:1(size=1099511627776) L4Cache:1(size=2199023255552) \
     L3Cache:1(size=18446742974197923840) PU:1",
    "[node(memory=18446744073709551615)] PU:1 => [NUMANode(memory=18446744073709551615)] PU:1",
];

// Each name of a kind, in several cases. Digits behind `group` are ignored.
const NAMES: &[&str] = &[
    "package:1 pu:1 => Package:1 PU:1",
    "Pack:1 Pu:1 => Package:1 PU:1",
    "sOCKET:1 pU:1 => Package:1 PU:1",
    "DIE:1 gRoUp:1 CoRe:1 PU:1 => Die:1 Group:1 Core:1 PU:1",
    "l5:1 L4:1 l3:1 L2:1 l1:1 L1I:1 PU:1 => L5Cache:1 L4Cache:1 L3Cache:1 L2Cache:1 L1dCache:1 L1iCache:1 PU:1",
    "L5CACHE:1 l4cache:1 L3Cache:1 l2cAcHe:1 L1cache:1 l1icachE:1 PU:1 => L5Cache:1 L4Cache:1 L3Cache:1 L2Cache:1 L1dCache:1 \
     L1iCache:1 PU:1",
    "L1D:1 PU:1 => L1dCache:1 PU:1",
    "l1Dcache:1 PU:1 => L1dCache:1 PU:1",
    "[NUMANODE] PU:1 => [NUMANode] PU:1",
    "[Numa] PU:1 => [NUMANode] PU:1",
    "[nOdE] PU:1 => [NUMANode] PU:1",
    "Group7:2 GROUP07:1 PU:1 => Group:2 Group:1 PU:1",
    "group99999999999999999999:1 PU:1 => Group:1 PU:1",
];

// Levels without a name: the last is PU, the one above it Core, others Group, and memory items don't count. Levels of
// nodes: a Group level and memory.
const LEVELS: &[&str] = &[
    "3 => PU:3",
    "PU:010 => PU:10",
    "2 3 => Core:2 PU:3",
    "2 3 2 => Group:2 Core:3 PU:2",
    "2 3 2 07 => Group:2 Group:3 Core:2 PU:7",
    "2 PU:3 => Core:2 PU:3",
    "2 Core:1 1 => Group:2 Core:1 PU:1",
    "2 Die:1 PU:1 => Group:2 Die:1 PU:1",
    "2 [numa] 3 => Core:2 [NUMANode] PU:3",
    "2 [numa] 3 1 => Group:2 [NUMANode] Core:3 PU:1",
    "4(indexes=03,2,1,00) => PU:4(indexes=3,2,1,0)",
    "numa:2 PU:1 => Group:2 [NUMANode] PU:1",
    "NODE:2 Core:1 PU:1 => Group:2 [NUMANode] Core:1 PU:1",
    "numa:3(memory=1MB  indexes=2,1,0) 4(indexes=2*2:01*2) => Group:3 [NUMANode(memory=1000000 indexes=2,1,0)] PU:4(indexes=2*2:1*2)",
    "Package:2 NumaNode:2(indexes=1*2) Group3:1 PU:1 => Package:2 Group:2 [NUMANode(indexes=1*2)] Group:1 PU:1",
];

// White space of all four kinds: between items, at the ends, in brackets and between attributes; none beside brackets.
const SPACES: &[&str] = &[
    "2 3\t4\r5\n6 => Group:2 Group:3 Group:4 Core:5 PU:6",
    "2 \t\r\n\r\t 3 => Core:2 PU:3",
    " \t\r\n2 \t\r\n => PU:2",
    "\n2\r => PU:2",
    "[ \t\r\nnuma \t\r\n] PU:1 => [NUMANode] PU:1",
    "[\tnuma(memory=1)\n]\tPU:1 => [NUMANode(memory=1)] PU:1",
    "Core:1[numa]PU:1 => Core:1 [NUMANode] PU:1",
    "Core:1 [numa]PU:1 => Core:1 [NUMANode] PU:1",
    "Core:1[numa] PU:1 => Core:1 [NUMANode] PU:1",
    "L3:1(size=1)[numa]1 => L3Cache:1(size=1) [NUMANode] PU:1",
    "[numa(indexes=0\tmemory=1)] PU:1 => [NUMANode(memory=1 indexes=0)] PU:1",
    "[numa(memory=1\rindexes=0)] PU:1 => [NUMANode(memory=1 indexes=0)] PU:1",
    "numa:1(memory=1\n \t\rindexes=0) PU:1 => Group:1 [NUMANode(memory=1 indexes=0)] PU:1",
];

#[test]
fn keeps_canonical_texts(rt: HostRuntime) -> Result<(), Fail> {
    expect_texts(&rt, rt.alloc(), CANONICAL)
}

#[test]
fn reads_sizes(rt: HostRuntime) -> Result<(), Fail> {
    expect_texts(&rt, rt.alloc(), SIZES)
}

#[test]
fn reads_names(rt: HostRuntime) -> Result<(), Fail> {
    expect_texts(&rt, rt.alloc(), NAMES)
}

#[test]
fn reads_untyped_levels_and_nodes(rt: HostRuntime) -> Result<(), Fail> {
    expect_texts(&rt, rt.alloc(), LEVELS)
}

#[test]
fn reads_white_space(rt: HostRuntime) -> Result<(), Fail> {
    expect_texts(&rt, rt.alloc(), SPACES)
}
