//! Texts with one fault, in an item.
use super::expect_refusals;
use std::test::Fail;

// Names of levels and brackets, at each item and in each way.
const TYPES: &[&str] = &[
    "BadType ^foo:1 Core:1 PU:1|Core:1 ^foo:1 PU:1|Core:1 PU:1 ^foo:1|^[foo] Core:1 PU:1|Core:1 ^[foo] PU:1",
    "BadType Core:1 PU:1 ^[foo]|PU:1  ^[numa|^machine:1 PU:1|^MACHINE:1|^:1|^group-1:1|^group1x:1|^l6:1",
    "BadType ^l1dd:1|^l3cachecache:1|^cores:1|^cor:1|^pu1:1|^[|^[numa|^[numa PU:1|^[]PU:1|^[ ]PU:1",
    "BadType ^[machine]|^[core]|^[group1]|^[numa1]|^[(memory=1)]|^[-numa]|^[numa(memory=1)",
];

// Arities. Neither a vertical tab nor a form feed is white space.
const ARITIES: &[&str] = &[
    "BadArity ^Core:0 Die:1 PU:1|Core:1 ^Die:0 PU:1|Core:1 Die:1 ^PU:0|^0 Die:1 PU:1|Core:1 ^0 PU:1",
    "BadArity Core:1 Die:1 ^0|Core:1 [numa] ^PU:0|Core:1 ^numa:0 PU:1|^0|^000|^Core:0|^numa:0 PU:1",
    "BadArity ^Core:4294967296 PU:1|^Core:18446744073709551617|^4294967296|^Core: PU:1|^Core PU:1|^PU|^+1",
    "BadArity ^Core:+1|^Core:-1|^Core:1:1|^Core:1x|^(size=1)|^PU:1]|^Core:1,PU:1|^Core:1\x0bPU:1",
    "BadArity ^Core:1\x0cPU:1|^PU:0x10",
];

// Attributes of levels, memory items and levels of nodes.
const ATTRIBUTES: &[&str] = &[
    "BadAttr ^Core:1() Die:1 PU:1|Core:1 ^Die:1() PU:1|Core:1 Die:1 ^PU:1()|^[numa()] Core:1 PU:1",
    "BadAttr Core:1 ^[numa()] PU:1|Core:1 PU:1 ^[numa()]|^numa:1() Core:1 PU:1|Core:1 ^numa:1() PU:1",
    "BadAttr Core:1 PU:1 ^numa:1()|Core:1 ^1()|^PU:1(indexes=0|^L3:1(size=1 PU:1|^PU:1(indexes=0)y",
    "BadAttr ^PU:1(indexes=0))|^PU:1(indexes=0)(indexes=0)|^L3:1(size=1)PU:1|^PU:1( indexes=0)",
    "BadAttr ^PU:1(indexes=0 )|^PU:1(\tindexes=0)|^PU:1(indexes=0\n)|^PU:1( )|^PU:1( [numa] )",
    "BadAttr ^PU:1(indexes)|^PU:1(=0)|^PU:1(indexes =0)|^PU:1(INDEXES=0)|^PU:1(index=0)|^L3:1(Size=1)",
    "BadAttr ^PU:1(indexes=0 indexes=0)|^L3:1(size=1 size=1)|^PU:1(size=1)|^PU:1(memory=1)|^Core:1(size=1)",
    "BadAttr ^Core:1(memory=1)|^Core:1(indexes=0) PU:1|^Package:1(indexes=0)|^Die:1(size=1)",
    "BadAttr ^Group:1(memory=1)|^L3:1(memory=1)|^L3:1(indexes=0)|^4(indexes=0,1,2,3) 1|^numa:1(size=1)",
    "BadAttr ^[numa(size=1)]|^[numa (memory=1)]|^[numa x]|^[numa_1]|^[numa:1]|^[numa(memory=1)x]",
    "BadAttr ^[numa(memory=1]|^[numa(memory=1])]|^[numa(memory=1)(indexes=0)]|^[numa(]|^[numa)]",
    "BadAttr ^[numa( memory=1)]|^[numa(memory=1 )]|^[numa(memory=1 memory=1)]|^[numa(memory=)]",
    "BadAttr ^numa:1(memory=1)PU:1|^numa:1(indexes=0 memory=1 indexes=0)",
    "BadAttr ^[numa(memory=18446744073709551616)]|^Package:2(memory=1GB) PU:2",
];

// Texts that are no size, and each suffix with the least number that passes 64 bits.
const SIZES: &[&str] = &[
    "BadAttr ^L3:1(size=)|^L3:1(size=kB)|^L3:1(size=1B)|^L3:1(size=1k)|^L3:1(size=1Ki)|^L3:1(size=1KiBB)",
    "BadAttr ^L3:1(size=1PB)|^L3:1(size=1.5MB)|^L3:1(size=-1)|^L3:1(size=+1)|^L3:1(size=0x10)",
    "BadAttr ^L3:1(size=1 kB)|^L3:1(size=1kB1)|^L3:1(size=18446744073709551616)",
    "BadAttr ^L3:1(size=18446744073709552kB)|^L3:1(size=18446744073710MB)|^L3:1(size=18446744074GB)",
    "BadAttr ^L3:1(size=18446745TB)|^L3:1(size=18014398509481984KiB)|^L3:1(size=17592186044416MiB)",
    "BadAttr ^L3:1(size=17179869184GiB)|^L3:1(size=16777216TiB)|^L3:1(size=99999999999999999999999999TiB)",
];

// Values that are neither a list nor loops, at each item.
const INDEXES: &[&str] = &[
    "BadIndexes ^PU:1(indexes=x) Core:1|Core:1 ^PU:1(indexes=x) Die:1|Core:1 ^PU:1(indexes=x)",
    "BadIndexes Core:1 ^1(indexes=x)|^[numa(indexes=x)] PU:1|Core:1 ^[numa(indexes=x)] PU:1",
    "BadIndexes Core:1 PU:1 ^[numa(indexes=x)]|^numa:1(indexes=x) PU:1|Core:1 ^numa:1(indexes=x) PU:1",
    "BadIndexes Core:1 PU:1 ^node:1(indexes=x)|^1(indexes=)|^1(indexes=0,)|^1(indexes=,0)|^1(indexes=0,,1)",
    "BadIndexes ^1(indexes=0, 1)|^1(indexes=0:1)|^1(indexes=0;1)|^1(indexes=-1)|^1(indexes=+1)",
    "BadIndexes ^1(indexes=0x1)|^1(indexes=4294967296)|^1(indexes=0,4294967296)|^1(indexes=[)|^1(indexes=*)",
    "BadIndexes ^1(indexes=1*)|^1(indexes=*1)|^1(indexes=0*1)|^1(indexes=1*0)|^1(indexes=1*2:)",
    "BadIndexes ^1(indexes=:1*2)|^1(indexes=1*2::1*2)|^1(indexes=1*2:3)|^1(indexes=1*2,1*2)",
    "BadIndexes ^1(indexes=1*2*3)|^1(indexes=4294967296*1)|^1(indexes=1*4294967296)|^1(indexes=2*2:0*1)",
    "BadIndexes ^1(indexes=0,1*2)|^numa:1(memory=1 indexes=)|^[numa(memory=1 indexes=1*0)]",
    "BadIndexes ^numa:1(indexes=0,x)|Core:2 ^PU:2(indexes=core)",
];

#[test]
fn refuses_types(rt: HostRuntime) -> Result<(), Fail> {
    expect_refusals(&rt, rt.alloc(), TYPES)
}

#[test]
fn refuses_arities(rt: HostRuntime) -> Result<(), Fail> {
    expect_refusals(&rt, rt.alloc(), ARITIES)
}

#[test]
fn refuses_attributes(rt: HostRuntime) -> Result<(), Fail> {
    expect_refusals(&rt, rt.alloc(), ATTRIBUTES)
}

#[test]
fn refuses_sizes(rt: HostRuntime) -> Result<(), Fail> {
    expect_refusals(&rt, rt.alloc(), SIZES)
}

#[test]
fn refuses_indexes(rt: HostRuntime) -> Result<(), Fail> {
    expect_refusals(&rt, rt.alloc(), INDEXES)
}
