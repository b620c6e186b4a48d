//! What `distrib` prints, and how its words are read.
use super::{Tables, answers, expect, refuses};
use std::test::Fail;

const TREE: &str = "Package:2 Core:2 PU:2";

const MASKS: Tables = &[
    (
        TREE,
        "distrib 3 *|0x00000003;0x0000000c;0x000000f0
distrib --reverse 3 *|0x000000c0;0x00000030;0x0000000f
distrib 3 * --reverse|0x000000c0;0x00000030;0x0000000f
distrib 003 --taskset *|0x3;0xc;0xf0
distrib --single 3 *|0x00000001;0x00000004;0x00000010
distrib --single --taskset --reverse 3 *|0x40;0x10;0x1
distrib --reverse --single 3 *|0x00000040;0x00000010;0x00000001
distrib --to=package 4 *|0x0000000f;0x0000000f;0x000000f0;0x000000f0
distrib --at core 4 *|0x00000003;0x0000000c;0x00000030;0x000000c0
distrib --at core --taskset 4 *|0x3;0xc;0x30;0xc0
distrib --from=package --to=Core 2 *|0x0000000f;0x000000f0",
    ),
    (
        "PU:2",
        "distrib 1 *|0x00000003
distrib --from pu 1 *|0x00000003
distrib -- 1 *|0x00000003",
    ),
    ("Core:3 PU:1", "distrib 2 *|0x00000001;0x00000006"),
    (
        "Package:2 [numa] PU:2",
        "distrib --at numa 2 *|0x00000003;0x0000000c
distrib --from numa 2 *|0x00000003;0x0000000c",
    ),
    (
        "L1i:3 PU:5",
        "distrib 5 *|0x00000003;0x0000001c;0x00000060;0x00000380;0x00007c00",
    ),
    ("PU:4(indexes=3,2,1,0)", "distrib 2 *|0x0000000c;0x00000003"),
];

#[test]
fn prints_masks(rt: HostRuntime) -> Result<(), Fail> {
    answers(&rt, rt.alloc(), "", MASKS)
}

#[test]
fn prints_as_many_masks_as_the_limit(rt: HostRuntime) -> Result<(), Fail> {
    let alloc = rt.alloc();
    let first = "0x00000001\n".repeat(alloc, 2048)?;
    let second = "0x00000002\n".repeat(alloc, 2048)?;
    let wanted = format!(in alloc; "0 {first}{second}")?;
    expect(&rt, alloc, &["distrib", "4096", "PU:2"], &wanted)
}

const USAGE: Tables = &[(
    "",
    "distrib|2 clof: usage
distrib 1|2 clof: usage
distrib 1 PU:2 PU:2|2 clof: usage
distrib x PU:2|2 clof: usage
distrib +1 PU:2|2 clof: usage
distrib 3x PU:2|2 clof: usage
distrib  PU:2|2 clof: usage
distrib -1 PU:2|2 clof: usage
distrib -- -1 PU:2|2 clof: usage
distrib 4294967296 PU:2|2 clof: usage
distrib --single --single 1 PU:2|2 clof: usage
distrib --from pu --from pu 1 PU:2|2 clof: usage
distrib --at pu --from pu 1 PU:2|2 clof: usage
distrib --at pu --to pu 1 PU:2|2 clof: usage
distrib --from 1 PU:2|2 clof: usage
distrib --from --single 1 PU:2|2 clof: usage
distrib 1 PU:2 --from|2 clof: usage
distrib --single=true 1 PU:2|2 clof: usage
distrib --unknown 1 PU:2|2 clof: usage
distrib --help|2 clof: usage
distrib -h 1 PU:2|2 clof: usage
distrib --version|2 clof: usage
Distrib 1 PU:2|2 clof: usage",
)];

#[test]
fn refuses_words(rt: HostRuntime) -> Result<(), Fail> {
    refuses(&rt, rt.alloc(), "", USAGE)
}

const TYPES_AND_NUMBERS: Tables = &[
    (
        "PU:2",
        "distrib 0 *|3 clof: distrib ZeroMasks
distrib 4097 *|4 clof: distrib TooManyMasks
distrib 4294967295 *|4 clof: distrib TooManyMasks
distrib --from pu --to machine 1 *|3 clof: distrib Reversed
distrib --from core 0 *|3 clof: type --from
distrib --to core --from die 0 *|3 clof: type --from
distrib --to= 1 *|3 clof: type --to
distrib --at numa 1 *|3 clof: type --at",
    ),
    (
        "Core:2 PU:0",
        "distrib --at core 1 *|3 clof: synth BadArity 7",
    ),
    ("", "distrib 0 *|3 clof: synth Empty"),
    ("PU:4097", "distrib 1 *|4 clof: synth TooManyObjects"),
];

#[test]
fn refuses_types_and_numbers(rt: HostRuntime) -> Result<(), Fail> {
    refuses(&rt, rt.alloc(), "", TYPES_AND_NUMBERS)
}
