//! Worked examples of the commands that read no input.
use super::{Tables, answers};
use std::test::Fail;

const EXAMPLES: Tables = &[
    // Sets.
    (
        "",
        "set --list ''|0x0//0x0
set 0x0|0x0//0x0
set 0x1,,0x0|0x00000001,,0x0/64/0x10000000000000000
set --list 5,0-2,1-3|0x0000002f/0-3,5/0x2f
set 00000000,,1|0x00000001/0/0x1
set 0XaB,3|0x000000ab,0x00000003/0-1,32-33,35,37,39/0xab00000003
set --list 31-32,127|0x80000000,,0x00000001,0x80000000/31-32,127/0x80000000000000000000000180000000
set 0X1,f0,0,,0x00000000,8|0x00000001,0x000000f0,,,,0x00000008/3,132-135,160/0x1000000f000000000000000000000000000000008",
    ),
    // Trees.
    (
        "Package:2 [NUMANode(memory=1GiB)] L3Cache:1(size=8MiB) Core:2 PU:2",
        "topo *|Machine L#0/  Package L#0/    NUMANode L#0 (P#0 1GiB)/    L3 L#0 (8MiB)/      Core L#0/        PU L#0 (P#0)\
/        PU L#1 (P#1)/      Core L#1/        PU L#2 (P#2)/        PU L#3 (P#3)/  Package L#1/    NUMANode L#1 (P#1 1GiB)\
/    L3 L#1 (8MiB)/      Core L#2/        PU L#4 (P#4)/        PU L#5 (P#5)/      Core L#3/        PU L#6 (P#6)/        PU L#7 (P#7)
topo --export *|Package:2 [NUMANode(memory=1073741824)] L3Cache:1(size=8388608) Core:2 PU:2",
    ),
    (
        "2 1 2(indexes=1,3,0,2)",
        "topo *|Machine L#0/  Group0 L#0/    Core L#0/      PU L#0 (P#1)/      PU L#1 (P#3)/  Group0 L#1/    Core L#1\
/      PU L#2 (P#0)/      PU L#3 (P#2)
topo * --export|Group:2 Core:1 PU:2(indexes=1,3,0,2)",
    ),
    // Locations.
    (
        "Core:4 PU:2(indexes=2*4:1*2)",
        "calc * core:0|0x00000011
calc * pu:4|0x00000004
calc * -p pu:4|0x00000010
calc * pu:4 -p|0x00000010
calc * -p -I pu core:0|0,4
calc * -I pu core:0|0,1",
    ),
    (
        "Package:2 Core:2 PU:2",
        "calc * package:1.core:0- ~pu:5 x0xf0 core:3:2|0x000000d3
calc -I core * package:1.core:0- ~pu:5 x0xf0 core:3:2|0,2,3
calc -N core * package:1.core:0- ~pu:5 x0xf0 core:3:2|3
calc -H package.core * package:1.core:0- ~pu:5 x0xf0 core:3:2|Package:0.Core:0 Package:1.Core:0 Package:1.Core:1
calc --largest * package:1.core:0- ~pu:5 x0xf0 core:3:2|Core:0 PU:4 Core:3
calc --single * package:1.core:0- ~pu:5 x0xf0 core:3:2|0x00000001
calc --taskset * package:1.core:0- ~pu:5 x0xf0 core:3:2|0xd3
calc * core:9|0x0
calc * ^core:0 ^0x1 pu:7|0x00000082
calc * --sep=+ -I pu pu:odd|1+3+5+7
calc * package:all.core:1|0x000000cc",
    ),
    (
        "PU:2",
        "calc *|0x0
calc * all|0x00000003
calc * root|0x00000003",
    ),
    // Shares.
    (
        "Package:2 Core:2 PU:2",
        "distrib 3 *|0x00000003/0x0000000c/0x000000f0
distrib --reverse 3 *|0x000000c0/0x00000030/0x0000000f
distrib --single 5 *|0x00000001/0x00000002/0x00000004/0x00000010/0x00000040
distrib --taskset --at package 2 *|0xf/0xf0",
    ),
    (
        "PU:2",
        "distrib 1 *|0x00000003
distrib --from pu 1 *|0x00000003",
    ),
    ("Core:3 PU:1", "distrib 2 *|0x00000001/0x00000006"),
    // A usual machine.
    (
        "Package:2 [NUMANode(memory=34359738368)] L3Cache:1(size=33554432) L2Cache:16(size=1048576) \
L1dCache:1(size=32768) L1iCache:1(size=32768) Core:1 PU:2(indexes=2*32:1*2)",
        "calc * core:0|0x00000001,0x00000001
calc * package:0|0x0000ffff,0x0000ffff
calc --taskset * package:0|0xffff0000ffff
calc -N core * package:0|16
calc -I l2 * package:1.core:4-6|20,21,22
calc -H numa.core * core:17|NUMANode:1.Core:1",
    ),
];

#[test]
fn answers_examples(rt: HostRuntime) -> Result<(), Fail> {
    answers(&rt, rt.alloc(), EXAMPLES)
}
