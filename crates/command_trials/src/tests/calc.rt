//! What `calc` prints. Answers in tables are those of hwloc-calc 2.9. The words of most rows stand behind `calc` and the description.
use super::{Tables, answers, expect, refuses};
use std::test::Fail;

const PLAIN: &str = "Package:2 Core:2 PU:2";

const USUAL: &str =
    "Package:2 [NUMANode(memory=34359738368)] L3Cache:1(size=33554432) L2Cache:16(size=1048576) \
     L1dCache:1(size=32768) L1iCache:1(size=32768) Core:1 PU:2(indexes=2*32:1*2)";

const MACHINES: Tables = &[
    // Every form of locations.
    (
        PLAIN,
        "package:1.core:0- ~pu:5 x0xf0 core:3:2|0x000000d3
core:1-2|0x0000003c
core:3-3|0x000000c0
core:2-|0x000000f0
core:4-|0x0
core:3:2|0x000000c3
core:0:5|0x000000ff
core:1:0|0x0
core:2:7|0x000000ff
core:odd|0x000000cc
core:even|0x00000033
core:all|0x000000ff
all|0x000000ff
root|0x000000ff
pu:0 pu:7|0x00000081
pu:1 ~pu:1|0x0
all xcore:1|0x0000000c
core:0 ^pu:1|0x00000001
^0x6 0x10|0x00000016
0xff00 pu:0|0x0000ff01
0x1,0x0|0x00000001,0x0
all x0x3c ~0x8|0x00000034
package:all.core:odd.pu:1|0x00000088
package:1.pu:3:2|0x00000090
core:1.core:0|0x0000000c
package:1.machine:0|0x0
core:9|0x0
core:4294967295|0x0",
    ),
    // Every kind of answer.
    (
        PLAIN,
        "-I core package:1.core:0- ~pu:5 x0xf0 core:3:2|0,2,3
-N core package:1.core:0- ~pu:5 x0xf0 core:3:2|3
-H package.core package:1.core:0- ~pu:5 x0xf0 core:3:2|Package:0.Core:0 Package:1.Core:0 Package:1.Core:1
--largest package:1.core:0- ~pu:5 x0xf0 core:3:2|Core:0 PU:4 Core:3
--single package:1.core:0- ~pu:5 x0xf0 core:3:2|0x00000001
--taskset package:1.core:0- ~pu:5 x0xf0 core:3:2|0xd3
-I pu --single core:2-|4
-I pu -p core:odd|2,3,6,7
-N pu --single all|1
-N package pu:2 pu:5|2
-I machine pu:3|0
-I core 0x0|
-N core 0x0|0
--largest 0x0|
-H core 0x0|
--largest all|Machine:0
--largest --single all|PU:0
--largest package:1 pu:0|PU:0 Package:1
--largest pu:0-4|Package:0 PU:4
-H package.core.pu pu:3 pu:4|Package:0.Core:1.PU:1 Package:1.Core:0.PU:0
-H pu all|PU:0 PU:1 PU:2 PU:3 PU:4 PU:5 PU:6 PU:7
-H package.pu core:1|Package:0.PU:2 Package:0.PU:3
-H machine.package pu:7|Machine:0.Package:1
--sep , --largest pu:0-2|Core:0,PU:2
--sep x -H package.core pu:6|Package:1.Core:1
--taskset --single core:2|0x10
-I core -l pu:3|1",
    ),
    // Interleaved PUs.
    (
        "Core:4 PU:2(indexes=2*4:1*2)",
        "core:0|0x00000011
pu:4|0x00000004
pu:odd|0x000000f0
pu:6:3|0x00000089
core:odd.pu:even|0x0000000a
-p pu:4|0x00000010
-p pu:3-5|0x00000038
-p pu:6-|0x000000c0
-p pu:odd|0x000000aa
-p core:1.pu:5|0x00000020
-p core:1.pu:0|0x0
-p pu:2:3|0x0000001c
-p -I pu core:1 core:2|1,5,2,6
-I pu core:1 core:2|2,3,4,5
-p -H core.pu core:2|Core:2.PU:2 Core:2.PU:6
-H core.pu core:2|Core:2.PU:0 Core:2.PU:1
-p --largest pu:0-2|PU:0 PU:1 PU:2
--largest pu:0-2|Core:0 PU:2
--single core:3|0x00000008
-I core 0x30|0,1",
    ),
    // Nodes and caches.
    (
        "Package:2 [numa(memory=1GiB)] L3:2 Core:2 PU:2(indexes=2*8:1*2)",
        "core:0|0x00000101
numa:1|0x0000f0f0
numa:0.core:3|0x00000808
package:1.numa:0|0x0000f0f0
-I numa pu:31|
-N numa all|2
-H package.numa.core core:5|Package:1.NUMANode:0.Core:1
-H numa.l3 pu:4 pu:9|NUMANode:0.L3Cache:1 NUMANode:1.L3Cache:0
l3:1:2|0x00003c3c
l3:3:2|0x0000c3c3
-I l3 pu:5|1
--largest l3:1:2 pu:0|PU:0 L3Cache:1 L3Cache:2",
    ),
    // Dies and listed numbers.
    (
        "Package:2 Die:2 L2:2 Core:1 PU:2(indexes=0,8,1,9,2,10,3,11,4,12,5,13,6,14,7,15)",
        "core:0|0x00000101
die:1.core:1|0x00000808
l2:odd|0x0000aaaa
-I die core:3-4|1,2
-H package.die.l2 core:3-4|Package:0.Die:1.L2Cache:1 Package:1.Die:0.L2Cache:0
--largest pu:1-6|PU:1 L2Cache:1 L2Cache:2 PU:6
-p pu:8:3|0x00000700
-p -I pu die:2|4,12,5,13
--taskset die:3|0xc0c0",
    ),
    // A usual machine.
    (
        USUAL,
        "core:0|0x00000001,0x00000001
package:0|0x0000ffff,0x0000ffff
--taskset package:0|0xffff0000ffff
-N core package:0|16
-I l3 core:15:2|0,1
-p -I pu core:3|3,35
--largest core:0-16|Package:0 L2Cache:16
package:1.core:15.pu:1|0x80000000,0x0
-N pu all|64
--single package:1|0x00010000",
    ),
    // Groups by their number.
    (
        "Group:2 Package:2 Group:2 PU:2",
        "group0:1|0x0000ff00
group1:3|0x000000c0
group1:odd|0x0000cccc
group0:1.group1:1|0x00000c00
-I group1 pu:5|2
-H group0.group1 pu:5|Group0:0.Group1:2",
    ),
    // Four threads a core.
    (
        "Package:1 Core:16 PU:4(indexes=16*4:1*16)",
        "core:0|0x00001111
core:5.pu:3|0x20000000
-p pu:17|0x00020000
pu:62:3|0x88000000,0x00000001
--taskset core:15|0x8888000000000000
-p -I pu core:2-3|32,36,40,44,48,52,56,60",
    ),
    // One node of memory.
    (
        "[numa(memory=1)] Package:4 Core:3 PU:2(indexes=4*6:2*2:1*2)",
        "numa:0|0x00ffffff
-p pu:23|0x00800000
-I package 0x3|0
-N core 0xff|8",
    ),
    // A level of nodes.
    (
        "Package:2 numa:2(indexes=4,5,6,7) Core:2 PU:2(indexes=8*2:2*4:1*2)",
        "core:0|0x00000101
numa:1|0x00005050
-p numa:5|0x00005050
-p numa:1|0x0
-p -I numa pu:all|4,5,6,7
-I numa core:3-4|1,2
-H package.numa core:5|Package:1.NUMANode:0
-p -H package.numa core:5|Package:1.NUMANode:6
--largest numa:0 pu:4|Group0:0 PU:4
-H package.group0.core pu:6 pu:9|Package:0.Group0:1.Core:1 Package:1.Group0:0.Core:0",
    ),
    // Cores in turn over packages.
    (
        "Package:2 Core:4 PU:1(indexes=4*2:1*4)",
        "package:1|0x000000aa
core:1|0x00000004
core:odd|0x000000cc
core:5:4|0x000000a9
package:1.core:2-|0x000000a0
pu:3 ~package:0|0x0
-p pu:3|0x00000008
-p pu:odd|0x000000aa
-p pu:4-6|0x00000070
-p package:0.pu:3|0x0
-p -I pu package:0|0,2,4,6
-I package 0x3|0,1
-N core 0xf0|4
-H package.core pu:1 pu:6|Package:0.Core:1 Package:1.Core:2
--largest 0x5f|Package:0 Core:4 Core:5
--taskset package:0 xcore:2-5|0x50",
    ),
    // PUs in turn over four levels.
    (
        "Package:2 L2:2 Core:2 PU:2(indexes=8*2:4*2:2*2:1*2)",
        "package:0|0x00005555
l2:1|0x00004444
core:5|0x00002020
core:2-3.pu:1|0x00004400
l2:3:2|0x00009999
package:1.l2:0.core:1|0x00002020
all ^core:even|0x0000f0f0
-p pu:8:4|0x00000f00
-p core:1.pu:12|0x00001000
-p core:1.pu:1|0x0
-p -I pu core:1-2|4,12,2,10
-I l2 0x30|0,2
-N l2 0x1111|1
-H package.l2.core 0x21|Package:0.L2Cache:0.Core:0 Package:1.L2Cache:0.Core:1
--largest 0x5557|Package:0 PU:8
--single core:5 core:6|0x00000008",
    ),
    // PUs in turn over the cores of groups.
    (
        "Group:2 Core:3 PU:2(indexes=2*6:1*2)",
        "group:1|0x00000e38
core:4|0x00000410
group:0.core:2|0x00000104
pu:even|0x0000003f
core:5:2|0x00000861
group:1.pu:5:2|0x00000808
-p pu:odd|0x00000aaa
-p pu:6-|0x00000fc0
-p core:4.pu:4-10|0x00000410
-p -I pu core:3-4|3,9,4,10
-I core 0xc0|0,1
-N group 0x9|2
-H group.core core:2-3|Group0:0.Core:2 Group0:1.Core:0
--largest 0x1c7|Group0:0
--sep . -I pu core:1 core:4|2.3.8.9",
    ),
    // PUs in turn over dies.
    (
        "Die:3 PU:4(indexes=4*3:1*4)",
        "die:0|0x00000249
die:2:2|0x00000b6d
pu:5|0x00000010
die:1.pu:1-2|0x00000090
die:even.pu:odd|0x00000a28
die:1.pu:3:3|0x00000412
-p pu:3-5|0x00000038
-p pu:10:2|0x00000c00
-p die:2.pu:8|0x00000100
-p -I pu die:1|1,4,7,10
-I die 0x28|0,2
-N pu die:1-|8
-H die.pu 0x22|Die:1.PU:0 Die:2.PU:1
--largest 0x497|PU:0 Die:1 PU:8
--taskset --single die:2 ~pu:8|0x20",
    ),
];

#[test]
fn answers_on_machines(rt: HostRuntime) -> Result<(), Fail> {
    answers(&rt, rt.alloc(), "calc * ", MACHINES)
}

// Numbers at their limits.
const LIMITS: Tables = &[(
    PLAIN,
    "core:0-4294967295|0x000000ff
core:2-4294967295|0x000000f0
core:4294967295-4294967295|0x0
core:4294967295-|0x0
core:4294967295-0|0x0
core:1:4|0x000000ff
core:3:5|0x000000ff
core:3:4294967295|0x000000ff
core:4294967295:1|0x0
core:4294967295:4294967295|0x0
core:0:0|0x0
package:0.core:1:2|0x0000000f
package:0-.core:1-|0x000000cc
core:odd.pu:even|0x00000044
-p core:0-4294967295|0x000000ff
-p pu:6-4294967295|0x000000c0
-p pu:5-3|0x0
-p pu:4294967295|0x0
-p pu:4294967295-|0x0
-p pu:4294967295:4294967295|0x0
-p pu:0:4294967295|0x000000ff
-p pu:0:8|0x000000ff
-p pu:3:0|0x0",
)];

#[test]
fn indexes_up_to_32_bits(rt: HostRuntime) -> Result<(), Fail> {
    answers(&rt, rt.alloc(), "calc * ", LIMITS)
}

// Physical numbers with gaps, which hwloc-calc 2.9 counts as if there were none (docs/HWLOC.md).
const GAPS: Tables = &[
    (
        "PU:4(indexes=0,2,4,6)",
        "-p pu:all|0x00000055
-p pu:odd|0x0
-p pu:even|0x00000055
-p pu:1-5|0x00000014
-p pu:3-|0x00000050
-p pu:1:4|0x00000014
-p pu:7-|0x0",
    ),
    (
        "Core:4 PU:2(indexes=2*4:1*2)",
        "-p core:3.pu:odd|0x00000088
-p core:1.pu:even|0x0
-p core:odd.pu:all|0x000000aa
-p core:even.pu:even|0x00000055",
    ),
    (
        "Package:2 [numa(indexes=4,7)] Core:3 PU:2",
        "-p numa:5-|0x00000fc0
-p numa:4-6|0x0000003f
-p numa:6:2|0x00000fc0
-p numa:all|0x00000fff
-p numa:odd|0x00000fc0
-p numa:4.pu:5|0x00000020",
    ),
];

#[test]
fn numbers_with_gaps(rt: HostRuntime) -> Result<(), Fail> {
    answers(&rt, rt.alloc(), "calc * ", GAPS)
}

// How the words of a calculation are written: options before, between and behind the other words, values in the next word,
// behind `=` or directly behind a letter, letters in one word, `--`, and separators of every kind.
const FORMS: Tables = &[(
    PLAIN,
    "calc *|0x0
calc -Ncore * all|4
calc -N=core * all|4
calc -N core * all|4
calc * all --number-of core|4
calc --number-of=core * all|4
calc --intersect pu * core:1|2,3
calc * core:1 -Ipu core:3|2,3,6,7
calc -lIpu * core:1|2,3
calc -pIpu * core:1|2,3
calc --hierarchical core * pu:2|Core:1
calc -I pu --sep  * core:1|23
calc -I pu --sep= * core:1|23
calc -I pu --sep=- * core:1|2-3
calc -I pu --sep - * core:1|2-3
calc -- * core:1|0x0000000c
calc * core:1 -- pu:0|0x0000000d
calc * --single core:1 --taskset core:2|0x4
calc --sep : --taskset -N pu * all|8",
)];

#[test]
fn words_of_every_form(rt: HostRuntime) -> Result<(), Fail> {
    let spaces: &[&str] = &["calc", "-I", "pu", "--sep= ; ", PLAIN, "core:1"];
    expect(&rt, rt.alloc(), spaces, "0 2 ; 3\n")?;
    answers(&rt, rt.alloc(), "", FORMS)
}

// What differs from hwloc-calc 2.9 (docs/HWLOC.md); its answer stands beside each row.
const PROFILE: Tables = &[
    // 0x4, and 2: an option holds for the words behind it.
    ("Core:4 PU:2(indexes=2*4:1*2)", "pu:4 -p|0x00000010"),
    ("Core:4 PU:2(indexes=2*4:1*2)", "-I pu pu:4 -p|4"),
    ("PU:4", "pu:2-0|0x0"), // 0xc
    ("PU:4", "pu:5-|0x0"), // no end
    ("PU:4", "pu:3-0|0x0"), // no end
    ("PU:4", "pu:4:2|0x0"), // 0x3
    // 0xc3.
    ("Core:4 PU:2(indexes=2*4:1*2)", "-p pu:6:4|0x000000c0"),
    // 0x1: it sorts siblings by their sets.
    ("PU:4(indexes=3,2,1,0)", "pu:0|0x00000008"),
    ("Core:2 PU:2(indexes=2,3,0,1)", "core:0|0x0000000c"),
    // It drops Groups and levels that add nothing.
    ("Group:1 Core:2 PU:2", "-N group all|1"),
    ("L1:2 PU:2", "-H l1 all|L1dCache:0 L1dCache:1"),
    // 0x0, and -1,-1.
    ("L2:2 PU:2", "-p l2:1|0x0000000c"),
    ("L2:2 PU:2", "-p -I l2 all|0,1"),
    // Package:1.Core:2 for its second object.
    (PLAIN, "-p -H package.core core:2|Package:1.Core:0"),
    // 0x5: it counts physical numbers without gaps.
    ("PU:4(indexes=0,2,4,6)", "-p pu:all|0x00000055"),
    // Core:0.Package:0 and so on.
    (PLAIN, "-H core.package all|"),
    // Nothing.
    ("PU:8", "10|0x00000010"),
    // The same with status 1.
    ("PU:2", "--largest 0x7|Machine:0"),
];

// It reads locations from standard input.
const NO_LOCATION: Tables = &[("PU:2", "calc *|0x0")];

#[test]
fn answers_of_this_profile(rt: HostRuntime) -> Result<(), Fail> {
    answers(&rt, rt.alloc(), "", NO_LOCATION)?;
    answers(&rt, rt.alloc(), "calc * ", PROFILE)
}

// The answers and refusals of docs/HWLOC.md that no other table has.
const EXAMPLES: Tables = &[
    (
        PLAIN,
        "core:1|0x0000000c
package:1 ~PU:even|0x000000a0
-N core all|4
-I PU package:1|4,5,6,7
-H package.core 0xf0|Package:1.Core:0 Package:1.Core:1
--largest 0xf3|Core:0 Package:1
--taskset package:1|0xf0
core:3-1|0x0
core:4:1|0x0
all x0x0f|0x0000000f",
    ),
    (
        "Core:4 PU:2(indexes=2*4:1*2)",
        "-p -I PU all|0,4,1,5,2,6,3,7
-I pu 0x00000010|1
core:all.pu:0|0x0000000f",
    ),
    ("2 3 2", "-N group all|2"),
    ("PU:010", "all|0x000003ff"),
    ("Group:2 Package:1 Group:2 PU:2", "group0:1|0x000000f0"),
];

const REFUSED_EXAMPLES: Tables = &[(
    PLAIN,
    "core:0 foo:0|3 clof: location NoSuchType 1
core:x|3 clof: location Location 0 0
0x123456789|3 clof: location Location 0 0
-I foo all|3 clof: type -I",
)];

#[test]
fn examples_of_the_page_on_hwloc(rt: HostRuntime) -> Result<(), Fail> {
    answers(&rt, rt.alloc(), "calc * ", EXAMPLES)?;
    refuses(&rt, rt.alloc(), "calc * ", REFUSED_EXAMPLES)
}

const USAGE: Tables = &[(
    PLAIN,
    "calc|2 clof: usage
calc --single|2 clof: usage
calc -I core -N core *|2 clof: usage
calc -I core -H core *|2 clof: usage
calc -I core --largest *|2 clof: usage
calc -N core -H core *|2 clof: usage
calc -N core --largest *|2 clof: usage
calc -H core --largest *|2 clof: usage
calc -p -l *|2 clof: usage
calc -pl *|2 clof: usage
calc -I core --intersect core *|2 clof: usage
calc -I core -I core *|2 clof: usage
calc -p --physical *|2 clof: usage
calc -pp *|2 clof: usage
calc --single * all --single|2 clof: usage
calc --sep , --sep , *|2 clof: usage
calc * -I|2 clof: usage
calc -I --single *|2 clof: usage
calc -I -x *|2 clof: usage
calc --largest=true *|2 clof: usage
calc --unknown *|2 clof: usage
calc -x *|2 clof: usage
calc * -1|2 clof: usage
calc --help|2 clof: usage
calc -h *|2 clof: usage
calc --version|2 clof: usage",
)];

#[test]
fn refuses_words(rt: HostRuntime) -> Result<(), Fail> {
    refuses(&rt, rt.alloc(), "", USAGE)
}

// What is refused, in the order of the checks: the description, its numbers, the type of an option, the locations.
const TYPES_AND_LOCATIONS: Tables = &[
    (
        "PU:2",
        "core:0|3 clof: location NoSuchType 0
pu:x|3 clof: location Location 0 0
pu:0 ~pu:0.pu: x|3 clof: location Location 1 6
pu:0 ~|3 clof: location Location 1 1
|3 clof: location Location 0 0
0x1,|3 clof: location Location 0 0
pu|3 clof: location Location 0 0
foo|3 clof: location NoSuchType 0
-- all -1|3 clof: location NoSuchType 1
-I core foo|3 clof: type -I
-N numa|3 clof: type -N
-H pu.core foo|3 clof: type -H
-H |3 clof: type -H
-H pu.|3 clof: type -H",
    ),
    ("PU:0", "-I core foo|3 clof: synth BadArity 0"),
    (
        "PU:1(indexes=4096)",
        "-I core foo|3 clof: build IndexRange 4096",
    ),
    ("PU:4097", "foo|4 clof: synth TooManyObjects"),
];

#[test]
fn refuses_types_and_locations(rt: HostRuntime) -> Result<(), Fail> {
    refuses(&rt, rt.alloc(), "calc * ", TYPES_AND_LOCATIONS)
}

// Words that name a layer to hwloc-calc 2.9, and none here (docs/HWLOC.md): a depth by its number, an L3 of data and
// instructions, the node of memory that it adds.
const NAMES_OF_HWLOC: Tables = &[
    (
        PLAIN,
        "-N 3 all|3 clof: type -N
-I 2 all|3 clof: type -I
-H 1.2 all|3 clof: type -H",
    ),
    (
        "L3:2 PU:2",
        "l3u:1|3 clof: location NoSuchType 0
-N l3u all|3 clof: type -N
-H l3u all|3 clof: type -H",
    ),
    ("PU:2", "-N numa all|3 clof: type -N"),
];

#[test]
fn refuses_names_of_hwloc(rt: HostRuntime) -> Result<(), Fail> {
    refuses(&rt, rt.alloc(), "calc * ", NAMES_OF_HWLOC)
}
