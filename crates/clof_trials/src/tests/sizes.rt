//! Answers at sizes that no limit gives, and at the limits. Long texts are compared by their length and checksum, which
//! bench/limit_texts.py worked out from their definitions.
use super::{Tables, WELL, answers, call, described};
use placed_runner::OpenGate;
use std::alloc::Global;
use std::process::Abort;
use std::sync::Wait;
use std::test::Fail;
use std::thread::Threads;

const SIZES: Tables = &[(
    "Package:2 Die:2 L3:1 L2:1 Core:2 PU:2",
    "calc * pu:0 pu:2 pu:4 pu:6 pu:8|0x00000155
calc --taskset -p --single -- * pu:5 pu:6 pu:7 pu:9 pu:11 pu:13 pu:15 pu:1|0x2
calc * pu:0 ~pu:0 pu:1 pu:2 x0xfffffffe pu:3 ^pu:3 ^pu:9 pu:10 pu:11 ~0x800 pu:12 pu:13 pu:14 pu:15|0x0000f606
calc * package:1.die:1.l3:0.core:1.pu:1|0x00008000
calc * package:1.die:1.l3:0.l2:0.core:1.pu:1|0x00008000
calc -I pu * package:0-1.die:1|4,5,6,7,12,13,14,15
calc -I core --sep , * all|0,1,2,3,4,5,6,7
calc -N pu * ~pu:3 all ~pu:4 ~pu:5 ~pu:6|13
calc -H package.core * all|Package:0.Core:0 Package:0.Core:1 Package:0.Core:2 Package:0.Core:3 \
Package:1.Core:0 Package:1.Core:1 Package:1.Core:2 Package:1.Core:3
calc -H package.l3cache.l2cache.core * pu:5 pu:9|Package:0.L3Cache:1.L2Cache:0.Core:0 Package:1.L3Cache:0.L2Cache:0.Core:0
calc --largest * pu:1-14|PU:1 Core:1 Die:1 Die:2 Core:6 PU:14
calc --largest --sep + * pu:1 pu:3 pu:5 pu:7 pu:9 core:5|PU:1+PU:3+PU:5+PU:7+PU:9+Core:5
distrib --from die --to core 6 *|0x00000003/0x0000000c/0x000000f0/0x00000300/0x00000c00/0x0000f000",
)];

#[test]
fn many_words_locations_and_paths(rt: HostRuntime) -> Result<(), Fail> {
    answers(&rt, rt.alloc(), SIZES)
}

// Words, the description, and the length and the checksum of the text that they are answered.
const LONG: &[(&str, &str, usize, u64)] = &[
    ("set --list 4095", "", 1_173, 13_640_319_012_234_973_611),
    // Items.
    (
        "calc -I pu * pu:even",
        "Core:2048 PU:2",
        9_685,
        11_613_376_505_405_987_440,
    ),
    (
        "calc -H core.pu * pu:even",
        "Core:2048 PU:2",
        29_610,
        13_272_272_402_392_766_101,
    ),
    (
        "calc --largest * pu:even",
        "Core:2048 PU:2",
        15_829,
        1_590_467_159_016_129_202,
    ),
    (
        "calc -H package.die.l3.l2.core * all",
        "Package:2 Die:2 L3:2 L2:2 Core:2 PU:2",
        1_376,
        1_834_295_738_886_282_935,
    ),
    // Shares.
    (
        "distrib 4096 *",
        "PU:4096",
        317_344,
        7_599_723_997_124_199_285,
    ),
    (
        "distrib --taskset --reverse 4096 *",
        "PU:4096",
        2_111_488,
        16_368_823_324_833_337_125,
    ),
    ("distrib 4096 *", "PU:2", 45_056, 9_533_295_866_337_336_101),
    // A tree.
    (
        "topo *",
        "Group:1 Group:2 Group:2 Group:2 Group:2 Group:2 Group:2 Group:2 Group:2 Group:2 Group:2 Group:2 L2:2 Core:1 PU:1",
        654_343,
        6_307_345_395_768_999_658,
    ),
];

// The checksum FNV-1a of 64 bits.
fn checksum(text: &[u8]) -> u64 {
    let mut value: u64 = 14_695_981_039_346_656_037;
    for byte in text {
        value = (value ^ u64::from(*byte)).wrapping_mul(1_099_511_628_211);
    }
    value
}

// Checks that a call is answered by a text of this length and checksum.
fn answers_long<R: Threads + Wait + Sync + Abort>(
    rt: &R,
    alloc: Global,
    (line, input): (&str, &[u8]),
    told: (usize, u64),
) -> Result<(), Fail> {
    let out = call(rt, alloc, line, input, &OpenGate, WELL)?;
    has_sum(rt, line, out.bytes(), told);
    Ok(())
}

fn has_sum(rt: &impl Abort, line: &str, text: &[u8], told: (usize, u64)) {
    assert_eq!(rt; (text.len(), checksum(text)), told, "at {line}");
}

#[test]
fn long_texts(rt: HostRuntime) -> Result<(), Fail> {
    let alloc = rt.alloc();
    for (words, description, length, sum) in LONG {
        let line = described(alloc, words, description)?;
        answers_long(&rt, alloc, (&line, b""), (*length, *sum))?;
    }
    Ok(())
}

// These words and 64 locations, each of one PU.
fn located(alloc: Global, words: &str) -> Result<String, Fail> {
    let mut all = String::from_str(alloc, words)?;
    for number in 0..64u32 {
        all.push_str(&format!(in alloc; " pu:{}", number * 64)?)?;
    }
    Ok(all)
}

#[test]
fn locations(rt: HostRuntime) -> Result<(), Fail> {
    let alloc = rt.alloc();
    let line = located(alloc, "calc PU:4096")?;
    let told = (767, 4_932_459_344_515_767_997);
    answers_long(&rt, alloc, (&line, b""), told)?;
    let line = located(alloc, "calc --taskset PU:4096")?;
    let told = (1_012, 18_082_306_977_034_469_359);
    answers_long(&rt, alloc, (&line, b""), told)
}

// As many objects and as many layers as there may be.
const MOST: Tables = &[
    (
        "Package:3 Group:1365 Group:1 Group:1 PU:1",
        "calc -N pu * all|4095",
    ),
    (
        "Group:1 Group:1 Group:1 Group:1 Group:1 Group:1 Group:1 Group:1 Group:1 Group:1 Group:1 Group:1 Group:1 Group:1 \
Group:1 PU:1",
        "topo *|Machine L#0/  Group0 L#0/    Group1 L#0/      Group2 L#0/        Group3 L#0/          Group4 L#0/            Group5 L#0\
/              Group6 L#0/                Group7 L#0/                  Group8 L#0/                    Group9 L#0\
/                      Group10 L#0/                        Group11 L#0/                          Group12 L#0\
/                            Group13 L#0/                              Group14 L#0/                                PU L#0 (P#0)",
    ),
];

#[test]
fn as_many_objects_and_layers_as_there_may_be(rt: HostRuntime) -> Result<(), Fail> {
    answers(&rt, rt.alloc(), MOST)
}

// A description of 423 bytes, whose PUs are numbered from the last.
fn numbered_from_the_last(alloc: Global) -> Result<String, Fail> {
    let mut text = String::from_str(alloc, "Core:64 PU:2(indexes=127")?;
    for number in 1..128u32 {
        text.push_str(&format!(in alloc; ",{}", 127 - number)?)?;
    }
    text.push(')')?;
    Ok(text)
}

const NUMBERED: &str = "calc * core:0|0xc0000000,,,0x0
calc * -p pu:0|0x00000001
calc * -p -I pu core:62|3,2
distrib --single 2 *|0x00000001,,0x0/0x00000001";

#[test]
fn a_long_description(rt: HostRuntime) -> Result<(), Fail> {
    let alloc = rt.alloc();
    let description = numbered_from_the_last(alloc)?;
    assert_eq!(rt; description.len(), 423);
    answers(&rt, alloc, &[(description.as_str(), NUMBERED)])
}

// So many sections of one command, the callers of a walk, and the length and the checksum of what it prints.
const WALKS: &[(usize, usize, u64)] = &[
    (3, 294, 307_410_180_893_726_455),
    (256, 26_294, 10_895_055_779_884_673_039),
];

#[test]
fn walks(rt: HostRuntime) -> Result<(), Fail> {
    let alloc = rt.alloc();
    for (count, length, sum) in WALKS {
        let input = "worker * 7\nget a\r\n\n".repeat(alloc, *count)?;
        let told = (*length, *sum);
        answers_long(&rt, alloc, ("run --walk", input.as_bytes()), told)?;
    }
    Ok(())
}
