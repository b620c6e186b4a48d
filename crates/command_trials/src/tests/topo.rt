//! What `topo` prints, and how descriptions are refused.
use super::{Tables, answers, expect, refuses};
use std::test::Fail;

const DESCRIPTION: &str = "Package:2 [NUMANode(memory=1GiB)] L3Cache:1(size=8MiB) Core:2 PU:2";

const USUAL: &str =
    "Package:2 [NUMANode(memory=34359738368)] L3Cache:1(size=33554432) L2Cache:16(size=1048576) \
     L1dCache:1(size=32768) L1iCache:1(size=32768) Core:1 PU:2(indexes=2*32:1*2)";

const TREE: &str = "0 Machine L#0
  Package L#0
    NUMANode L#0 (P#0 1GiB)
    L3 L#0 (8MiB)
      Core L#0
        PU L#0 (P#0)
        PU L#1 (P#1)
      Core L#1
        PU L#2 (P#2)
        PU L#3 (P#3)
  Package L#1
    NUMANode L#1 (P#1 1GiB)
    L3 L#1 (8MiB)
      Core L#2
        PU L#4 (P#4)
        PU L#5 (P#5)
      Core L#3
        PU L#6 (P#6)
        PU L#7 (P#7)
";

const TREES: Tables = &[
    (
        DESCRIPTION,
        "topo --export *|Package:2 [NUMANode(memory=1073741824)] L3Cache:1(size=8388608) Core:2 PU:2",
    ),
    (
        USUAL,
        "topo --export *|Package:2 [NUMANode(memory=34359738368)] L3Cache:1(size=33554432) L2Cache:16(size=1048576) \
L1dCache:1(size=32768) L1iCache:1(size=32768) Core:1 PU:2(indexes=2*32:1*2)",
    ),
];

#[test]
fn prints_a_tree_and_its_canonical_text(rt: HostRuntime) -> Result<(), Fail> {
    expect(&rt, rt.alloc(), &["topo", DESCRIPTION], TREE)?;
    answers(&rt, rt.alloc(), "", TREES)
}

const REFUSED: Tables = &[
    // Texts that describe nothing.
    ("Core:2 PU:0", "topo *|3 clof: synth BadArity 7"),
    ("Core:2 Thread:2 PU:1", "topo *|3 clof: synth BadType 7"),
    ("Core:2(size=1) PU:1", "topo *|3 clof: synth BadAttr 0"),
    (
        "Core:1 PU:2(indexes=0,)",
        "topo *|3 clof: synth BadIndexes 7",
    ),
    ("PU:2 Core:2", "topo *|3 clof: synth LastNotPu 5"),
    ("", "topo *|3 clof: synth Empty"),
    ("Core:1 Core:1 PU:1", "topo *|3 clof: synth RepeatedType 7"),
    // Descriptions over a limit.
    (
        "Group:1 Group:1 Group:1 Group:1 Group:1 Group:1 Group:1 \
         Group:1 Group:1 Group:1 Group:1 Group:1 Group:1 Group:1 Group:1 Group:1 PU:1",
        "topo *|4 clof: synth TooManyLevels",
    ),
    ("PU:4097", "topo *|4 clof: synth TooManyObjects"),
    // Numbers that do not fit.
    (
        "Core:1 PU:2(indexes=0,0)",
        "topo *|3 clof: build IndexTwice 0",
    ),
    ("PU:2(indexes=0,1,2)", "topo *|3 clof: build IndexCount 3 2"),
    (
        "PU:2(indexes=0,4096)",
        "topo *|3 clof: build IndexRange 4096",
    ),
];

#[test]
fn refuses_descriptions(rt: HostRuntime) -> Result<(), Fail> {
    refuses(&rt, rt.alloc(), "", REFUSED)
}
