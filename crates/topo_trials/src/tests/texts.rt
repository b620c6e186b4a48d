//! The two texts of whole topologies.
use super::*;

fn expect_texts(rt: &impl Abort, alloc: Global, text: &str, canonical: &str, shown: &str) {
    let tree = built_tree(rt, alloc, text);
    expect_tree(rt, alloc, &tree, (canonical, shown));
    let topology = Topology::from_tree(alloc, tree).expect(rt, "memory");
    expect_topology(rt, alloc, &topology, (canonical, shown));
}

fn expect_tree(rt: &impl Abort, alloc: Global, tree: &Tree, wanted: (&str, &str)) {
    expect_text(rt, &tree.export(alloc).expect(rt, "memory"), wanted.0);
    expect_text(rt, &tree.show(alloc).expect(rt, "memory"), wanted.1);
}

fn expect_topology(rt: &impl Abort, alloc: Global, topology: &Topology, wanted: (&str, &str)) {
    expect_text(rt, &topology.export(alloc).expect(rt, "memory"), wanted.0);
    expect_text(rt, &topology.show(alloc).expect(rt, "memory"), wanted.1);
}

pub(super) fn expect_text(rt: &impl Abort, found: &[u8], wanted: &str) {
    expect_equal(rt, wanted, found, wanted.as_bytes());
}

#[test]
fn memory_below_packages(rt: HostRuntime) {
    expect_texts(
        &rt,
        rt.alloc(),
        "Package:2 [NUMANode(memory=1GiB)] L3Cache:1(size=8MiB) Core:2 PU:2",
        "Package:2 [NUMANode(memory=1073741824)] L3Cache:1(size=8388608) Core:2 PU:2\n",
        "Machine L#0
  Package L#0
    NUMANode L#0 (P#0 1GiB)
    L3 L#0 (8MiB)
      Core L#0
        PU L#0 (P#0)
        PU L#1 (P#1)
      Core L#1
        PU L#2 (P#2)
        PU L#3 (P#3)
  Package L#1
    NUMANode L#1 (P#1 1GiB)
    L3 L#1 (8MiB)
      Core L#2
        PU L#4 (P#4)
        PU L#5 (P#5)
      Core L#3
        PU L#6 (P#6)
        PU L#7 (P#7)
",
    );
}

#[test]
fn memory_of_the_machine(rt: HostRuntime) {
    expect_texts(
        &rt,
        rt.alloc(),
        "[numa(indexes=7)] 1 2 L5:1(size=0) 1 2(indexes=0,4,1,5)",
        "[NUMANode(indexes=7)] Group:1 Group:2 L5Cache:1(size=0) Core:1 PU:2(indexes=0,4,1,5)\n",
        "Machine L#0
  NUMANode L#0 (P#7)
  Group0 L#0
    Group1 L#0
      L5 L#0 (0B)
        Core L#0
          PU L#0 (P#0)
          PU L#1 (P#4)
    Group1 L#1
      L5 L#1 (0B)
        Core L#1
          PU L#2 (P#1)
          PU L#3 (P#5)
",
    );
}

#[test]
fn memory_below_cores(rt: HostRuntime) {
    expect_texts(
        &rt,
        rt.alloc(),
        "pack:1 core:2 [ node(indexes=5,2 memory=3MiB) ] pu:2(indexes=2*2:1*2)",
        "Package:1 Core:2 [NUMANode(memory=3145728 indexes=5,2)] PU:2(indexes=2*2:1*2)\n",
        "Machine L#0
  Package L#0
    Core L#0
      NUMANode L#0 (P#5 3MiB)
      PU L#0 (P#0)
      PU L#1 (P#2)
    Core L#1
      NUMANode L#1 (P#2 3MiB)
      PU L#2 (P#1)
      PU L#3 (P#3)
",
    );
}

#[test]
fn sizes_by_their_units(rt: HostRuntime) {
    expect_texts(
        &rt,
        rt.alloc(),
        "l5:1(size=1023KiB) l4:1(size=1025) l3:1(size=3TiB) l2:1(size=1025GiB) l1d:1(size=2048MiB) l1i:1(size=1024) \
         numa:1(memory=1kB) pu:1",
        "L5Cache:1(size=1047552) L4Cache:1(size=1025) L3Cache:1(size=3298534883328) L2Cache:1(size=1100585369600) \
         L1dCache:1(size=2147483648) L1iCache:1(size=1024) Group:1 [NUMANode(memory=1000)] PU:1\n",
        "Machine L#0
  L5 L#0 (1023KiB)
    L4 L#0 (1025B)
      L3 L#0 (3TiB)
        L2 L#0 (1025GiB)
          L1d L#0 (2GiB)
            L1i L#0 (1KiB)
              Group0 L#0
                NUMANode L#0 (P#0 1000B)
                PU L#0 (P#0)
",
    );
}

#[test]
fn sizes_at_the_edges(rt: HostRuntime) {
    expect_texts(
        &rt,
        rt.alloc(),
        "l5:1(size=18446744073709551615) l4:1(size=1024TiB) l3:1(size=1025KiB) l2:1(size=9223372036854775808) l1:1(size=1023) \
         l1i:1(size=1023GiB) numa:1(memory=0) pu:1",
        "L5Cache:1(size=18446744073709551615) L4Cache:1(size=1125899906842624) L3Cache:1(size=1049600) \
         L2Cache:1(size=9223372036854775808) L1dCache:1(size=1023) L1iCache:1(size=1098437885952) Group:1 [NUMANode(memory=0)] \
         PU:1\n",
        "Machine L#0
  L5 L#0 (18446744073709551615B)
    L4 L#0 (1024TiB)
      L3 L#0 (1025KiB)
        L2 L#0 (8388608TiB)
          L1d L#0 (1023B)
            L1i L#0 (1023GiB)
              Group0 L#0
                NUMANode L#0 (P#0 0B)
                PU L#0 (P#0)
",
    );
}

#[test]
fn sixteen_levels(rt: HostRuntime) {
    expect_texts(
        &rt,
        rt.alloc(),
        "1 1 1 1 1 1 1 1 1 1 1 1 group3:1 l1i:1 1 1",
        "Group:1 Group:1 Group:1 Group:1 Group:1 Group:1 Group:1 Group:1 Group:1 Group:1 Group:1 Group:1 Group:1 L1iCache:1 Core:1 PU:1\n",
        "Machine L#0
  Group0 L#0
    Group1 L#0
      Group2 L#0
        Group3 L#0
          Group4 L#0
            Group5 L#0
              Group6 L#0
                Group7 L#0
                  Group8 L#0
                    Group9 L#0
                      Group10 L#0
                        Group11 L#0
                          Group12 L#0
                            L1i L#0
                              Core L#0
                                PU L#0 (P#0)
",
    );
}
