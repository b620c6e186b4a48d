//! Worked examples of refusals: the exit code, the line on standard error, and that nothing is printed.
use super::{Tables, refuses};
use std::test::Fail;

const SETS_AND_WORDS: Tables = &[(
    "",
    "set --list 3,4096|3 clof: set TooLarge 2
set 0xf...f|3 clof: set Infinite 0
set 0x1,|3 clof: set Form 4
set --list 7-|3 clof: set Infinite 0
set --list 9-8|3 clof: set Form 0
frob|2 clof: usage
''|2 clof: usage
set|2 clof: usage
calc -I core -N core PU:1|2 clof: usage
distrib x PU:1|2 clof: usage",
)];

#[test]
fn sets_and_words(rt: HostRuntime) -> Result<(), Fail> {
    refuses(&rt, rt.alloc(), SETS_AND_WORDS)
}

const DESCRIPTIONS: Tables = &[
    (
        "Core:2 PU:0",
        "topo *|3 clof: synth BadArity 7
calc * core:x|3 clof: synth BadArity 7",
    ),
    (
        "PU:2 Core:2",
        "topo *|3 clof: synth LastNotPu 5
distrib 0 *|3 clof: synth LastNotPu 5",
    ),
    (
        "Core:1 PU:2(indexes=0,0)",
        "topo *|3 clof: build IndexTwice 0",
    ),
    ("PU:2(indexes=0,1,2)", "topo *|3 clof: build IndexCount 3 2"),
    (
        "PU:2(indexes=0,4096)",
        "topo *|3 clof: build IndexRange 4096",
    ),
    (
        "",
        "topo *|3 clof: synth Empty
run *|3 clof: synth Empty",
    ),
];

#[test]
fn descriptions(rt: HostRuntime) -> Result<(), Fail> {
    refuses(&rt, rt.alloc(), DESCRIPTIONS)
}

// One object or one layer more than there may be.
const BEYOND_THE_LIMITS: Tables = &[
    (
        "PU:4097",
        "topo *|4 clof: synth TooManyObjects
calc -I x * x|4 clof: synth TooManyObjects",
    ),
    (
        "Group:4096 Group:1 Group:1 PU:1",
        "topo *|4 clof: synth TooManyObjects",
    ),
    (
        "Group:1 Group:1 Group:1 Group:1 Group:1 Group:1 Group:1 Group:1 Group:1 Group:1 Group:1 Group:1 Group:1 Group:1 \
Group:1 Group:1 PU:1",
        "topo *|4 clof: synth TooManyLevels",
    ),
    (
        "Group:1 Group:1 Group:1 Group:1 Group:1 Group:1 Group:1 Group:1 Group:1 Group:1 Group:1 Group:1 Group:1 Group:1 \
Group:1 Core:1 PU:1",
        "topo *|4 clof: synth TooManyLevels",
    ),
];

#[test]
fn descriptions_beyond_the_limits(rt: HostRuntime) -> Result<(), Fail> {
    refuses(&rt, rt.alloc(), BEYOND_THE_LIMITS)
}

const TYPES_LOCATIONS_AND_SHARES: Tables = &[(
    "PU:2",
    "calc * core:0|3 clof: location NoSuchType 0
calc * pu:x|3 clof: location Location 0 0
calc * pu:0 pu:1.pu|3 clof: location Location 1 5
calc * -I core pu:x|3 clof: type -I
distrib 0 *|3 clof: distrib ZeroMasks
distrib 4097 *|4 clof: distrib TooManyMasks
distrib --from pu --to machine 1 *|3 clof: distrib Reversed
distrib --at die 0 *|3 clof: type --at",
)];

#[test]
fn types_locations_and_shares(rt: HostRuntime) -> Result<(), Fail> {
    refuses(&rt, rt.alloc(), TYPES_LOCATIONS_AND_SHARES)
}

// The cases of docs/REFUSALS.md that no other table of this file has, each with the words and the line of the page: those of words and
// inputs on one description, of inputs without a description, and of descriptions.
const PAGE: Tables = &[
    (
        "Package:2 Core:2 PU:2",
        "calc * -I die all|3 clof: type -I
calc * -N die all|3 clof: type -N
calc * -H package.die all|3 clof: type -H
calc * core:0 core:x|3 clof: location Location 1 0
calc * core:0 die:0|3 clof: location NoSuchType 1
distrib --from die 2 *|3 clof: type --from
distrib --to die 2 *|3 clof: type --to
distrib --at die 2 *|3 clof: type --at
distrib --from core --to package 2 *|3 clof: distrib Reversed
run --levels die,machine *|3 clof: plan LevelUnknown 0
run --levels machine,core *|3 clof: plan LevelOrder 1
run --levels core,package *|3 clof: plan LevelOrder 1
run --levels pu,core,package,machine,machine,machine *|3 clof: plan TooDeep
run --levels core,machine --locks mcs-mutex *|3 clof: plan LockUnknown 1
run --levels core,machine --locks mcs *|3 clof: plan Lengths 2 1
run --levels core,machine --keep 4,128 *|3 clof: plan Lengths 2 2
run --levels core,machine --keep 65536 *|3 clof: plan KeepRange 0
run *|3 clof: section BadPlace 0|worker core:0 0//
select --weights 8,4,2 *|3 clof: select Weights
select --keep 65536 *|3 clof: select Keep
select *|3 clof: select Line 2|0/1
select *|3 clof: select Place 2|0/8/",
    ),
    (
        "",
        "run|3 clof: section BadHead 0|worker 0//
run|3 clof: section BadHead 12|worker * 0///
run|3 clof: section BadPlace 0|worker pu:1 0//
run|3 clof: section Short 0|worker * 9/get a\r//
check|3 clof: check BadHead|get a\r/
check|3 clof: check Short|input 3/ab",
    ),
    ("Package:2 Kore:2 PU:2", "topo *|3 clof: synth BadType 10"),
    ("Core:2(size=1MiB) PU:2", "topo *|3 clof: synth BadAttr 0"),
    ("PU:4(indexes=0-3)", "topo *|3 clof: synth BadIndexes 0"),
    ("Core:2 PU:2 [numa]", "topo *|3 clof: synth LastNotPu 12"),
    ("L2:2 L2:2 PU:2", "topo *|3 clof: synth RepeatedType 5"),
    (
        "Package:2 [numa] Core:2 [numa] PU:2",
        "topo *|3 clof: synth RepeatedType 24",
    ),
];

#[test]
fn cases_of_the_page_on_refusals(rt: HostRuntime) -> Result<(), Fail> {
    refuses(&rt, rt.alloc(), PAGE)
}
