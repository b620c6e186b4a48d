//! Texts with one fault, in the whole.
use super::expect_refusals;
use std::test::Fail;

// There is no level.
const EMPTY: &[&str] = &["Empty | \t\r\n|[numa]| [numa(memory=1)] "];

// A kind comes again, or a second memory: the first from the left is told.
const REPEATED: &[&str] = &[
    "RepeatedType Core:1 ^Core:1 PU:1|Core:1 Die:1 ^Core:1 PU:1|PU:1 ^PU:1|PU:1 ^1|Core:2 ^3 PU:1|PU:1 1 ^1",
    "RepeatedType l1:1 ^L1dCache:1 PU:1|pack:1 ^socket:1 PU:1|Core:1 Die:1 ^Die:1 Core:1 PU:1",
    "RepeatedType [numa] ^[node] PU:1|[numa] Core:1 ^[numa] PU:1|numa:1 ^[numa] PU:1|[numa] ^numa:1 PU:1",
    "RepeatedType numa:1 ^node:1 PU:1|numa:1(memory=1)^[node]PU:1|[numa] ^[numa] Core:1 Core:1 PU:1",
    "RepeatedType Core:1 ^Core:1 [numa] [numa] PU:1",
];

// The last level isn't of PUs, or memory stands behind it.
const ENDS: &[&str] = &[
    "LastNotPu   ^Core:1|PU:2 ^Core:2|PU:1 Core:1 ^Die:1|^numa:1|PU:1 ^numa:1|PU:1 1 ^Die:1|PU:2^[numa]",
    "LastNotPu Core:1 PU:2  ^[numa]|^Core:1 [numa]|PU:1 ^Core:1 [numa]",
];

// One level more than the most, and PUs and objects that are one more or a few.
const LARGE: &[&str] = &[
    "TooManyLevels 1 1 1 1 1 1 1 1 1 1 1 1 1 1 1 1 1|1 1 1 1 1 1 1 1 [numa] 1 1 1 1 1 1 1 1 1",
    "TooManyLevels Group:1 Group:1 Group:1 Group:1 Group:1 Group:1 Group:1 Group:1 Group:1 Group:1 Group:1 Group:1 Group:1 \
     Group:1 Group:1 Group:1 PU:1",
    "TooManyObjects PU:4097|Core:17 PU:241|Core:4097 PU:1|Core:64 PU:65|Group:4294967295 PU:1",
    "TooManyObjects Group:4294967295 Group:4294967295 Group:4294967295 PU:1",
    "TooManyObjects 4294967295 4294967295 4294967295 4294967295 4294967295 4294967295 4294967295 4294967295 4294967295 \
     4294967295 4294967295 4294967295 4294967295 4294967295 4294967295 4294967295",
    "TooManyObjects Group:4096 Group:1 Group:1 PU:1|Group:4096 [numa] Group:1 PU:1",
    "TooManyObjects [numa] Package:3 Group:1365 Group:1 Group:1 PU:1",
    "TooManyObjects Package:3 Group:1365 Group:1 Group:1 [numa] PU:1",
    "TooManyObjects Package:2 [numa] Group:1638 Group:1 Group:1 Group:1 PU:1",
];

#[test]
fn refuses_no_level(rt: HostRuntime) -> Result<(), Fail> {
    expect_refusals(&rt, rt.alloc(), EMPTY)
}

#[test]
fn refuses_repetitions(rt: HostRuntime) -> Result<(), Fail> {
    expect_refusals(&rt, rt.alloc(), REPEATED)
}

#[test]
fn refuses_wrong_ends(rt: HostRuntime) -> Result<(), Fail> {
    expect_refusals(&rt, rt.alloc(), ENDS)
}

#[test]
fn refuses_more_than_the_limits(rt: HostRuntime) -> Result<(), Fail> {
    expect_refusals(&rt, rt.alloc(), LARGE)
}
