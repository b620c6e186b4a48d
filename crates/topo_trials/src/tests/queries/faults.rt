//! Why words are refused. A row of a table has a word where a name names no layer, or a word and the offset of the bad
//! location.
use super::*;
use std::fmt::Display;

const WORD: u32 = 7;

const NO_SUCH_TYPE: CalcFault = CalcFault::NoSuchType { word: WORD };

fn bad_at(at: usize) -> CalcFault {
    CalcFault::Location { word: WORD, at }
}

fn plain(rt: &impl Abort, alloc: Global) -> Topology {
    built(rt, alloc, "Core:2 PU:2")
}

// The fault of a word that is no term.
fn term_fault(alloc: Global, topology: &Topology, word: &str) -> Option<CalcFault> {
    read_term(alloc, topology, word.as_bytes(), WORD).err()
}

fn expect_bad_term(rt: &impl Abort, alloc: Global, word: &str, fault: CalcFault) {
    let found = term_fault(alloc, &plain(rt, alloc), word);
    expect_equal(rt, word, found, Some(fault));
}

// The fault of a word that is no location.
fn location_fault(alloc: Global, topology: &Topology, word: &str) -> Option<CalcFault> {
    read_location(alloc, topology, word.as_bytes(), WORD).err()
}

fn expect_location(rt: &impl Abort, alloc: Global, word: &str, fault: Option<CalcFault>) {
    let found = location_fault(alloc, &plain(rt, alloc), word);
    expect_equal(rt, word, found, fault);
}

// Terms in which a name names no layer.
const NO_LAYERS: &[&str] = &[
    "foo",
    "foo:0",
    "core:1.foo:0",
    "foo:0.core:x",
    "core:0.",
    ".core:0",
    "core:0..pu:0",
    "ALL",
    "all.pu:0",
    "numa:0",
    "group:0",
    "x~core:0",
    "xx",
];

#[test]
fn terms_without_a_layer(rt: HostRuntime) {
    for word in NO_LAYERS {
        expect_bad_term(&rt, rt.alloc(), word, NO_SUCH_TYPE);
    }
}

// Bad terms, and where.
const BAD_TERMS: &[(&str, usize)] = &[
    ("core:x", 0),
    ("core", 0),
    ("", 0),
    ("~", 1),
    ("x", 1),
    ("^", 1),
    ("^core:", 1),
    ("~core:0.pu:q", 8),
    ("core:1.pu", 7),
    ("core:x.foo:0", 0),
    ("0x1,", 0),
    ("~0xg", 1),
    ("0x1.pu:0", 0),
    ("9g", 0),
    ("0xf...f", 0),
    ("core:ALL", 0),
    ("core:+1", 0),
    ("core:-1", 0),
    ("core:1--2", 0),
    ("core:1-2-3", 0),
    ("core:1:", 0),
    ("core::1", 0),
    ("core:1:2:3", 0),
    ("core:1-2:3", 0),
    ("core:4294967296", 0),
    ("core:0-4294967296", 0),
    ("core:4294967296-", 0),
    ("core:0:4294967296", 0),
    ("core: 1", 0),
    ("core:0.pu:0.core:0.pu:z", 19),
];

#[test]
fn bad_terms(rt: HostRuntime) {
    for (word, at) in BAD_TERMS {
        expect_bad_term(&rt, rt.alloc(), word, bad_at(*at));
    }
}

// Locations in which a name names no layer.
const UNNAMED: &[&str] = &["~core:0", "x0x1", "^all"];

// Bad locations, and where.
const BAD_LOCATIONS: &[(&str, usize)] = &[("", 0), ("core:0.pu:", 7), ("0x", 0)];

#[test]
fn bad_locations(rt: HostRuntime) {
    for word in UNNAMED {
        expect_location(&rt, rt.alloc(), word, Some(NO_SUCH_TYPE));
    }
    for (word, at) in BAD_LOCATIONS {
        expect_location(&rt, rt.alloc(), word, Some(bad_at(*at)));
    }
}

#[test]
fn good_locations(rt: HostRuntime) {
    for word in ["core:1.pu:0-", "root", "0x80000000"] {
        expect_location(&rt, rt.alloc(), word, None);
    }
}

// A fault has these words.
fn expect_words(rt: &impl Abort, alloc: Global, fault: &impl Display, wanted: &str) {
    let found = format!(in alloc; "{fault}").expect(rt, "memory");
    expect_equal(rt, wanted, found.as_str(), wanted);
}

// Each fault, and its words.
const WORDS: &[(CalcFault, &str)] = &[
    (
        CalcFault::Location { word: 3, at: 14 },
        "bad location in word 3 at 14",
    ),
    (CalcFault::NoSuchType { word: 2 }, "no such type in word 2"),
    (CalcFault::OutOfMemory, "out of memory"),
];

#[test]
fn tells_each_fault(rt: HostRuntime) {
    for (fault, wanted) in WORDS {
        expect_words(&rt, rt.alloc(), fault, wanted);
    }
}
