//! The tests, crate by crate.
use std::alloc::Global;
use std::fmt::{Debug, Display};
use std::process::Abort;

mod descriptions;
mod sets;
mod streams;
mod texts;

// What was found at a row of a table is what the row wants.
fn expect_equal<T: PartialEq + Debug + Drop>(rt: &impl Abort, row: &str, found: T, wanted: T) {
    assert_eq!(rt; found, wanted, "at {row}");
}

// A fault has these words.
fn expect_words(rt: &impl Abort, alloc: Global, fault: &impl Display, wanted: &str) {
    let found = format!(in alloc; "{fault}").expect(rt, "memory");
    expect_equal(rt, wanted, found.as_str(), wanted);
}
