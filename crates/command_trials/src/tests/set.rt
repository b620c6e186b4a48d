//! What `set` prints, and long texts.
use super::{Tables, answers, ended, expect, refuses};
use std::alloc::Global;
use std::process::Abort;
use std::test::Fail;

// The last word of some rows is empty.
const SETS: Tables = &[(
    "",
    "set -- 0x1|0x00000001;0;0x1
set 4 --list|0x00000010;4;0x10
set --list -- |0x0;;0x0
set --list |0x0;;0x0
set 0x0|0x0;;0x0
set 0x1,,0x0|0x00000001,,0x0;64;0x10000000000000000
set --list 5,0-2,1|0x00000027;0-2,5;0x27
set F0|0x000000f0;4-7;0xf0",
)];

#[test]
fn prints_the_three_texts_of_a_set(rt: HostRuntime) -> Result<(), Fail> {
    answers(&rt, rt.alloc(), "", SETS)
}

const NO_SETS: Tables = &[(
    "",
    "set -|3 clof: set Form 0
set --list -- -1|3 clof: set Form 0
set --list 3,4096|3 clof: set TooLarge 2
set 0xf...f|3 clof: set Infinite 0
set 0x1,|3 clof: set Form 4
set |3 clof: set Form 0",
)];

#[test]
fn refuses_texts_that_are_no_sets(rt: HostRuntime) -> Result<(), Fail> {
    refuses(&rt, rt.alloc(), "", NO_SETS)
}

#[test]
fn prints_the_last_number(rt: HostRuntime) -> Result<(), Fail> {
    let alloc = rt.alloc();
    let commas = ",".repeat(alloc, 127)?;
    let digits = "0".repeat(alloc, 1023)?;
    let wanted = format!(in alloc; "0 0x80000000{commas}0x0\n4095\n0x8{digits}\n")?;
    expect(&rt, alloc, &["set", "--list", "4095"], &wanted)
}

// The numbers below 4,096 from the last to the first, with commas between them.
fn all_numbers(alloc: Global) -> Result<String, Fail> {
    let mut numbers = String::new(alloc);
    for number in (0..4096_u32).rev() {
        if !numbers.is_empty() {
            numbers.push(',')?;
        }
        numbers.push_str(itoa::Buffer::new().format(number))?;
    }
    Ok(numbers)
}

fn expect_set(rt: &impl Abort, alloc: Global, numbers: &str) -> Result<(), Fail> {
    let set = ended(alloc, &["set", "--list", numbers])?;
    assert!(rt; set.starts_with(b"0 0xffffffff,0xffffffff,"));
    Ok(())
}

// Long texts are no excuse: the longest list of a set, and the longest list of indexes of a description.
#[test]
fn takes_lists_of_all_numbers(rt: HostRuntime) -> Result<(), Fail> {
    let alloc = rt.alloc();
    let numbers = all_numbers(alloc)?;
    expect_set(&rt, alloc, &numbers)?;
    let description = format!(in alloc; "PU:4096(indexes={numbers})")?;
    expect_exported(&rt, alloc, &description)?;
    expect_tree(&rt, alloc, &description)
}

fn expect_exported(rt: &impl Abort, alloc: Global, description: &str) -> Result<(), Fail> {
    let exported = format!(in alloc; "0 {description}\n")?;
    expect(rt, alloc, &["topo", "--export", description], &exported)
}

fn expect_tree(rt: &impl Abort, alloc: Global, description: &str) -> Result<(), Fail> {
    let tree = ended(alloc, &["topo", description])?;
    assert!(rt; tree.starts_with(b"0 Machine L#0\n  PU L#0 (P#4095)\n  PU L#1 (P#4094)\n"));
    assert!(rt; tree.ends_with(b"  PU L#4095 (P#0)\n"));
    Ok(())
}
