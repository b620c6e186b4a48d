//! Sets and texts from outside the definitions.
use super::{expect_equal, expect_words};
use cpu_set::SetFault::{Form, Infinite, TooLarge};
use cpu_set::{CpuSet, SetFault};
use std::alloc::Global;
use std::process::Abort;

// A text, and the three texts of its set: hexadecimal words, a list, and the number of `taskset`.
type Texts<'a> = (&'a str, &'a str, &'a str, &'a str);

// The text is the wanted one, and no room was taken beyond it.
fn expect_text(rt: &impl Abort, text: Vec<u8>, wanted: &str) {
    expect_equal(rt, wanted, text.as_slice(), wanted.as_bytes());
    expect_equal(rt, wanted, text.capacity(), wanted.len());
}

fn expect_printed(rt: &impl Abort, alloc: Global, set: &CpuSet, wanted: &Texts) {
    expect_text(rt, set.write_hex(alloc).expect(rt, "memory"), wanted.1);
    expect_text(rt, set.write_list(alloc).expect(rt, "memory"), wanted.2);
    expect_text(rt, set.write_taskset(alloc).expect(rt, "memory"), wanted.3);
}

fn expect_hex(rt: &impl Abort, alloc: Global, rows: &[Texts]) {
    for row in rows {
        let set = CpuSet::read_hex(row.0.as_bytes()).expect(rt, row.0);
        expect_printed(rt, alloc, &set, row);
    }
}

fn expect_lists(rt: &impl Abort, alloc: Global, rows: &[Texts]) {
    for row in rows {
        let set = CpuSet::read_list(row.0.as_bytes()).expect(rt, row.0);
        expect_printed(rt, alloc, &set, row);
    }
}

fn expect_hex_fault(rt: &impl Abort, text: &str, fault: SetFault) {
    expect_equal(
        rt,
        text,
        CpuSet::read_hex(text.as_bytes()).err(),
        Some(fault),
    );
}

fn expect_list_fault(rt: &impl Abort, text: &str, fault: SetFault) {
    expect_equal(
        rt,
        text,
        CpuSet::read_list(text.as_bytes()).err(),
        Some(fault),
    );
}

// A text that has so many of a filler where its pattern has a `#`.
fn stretched(rt: &impl Abort, alloc: Global, pattern: &str, filler: &str, times: usize) -> String {
    let filling = filler.repeat(alloc, times).expect(rt, "memory");
    pattern.replace(alloc, "#", &filling).expect(rt, "memory")
}

// Sets of one word, in several forms.
const ONE_WORD: &[Texts] = &[
    ("0x0", "0x0", "", "0x0"),
    ("0", "0x0", "", "0x0"),
    ("00000000", "0x0", "", "0x0"),
    ("0x0,,0X00", "0x0", "", "0x0"),
    ("1", "0x00000001", "0", "0x1"),
    ("10", "0x00000010", "4", "0x10"),
    ("00000001", "0x00000001", "0", "0x1"),
    ("0XfFfFfFfF", "0xffffffff", "0-31", "0xffffffff"),
    (
        "DeadBeef",
        "0xdeadbeef",
        "0-3,5-7,9-13,15-16,18-19,21,23,25-28,30-31",
        "0xdeadbeef",
    ),
    ("0,0,0xf", "0x0000000f", "0-3", "0xf"),
    (
        "0xABCDEF",
        "0x00abcdef",
        "0-3,5-8,10-11,14-17,19,21,23",
        "0xabcdef",
    ),
];

// Words stand with the highest first.
const MORE_WORDS: &[Texts] = &[
    ("80000000,0", "0x80000000,0x0", "63", "0x8000000000000000"),
    (
        "0x0000ffff,0x0000ffff",
        "0x0000ffff,0x0000ffff",
        "0-15,32-47",
        "0xffff0000ffff",
    ),
    (
        "1,80000000",
        "0x00000001,0x80000000",
        "31-32",
        "0x180000000",
    ),
];

// Zero words are gaps.
const GAPS: &[Texts] = &[
    ("0x1,,0x0", "0x00000001,,0x0", "64", "0x10000000000000000"),
    (
        "0x1,,0X00000000",
        "0x00000001,,0x0",
        "64",
        "0x10000000000000000",
    ),
    (
        "0x1,,0x1,,0x0",
        "0x00000001,,0x00000001,,0x0",
        "64,128",
        "0x100000000000000010000000000000000",
    ),
    (
        "1,,,2,0,0X80000001",
        "0x00000001,,,0x00000002,,0x80000001",
        "0,31,65,160",
        "0x10000000000000000000000020000000080000001",
    ),
];

#[test]
fn words_are_printed_in_three_forms(rt: HostRuntime) {
    expect_hex(&rt, rt.alloc(), ONE_WORD);
    expect_hex(&rt, rt.alloc(), MORE_WORDS);
    expect_hex(&rt, rt.alloc(), GAPS);
}

// Lists, with runs in any order.
const LISTS: &[Texts] = &[
    ("", "0x0", "", "0x0"),
    ("0", "0x00000001", "0", "0x1"),
    ("3-5,0,4-9,12,11", "0x00001bf9", "0,3-9,11-12", "0x1bf9"),
    ("7,7,5-8,6-7", "0x000001e0", "5-8", "0x1e0"),
    ("4-5,1-3", "0x0000003e", "1-5", "0x3e"),
    ("007-08,0000", "0x00000181", "0,7-8", "0x181"),
    (
        "31-32,63,64-95",
        "0xffffffff,0x80000001,0x80000000",
        "31-32,63-95",
        "0xffffffff8000000180000000",
    ),
    (
        "192-195,64,0",
        "0x0000000f,,,,0x00000001,,0x00000001",
        "0,64,192-195",
        "0xf000000000000000000000000000000010000000000000001",
    ),
];

#[test]
fn lists_are_printed_in_three_forms(rt: HostRuntime) {
    expect_lists(&rt, rt.alloc(), LISTS);
}

// Words of another form.
const BAD_WORDS: &[(&str, SetFault)] = &[
    ("", Form { at: 0 }),
    ("0x", Form { at: 0 }),
    ("x", Form { at: 0 }),
    ("+1", Form { at: 0 }),
    (" 1", Form { at: 0 }),
    ("0x0x1", Form { at: 0 }),
    ("0x123456789", Form { at: 0 }),
    ("000000001", Form { at: 0 }),
    (",", Form { at: 0 }),
    (",0x1", Form { at: 0 }),
    ("0xf...,1", Form { at: 0 }),
    ("0xF...F", Form { at: 0 }),
    ("0x1,", Form { at: 4 }),
    ("1,,", Form { at: 3 }),
    ("1, 2", Form { at: 2 }),
    ("1,0x,1", Form { at: 2 }),
    ("1,0xf...f", Form { at: 2 }),
    ("0x0,123456789", Form { at: 4 }),
    ("0x1,,x,y", Form { at: 5 }),
];

// A set without an end is named before all.
const ENDLESS: &[(&str, SetFault)] = &[
    ("0xf...f", Infinite { at: 0 }),
    ("0xf...f,x", Infinite { at: 0 }),
    ("0xf...f,", Infinite { at: 0 }),
    ("0xf...fx", Infinite { at: 0 }),
    ("0xf...f,0xf...f", Infinite { at: 0 }),
    ("x,0xf...f", Form { at: 0 }),
];

#[test]
fn words_of_another_form(rt: HostRuntime) {
    for (text, fault) in BAD_WORDS {
        expect_hex_fault(&rt, text, *fault);
    }
}

#[test]
fn a_set_without_an_end_is_named_before_all(rt: HostRuntime) {
    for (text, fault) in ENDLESS {
        expect_hex_fault(&rt, text, *fault);
    }
}

// Words with many commas for the `#`, past the last number.
const LONG_WORDS: &[(&str, usize, SetFault)] = &[
    ("0x80000000#0x0", 128, TooLarge { at: 0 }),
    ("0,1#0", 128, TooLarge { at: 2 }),
    ("0x0,,1#0", 128, TooLarge { at: 5 }),
    ("1,2#0", 128, TooLarge { at: 0 }),
    ("x,1#0", 128, Form { at: 0 }),
    (",1#0", 128, Form { at: 0 }),
    ("1,x#0", 128, TooLarge { at: 0 }),
    ("1#", 128, TooLarge { at: 0 }),
    ("1#x", 127, Form { at: 128 }),
    ("0#", 128, Form { at: 129 }),
    ("0xf...f,1#0", 128, Infinite { at: 0 }),
    ("1,0xf...f#0", 128, TooLarge { at: 0 }),
];

#[test]
fn words_past_the_last_number(rt: HostRuntime) {
    for (pattern, commas, fault) in LONG_WORDS {
        let text = stretched(&rt, rt.alloc(), pattern, ",", *commas);
        expect_hex_fault(&rt, &text, *fault);
    }
}

// Items of another form.
const BAD_ITEMS: &[(&str, SetFault)] = &[
    ("x", Form { at: 0 }),
    (",", Form { at: 0 }),
    ("-", Form { at: 0 }),
    ("--", Form { at: 0 }),
    ("-5", Form { at: 0 }),
    ("x-", Form { at: 0 }),
    ("-x", Form { at: 0 }),
    ("3-x", Form { at: 0 }),
    ("3--", Form { at: 0 }),
    ("3--4", Form { at: 0 }),
    ("1-2-3", Form { at: 0 }),
    ("5-4", Form { at: 0 }),
    ("+3", Form { at: 0 }),
    ("0x3", Form { at: 0 }),
    ("3 ", Form { at: 0 }),
    ("1,", Form { at: 2 }),
    ("1,,2", Form { at: 2 }),
    ("1,-", Form { at: 2 }),
    ("1,x-,2", Form { at: 2 }),
    ("1-2,4-3", Form { at: 4 }),
];

// Numbers from 4,096 on, and open items.
const NUMBERS: &[(&str, SetFault)] = &[
    ("4096", TooLarge { at: 0 }),
    ("04096", TooLarge { at: 0 }),
    ("4096-4097", TooLarge { at: 0 }),
    ("1-4096", TooLarge { at: 2 }),
    ("4095-4096", TooLarge { at: 5 }),
    ("3,4096", TooLarge { at: 2 }),
    ("0-1,1-4096", TooLarge { at: 6 }),
    ("1,4096-4096", TooLarge { at: 2 }),
    ("1,2-18446744073709551617", TooLarge { at: 4 }),
    ("5-", Infinite { at: 0 }),
    ("99999-", Infinite { at: 0 }),
    ("0005-", Infinite { at: 0 }),
    ("1,5-", Infinite { at: 2 }),
    ("1,4096-,2", Infinite { at: 2 }),
    ("5000-4096", Form { at: 0 }),
    ("4096-x", Form { at: 0 }),
    ("4096-5", Form { at: 0 }),
    (
        "99999999999999999999999-99999999999999999999998",
        Form { at: 0 },
    ),
];

// Lists with two broken rules.
const LEFTMOST: &[(&str, SetFault)] = &[
    ("x,y", Form { at: 0 }),
    ("x,5-", Form { at: 0 }),
    ("x,4096", Form { at: 0 }),
    ("5-,x", Infinite { at: 0 }),
    ("5-,6-", Infinite { at: 0 }),
    ("5-,4096", Infinite { at: 0 }),
    ("4096,x", TooLarge { at: 0 }),
    ("4096,5-", TooLarge { at: 0 }),
    ("4096,4097", TooLarge { at: 0 }),
    ("1,x,5-", Form { at: 2 }),
    ("1,4-3,4096", Form { at: 2 }),
    ("1,5-,x", Infinite { at: 2 }),
    ("1,5-,2-4096", Infinite { at: 2 }),
    ("1,2-4096,x", TooLarge { at: 4 }),
    ("1,2-4096,5-", TooLarge { at: 4 }),
];

#[test]
fn items_of_another_form(rt: HostRuntime) {
    for (text, fault) in BAD_ITEMS {
        expect_list_fault(&rt, text, *fault);
    }
}

#[test]
fn numbers_from_4096_on_and_open_items(rt: HostRuntime) {
    for (text, fault) in NUMBERS {
        expect_list_fault(&rt, text, *fault);
    }
}

#[test]
fn the_leftmost_broken_rule_of_a_list_is_named(rt: HostRuntime) {
    for (text, fault) in LEFTMOST {
        expect_list_fault(&rt, text, *fault);
    }
}

// Lists with 5,000 of a digit for each `#`, whose long numbers are compared as such.
const LONG_ITEMS: &[(&str, &str, SetFault)] = &[
    ("1,#", "9", TooLarge { at: 2 }),
    ("1,7-#", "9", TooLarge { at: 4 }),
    ("1,#-", "9", Infinite { at: 2 }),
    ("1,#-7", "9", Form { at: 2 }),
    ("1,#x", "9", Form { at: 2 }),
    ("4096-#4095", "0", Form { at: 0 }),
    ("#8-0#9", "9", TooLarge { at: 0 }),
    ("#9-0#9", "9", TooLarge { at: 0 }),
    ("#9-0#8", "9", Form { at: 0 }),
    ("#90-0#9", "9", Form { at: 0 }),
];

#[test]
fn numbers_may_have_thousands_of_digits(rt: HostRuntime) {
    for (pattern, digit, fault) in LONG_ITEMS {
        let text = stretched(&rt, rt.alloc(), pattern, digit, 5000);
        expect_list_fault(&rt, &text, *fault);
    }
    let list = stretched(&rt, rt.alloc(), "1,#7", "0", 5000);
    expect_lists(&rt, rt.alloc(), &[(&list, "0x00000082", "1,7", "0x82")]);
    expect_hex_fault(
        &rt,
        &stretched(&rt, rt.alloc(), "1,#", "0", 5000),
        Form { at: 2 },
    );
}

#[test]
fn the_last_number_is_4095(rt: HostRuntime) {
    let alloc = rt.alloc();
    let hex = stretched(&rt, alloc, "0x80000000#0x0", ",", 127);
    let taskset = stretched(&rt, alloc, "0x8#", "0", 1023);
    expect_lists(&rt, alloc, &[("4095", &hex, "4095", &taskset)]);
    expect_hex(&rt, alloc, &[(&hex, &hex, "4095", &taskset)]);
}

#[test]
fn the_greatest_set_has_4096_numbers(rt: HostRuntime) {
    let alloc = rt.alloc();
    let hex = stretched(&rt, alloc, "0xffffffff#", ",0xffffffff", 127);
    let taskset = stretched(&rt, alloc, "0x#", "f", 1024);
    expect_lists(&rt, alloc, &[("0-4095", &hex, "0-4095", &taskset)]);
}

#[test]
fn zero_words_may_stand_past_the_last_number(rt: HostRuntime) {
    let text = stretched(&rt, rt.alloc(), "0x0#80000001", ",", 200);
    expect_hex(
        &rt,
        rt.alloc(),
        &[(&text, "0x80000001", "0,31", "0x80000001")],
    );
}

// Each second number, which makes the longest list.
#[test]
fn prints_the_longest_list(rt: HostRuntime) {
    let mut set = CpuSet::empty();
    for half in 0..2048 {
        set.with(2 * half);
    }
    expect_equal(&rt, "the weight", set.weight(), 2048);
    expect_equal(&rt, "the first", set.first(), Some(0));
    let list = set.write_list(rt.alloc()).expect(&rt, "memory");
    expect_equal(&rt, "the length", list.len(), 9684);
    expect_equal(
        &rt,
        "the front",
        list.starts_with(b"0,2,4,6,8,10,12,"),
        true,
    );
    expect_equal(&rt, "the end", list.ends_with(b",4090,4092,4094"), true);
    let read = CpuSet::read_list(&list).expect(&rt, "a list");
    expect_equal(&rt, "the weight of the list", read.weight(), 2048);
}

fn expect_list(rt: &impl Abort, alloc: Global, set: &CpuSet, wanted: &str) {
    expect_text(rt, set.write_list(alloc).expect(rt, "memory"), wanted);
}

#[test]
fn combines_sets(rt: HostRuntime) {
    let one = CpuSet::read_list(b"0,31-33,4095").expect(&rt, "a list");
    let other = CpuSet::read_list(b"1,32,4095").expect(&rt, "a list");
    let alloc = rt.alloc();
    expect_list(&rt, alloc, &one.union(&other), "0-1,31-33,4095");
    expect_list(&rt, alloc, &one.minus(&other), "0,31,33");
    expect_list(&rt, alloc, &one.meet(&other), "32,4095");
    expect_list(&rt, alloc, &one.xor(&other), "0-1,31,33");
    assert!(rt; one.meet(&other).inside(&one) && !one.inside(&other));
    assert!(rt; one.has(4095) && !one.has(34) && !one.has(4096));
    expect_equal(&rt, "no number", CpuSet::empty().first(), None);
}

// Each fault has its words.
#[test]
fn tells_each_fault(rt: HostRuntime) {
    let alloc = rt.alloc();
    expect_words(
        &rt,
        alloc,
        &Form { at: 5 },
        "no set is spelled like the text at byte 5",
    );
    expect_words(
        &rt,
        alloc,
        &TooLarge { at: 2 },
        "the number at byte 2 is 4096 or more",
    );
    expect_words(
        &rt,
        alloc,
        &Infinite { at: 0 },
        "the set at byte 0 has no end",
    );
}
