//! Texts of bytes, by examples from outside the definitions.
use super::expect_equal;
use byte_text::{
    Class, Numeral, are_all, cut, cut_at, first_part, first_piece, hex_digit, number_capped,
    number_in, number_up_to, number32, push_decimal, read_numeral, split_front,
};

// A decimal text, the limit, and what is read.
const DECIMAL: &[(&str, u64, Numeral)] = &[
    ("0", 0, Numeral::Number(0)),
    ("007", 7, Numeral::Number(7)),
    ("8", 7, Numeral::TooLarge),
    ("18446744073709551615", u64::MAX, Numeral::Number(u64::MAX)),
    ("18446744073709551616", u64::MAX, Numeral::TooLarge),
    ("99999999999999999999999x", u64::MAX, Numeral::NotNumeral),
    ("", 9, Numeral::NotNumeral),
    ("+5", 9, Numeral::NotNumeral),
    ("1f", 99, Numeral::NotNumeral),
];

// A hexadecimal text, the limit, and what is read.
const HEXADECIMAL: &[(&str, u64, Numeral)] = &[
    ("1f", 99, Numeral::Number(31)),
    ("DeadBeef", 0xffff_ffff, Numeral::Number(0xdead_beef)),
    ("g", 99, Numeral::NotNumeral),
];

#[test]
fn reads_numerals_up_to_a_limit(rt: HostRuntime) {
    for (text, limit, wanted) in DECIMAL {
        let found = read_numeral(10, text.as_bytes(), *limit);
        expect_equal(&rt, text, found, *wanted);
    }
    for (text, limit, wanted) in HEXADECIMAL {
        let found = read_numeral(16, text.as_bytes(), *limit);
        expect_equal(&rt, text, found, *wanted);
    }
}

// What stands before a byte, and what behind it.
type Cut<'a> = Option<(&'a [u8], &'a [u8])>;

// What stands before a byte, and what behind it where there is one.
type Piece<'a> = (&'a [u8], Option<&'a [u8]>);

// A text, and its cut at the first comma.
const AT_COMMAS: &[(&str, Cut)] = &[
    ("a,b,c", Some((b"a", b"b,c"))),
    (",", Some((b"", b""))),
    ("abc", None),
    ("", None),
];

#[test]
fn cuts_at_the_first_such_byte(rt: HostRuntime) {
    for (text, wanted) in AT_COMMAS {
        expect_equal(&rt, text, cut_at(text.as_bytes(), b','), *wanted);
    }
}

// A text, and its first part before a comma.
const FIRST_PARTS: &[(&str, Piece)] = &[
    ("a,b,c", (b"a", Some(b"b,c"))),
    (",", (b"", Some(b""))),
    ("abc", (b"abc", None)),
    ("", (b"", None)),
];

#[test]
fn the_first_part_is_the_whole_text_without_such_a_byte(rt: HostRuntime) {
    for (text, wanted) in FIRST_PARTS {
        expect_equal(&rt, text, first_part(text.as_bytes(), b','), *wanted);
    }
}

// A text, and its cut at the first byte of white space.
const AT_SPACES: &[(&str, Cut)] = &[("a\t b", Some((b"a", b" b"))), ("ab", None)];

// A text, a class, and the first piece before a byte of it.
const FIRST_PIECES: &[(&str, Class, Piece)] = &[
    ("L2:8", Class::Byte(b':'), (b"L2", Some(b"8"))),
    ("core", Class::Digit, (b"core", None)),
];

// A text, a class, the bytes of it in front, and the bytes behind these.
const FRONTS: &[(&str, Class, (&[u8], &[u8]))] = &[
    ("64KiB", Class::Digit, (b"64", b"KiB")),
    ("l1i(", Class::Alphanumeric, (b"l1i", b"(")),
];

// A text, a class, and whether each byte is of it.
const OF_ONE_CLASS: &[(&str, Class, bool)] = &[
    (" \t\r\n", Class::White, true),
    (" .", Class::White, false),
    ("", Class::Digit, true),
];

#[test]
fn cuts_at_the_first_byte_of_a_class(rt: HostRuntime) {
    for (text, wanted) in AT_SPACES {
        expect_equal(&rt, text, cut(text.as_bytes(), Class::White), *wanted);
    }
    for (text, class, wanted) in FIRST_PIECES {
        expect_equal(&rt, text, first_piece(text.as_bytes(), *class), *wanted);
    }
    for (text, class, wanted) in FRONTS {
        expect_equal(&rt, text, split_front(text.as_bytes(), *class), *wanted);
    }
    for (text, class, wanted) in OF_ONE_CLASS {
        expect_equal(&rt, text, are_all(text.as_bytes(), *class), *wanted);
    }
}

// A text, the greatest number, and the number that is read.
const UP_TO: &[(&str, u64, Option<u64>)] = &[
    ("00", 0, Some(0)),
    ("1", 0, None),
    ("18446744073709551615", u64::MAX, Some(u64::MAX)),
    ("18446744073709551616", u64::MAX, None),
    (
        "9999999999999999999",
        u64::MAX,
        Some(9_999_999_999_999_999_999),
    ),
    ("0000000000000000009", 9, Some(9)),
    ("00000000000000000009", 9, Some(9)),
    ("000000000000000000/", 9, None),
    ("000000000000000000:", 9, None),
    ("+5", 9, None),
    ("", 9, None),
];

// A text, the least and the greatest number, and the number that is read.
const WITHIN: &[(&str, u64, u64, Option<u64>)] = &[
    ("0", 1, 4096, None),
    ("4097", 1, 4096, None),
    ("01", 1, 4096, Some(1)),
    ("4096", 1, 4096, Some(4096)),
    ("1", 2, 1, None),
];

// A text, and the number of 32 bits that is read.
const SMALL: &[(&str, Option<u32>)] = &[
    ("04294967295", Some(u32::MAX)),
    ("4294967296", None),
    ("", None),
    ("-1", None),
];

// A text, and the number that is read, or the greatest of 32 bits.
const CAPPED: &[(&str, Option<u32>)] = &[
    ("4294967295", Some(u32::MAX)),
    ("99999999999999999999999", Some(u32::MAX)),
    ("1x", None),
];

#[test]
fn reads_decimal_numbers_within_limits(rt: HostRuntime) {
    for (text, greatest, wanted) in UP_TO {
        expect_equal(&rt, text, number_up_to(*greatest, text.as_bytes()), *wanted);
    }
    for (text, low, high, wanted) in WITHIN {
        expect_equal(&rt, text, number_in(*low, *high, text.as_bytes()), *wanted);
    }
    for (text, wanted) in SMALL {
        expect_equal(&rt, text, number32(text.as_bytes()), *wanted);
    }
    for (text, wanted) in CAPPED {
        expect_equal(&rt, text, number_capped(text.as_bytes()), *wanted);
    }
}

#[test]
fn writes_digits(rt: HostRuntime) {
    let mut out = Vec::new(rt.alloc());
    push_decimal(&mut out, 0).expect(&rt, "memory");
    push_decimal(&mut out, 18_446_744_073_709_551_615).expect(&rt, "memory");
    out.push(hex_digit(9)).expect(&rt, "memory");
    out.push(hex_digit(10)).expect(&rt, "memory");
    expect_equal(&rt, "digits", out.as_slice(), b"0184467440737095516159a");
}
