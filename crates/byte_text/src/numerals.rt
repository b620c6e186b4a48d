//! Numbers as texts of digits, of any length.
ghost use Rattle.std.specs.Prelude.{◌≡◌, ◌≤◌, ◌↔◌, ◌^◌, ◌<◌, ◌*◌, ◌+◌, IsTrue};
ghost use Rattle.std.specs.Char.{digit_value};
ghost use Rattle.std.specs.Str.Parse.{AllDigits, digits_value};
ghost use Rattle.std.specs.Option.{SomeIff};
ghost use Rattle.byte_text.specs.Numerals.{Reads};

/// What a text says as a number.
#[derive(Clone, Copy, Debug, PartialEq, Eq)]
pub enum Numeral {
    /// The text is a numeral of this number, which is at most the limit.
    Number(u64),
    /// The text is a numeral of a number over the limit.
    TooLarge,
    /// The text is empty or has a byte that is no digit.
    NotNumeral,
}

/// Reads a text as one number in base `radix` (2 to 36), with digits of either case, leading zeros and no sign.
pub fn read_numeral(radix: u32, text: &[u8], limit: u64) -> Numeral
    requires lower_bound { 2 ≤ radix }
    requires upper_bound { radix ≤ 36 }
    ensures { Reads radix limit text.now result }
{
    if text.is_empty() || !are_digits(radix, text) {
        return Numeral::NotNumeral;
    }
    match value_up_to(radix, text, limit) {
        Some(number) => Numeral::Number(number),
        None => Numeral::TooLarge,
    }
}

// Whether each byte is a digit in the base.
#[tactic(auto, using(crate::proofs::Digits::reading))]
fn are_digits(radix: u32, text: &[u8]) -> bool
    requires lower_bound { 2 ≤ radix }
    requires upper_bound { radix ≤ 36 }
    ensures { IsTrue result ↔ AllDigits radix text.now }
{
    for byte in text {
        if !is_digit(radix, *byte) {
            return false;
        }
    }
    true
}

// Whether a byte is a digit in the base.
fn is_digit(radix: u32, byte: u8) -> bool
    requires lower_bound { 2 ≤ radix }
    requires upper_bound { radix ≤ 36 }
    ensures { IsTrue result ↔ (digit_value byte < radix) }
{
    char::from(byte).is_digit(radix)
}

// The number that the digits write, where it is at most the limit.
#[tactic(auto, using(crate::proofs::Digits::reading))]
fn value_up_to(radix: u32, text: &[u8], limit: u64) -> Option<u64>
    requires lower_bound { 2 ≤ radix }
    requires upper_bound { radix ≤ 36 }
    requires digits { AllDigits radix text.now }
    ensures { SomeIff result (digits_value radix text.now ≤ limit) (digits_value radix text.now) }
{
    let mut value: u64 = 0;
    for byte in text {
        match with_digit(radix, value, *byte, limit) {
            Some(longer) => value = longer,
            None => return None,
        }
    }
    Some(value)
}

// The number that a digit behind the digits of `value` makes, where it is at most the limit.
fn with_digit(radix: u32, value: u64, byte: u8, limit: u64) -> Option<u64>
    requires lower_bound { 2 ≤ radix }
    requires upper_bound { radix ≤ 36 }
    requires digit { digit_value byte < radix }
    ensures { SomeIff result (value * radix + digit_value byte ≤ limit) (value * radix + digit_value byte) }
{
    let digit = char::from(byte).to_digit(radix)?;
    let shifted = value.checked_mul(u64::from(radix))?;
    let longer = shifted.checked_add(u64::from(digit))?;
    if longer <= limit { Some(longer) } else { None }
}
