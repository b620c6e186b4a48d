//! Decimal numbers within limits.
ghost use Rattle.std.specs.Prelude.{◌≡◌, ◌+◌, ◌^◌, ◌≤◌, length, IfSome, MatchOption};
ghost use Rattle.std.specs.Str.Parse.{IsNumeral, digits_value};
ghost use Rattle.byte_text.specs.Numerals.{number_below, number_in, number_capped};

use crate::numerals::{Numeral, read_numeral};

// So many digits write a number below 2^64, whatever they are.
const FEW: usize = 19;

/// The number that a text writes in decimal digits, leading zeros among them, where it is at most `greatest`. `None` for
/// each greater number, and for a text that is empty or has a byte that is no digit.
pub fn number_up_to(greatest: u64, text: &[u8]) -> Option<u64>
    ensures number { result ≡ number_below (greatest + 1) text.now }
    ensures bound { IfSome result (λ number. number ≤ greatest) }
{
    if text.len() <= FEW {
        let number = short_number(text)?;
        return if number <= greatest {
            Some(number)
        } else {
            None
        };
    }
    match read_numeral(10, text, greatest) {
        Numeral::Number(number) => Some(number),
        Numeral::TooLarge => None,
        Numeral::NotNumeral => None,
    }
}

// The number that a text of few bytes writes in decimal digits, which are gone over once. `None` for a text that is empty or has a byte
// that is no digit.
fn short_number(text: &[u8]) -> Option<u64>
    requires { length text.now ≤ 19 }
    ensures { MatchOption result (¬ (IsNumeral 10 text.now)) (λ number. IsNumeral 10 text.now × (digits_value 10 text.now ≡ number)) }
{
    if text.is_empty() {
        return None;
    }
    let mut number: u64 = 0;
    for byte in text {
        if *byte < b'0' || *byte > b'9' {
            return None;
        }
        number = number * 10 + u64::from(*byte - b'0');
    }
    Some(number)
}

/// The number below 2^32 that a text writes in decimal digits, leading zeros among them. `None` for each greater number,
/// and for a text that is empty or has a byte that is no digit.
pub fn number32(text: &[u8]) -> Option<u32>
    ensures { result ≡ number_below (2 ^ 32) text.now }
{
    let number = number_up_to(u64::from(u32::MAX), text)?;
    Some(number as u32)
}

/// The number that a text writes in decimal digits, leading zeros among them, where it is from `low` to `high`. `None`
/// for each other number, and for a text that is empty or has a byte that is no digit.
pub fn number_in(low: u64, high: u64, text: &[u8]) -> Option<u64>
    ensures number { result ≡ number_in low high text.now }
    ensures above { IfSome result (λ number. low ≤ number) }
    ensures below { IfSome result (λ number. number ≤ high) }
{
    match read_numeral(10, text, high) {
        Numeral::Number(number) => { if low <= number { Some(number) } else { None } }
        Numeral::TooLarge => None,
        Numeral::NotNumeral => None,
    }
}

/// The number that a text writes in decimal digits, or the greatest u32 where it is over that; `None` for a text that
/// is empty or has a byte that is no digit.
pub fn number_capped(text: &[u8]) -> Option<u32>
    ensures { result ≡ number_capped text.now }
{
    match read_numeral(10, text, u64::from(u32::MAX)) {
        Numeral::Number(number) => Some(number as u32),
        Numeral::TooLarge => Some(u32::MAX),
        Numeral::NotNumeral => None,
    }
}
