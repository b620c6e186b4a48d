//! The words of a line that carry a value.
ghost use Rattle.std.specs.Prelude.{◌≡◌, ◌+◌, ◌^◌, ◌≤◌, ◌&&◌, ◌==◌, nat_lt, not, IfSome};
ghost use Rattle.std.specs.List.{list_all};
ghost use Rattle.byte_text.specs.Numerals.{number_below};
ghost use Rattle.byte_text.specs.Words.{words_left};
ghost use Rattle.mc_text.specs.Field.{
  is_key,
  expiry_in,
  key_of,
  keys_of,
  number32_of,
  exptime_of,
  unique_of,
  delta_of,
  level_of,
  quiet_of,
};
ghost use Rattle.mc_text.specs.Keys.{keys_left};
ghost use Rattle.mc_text.specs.View.{Answers};

use crate::command::LineFault;
use crate::keys::Keys;
use byte_text::{Numeral, Words, number_up_to, read_numeral};

// The greatest number of bytes of a key.
const KEY_LIMIT: usize = 250;

/// The word as a key.
#[tactic(auto, unfolding(crate::specs::Field::key_of))]
pub(crate) fn read_key(word: &[u8]) -> Result<&[u8], LineFault>
    ensures { Answers (λ key. key.now) (key_of word.now) result }
{
    if is_key(word) {
        Ok(word)
    } else {
        Err(LineFault::Format)
    }
}

// Whether a word is a key.
fn is_key(word: &[u8]) -> bool
    ensures { result ≡ is_key word.now }
{
    word.len() <= KEY_LIMIT && are_seen(word)
}

// Whether no byte is a space, a control character or 127. All are looked at, whatever the first ones are.
fn are_seen(word: &[u8]) -> bool
    ensures { result ≡ list_all (λ byte. nat_lt 32 byte && not (byte == 127)) word.now }
{
    let mut seen = true;
    for byte in word {
        seen &= (*byte > b' ') & (*byte != 127);
    }
    seen
}

/// The words as keys, of which there is one at least.
#[tactic(auto, unfolding(crate::specs::Field::keys_of))]
pub(crate) fn read_keys<'a>(words: Words<'a>) -> Result<Keys<'a>, LineFault>
    ensures { Answers (λ keys. keys_left keys) (keys_of (words_left words.entry)) result }
{
    let mut more = words;
    let Some(first) = more.next() else {
        return Err(LineFault::Unknown);
    };
    if is_key(first) && are_keys(more) {
        Ok(Keys::new(words))
    } else {
        Err(LineFault::Format)
    }
}

// Whether each word is a key.
fn are_keys(mut words: Words<'_>) -> bool
    ensures { result ≡ list_all is_key (words_left words.entry) }
{
    while let Some(word) = words.next() {
        if !is_key(word) {
            return false;
        }
    }
    true
}

/// The number of at most 32 bits that a word writes.
#[tactic(auto, unfolding(crate::specs::Field::number32_of))]
pub(crate) fn read_number32(word: &[u8]) -> Result<u32, LineFault>
    ensures { Answers (λ number. number) (number32_of word.now) result }
{
    match number_of(u64::from(u32::MAX), word) {
        Some(number) => Ok(number as u32),
        None => Err(LineFault::Format),
    }
}

// The number that a word writes, where it is at most `greatest`. Many numbers have one digit, which is read at once.
#[inline(always)]
fn number_of(greatest: u64, word: &[u8]) -> Option<u64>
    requires { 9 ≤ greatest }
    ensures number { result ≡ number_below (greatest + 1) word.now }
    ensures bound { IfSome result (λ number. number ≤ greatest) }
{
    match word {
        [digit] if *digit >= b'0' && *digit <= b'9' => Some(u64::from(*digit - b'0')),
        _ => number_up_to(greatest, word),
    }
}

/// The unique that a word writes.
#[tactic(auto, unfolding(crate::specs::Field::unique_of))]
pub(crate) fn read_unique(word: &[u8]) -> Result<u64, LineFault>
    ensures { Answers (λ number. number) (unique_of word.now) result }
{
    number_of(u64::MAX, word).ok_or(LineFault::Format)
}

/// The delta that a word writes.
#[tactic(auto, unfolding(crate::specs::Field::delta_of))]
pub(crate) fn read_delta(word: &[u8]) -> Result<u64, LineFault>
    ensures { Answers (λ number. number) (delta_of word.now) result }
{
    number_of(u64::MAX, word).ok_or(LineFault::Delta)
}

/// The expiry time that a word writes.
#[tactic(auto, unfolding(crate::specs::Field::exptime_of))]
pub(crate) fn read_exptime(word: &[u8]) -> Result<i32, LineFault>
    ensures { Answers (λ time. time) (exptime_of word.now) result }
{
    read_expiry(word).ok_or(LineFault::Format)
}

// The expiry time that a word writes, if it does.
fn read_expiry(word: &[u8]) -> Option<i32>
    ensures { result ≡ expiry_in word.now }
{
    let (first, digits) = word.split_first()?;
    if *first == b'-' {
        let number = number_up_to(2_147_483_648, digits)?;
        Some((0 - number as i64) as i32)
    } else {
        let number = number_of(2_147_483_647, word)?;
        Some(number as i32)
    }
}

/// Whether a word is a level of logging, of any size.
#[tactic(auto, unfolding(crate::specs::Field::level_of))]
pub(crate) fn read_level(word: &[u8]) -> Result<(), LineFault>
    ensures { Answers (λ _. tt) (level_of word.now) result }
{
    match read_numeral(10, word, 0) {
        Numeral::Number(_) | Numeral::TooLarge => Ok(()),
        Numeral::NotNumeral => Err(LineFault::Format),
    }
}

/// Whether the words behind a line's values ask for no reply.
#[tactic(auto, unfolding(crate::specs::Field::quiet_of))]
pub(crate) fn read_quiet(mut words: Words<'_>) -> Result<bool, LineFault>
    ensures { Answers (λ quiet. quiet) (quiet_of (words_left words.entry)) result }
{
    let Some(word) = words.next() else {
        return Ok(false);
    };
    if words.next().is_none() && word == b"noreply".as_slice() {
        Ok(true)
    } else {
        Err(LineFault::Unknown)
    }
}
