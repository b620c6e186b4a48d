//! The hexadecimal text, read.

ghost use Rattle.std.specs.Prelude.{◌≡◌, ℕ, ◌<◌, ◌&&◌, ◌==◌, count_by, IfOk, IfErr, OnOk, Some, None, true};
ghost use Rattle.std.specs.Option.{SomeIff};
ghost use Rattle.cpu_set.specs.Readings.{
  ReadsHex,
  HexRefused,
  without_prefix,
  is_word,
  word_value,
  hex_rule,
  leftmost,
  parts_of,
  is_in_hex,
};
ghost use Rattle.cpu_set.specs.Sets.{numbers_where};

use crate::fault::SetFault;
use crate::set::{CpuSet, WORDS};
use byte_text::{Numeral, first_part, read_numeral};

// The largest number of eight hexadecimal digits.
const LARGEST_WORD: u64 = 0xffff_ffff;

impl CpuSet {
    /// Reads words of 32 bits between commas, the last one the lowest (hwloc's bitmap text). A word is one to eight
    /// digits of either case with or without `0x`; between two others it may be empty, and is then zero.
    ///
    /// The leftmost broken rule is refused: `Form` for a word of another form, `TooLarge` for one of numbers from
    /// 4,096 on, both with the offset of the word; before all, `Infinite` at 0 for a text that begins with `0xf...f`.
    pub fn read_hex(text: &[u8]) -> Result<CpuSet, SetFault>
        ensures set { IfOk result (ReadsHex text.now) }
        ensures fault { IfErr result (HexRefused text.now) }
    {
        if text.starts_with(b"0xf...f") {
            return Err(SetFault::Infinite { at: 0 });
        }
        read_words(text)
    }
}

// Reads a text of words.
#[tactic(auto, using(crate::proofs::PartLemmas::first_of_parts))]
fn read_words(text: &[u8]) -> Result<CpuSet, SetFault>
    ensures good { OnOk result (leftmost hex_rule 0 (parts_of text.now) ≡ None) }
    ensures numbers { IfOk result (λ set. set ≡ numbers_where (is_in_hex text.now)) }
    ensures fault { IfErr result (λ fault. leftmost hex_rule 0 (parts_of text.now) ≡ Some fault) }
{
    let mut set = CpuSet::empty();
    let mut left = commas(text) + 1;
    let mut at = 0;
    let mut rest = Some(text);
    while let Some(words) = rest {
        let (word, behind) = first_part(words, b',');
        left -= 1;
        let value = read_word(at, left, word)?;
        if value != 0 {
            set.add_word(left, value);
        }
        at += word.len() + 1;
        rest = behind;
    }
    Ok(set)
}

fn commas(text: &[u8]) -> usize
    ensures { result ≡ count_by (λ byte. byte == 44) text.now }
{
    text.iter().filter(|byte| **byte == b',').count()
}

// The value of a word with so many words behind it, or the fault of the word.
fn read_word(at: usize, behind: usize, word: &[u8]) -> Result<u32, SetFault>
    ensures value { IfOk result (λ value. value ≡ word_value word.now) }
    ensures low { IfOk result (λ value. 0 < value → behind < WORDS) }
    ensures good { OnOk result (hex_rule at behind word.now ≡ None) }
    ensures fault { IfErr result (λ fault. hex_rule at behind word.now ≡ Some fault) }
{
    let is_gap = word.is_empty() && at > 0 && behind > 0;
    let value = match word_number(word) {
        Some(value) => value,
        None if is_gap => 0,
        None => return Err(SetFault::Form { at }),
    };
    if value != 0 && behind >= WORDS {
        return Err(SetFault::TooLarge { at });
    }
    Ok(value)
}

// The value of one to eight hexadecimal digits with or without prefix.
fn word_number(word: &[u8]) -> Option<u32>
    ensures { SomeIff result (is_word word.now ≡ true) (word_value word.now) }
{
    let digits = without_prefix(word);
    if digits.len() > 8 {
        return None;
    }
    match read_numeral(16, digits, LARGEST_WORD) {
        Numeral::Number(value) => Some(value as u32),
        Numeral::TooLarge | Numeral::NotNumeral => None,
    }
}

// A word without the `0x` or `0X` that it may begin with.
fn without_prefix(word: &[u8]) -> &[u8]
    ensures { result.now ≡ without_prefix word.now }
{
    if word.starts_with(b"0x") || word.starts_with(b"0X") {
        &word[2..]
    } else {
        word
    }
}
