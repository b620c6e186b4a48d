//! The hexadecimal text, written.

ghost use Rattle.std.specs.Prelude.{◌≡◌, ◌+◌, ◌++◌, ◌<◌, ◌≤◌, ◌/◌, ◌^◌, length, IfOk, OnOk};
ghost use Rattle.cpu_set.specs.Bits.{word_of};
ghost use Rattle.cpu_set.specs.Texts.{hex_text, highest, word_text, hex_digits};

use crate::set::{CpuSet, WIDTH, WORDS};
use byte_text::hex_digit;
use out_of_memory::OutOfMemory;
use std::alloc::Global;

impl CpuSet {
    /// The words of 32 bits from the highest that isn't zero down to word 0, with commas between: `0x` and eight
    /// digits, nothing for a zero word, and `0x0` for word 0 where it is zero.
    pub fn write_hex(&self, alloc: Global) -> Result<Vec<u8>, OutOfMemory>
        ensures { IfOk result (λ text. text.items ≡ hex_text self.now) }
    {
        let count = (self.highest() / WIDTH) as usize + 1;
        let mut text = Vec::with_capacity(alloc, self.hex_len(count))?;
        for place in (0..count).rev() {
            if place + 1 < count {
                text.push(b',')?;
            }
            push_word(&mut text, place, self.word(place))?;
        }
        Ok(text)
    }

    // How long the text is.
    fn hex_len(&self, count: usize) -> usize
        requires count { count ≡ highest self.now / WIDTH + 1 }
        requires limit { count ≤ WORDS }
        ensures { result ≡ length (hex_text self.now) }
    {
        let mut length = 0;
        for place in (0..count).rev() {
            if place + 1 < count {
                length += 1;
            }
            length += word_len(place, self.word(place));
        }
        length
    }
}

fn word_len(place: usize, word: u32) -> usize
    ensures length { result ≡ length (word_text place word) }
    ensures limit { result ≤ 10 }
{
    match (word, place) {
        (0, 0) => 3,
        (0, _) => 0,
        _ => 10,
    }
}

// Appends the text of a word at its place.
fn push_word(text: &mut Vec<u8>, place: usize, word: u32) -> Result<(), OutOfMemory>
    ensures { OnOk result (text.new.items ≡ text.old.items ++ word_text place word) }
{
    if word != 0 {
        text.extend_from_slice(b"0x")?;
        push_digits(text, word)?;
    } else if place == 0 {
        text.extend_from_slice(b"0x0")?;
    }
    Ok(())
}

// Appends the eight digits of a word.
fn push_digits(text: &mut Vec<u8>, word: u32) -> Result<(), OutOfMemory>
    ensures { OnOk result (text.new.items ≡ text.old.items ++ hex_digits 8 word) }
{
    for place in (0..8u32).rev() {
        text.push(hex_digit(((word >> (4 * place)) & 15) as u8))?;
    }
    Ok(())
}
