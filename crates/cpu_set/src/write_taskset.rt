//! The text of `taskset`, written.

ghost use Rattle.std.specs.Prelude.{◌≡◌, ◌/◌, ◌%◌, ◌^◌, ◌<◌, IfOk};
ghost use Rattle.cpu_set.specs.Bits.{mask_of};
ghost use Rattle.cpu_set.specs.Texts.{taskset_text};

use crate::set::{CpuSet, LIMIT};
use byte_text::hex_digit;
use out_of_memory::OutOfMemory;
use std::alloc::Global;

impl CpuSet {
    /// `0x` and the whole set as one hexadecimal number, in which bit n stands for the number n.
    pub fn write_taskset(&self, alloc: Global) -> Result<Vec<u8>, OutOfMemory>
        ensures { IfOk result (λ text. text.items ≡ taskset_text self.now) }
    {
        let count = self.highest() as usize / 4 + 1;
        let mut text = Vec::with_capacity(alloc, 2 + count)?;
        text.extend_from_slice(b"0x")?;
        for place in (0..count).rev() {
            text.push(hex_digit(self.hex_place(place)))?;
        }
        Ok(text)
    }

    // The digit at a place of the number in base 16, counted from the last.
    fn hex_place(&self, place: usize) -> u8
        requires { place < LIMIT / 4 }
        ensures { result ≡ mask_of self.now / 16 ^ place % 16 }
    {
        ((self.word(place / 8) >> (4 * (place % 8))) & 15) as u8
    }
}
