//! Sizes in bytes.
ghost use Rattle.std.specs.Prelude.{◌≡◌};
ghost use Rattle.synth_text.specs.Sizes.{size_of};

use crate::table::entry_named;
use byte_text::{Class, number_in, split_front};

// The suffixes, in lower case, with the bytes that each stands for.
const UNITS: [(&[u8], u64); 9] = [
    (b"", 1),
    (b"kb", 1_000),
    (b"mb", 1_000_000),
    (b"gb", 1_000_000_000),
    (b"tb", 1_000_000_000_000),
    (b"kib", 1 << 10),
    (b"mib", 1 << 20),
    (b"gib", 1 << 30),
    (b"tib", 1 << 40),
];

/// The size that a text writes: digits and an optional suffix. `None` where it writes none below 2^64.
#[tactic(auto, unfolding(crate::specs::Sizes::size_of))]
pub fn read_size(text: &[u8]) -> Option<u64>
    ensures { result ≡ size_of text.now }
{
    let (digits, suffix) = split_front(text, Class::Digit);
    let unit = entry_named(&UNITS, suffix)?;
    let number = number_in(0, u64::MAX, digits)?;
    number.checked_mul(unit)
}
