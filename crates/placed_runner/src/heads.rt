//! The head of a section: `worker <place> <length>`, with single spaces.
ghost use Rattle.std.specs.Prelude.{◌≡◌, option_map};
ghost use Rattle.placed_runner.specs.Heads.{head_of, length_of};
ghost use Rattle.placed_runner.specs.Views.{head_view};

use byte_text::{Class, cut, number_up_to};

/// What a head tells: where its caller stands, as it is written, and how many bytes the section has.
#[derive(Clone, Copy, Debug)]
pub(crate) struct Head<'a> {
    pub place: &'a [u8],
    pub size: u64,
}

/// What the line of a head tells, whose `\n` is cut off.
#[tactic(auto, unfolding(crate::specs::Heads::head_of))]
pub(crate) fn read_head(line: &[u8]) -> Option<Head<'_>>
    ensures { option_map head_view result ≡ head_of line.now }
{
    if !line.starts_with(b"worker ") {
        return None;
    }
    let (place, digits) = cut(&line[7..], Class::Byte(b' '))?;
    if place.is_empty() {
        return None;
    }
    let size = read_length(digits)?;
    Some(Head { place, size })
}

// A length of one to ten digits.
#[tactic(auto, unfolding(crate::specs::Heads::length_of))]
fn read_length(digits: &[u8]) -> Option<u64>
    ensures { result ≡ length_of digits.now }
{
    if digits.len() <= 10 {
        number_up_to(u64::MAX, digits)
    } else {
        None
    }
}
