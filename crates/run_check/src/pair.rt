//! An input and the printed text behind it: a head on a line of its own, as many bytes as it tells, a line end, and the text to the end.

ghost use Rattle.std.specs.Prelude.{◌≡◌, ◌++◌, ◌∷◌, List, ℕ, length, MatchOption, IfOk, IfErr};
ghost use Rattle.run_check.specs.Pairs.{ArePair, IsRefused, length_of, size_of};

use byte_text::{cut_at, number_up_to};
use run_faults::CheckFault;

// How many bytes an input may have.
const INPUT_LIMIT: u64 = 16_777_216;

/// The input and the printed text behind it. It is refused as `BadHead` where its first line isn't `input`, a space and a length of one to
/// ten digits that is at most 16,777,216; and as `Short` where so many bytes and a line end don't stand behind that line.
pub fn read_pair(bytes: &[u8]) -> Result<(&[u8], &[u8]), CheckFault>
    ensures pair { IfOk result (λ parts. ArePair bytes.now parts.0.now parts.1.now) }
    ensures refused { IfErr result (IsRefused bytes.now) }
{
    let Some((line, behind)) = cut_at(bytes, b'\n') else {
        return Err(CheckFault::BadHead);
    };
    let Some(size) = read_head(line) else {
        return Err(CheckFault::BadHead);
    };
    let Some((input, printed)) = split_bytes(behind, size) else {
        return Err(CheckFault::Short);
    };
    Ok((input, printed))
}

// How many bytes the line of a head tells, whose `\n` is cut off.
#[tactic(auto, unfolding(crate::specs::Pairs::size_of))]
fn read_head(line: &[u8]) -> Option<u64>
    ensures { result ≡ size_of line.now }
{
    if !line.starts_with(b"input ") {
        return None;
    }
    read_length(&line[6..])
}

// A length of one to ten digits, within the limit.
#[tactic(auto, unfolding(crate::specs::Pairs::length_of))]
fn read_length(digits: &[u8]) -> Option<u64>
    ensures { result ≡ length_of digits.now }
{
    if digits.len() <= 10 {
        number_up_to(INPUT_LIMIT, digits)
    } else {
        None
    }
}

// So many bytes of a text, and what stands behind the line end behind them.
fn split_bytes(text: &[u8], size: u64) -> Option<(&[u8], &[u8])>
    ensures { MatchOption result
        ((bytes : List ℕ) (behind : List ℕ) → text.now ≡ bytes ++ 10 ∷ behind → length bytes ≡ size → ⊥)
        (λ parts. (text.now ≡ parts.0.now ++ 10 ∷ parts.1.now) × (length parts.0.now ≡ size)) }
{
    let (bytes, end) = text.split_at_checked(size as usize)?;
    match end {
        [b'\n', behind @ ..] => Some((bytes, behind)),
        _ => None,
    }
}
