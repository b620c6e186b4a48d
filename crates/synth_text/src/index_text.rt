//! Values of `indexes`.
ghost use Rattle.std.specs.Prelude.{◌≡◌, ◌==◌, ℕ, List, Option, option_map};
ghost use Rattle.std.specs.List.{slice_split};
ghost use Rattle.synth_text.specs.declared.description.Indexes.TheVariants as indexes;
ghost use Rattle.synth_text.specs.declared.fault.Flaw.TheVariants as flaws;
ghost use Rattle.synth_text.specs.Flaws.{Gives, or_flaw};
ghost use Rattle.synth_text.specs.IndexTexts.{index_of, loop_of, entries_of, indexes_of};

use crate::description::{Indexes, Loop};
use crate::fault::{Flaw, Unread};
use byte_text::{Class, cut, first_piece, number_in};
use sequence::Sequence;
use std::alloc::Global;

// What a piece of a value of `indexes` may say.
trait Entry: Drop {
    ghost says: { List ℕ → Option Self };

    fn read(piece: &[u8]) -> Option<Self>
        ensures { result ≡ says piece.now };
}

impl Entry for u32 {
    ghost says = { index_of };

    #[tactic(auto, unfolding(crate::specs::IndexTexts::index_of))]
    fn read(piece: &[u8]) -> Option<u32> {
        let number = number_in(0, u64::from(u32::MAX), piece)?;
        Some(number as u32)
    }
}

impl Entry for Loop {
    ghost says = { loop_of };

    #[tactic(auto, unfolding(crate::specs::IndexTexts::loop_of))]
    fn read(piece: &[u8]) -> Option<Loop> {
        let (step, count) = cut(piece, Class::Byte(b'*'))?;
        let step = number_in(1, u64::from(u32::MAX), step)?;
        let count = number_in(1, u64::from(u32::MAX), count)?;
        Some(Loop {
            step: step as u32,
            count: count as u32,
        })
    }
}

// What the pieces of a value between its separators say.
fn read_entries<E: Entry>(
    alloc: Global,
    text: &[u8],
    separator: u8,
) -> Result<Sequence<E>, Unread<Flaw>>
    ensures { Gives result (or_flaw flaws.Indexes (entries_of E.says (slice_split (λ byte. byte == separator) text.now))) }
{
    let mut entries = Vec::new(alloc);
    let mut rest = Some(text);
    while let Some(text) = rest {
        let (piece, behind) = first_piece(text, Class::Byte(separator));
        let entry = E::read(piece).ok_or(Flaw::Indexes)?;
        entries.push(entry)?;
        rest = behind;
    }
    Ok(Sequence::from_vec(entries))
}

/// What a value of `indexes` says.
#[tactic(auto, unfolding(crate::specs::IndexTexts::indexes_of))]
pub fn read_indexes(alloc: Global, text: &[u8]) -> Result<Indexes, Unread<Flaw>>
    ensures { Gives result (or_flaw flaws.Indexes (indexes_of text.now)) }
{
    if text.contains(&b'*') {
        Ok(Indexes::Loops(read_entries(alloc, text, b':')?))
    } else {
        Ok(Indexes::List(read_entries(alloc, text, b',')?))
    }
}
