//! Reading the pieces of a list.
ghost use Rattle.std.specs.Prelude.{◌≡◌, ◌<◌, ◌^◌, ℕ, List, [], None, Some, Option, IfOk, IfErr, length};
ghost use Rattle.out_of_memory.specs.Memory.{UnlessMemory};
ghost use Rattle.synth_text.specs.IndexTexts.{entries_of};
ghost use Rattle.lock_plan.specs.declared.lists.ListFault.TheVariants as faults;
ghost use Rattle.lock_plan.specs.Lists.{pieces_of, first_unknown};

use byte_text::{Class, first_piece};
use std::alloc::{AllocError, AllocFailed, Global};

/// Why a list isn't read.
#[derive(Clone, Copy, PartialEq, Eq)]
pub(crate) enum ListFault {
    /// The piece at this place says nothing.
    Unknown { place: u32 },
    /// There was not enough memory.
    OutOfMemory,
}

impl From<AllocError> for ListFault {
    ghost from_gives = { λ _ e. e ≡ faults.OutOfMemory };

    fn from(_refused: AllocError) -> ListFault {
        ListFault::OutOfMemory
    }
}

impl<T: Drop> From<AllocFailed<T>> for ListFault {
    ghost from_gives = { λ _ e. e ≡ faults.OutOfMemory };

    fn from(_refused: AllocFailed<T>) -> ListFault {
        ListFault::OutOfMemory
    }
}

/// What reads the pieces of a list.
pub(crate) trait Entries {
    /// What a piece says.
    type Entry: Drop;

    /// What pieces say; an empty one says nothing.
    ghost says: { Self → List ℕ → Option Self.Entry };

    /// What a piece says, if it says something.
    fn entry(&self, piece: &[u8]) -> Option<Self::Entry>
        ensures entry { result ≡ says self.now piece.now }
        ensures empty { says self.now [] ≡ None };
}

/// What each piece of a list says, whose separator is a byte. It is refused at the first piece that says nothing.
pub(crate) fn read_list<R: Entries>(
    alloc: Global,
    reader: &R,
    separator: u8,
    text: &[u8],
) -> Result<Vec<R::Entry>, ListFault>
    requires { length text.now < 2 ^ 32 }
    ensures entries { IfOk result (λ entries. entries_of (R.says reader.now) (pieces_of separator text.now) ≡ Some entries.items) }
    ensures few { IfOk result (λ entries. length entries.items < 2 ^ 32) }
    ensures refused { IfErr result (λ fault. UnlessMemory ListFault.OutOfMemory fault ((place : ℕ)
        × (first_unknown (R.says reader.now) (pieces_of separator text.now) ≡ Some place) × (fault ≡ ListFault.Unknown place))) }
{
    let mut entries = Vec::new(alloc);
    let mut rest = Some(text);
    while let Some(text) = rest {
        let (piece, behind) = first_piece(text, Class::Byte(separator));
        let Some(entry) = reader.entry(piece) else {
            return Err(ListFault::Unknown {
                place: entries.len() as u32,
            });
        };
        entries.push(entry)?;
        rest = behind;
    }
    Ok(entries)
}
