//! The kinds of locks that a plan names.
ghost use Rattle.std.specs.Prelude.{◌≡◌, ◌<◌, ◌^◌, None, Some, IfOk, IfErr, length, IfSome, replicate};
ghost use Rattle.out_of_memory.specs.Memory.{UnlessMemory};
ghost use Rattle.byte_text.specs.Views.{text_at};
ghost use Rattle.lock_plan.specs.Plans.{AreKinds, kind_named, lock_fault};

use crate::kind::{LockKind, kind_named};
use crate::lists::{Entries, ListFault, read_list};
use run_faults::PlanFault;
use std::alloc::Global;

// Reads the names of kinds.
struct Kinds;

impl Entries for Kinds {
    type Entry = LockKind;

    ghost says = { λ _ name. kind_named name };

    fn entry(&self, piece: &[u8]) -> Option<LockKind> {
        kind_named(piece)
    }
}

/// The kinds of so many levels: those that a list with dashes names, or MCS where none is given.
pub(crate) fn read_locks(
    alloc: Global,
    levels: usize,
    text: Option<&[u8]>,
) -> Result<Vec<LockKind>, PlanFault>
    requires few { levels < 2 ^ 32 }
    requires text { IfSome text (λ text. length text.now < 2 ^ 32) }
    ensures kinds { IfOk result (λ kinds. AreKinds levels (text_at text.entry) kinds.items) }
    ensures refused { IfErr result
        (λ fault. UnlessMemory PlanFault.OutOfMemory fault (lock_fault levels (text_at text.entry) ≡ Some fault)) }
{
    match text {
        None => Ok(Vec::from_elem(alloc, LockKind::Mcs, levels)?),
        Some(text) => read_named(alloc, levels, text),
    }
}

// The kinds of so many levels that a list with dashes names.
fn read_named(alloc: Global, levels: usize, text: &[u8]) -> Result<Vec<LockKind>, PlanFault>
    requires few { levels < 2 ^ 32 }
    requires text { length text.now < 2 ^ 32 }
    ensures kinds { IfOk result (λ kinds. AreKinds levels (Some text.now) kinds.items) }
    ensures refused { IfErr result (λ fault. UnlessMemory PlanFault.OutOfMemory fault (lock_fault levels (Some text.now) ≡ Some fault)) }
{
    let kinds = match read_list(alloc, &Kinds, b'-', text) {
        Ok(kinds) => kinds,
        Err(ListFault::Unknown { place }) => return Err(PlanFault::LockUnknown { place }),
        Err(ListFault::OutOfMemory) => return Err(PlanFault::OutOfMemory),
    };
    if kinds.len() == levels {
        Ok(kinds)
    } else {
        Err(PlanFault::Lengths {
            levels: levels as u32,
            given: kinds.len() as u32,
        })
    }
}
