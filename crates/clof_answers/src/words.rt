//! The reading of the words.
ghost use Rattle.std.specs.Prelude.{◌≡◌, ◌⊎◌, IfErr, IfOk};
ghost use Rattle.command_words.specs.Asked.{Asked as PlainAsked};
ghost use Rattle.command_words.specs.Plain.{plain};
ghost use Rattle.command_words.specs.Words.{Says, NamesCommand, IsUsage};

use crate::Status;
use command_words::{Asked, WordsFault, read_words};
use std::alloc::Global;

/// What the words ask for, or the status where they ask for nothing.
pub fn read(alloc: Global, words: &[String]) -> Result<Asked<'_>, Status>
    ensures asked { IfOk result (λ asked. Says words.now (plain asked)) }
    ensures only { IfOk result (λ asked. (other : PlainAsked) → Says words.now other → other ≡ plain asked) }
    ensures refused { IfErr result (λ status. ((status ≡ Status.OutOfMemory) × NamesCommand words.now)
        ⊎ ((status ≡ Status.Usage) × IsUsage words.now)) }
{
    match read_words(alloc, words) {
        Ok(asked) => Ok(asked),
        Err(WordsFault::Usage) => Err(Status::Usage),
        Err(WordsFault::OutOfMemory) => Err(Status::OutOfMemory),
    }
}
