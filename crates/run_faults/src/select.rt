//! Why nothing is chosen.
ghost use Rattle.std.specs.Prelude.{◌≡◌};
ghost use Rattle.run_faults.specs.declared.select.SelectFault.TheVariants as faults;

use std::alloc::{AllocError, AllocFailed};
use thiserror::Error;

/// Why weights, a keep or a trace are refused. A fault's number is its place in this list, from 1; `at` is where the line begins, in bytes
/// from the start of the trace.
#[derive(Clone, Copy, Debug, PartialEq, Eq, Error)]
pub enum SelectFault {
    /// 1. The weights are not a comma list of as many numbers from 1 to 1,000,000 as there are depths.
    #[error("the weights")]
    Weights,
    /// 2. The keep is not a number of at most 65,535.
    #[error("the keep")]
    Keep,
    /// 3. The line is not 1 to 10 digits with a line end.
    #[error("the line at byte {at}")]
    Line {
        /// Where the line begins.
        at: usize,
    },
    /// 4. No PU has the number of the line.
    #[error("the PU of the line at byte {at}")]
    Place {
        /// Where the line begins.
        at: usize,
    },
    /// 5. Bytes stand behind the 16,384th line.
    #[error("more than 16384 turns")]
    TooManyTurns,
    /// There was not enough memory.
    #[error("out of memory")]
    OutOfMemory,
}

impl From<AllocError> for SelectFault {
    ghost from_gives = { λ _ e. e ≡ faults.OutOfMemory };

    fn from(_refused: AllocError) -> SelectFault {
        SelectFault::OutOfMemory
    }
}

impl<T: Drop> From<AllocFailed<T>> for SelectFault {
    ghost from_gives = { λ _ e. e ≡ faults.OutOfMemory };

    fn from(_refused: AllocFailed<T>) -> SelectFault {
        SelectFault::OutOfMemory
    }
}
