//! Why a word is no location.

ghost use Rattle.std.specs.Prelude.{◌≡◌};
ghost use Rattle.calc_query.specs.declared.fault.CalcFault.TheVariants as faults;

use std::alloc::{AllocError, AllocFailed};
use thiserror::Error;

/// Why a word is no term or location: its first bad part. `word` is the number that the caller gave the word, and `at` the
/// offset in it at which the part begins, or the location where that is a bad set or empty.
#[derive(Clone, Copy, Debug, PartialEq, Eq, Error)]
pub enum CalcFault {
    /// 1. A part without a colon or with a bad index, a bad set, or no location at all.
    #[error("bad location in word {word} at {at}")]
    Location { word: u32, at: usize },
    /// 2. The name of a part names no layer.
    #[error("no such type in word {word}")]
    NoSuchType { word: u32 },
    /// There was not enough memory.
    #[error("out of memory")]
    OutOfMemory,
}

impl From<AllocError> for CalcFault {
    ghost from_gives = { λ _ e. e ≡ faults.OutOfMemory };

    fn from(_refused: AllocError) -> CalcFault {
        CalcFault::OutOfMemory
    }
}

impl<T: Drop> From<AllocFailed<T>> for CalcFault {
    ghost from_gives = { λ _ e. e ≡ faults.OutOfMemory };

    fn from(_refused: AllocFailed<T>) -> CalcFault {
        CalcFault::OutOfMemory
    }
}
