//! Why sections of an input, or an input with a printed text behind it, are refused.
ghost use Rattle.std.specs.Prelude.{◌≡◌};
ghost use Rattle.run_faults.specs.declared.fault.SectionFault.TheVariants as faults;

use std::alloc::{AllocError, AllocFailed};
use thiserror::Error;

/// Why the sections of an input are refused. A fault's number is its place in this list, from 1; `at` is where the head of
/// the section begins, in bytes from the input's start.
#[derive(Clone, Copy, Debug, PartialEq, Eq, Error)]
pub enum SectionFault {
    /// No head stands there.
    #[error("the head at byte {at}")]
    BadHead {
        /// Where the head should begin.
        at: usize,
    },
    /// The place is neither `*` nor a location that is just one PU.
    #[error("the place of the head at byte {at}")]
    BadPlace {
        /// Where the head begins.
        at: usize,
    },
    /// Fewer bytes than the length stand behind the head, or no line end stands behind them.
    #[error("the bytes behind the head at byte {at}")]
    Short {
        /// Where the head begins.
        at: usize,
    },
    /// Bytes stand behind the 256th section.
    #[error("more than 256 sections")]
    TooManyCallers,
    /// There was not enough memory.
    #[error("out of memory")]
    OutOfMemory,
}

impl From<AllocError> for SectionFault {
    ghost from_gives = { λ _ e. e ≡ faults.OutOfMemory };

    fn from(_refused: AllocError) -> SectionFault {
        SectionFault::OutOfMemory
    }
}

impl<T: Drop> From<AllocFailed<T>> for SectionFault {
    ghost from_gives = { λ _ e. e ≡ faults.OutOfMemory };

    fn from(_refused: AllocFailed<T>) -> SectionFault {
        SectionFault::OutOfMemory
    }
}

/// Why bytes are no input with a printed text behind it. A fault's number is its place in this list, from 1.
#[derive(Clone, Copy, Debug, PartialEq, Eq, Error)]
pub enum CheckFault {
    /// The first line isn't `input` and a length of at most 16,777,216.
    #[error("the head of the input")]
    BadHead,
    /// Fewer bytes than the length stand behind the head, or no line end stands behind them.
    #[error("the bytes behind the head of the input")]
    Short,
}
