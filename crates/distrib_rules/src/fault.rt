//! Why masks are not shared out.

ghost use Rattle.std.specs.Prelude.{◌≡◌};
ghost use Rattle.distrib_rules.specs.declared.fault.DistribFault.TheVariants as faults;

use std::alloc::{AllocError, AllocFailed};
use thiserror::Error;

/// The first rule that a distribution breaks.
#[derive(Clone, Copy, Debug, PartialEq, Eq, Error)]
pub enum DistribFault {
    /// 1. No mask is asked for.
    #[error("no mask")]
    ZeroMasks,
    /// 2. More than 4,096 masks are asked for.
    #[error("more than 4096 masks")]
    TooManyMasks,
    /// 3. The depth of the start is below that of the end.
    #[error("the start is below the end")]
    Reversed,
    /// There was not enough memory.
    #[error("out of memory")]
    OutOfMemory,
}

impl From<AllocError> for DistribFault {
    ghost from_gives = { λ _ e. e ≡ faults.OutOfMemory };

    fn from(_refused: AllocError) -> DistribFault {
        DistribFault::OutOfMemory
    }
}

impl<T: Drop> From<AllocFailed<T>> for DistribFault {
    ghost from_gives = { λ _ e. e ≡ faults.OutOfMemory };

    fn from(_refused: AllocFailed<T>) -> DistribFault {
        DistribFault::OutOfMemory
    }
}
