//! Why a description is not built.

ghost use Rattle.std.specs.Prelude.{◌≡◌};
ghost use Rattle.topo_tree.specs.declared.fault.BuildFault.TheVariants as faults;

use std::alloc::{AllocError, AllocFailed};
use thiserror::Error;

/// The first rule that the physical numbers of a description break. Those of the memory come before those of the PUs.
#[derive(Clone, Copy, Debug, PartialEq, Eq, Error)]
pub enum BuildFault {
    /// 1. A list has another length than there are objects, or the product of the loops' counts is another number. A
    /// length or a product over 4,294,967,295 is found as that.
    #[error("{found} physical numbers for {wanted} objects")]
    IndexCount { found: u32, wanted: u32 },
    /// 2. A number is 4,096 or more.
    #[error("the physical number {number} is 4096 or more")]
    IndexRange { number: u32 },
    /// 3. A number stood before.
    #[error("the physical number {number} comes twice")]
    IndexTwice { number: u32 },
    /// There was not enough memory.
    #[error("out of memory")]
    OutOfMemory,
}

impl From<AllocError> for BuildFault {
    ghost from_gives = { λ _ e. e ≡ faults.OutOfMemory };

    fn from(_refused: AllocError) -> BuildFault {
        BuildFault::OutOfMemory
    }
}

impl<T: Drop> From<AllocFailed<T>> for BuildFault {
    ghost from_gives = { λ _ e. e ≡ faults.OutOfMemory };

    fn from(_refused: AllocFailed<T>) -> BuildFault {
        BuildFault::OutOfMemory
    }
}
