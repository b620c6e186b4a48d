//! Why a plan is refused.
ghost use Rattle.std.specs.Prelude.{◌≡◌};
ghost use Rattle.run_faults.specs.declared.plan.PlanFault.TheVariants as faults;

use std::alloc::{AllocError, AllocFailed};
use thiserror::Error;

/// Why the texts of a plan are refused. A fault's number is its place in this list, from 1; where texts break two rules, the lower number
/// comes, but for `Lengths`, which of the keeps comes behind `KeepRange`. Places count from 0.
#[derive(Clone, Copy, Debug, PartialEq, Eq, Error)]
pub enum PlanFault {
    /// 1. No depth has the name at this place.
    #[error("no depth has the name of level {place}")]
    LevelUnknown {
        /// The place of the name.
        place: u32,
    },
    /// 2. There are more than 5 levels.
    #[error("more than 5 levels")]
    TooDeep,
    /// 3. The depth at this place isn't further up than the one before, or it is the last and not Machine's.
    #[error("level {place} is not above the one before, or it is the last and not the machine")]
    LevelOrder {
        /// The place of the depth.
        place: u32,
    },
    /// 4. No kind of lock has the name at this place.
    #[error("no kind of lock has the name at place {place}")]
    LockUnknown {
        /// The place of the name.
        place: u32,
    },
    /// 5. There are not as many locks as levels, or neither one keep nor as many as levels below the top.
    #[error("{given} locks or keeps for {levels} levels")]
    Lengths {
        /// How many levels there are, the top included.
        levels: u32,
        /// How many locks or keeps are given.
        given: u32,
    },
    /// 6. The keep at this place is not a decimal number of at most 65,535.
    #[error("no keep stands at place {place}")]
    KeepRange {
        /// The place of the keep.
        place: u32,
    },
    /// There was not enough memory.
    #[error("out of memory")]
    OutOfMemory,
}

impl From<AllocError> for PlanFault {
    ghost from_gives = { λ _ e. e ≡ faults.OutOfMemory };

    fn from(_refused: AllocError) -> PlanFault {
        PlanFault::OutOfMemory
    }
}

impl<T: Drop> From<AllocFailed<T>> for PlanFault {
    ghost from_gives = { λ _ e. e ≡ faults.OutOfMemory };

    fn from(_refused: AllocFailed<T>) -> PlanFault {
        PlanFault::OutOfMemory
    }
}
