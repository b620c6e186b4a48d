//! The handles of callers of composed locks: what a C program keeps of a caller of a lock of one to five levels.
#![tactic(auto)]

mod any_depth;
mod boxes;
mod calls;
mod depths;
mod handle;
mod making;

pub use any_depth::AnyDepth;
pub use depths::{FiveLevels, FourLevels, OneLevel, ThreeLevels, TwoLevels};
pub use handle::ClofComposedCaller;
pub use level_callers::Call;
pub use making::{Made, make};
