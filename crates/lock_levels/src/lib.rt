//! The levels of a plan's locks: a basic lock of any of the four kinds, and a composed lock that gets one level of them more.
//!
//! `make_top_of` makes the top, and `add_below` one level below a lock of any type; each is of the kind that the plan has for it.
//! `lock_tree` has locks of one to five levels.
#![tactic(auto)]

mod any_lock;
mod any_ruled;
mod has_kinds;
mod kinds;
mod laws;
mod tiers;

pub use any_lock::AnyLock;
pub use has_kinds::HasKinds;
pub use kinds::Kinds;
pub use laws::{
    low_passes_are_shared, low_passes_may_be_sent, top_passes_are_shared, top_passes_may_be_sent,
};
pub use lock_plan::{LockKind, Plan, PlanFault};
pub use tiers::{LevelOver, LowPass, Owned, TopOf, add_below, kind_at, make_top_of};
