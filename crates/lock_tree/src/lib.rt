//! Composed locks of one to five levels for a plan.
//!
//! `make_1` to `make_5` make a composed lock of as many levels for the callers of a shape, whose levels have the kinds of the plan. The
//! caller names the lock's type, as `make_3::<P, Lock3<P>>`. What a level is, and a basic lock of any of the four kinds, comes from
//! `lock_levels` and is handed on.
#![tactic(auto)]

mod depths;
mod tiers;

pub use depths::{Lock1, Lock2, Lock3, Lock4, Lock5, make_1, make_2, make_3, make_4, make_5};
pub use lock_levels::{
    AnyLock, HasKinds, Kinds, LevelOver, LowPass, Owned, TopOf, add_below, kind_at,
    low_passes_are_shared, low_passes_may_be_sent, make_top_of, top_passes_are_shared,
    top_passes_may_be_sent,
};
pub use lock_plan::{LockKind, Plan, PlanFault};
pub use tiers::Tiers;
