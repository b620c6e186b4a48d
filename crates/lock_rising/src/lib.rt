//! Work under the lock of a plan: the lock is made level by level, from the top down, its callers work under it, in threads of their own
//! where they need some, and it is taken apart.
//!
//! `rise` makes a lock of two to five levels, and `rise_flat` one of a single level, whose passes are of another type. What callers do
//! under the lock is an `UnderLock` of `lock_work`, which has them work under a lock that is ready.
#![tactic(auto)]

mod given;
mod rising;
mod under;

pub use given::Given;
pub use rising::{rise, rise_flat};
