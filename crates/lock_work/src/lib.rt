//! Work under a lock of any type: what callers do under it, in threads of their own.
//!
//! An `UnderLock` says what callers do under the lock, and an `OnThread` what one of their threads does. `work_under` has them work under a
//! lock that is ready, and takes it apart.
#![tactic(auto)]

mod shifts;
mod under_lock;

pub use shifts::work_under;
pub use under_lock::{Dealt, OnThread, UnderLock};
