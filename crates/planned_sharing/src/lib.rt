//! Runs of callers with sections under the composed lock of a plan, served in turn by threads that they share.
//!
//! `run_shared` makes the lock of a plan's levels over a journal, has so many threads (`Sharing`) serve its callers, who wait at the nodes
//! of the lowest level where they stand, takes the lock apart, and gives what they leave.
#![tactic(auto)]

mod homes;
mod shared_runs;
mod sharing;

pub use shared_runs::run_shared;
pub use sharing::Sharing;
