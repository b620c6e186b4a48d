//! Runs of callers with sections under the composed lock of a plan, with receipts: the numbers of each caller's turns.
//!
//! `run_marked` makes the lock of a plan's levels over a journal beside its counted history, has its callers give their commands, each in a
//! thread of its own, takes the lock apart, and gives what they leave and their numbers.
#![tactic(auto)]

mod marked_runs;

pub use marked_runs::run_marked;
