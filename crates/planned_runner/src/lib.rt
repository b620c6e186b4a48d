//! Runs of callers with sections under the composed lock of a plan.
//!
//! `run` makes the lock of a plan's levels over a journal, has its callers give their commands, each in a thread of its own or all stepped
//! on one, takes the lock apart, and gives what they leave.
#![tactic(auto)]

mod runs;

pub use runs::run;
