//! Runs of callers on a value of one's own, under the composed lock of a plan.
//!
//! `run` makes the lock of a plan's levels around the value, has each caller hold it in a thread of its own as often as told, takes it
//! apart, and gives its root: the trail of all turns, and the value. `serve` does so for callers who go on until there is no task for them,
//! with a trail that keeps no turns in memory.
#![tactic(auto)]

mod jobs;
mod rising;
mod runs;
mod tasked;

pub use runs::{run, serve};
