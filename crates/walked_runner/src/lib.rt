//! Callers that hold a composed lock on one thread, in rounds, and apply the commands of their sections to the journal at its root.
//!
//! `run_walk` makes a step of each caller in each round, by the calls that don't wait, until all have given their commands. What it gives
//! back is what `threaded_runner::run_threads` gives back.
#![tactic(auto)]

mod moving;
mod rounds;
mod seating;
mod walker;
mod walks;

pub use walker::{State, Task, Walker};
pub use walks::{run_walk, walk_under};
