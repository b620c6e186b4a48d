//! Trials of a composed lock: functions over any lock that keeps the contract, which tests call at their types.
//!
//! `walk` has all callers take turns on one thread: first those that it is told to step, in that order, and then all of them, round by
//! round, as the program's `--walk` does. `deal` gives each caller its job for a run on threads, and `hold_all` makes the holds of one.
//! What these answer is compared by tests; no clause says how callers take turns.
#![tactic(auto)]

mod holds;
mod jobs;
mod roll;
mod rounds;
mod shapes;
mod walker;
mod walks;

pub use holds::{Job, hold, hold_all};
pub use jobs::{close_ended, deal};
pub use roll::Roll;
pub use shapes::{copy_of, shape_of};
pub use walker::{State, Stood, Walker};
pub use walks::{Walked, walk};
