//! What `select` prints, and the plan of the lock of `run`.
#![tactic(auto)]

mod planning;
mod selection;

pub use planning::read_plan;
pub use selection::{Criteria, read_criteria, selection_text};
