//! Chooses the levels of a composed lock for a trace of callers: the list of levels for which the turns of the trace, each handed on at
//! the lowest level that its next turn allows, have the least weighted number of lock takings. Nothing is measured here.
#![tactic(auto)]

mod choice;
mod choosing;
mod costing;
mod keep;
mod laws;
mod nodes;
mod question;
mod search;
mod trace;
mod walk;
mod weights;

pub use choice::Choice;
pub use choosing::choose;
pub use costing::cost;
pub use keep::read_keep;
pub use laws::{ideal_turns_are_lawful, levels_make_a_shape, one_answer};
pub use run_faults::SelectFault;
pub use trace::read_trace;
pub use weights::read_weights;
