//! Why a plan, the weights and the trace of a choice, the sections of an input, or an input with a printed text behind it are refused.
#![tactic(auto)]

mod fault;
mod plan;
mod select;

pub use fault::{CheckFault, SectionFault};
pub use plan::PlanFault;
pub use select::SelectFault;
