//! Sections of the input, each with the commands of one caller, and where their callers stand on a topology. What a run of them is, and
//! the printed text of a run, is `run_texts`', whose parts are handed on.
#![tactic(auto)]

mod heads;
mod laws;
mod place;
mod sections;
mod spreading;

pub use laws::one_answer;
pub use run_faults::SectionFault;
pub use run_texts::{Gate, Line, OpenGate, Section, one_history, push_caller, push_turn, text};
pub use sections::read_sections;
pub use spreading::spread;
