//! The callers of a run with their sections, and the printed text of what they did. How a section is read from an input, and where its
//! caller stands on a topology, is `placed_runner`'s.
#![tactic(auto)]

mod escape;
mod gate;
mod laws;
mod lines;
mod printing;
mod section;
mod size;

pub use gate::{Gate, OpenGate};
pub use laws::one_history;
pub use lines::{Line, push_caller, push_turn};
pub use printing::text;
pub use section::Section;
