//! What the program answers, in definitions, and its answers that run no callers under a lock.
#![tactic(auto)]

mod checking;
mod drilled;
mod error_line;
mod judging;
mod laws;
mod printing;
mod reading;
mod sections;
mod selecting;
mod words;

pub use checking::check_on;
pub use command_texts::{Fault, Status};
pub use drilled::{machine, plan_on};
pub use error_line::report;
pub use laws::{one_check, one_run};
pub use printing::print;
pub use reading::read_input;
pub use sections::{section_status, shape_for};
pub use selecting::select_on;
pub use words::read;
