//! The program's command line, and the one call that does all that the program does.
#![tactic(auto)]

mod answer;
mod calling;
mod drilling;
mod in_memory;
mod process;
mod running;
mod serving;
mod top_call;

pub use clof_answers::{one_check, one_run};
pub use command_texts::{Fault, OptionName, Status};
pub use in_memory::top_in_memory;
pub use process::Process;
pub use top_call::{top, top_with};
