//! What the commands print that read no input, and how a call of the program ends: its status, its code and its line.
#![tactic(auto)]

mod calculation;
mod chosen;
mod distribution;
mod lines;
mod sets;
mod status;
pub mod topology;
mod trees;

pub use calculation::calc_output;
pub use distribution::distrib_output;
pub use lines::{Line, line_of};
pub use sets::set_output;
pub use status::{Fault, OptionName, Status};
pub use trees::topo_output;
