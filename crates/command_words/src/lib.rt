//! The words of the program's commands, read by `clap`: what they ask for, or that they are a usage error.
#![tactic(auto)]

mod asked;
mod calc_words;
mod check_words;
mod command;
mod distrib_words;
mod drill_words;
mod fault;
mod run_words;
mod select_words;
mod set_words;
mod topo_words;
mod words;

pub use asked::{
    Asked, CalcQuestion, Calculation, Checking, Depths, Distribution, Running, Selection, Sharing,
};
pub use fault::WordsFault;
pub use words::read_words;
