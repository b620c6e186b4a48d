//! Commands of memcached's text protocol, as parts of the text that they stand in. Nothing is copied.
#![tactic(auto)]

mod command;
mod commands;
mod field;
mod first;
mod keys;
mod laws;
mod line;
mod row;
mod rows;
mod section;

pub use command::{Command, How, LineFault};
pub use commands::Commands;
pub use keys::Keys;
pub use laws::{at_most_one_command, one_reading};
pub use section::{Tally, count};
