//! The drill: 64 callers add numbers to eight keys under one lock, and the text tells what the keys hold at the end.
#![tactic(auto)]

mod commands;
mod setup;
mod text;

pub use commands::sections;
pub use setup::{CALLERS, KEEPS, LEVELS, LOCKS, MACHINE};
pub use text::summary;
