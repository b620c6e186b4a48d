//! The edge of the program: sources of bytes, sinks for bytes, and the faults that they count.
//!
//! A source or a sink answers `Failed` only where it has raised its own count of faults, so code that is generic
//! over them cannot make up a fault.
#![tactic(auto)]

mod faults;
mod memory_sink;
mod memory_source;
mod reading;
mod sink;
mod source;
mod standard;
mod writing;

pub use faults::{Failed, ReadAllFault, Stopped};
pub use memory_sink::{MemSink, SureSink};
pub use memory_source::{MemSource, SureSource};
pub use out_of_memory::OutOfMemory;
pub use reading::read_all;
pub use sink::Sink;
pub use source::Source;
pub use standard::{StdSink, StdSource};
pub use writing::write_all;
