//! Synthetic descriptions of a machine's topology, as texts like `Package:2 [NUMANode(memory=1GiB)] Core:4 PU:2`: the
//! form of hwloc's synthetic topologies in this project's profile. `read` reads a text, `write` gives the canonical one.
#![tactic(auto)]

mod attributes;
mod counts;
mod description;
mod fault;
mod index_text;
mod items;
mod kind;
mod laws;
mod name;
mod parts;
mod reading;
mod rules;
mod size;
mod table;
mod writing;

pub use description::{Description, Indexes, Level, Loop, Memory};
pub use fault::{SynthFault, SynthRule};
pub use kind::Kind;
pub use laws::{canonical_text_describes, described_is_sound, exactly_one_applies};
pub use name::{Name, read_name};
pub use reading::read;
pub use sequence::Sequence;
pub use writing::write;
