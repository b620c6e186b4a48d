//! A calculation on a topology, from words to text: what its locations and types say, and its answers as hwloc-calc prints
//! them, in this project's profile.
#![tactic(auto)]

mod answer;
mod items;
mod labels;
mod reading;

pub use answer::{AnswerKind, AnswerStyle, answer_text, set_text};
pub use reading::{read_layers, read_terms};
