//! What an operator asks of a topology: the set of PUs that locations select, and the objects that a set meets, as
//! hwloc-calc answers them, in this project's profile.
#![tactic(auto)]

mod answers;
mod candidates;
mod fault;
mod found;
mod indexes;
mod laws;
mod picks;
mod query;
mod reading;
mod selecting;

pub use answers::{hierarchical, intersecting, largest};
pub use fault::CalcFault;
pub use laws::{largest_make_up_whole_objects, no_terms_select_nothing, paths_are_chains};
pub use query::{Location, Numbering, Op, Part, Path, Pick, Step2, Term};
pub use reading::{read_location, read_term};
pub use selecting::select;
