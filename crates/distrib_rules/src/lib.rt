//! Masks for so many processes, shared out over the objects of a topology so that each is near its own part of the
//! machine: the distribution of hwloc-distrib, in this project's rounding.
#![tactic(auto)]

mod fault;
mod laws;
mod masks;
mod shares;
mod sharing;

pub use fault::DistribFault;
pub use laws::{masks_are_as_many, masks_cover_the_start, order_makes_no_difference};
pub use sharing::distrib;
