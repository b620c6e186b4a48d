//! Sets of processor numbers below 4,096, after hwloc's bitmaps, and their three texts: hexadecimal words, a list of
//! runs, and the one number of `taskset`.
#![tactic(auto)]

mod fault;
mod laws;
mod read_hex;
mod read_list;
mod run;
mod set;
mod write_hex;
mod write_list;
mod write_taskset;

pub use fault::SetFault;
pub use laws::{
    hex_is_read_back, hex_is_read_or_refused, list_is_read_back, list_is_read_or_refused,
    runs_are_maximal, sets_are_fixed_by_members, sets_combine_by_membership, sets_have_what_passes,
};
pub use set::{CpuSet, LIMIT};
