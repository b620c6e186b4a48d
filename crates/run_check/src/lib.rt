//! Whether a printed text is that of a run of some sections under a lock of a shape, and else the first line that can't be one's.
#![tactic(auto)]

mod checking;
mod laws;
mod pair;
mod reading;
mod replay;
mod run;
mod turns;
mod verdict;

pub use checking::check;
pub use laws::one_verdict;
pub use pair::read_pair;
pub use run_faults::CheckFault;
pub use verdict::Verdict;
