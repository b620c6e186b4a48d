//! Trials of the locks of `lock_levels`: a lock is made for a plan's kinds and a shape of callers, who then walk over it on one
//! thread or hold it in threads of their own, or it is closed again at once.
#![tactic(auto)]

mod crew;
mod ending;
mod given;
mod jobs;
mod outcome;
mod rising;
mod start;
mod trials;
mod tried;

pub use given::Trial;
pub use outcome::{End, Outcome};
pub use start::{Start, make_start};
pub use trials::try_lock;
