//! More callers than threads under a composed lock.
//!
//! These are the parts of a run, over any composed lock: `open_run` deals the callers to Cohorts, one for each home that has a caller,
//! `serve_desk` is what one thread does, and `end_run` closes the Cohorts, serves whom no thread has served, and has what comes back of all
//! callers. What a caller does in a hold is `give_next` of `threaded_runner`. The threads themselves are started by `planned_sharing`.
#![tactic(auto)]

mod caller;
mod ending;
mod opening;
mod roll;
mod run;
mod serving;

pub use caller::Caller;
pub use ending::end_run;
pub use opening::open_run;
pub use roll::Roll;
pub use run::{Aside, Floor, Lists, Run};
pub use serving::serve_desk;
