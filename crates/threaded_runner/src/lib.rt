//! Callers that hold a composed lock, and apply the commands of their sections to the journal at its root.
//!
//! These are the parts of a run, over any composed lock: `root_of` makes what a lock is made over, `prepare` the jobs of its callers,
//! `serve` is what one caller does, `crew_of` has what comes back of all of them, `close_run` takes the lock apart, and `printed` is the
//! text of what they did. The threads themselves are started at a lock of a known depth, by `planned_runner`.
#![tactic(auto)]

mod book;
mod crew;
mod dealing;
mod finishing;
mod holding;
mod job;
mod roots;
mod running;
mod waiting;

pub use book::Book;
pub use crew::Crew;
pub use finishing::{Finished, close_run, finish, printed};
pub use holding::{apply, give_next, serve};
pub use job::Job;
pub use roots::{journal_of, quotas_of, root_of};
pub use running::{Prepared, crew_of, not_started, prepare};
