//! Jobs in several Cohorts, which several threads take and put back, and which all come back in the end, each into its slot.
//!
//! `empty_hall` has the memory of a run, `deal` puts the jobs of each home into a Cohort of its own, and gives each thread a desk with a
//! place at every Cohort. A thread takes a job from a Cohort by `take_from`, works on it, and has it put back or keeps it by `settle_at`.
//! `close_all` takes the Cohorts apart, and each job is in its slot again.
#![tactic(auto)]

mod closing;
mod dealing;
mod desk;
mod hall;
mod making;
mod opening;
mod slots;
mod taking;
mod tells;

pub use closing::close_all;
pub use dealing::deal;
pub use desk::{Desk, Place};
pub use hall::Hall;
pub use opening::{empty_hall, seat};
pub use slots::take_out;
pub use taking::{settle_at, take_from};
pub use tells::Tells;
