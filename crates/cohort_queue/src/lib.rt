//! More callers than threads: jobs that wait in a queue, from which threads take one at a time and put it back.
//!
//! A `Cohort` is made of jobs, each with a number. A thread has a `Seat`: by it the thread takes the job that has waited longest, works on
//! it, and puts it back behind the others, or keeps it where it is done. `Cohort::close` takes all seats back, and `Rest::next` hands out
//! what is still in the queue. No job is lost and none is handed out twice: at every moment each number stands once, in the queue or with
//! the seat that took it.
#![tactic(auto)]

mod cohort;
mod laws;
mod numbered;
mod rest;
mod rule;
mod seat;
mod shared;
mod view;

pub use cohort::Cohort;
pub use laws::{cohorts_are_shared, none_is_lost_or_doubled};
pub use numbered::Numbered;
pub use rest::Rest;
pub use seat::Seat;
pub use view::View;
