//! The Cohorts, the threads' desks and the slots of the jobs.
use crate::desk::Desk;
use cohort_queue::{Cohort, Numbered, Seat};

/// Cohorts, a desk for each thread, and a slot for each job, in the order of their numbers. A job is in its slot, or it was given to one of
/// the Cohorts.
#[derive(Drop)]
pub struct Hall<J: Numbered> {
    pub cohorts: Vec<Cohort<J>>,
    pub desks: Vec<Desk<J>>,
    /// For each Cohort the emptied list of its seats, with room for them.
    pub emptied: Vec<Vec<Seat<J>>>,
    pub slots: Vec<Option<J>>,
}
