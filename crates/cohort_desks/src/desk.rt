//! Where a thread stands at the Cohorts.
use cohort_queue::{Numbered, Seat};

/// A thread's place at one Cohort: its seat, and the jobs that it took there and keeps.
#[derive(Drop)]
pub struct Place<J: Numbered> {
    pub seat: Seat<J>,
    pub kept: Vec<J>,
}

/// The places of one thread, one at each Cohort, and the thread's number.
#[derive(Drop)]
pub struct Desk<J: Numbered> {
    pub number: u32,
    pub places: Vec<Place<J>>,
}
