//! What a run has while its threads work.
use crate::caller::Caller;
use crate::roll::Roll;
use clof_compose::Resting;
use cohort_desks::Hall;
use cohort_queue::{Cohort, Seat};
use keep_local::Share;
use threaded_runner::Job;

/// Empty lists with room for what comes back of a run.
#[derive(Drop)]
pub struct Lists<'a, Q> {
    pub jobs: Vec<Job<'a, Q>>,
    pub passes: Vec<Q>,
    pub shares: Vec<Share>,
    pub stopped: Vec<bool>,
}

/// A run of more callers than threads: all its callers in a hall, where each thread has a desk.
#[derive(Drop)]
pub struct Run<'a, Q: Resting> {
    pub roll: Roll<'a, Q>,
    pub hall: Hall<Caller<'a, Q>>,
    pub lists: Lists<'a, Q>,
}

/// What all threads of a run have before them.
#[derive(Drop)]
pub struct Floor<'a, Q: Resting> {
    pub roll: Roll<'a, Q>,
    pub cohorts: Vec<Cohort<Caller<'a, Q>>>,
}

/// What is put aside until they have ended.
#[derive(Drop)]
pub struct Aside<'a, Q: Resting> {
    pub emptied: Vec<Vec<Seat<Caller<'a, Q>>>>,
    pub slots: Vec<Option<Caller<'a, Q>>>,
    pub lists: Lists<'a, Q>,
}
