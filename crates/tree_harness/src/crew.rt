//! What comes back of a trial's callers.
use keep_local::Share;
use level_harness::Job;
use std::alloc::Global;

/// Callers who have yet to walk, and those of them who step first.
#[derive(Drop)]
pub(crate) struct Walkers<'t, Q> {
    pub(crate) alloc: Global,
    pub(crate) passes: Vec<Q>,
    pub(crate) shares: Vec<Share>,
    pub(crate) order: &'t [usize],
}

/// The jobs of all callers, and an empty list with room for their passes.
#[derive(Drop)]
pub(crate) struct Jobs<Q> {
    pub(crate) jobs: Vec<Job<Q>>,
    pub(crate) passes: Vec<Q>,
}

/// What comes back of all callers.
#[derive(Drop)]
pub(crate) enum Crew<'t, Q> {
    /// They have yet to walk.
    Walk(Walkers<'t, Q>),
    /// They have made all their turns on threads.
    Held(Jobs<Q>),
    /// They weren't asked to make any. These are their passes.
    Idle(Vec<Q>),
    /// There was no memory for their jobs.
    Lost,
}
