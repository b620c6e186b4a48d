//! What a trial leaves.
use clof_compose::Root;
use level_harness::Stood;

/// How a trial ended.
#[derive(Drop)]
pub enum End {
    /// There was no memory for the lock.
    Refused,
    /// Its callers have walked: where those stood that were named, behind each step, and the tests that each caller's pass tells.
    Walked { stood: Vec<Stood>, told: Vec<u32> },
    /// Its callers have made their turns on threads, or weren't asked to make any.
    Done,
}

/// The root of a lock that was taken apart, or refused.
#[derive(Drop)]
pub struct Outcome<P> {
    pub root: Root<P>,
    pub end: End,
}
