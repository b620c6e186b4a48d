//! What a trial is given.
use keep_local::Share;

/// What callers do with a lock.
#[derive(Clone, Copy)]
pub enum Trial<'a> {
    /// All take turns on one thread: the callers that are named here make a step each, in that order, and then all make rounds.
    Walk(&'a [usize]),
    /// Each makes its turns in a thread of its own, the first of them in the calling one.
    Hold,
    /// None does anything.
    Close,
}

/// What the callers of a trial bring: the share of each, in order, and what they do.
#[derive(Drop)]
pub(crate) struct Brought<'t> {
    pub(crate) shares: Vec<Share>,
    pub(crate) trial: Trial<'t>,
}
