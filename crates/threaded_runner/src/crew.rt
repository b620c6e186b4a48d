//! What comes back of a run.
use keep_local::Share;

/// The passes and the shares of all callers, in order, and how the run ended.
#[derive(Drop)]
pub struct Crew<Q> {
    pub passes: Vec<Q>,
    pub shares: Vec<Share>,
    /// Whether memory was wanting: the run didn't start, or some caller stopped.
    pub refused: bool,
    /// Whether the run had the memory that its own lists take. Where not, no caller has made a turn.
    pub started: bool,
    /// Of each caller whether it stopped before its commands ended; empty where the run didn't start.
    pub stopped: Vec<bool>,
}
