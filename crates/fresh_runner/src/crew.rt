//! What comes back of a run.
use crate::account::Marks;
use fresh_root::Seen;
use keep_local::Share;

/// The passes, the shares, the tokens and the marks of all callers, in order, and how the run ended.
#[derive(Drop)]
pub struct FreshCrew<Q> {
    pub passes: Vec<Q>,
    pub shares: Vec<Share>,
    pub seens: Vec<Seen>,
    /// Of each caller the numbers of its turns; empty where the run didn't start.
    pub marks: Vec<Marks>,
    /// Whether memory was wanting: the run didn't start, or some caller stopped.
    pub refused: bool,
    /// Whether the run had the memory that its own lists take. Where not, no caller has made a turn.
    pub started: bool,
    /// Of each caller whether it stopped before its commands ended; empty where the run didn't start.
    pub stopped: Vec<bool>,
}
