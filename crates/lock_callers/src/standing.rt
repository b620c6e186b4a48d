//! Where a caller stands, and what a call answers.

/// Where a caller stands. `Spent` is a caller whose token is in a call.
#[derive(Clone, Copy, PartialEq, Eq, Debug, Drop)]
pub enum Standing {
    Idle,
    Queued,
    Holding,
    Leaving,
    Spent,
}

/// What a call answers: not yet, done, or that the caller stands elsewhere than where the call goes from.
#[derive(Clone, Copy, PartialEq, Eq, Debug, Drop)]
pub enum Reply {
    NotYet,
    Done,
    Elsewhere,
}
