//! What a call answers.

/// What a call answers: not yet, done, that the caller stands elsewhere than where the call goes from, or that it may make no more turns.
#[derive(Clone, Copy, PartialEq, Eq, Debug, Drop)]
pub enum Reply {
    NotYet,
    Done,
    Elsewhere,
    NoTurn,
}
