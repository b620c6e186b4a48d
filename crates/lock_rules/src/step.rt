//! What the calls of a lock answer.

/// What a call that makes a few atomic steps answers: not yet, with the token to go on with, or done.
#[derive(Drop)]
pub enum Step<N, G> {
    Not(N),
    Got(G),
}

/// There was no memory. The value comes back.
#[derive(Drop)]
pub struct Refused<V> {
    pub value: V,
}

/// What a holder learned of waiters, or what a value keeps of it: nothing yet, that nobody else waits, or that somebody does.
#[derive(Drop)]
pub enum Answer {
    Open,
    No,
    Yes,
}
