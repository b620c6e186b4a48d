//! The value of a level's basic lock.
use boxed_value::Boxed;
use std::marker::PhantomData;

/// What a level has of its high lock: the pass of its node, or the holder's token. It is away while the high lock is being taken or
/// released.
#[derive(Drop)]
pub enum High<Pass, Held> {
    Idle(Pass),
    Kept(Held),
    Away,
}

/// The value of a node's basic lock: the node, how many turns in a row have kept the high lock, the answer of `waiter` at the last
/// release, and the high part.
#[derive(Drop)]
pub struct Own<P, Pass, Held> {
    pub node: u32,
    pub kept: u32,
    pub said: bool,
    // The bytes up to the next word, so that none only pads.
    pub(crate) filler: [u8; 7],
    pub high: Boxed<High<Pass, Held>>,
    pub payload: PhantomData<P>,
}
