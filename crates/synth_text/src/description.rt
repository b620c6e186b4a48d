//! What a text describes.

use crate::kind::Kind;
use sequence::Sequence;

/// One loop of an interleaving: `step*count`.
#[derive(Clone, Copy, Debug, PartialEq, Eq)]
pub struct Loop {
    /// How many objects share one number of the loop before the next comes, at least 1.
    pub step: u32,
    /// How many numbers the loop has, at least 1.
    pub count: u32,
}

/// How the objects of a level get their physical numbers.
#[derive(Debug, Drop)]
pub enum Indexes {
    /// Object j has the number j.
    Ordered,
    /// Object j has the j-th number.
    List(Sequence<u32>),
    /// Object j has the sum over the loops of `((j / step) mod count)` times the product of the earlier counts.
    Loops(Sequence<Loop>),
}

/// A level of objects.
#[derive(Debug, Drop)]
pub struct Level {
    /// The kind of its objects.
    pub kind: Kind,
    /// How many of them each object of the level above has, at least 1.
    pub arity: u32,
    /// The size of each in bytes, of caches alone.
    pub size: Option<u64>,
    /// The physical numbers, of PUs alone.
    pub indexes: Indexes,
}

/// The memory, one node at each object of a level.
#[derive(Debug, Drop)]
pub struct Memory {
    /// How many levels stand before it. The last of these carries it; with 0 it is Machine.
    pub above: u32,
    /// The size of each node in bytes.
    pub size: Option<u64>,
    /// The physical numbers of the nodes.
    pub indexes: Indexes,
}

/// A synthetic topology: levels of objects from below Machine down to the PUs, and where the memory is attached.
#[derive(Debug, Drop)]
pub struct Description {
    /// The levels, from the one below Machine to the PUs.
    pub levels: Sequence<Level>,
    /// The memory, if any is attached.
    pub memory: Option<Memory>,
}
