//! What goes wrong at the edge.

use thiserror::Error;

/// A read or a write failed; the object that failed has counted it.
#[derive(Clone, Copy, Debug, PartialEq, Eq, Error)]
#[error("the read or the write failed")]
pub struct Failed;

/// Why the bytes of a source were not all read.
#[derive(Clone, Copy, Debug, PartialEq, Eq, Error)]
pub enum ReadAllFault {
    /// A read failed.
    #[error("a read failed")]
    Fault,
    /// There were more bytes than the limit.
    #[error("more bytes than the limit")]
    TooLong,
    /// There was not enough memory.
    #[error("out of memory")]
    OutOfMemory,
}

/// The writing stopped behind the first `written` bytes: a write failed, or the sink took no more.
#[derive(Clone, Copy, Debug, PartialEq, Eq, Error)]
#[error("the writing stopped behind {written} bytes")]
pub struct Stopped {
    /// How many bytes the sink took.
    pub written: usize,
}
