//! Want of memory: the answer of a call that was refused it.
//!
//! `specs/Memory.antt` has the one relation by which contracts say that an answer is the right one unless memory was
//! refused.
#![tactic(auto)]

use std::alloc::{AllocError, AllocFailed};
use thiserror::Error;

/// There was not enough memory.
#[derive(Clone, Copy, Debug, PartialEq, Eq, Error)]
#[error("out of memory")]
pub struct OutOfMemory;

impl From<AllocError> for OutOfMemory {
    fn from(_: AllocError) -> Self {
        OutOfMemory
    }
}

impl<T: Drop> From<AllocFailed<T>> for OutOfMemory {
    fn from(_: AllocFailed<T>) -> Self {
        OutOfMemory
    }
}
