//! One hold of the lock.

/// One caller's hold of the lock. An open turn, whose caller still holds, has `left` at the top.
#[derive(Clone, Copy, Debug, PartialEq, Eq)]
pub struct Turn {
    /// The number of the caller.
    pub caller: u32,
    /// The level up to which the caller had to climb: the lowest one at which it found the lock kept, or the top.
    pub climb: u32,
    /// The levels at which its release found another caller queued, one bit each, level 0 in the lowest.
    pub tests: u32,
    /// The level at which its release left the lock: kept for the callers of one node there, or free at the top.
    pub left: u32,
}
