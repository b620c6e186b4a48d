//! What is chosen.

use sequence::Sequence;

/// A list of levels, and what it costs.
#[derive(Debug, Drop)]
pub struct Choice {
    /// The depths of the levels, the lowest level first. The last is 0, Machine.
    pub depths: Sequence<u32>,
    /// The weighted number of lock takings.
    pub cost: u64,
}
