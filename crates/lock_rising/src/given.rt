//! What work under a lock is given.
use keep_local::Shape;
use lock_levels::Plan;
use std::alloc::Global;

/// What work has beside the root of its lock.
#[derive(Drop)]
pub struct Given<'r, B, R, G> {
    pub rt: &'r R,
    pub alloc: Global,
    /// The kinds of the lock's levels.
    pub plan: &'r Plan,
    /// Where its callers stand.
    pub shape: &'r Shape,
    /// What the callers bring.
    pub brought: B,
    /// What all threads share by a plain borrow, beside the lock.
    pub shared: &'r G,
}
