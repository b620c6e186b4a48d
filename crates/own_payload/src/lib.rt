//! A payload of a composed lock for any value of one's own, and runs of callers on it.
//!
//! `Noted` keeps the value, and the callers of all calls as a list that only proofs read. `Serves` says what the callers do: `serve` has
//! each do it in a thread of its own, `serve_caller` in the calling thread, and `hold` makes one hold. `new_root` and
//! `new_unrecorded_root` make what a lock is made around, `deal` gives each caller its part of a run on threads, `gather` takes the passes
//! back, and `close_ended` takes the lock apart behind all callers.
#![tactic(auto)]

mod calls;
mod holding;
mod jobs;
mod noted;
mod roots;
mod runs;
mod serves;

pub use calls::Calls;
pub use holding::{hold, serve_caller};
pub use jobs::{Job, Lists, deal, gather};
pub use noted::Noted;
pub use roots::{new_root, new_unrecorded_root};
pub use runs::{close_ended, serve};
pub use serves::{Always, Serves};
