//! What the callers of a run do under a lock of any type: each in a thread of its own, all in a walk, or served in turn by threads that
//! they share.
//!
//! `Plain`, `Seated` and `Receipted` are work of `lock_work`, over a journal and, for receipts, over one beside its counted history. Each
//! does one thread's job, deals the jobs, takes back what the threads made of them, and takes the lock apart.
#![tactic(auto)]

mod marked;
mod parts;
mod plain;
mod seated;
mod shapes;

pub use marked::{FreshBrought, FreshLists, Receipted};
pub use plain::{Brought, Lists, Plain};
pub use seated::{Room, Seated, Waiting};
pub use shapes::copied_shape;
