//! The callers of a composed lock: each is the lock, its pass and its share in one, so that no call takes a token of another lock, and a
//! call at a wrong standing is answered and changes nothing.
#![tactic(auto)]

mod act;
mod caller;
mod holder;
mod making;
mod reply;

pub use caller::Caller;
pub use lock_callers::{Call, Standing};
pub use making::make_callers;
pub use reply::Reply;
