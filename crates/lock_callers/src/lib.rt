//! The callers of a basic lock: each is the lock and a token of it in one, so that no call takes a token of another lock, and a call at a
//! wrong standing is answered and changes nothing.
#![tactic(auto)]

mod call;
mod caller;
mod making;
mod stage;
mod standing;

pub use call::Call;
pub use caller::Caller;
pub use making::make_callers;
pub use stage::Stage;
pub use standing::{Reply, Standing};
