//! The rule of the table of a queue lock, but for what is an algorithm's own, and how such a table is made, split into passes and closed.
#![tactic(auto)]

mod counting;
mod cuts;
mod kinds;
mod lock_words;
mod play;
mod rule;
mod ruled;
mod slot;
mod table;
mod witness;
mod words;

pub use counting::{AddWaiting, LoadWaiting, SubtractWaiting};
pub use cuts::{Cut, Glue};
pub use kinds::{Finding, KindOf, Storing};
pub use lock_words::LockWords;
pub use rule::{Disciplined, QueueRule, rule_is_basic};
pub use ruled::{Learner, Ruled};
pub use witness::Witness;
