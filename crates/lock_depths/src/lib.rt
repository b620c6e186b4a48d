//! Composed locks of two to four levels, each under a type without parameters, as are its tokens: so a further level below one of them is
//! a lock with one level in its type.
#![tactic(auto)]

mod below;
mod four;
mod laws;
mod three;
mod two;

pub use below::level_below;
pub use four::{HeldOfFour, LeaveOfFour, LockOfFour, QueueOfFour, make_of_four};
pub use laws::{locks_of_four_cross, locks_of_three_cross, locks_of_two_cross};
pub use three::{HeldOfThree, LeaveOfThree, LockOfThree, QueueOfThree, make_of_three};
pub use two::{HeldOfTwo, LeaveOfTwo, LockOfTwo, QueueOfTwo, make_of_two};
