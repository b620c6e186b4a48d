//! Trials of a basic lock: functions over any lock that keeps the contract, which each lock's tests call at its type.
//!
//! `carry_out` makes calls of two passes on one thread, as a script says, and tells what each answered. `hold_by` has as many threads as
//! asked hold a lock around a `Parcel`, and `count_by` one around a number under a limit, for the benchmark. `Slow` is a lock that lets its
//! users wait. What these answer is compared by the tests of the locks; no clause says how threads take turns.
#![tactic(auto)]

mod bounded;
mod counts;
mod holds;
mod parcel;
mod runs;
mod script;
mod slow;

pub use bounded::BoundedCount;
pub use counts::count_by;
pub use holds::{HOLDS, hold_by};
pub use parcel::Parcel;
pub use script::{Call, Holder, Move, Outcome, START, Token, Told, Who, carry_out, first, second};
pub use slow::{Slow, SlowLeave, SlowQueue};
