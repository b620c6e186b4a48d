//! The contract of a basic lock: a queue lock that keeps one value and hands it to one holder at a time.
//!
//! A thread takes part by a pass. `Basic::begin` enters the queue, `poll` asks once whether the pass is its head and then takes the value
//! out, `begin_release` puts the value back and leaves the queue. Each of these calls makes a bounded number of atomic steps; only
//! `acquire` and `release` wait. What a token means (which lock and pass it is of, what its last load showed) stands in traits of the
//! tokens, so that no token names the type of a lock.
//!
//! For those who write a lock there are what its table's seats know (`View`), the tokens that all locks share (`Pass`, `Queue`, `Held`,
//! `Leave`), the key that its table is told (`Opening`), and how its words lie in lines (`specs/Rows`). The crate `lock_tables` has the
//! rule that stands on these.
#![tactic(auto)]

mod basic;
mod cargo;
mod departing;
mod held;
mod holder;
mod laws;
mod leave;
mod pauses;
mod payload;
mod plain;
mod step;
mod token;
mod tokens;
mod view;

pub use basic::Basic;
pub use cargo::Cargo;
pub use held::{Held, HeldSeat};
pub use laws::passes_are_shared;
pub use leave::Leave;
pub use pauses::Pauses;
pub use payload::Payload;
pub use plain::Plain;
pub use step::{Answer, Refused, Step};
pub use token::{Departing, Holding, Placed, Queueing};
pub use tokens::{Pass, Queue};
pub use view::{Algorithm, Opening, Phase, Tagged, View, Waiters};
