//! The Ticket lock: a pass draws a number, and holds the lock while its number is served.
//!
//! It is the ticket lock of Mellor-Crummey and Scott, "Algorithms for Scalable Synchronization on Shared-Memory Multiprocessors", ACM
//! Transactions on Computer Systems 9(1), 1991, section 2.2, without its back-off in proportion to the distance:
//!
//! ```text
//! acquire   my_ticket := fetch_and_increment(next_ticket)      begin           fetch_add::<AddNext>
//!           repeat until now_serving = my_ticket               poll, once      load::<LoadServing>
//! release   now_serving := my_ticket + 1                       begin_release   store::<StoreServing>
//! ```
//!
//! The waiter test, by which a holder learns whether a ticket behind its own is drawn, is that of Chehab and others, "CLoF: A Compositional
//! Lock Framework for Multi-level NUMA Systems", SOSP 2021: `waiter`, `load::<LoadNext>`. The value is taken out of its slot behind the
//! load that showed the ticket, and put back before the store. Each step is a sequentially consistent operation on one word; tickets count
//! modulo 2^64.
//!
//! The two words stand on lines of their own in one `LockWords`. `specs/Rule` says what holds of them, `specs/Kinds` has the kinds of step:
//! the word, what a step does to it and to the view of its seat, and its event in the queue.
#![tactic(auto)]

mod kinds;
mod laws;
mod lock;

pub use kinds::{AddNext, LoadNext, LoadServing, StoreServing};
pub use laws::TicketWords;
pub use lock::Ticket;
