//! The CLH lock: a pass queues by swapping its node into `tail`, and holds the lock once the node before its own is granted.
//!
//! It is the queue lock of Craig, "Building FIFO and Priority-Queuing Spin Locks from Atomic Swap", technical report 93-02-02,
//! University of Washington, 1993, and of Magnussen, Landin and Hagersten, "Queue Locks on Cache Coherent Multiprocessors",
//! 8th International Parallel Processing Symposium, 1994:
//!
//! ```text
//! request   myreq.state := PENDING                 begin           store::<StorePending>
//!           watch := fetch_and_store(tail, myreq)                  swap::<FetchAndStoreTail>
//!           repeat until watch.state = GRANTED     poll, once      load::<LoadWatched>
//! grant     myreq.state := GRANTED                 begin_release   store::<StoreGranted>
//!           myreq := watch
//! ```
//!
//! A lock with n passes has the nodes 0 to n, each with a flag that is its state: 1 is pending and 0 granted. The pass p starts with
//! the node p, and `tail` with the node n. A pass that leaves goes on with the node that it watched, its predecessor's, so the node
//! that it leaves behind can still be watched.
//!
//! The waiter test, by which a holder learns whether `tail` still is its own node, is that of Chehab and others, "CLoF: A
//! Compositional Lock Framework for Multi-level NUMA Systems", SOSP 2021: `waiter`, `load::<LoadTail>`. The value is taken out of its
//! slot behind the load that showed the flag granted, and put back before the store. Each step is a sequentially consistent operation
//! on one word.
//!
//! In a lock that counts its waiters, `begin` adds 1 to the word `waiting` before its other steps, a `poll` that takes subtracts 1 from it
//! as its last step, and `waiter` loads it in place of `tail`. These three steps are those of `lock_tables`.
//!
//! `waiting`, `tail` and the flags stand on lines of their own in one `LockWords`. `specs/Rule` says what holds of `tail` and the flags,
//! `specs/Kinds` has the kinds of step: the word, what a step does to it and to the view of its seat, and its event in the queue.
#![tactic(auto)]

mod kinds;
mod laws;
mod lock;

pub use kinds::{FetchAndStoreTail, LoadTail, LoadWatched, StoreGranted, StorePending};
pub use laws::ClhWords;
pub use lock::Clh;
