//! The MCS lock: a pass queues behind the one that it finds at the tail, waits on a word of its own, and is let go on by the pass before.
//!
//! It is the list-based queuing lock of Mellor-Crummey and Scott, "Algorithms for Scalable Synchronization on Shared-Memory
//! Multiprocessors", ACM Transactions on Computer Systems 9(1), 1991, figure 5. `I` is the record of a pass, a line with its `next` and its
//! `locked`; `L` is the tail:
//!
//! ```text
//! acquire   I->next := nil                                     begin           store::<StoreNext>
//!           I->locked := true                                                  store::<StoreLocked>
//!           predecessor := fetch_and_store (L, I)                              swap::<FetchAndStoreTail>
//!           if predecessor != nil
//!               predecessor->next := I                                         store::<StorePredecessorNext>
//!               repeat while I->locked                         poll, once      load::<LoadLocked>
//! release   if I->next = nil                                   begin_release   load::<LoadNext>
//!               if compare_and_swap (L, I, nil) return                         compare_exchange::<CompareAndSwapTail>
//!               repeat while I->next = nil                     poll_release    load::<LoadNext>
//!           I->next->locked := false                           either          store::<StoreSuccessorLocked>
//! ```
//!
//! `locked` is stored before the swap, where the paper stores it behind, so that each pass of the queue but the first has it at 1 from its
//! swap on. The waiter test, by which a holder learns whether the tail names another, is that of Chehab and others, "CLoF: A Compositional
//! Lock Framework for Multi-level NUMA Systems", SOSP 2021: `waiter`, `load::<LoadTail>`. The value is taken out of its slot behind the
//! step that found no predecessor or `locked` at 0, and put back before the steps of the release. Each step is a sequentially consistent
//! operation on one word.
//!
//! A lock that counts its waiters has one word more, `waiting`, which `begin` raises by one before its other steps, the call that takes
//! lowers by one behind the take, and `waiter` loads in place of the tail.
//!
//! The tail and the records stand on lines of their own in one `LockWords`. `specs/Rule` says what holds of them, `specs/Kinds` has the
//! kinds of step, `specs/Calls` what each call did.
#![tactic(auto)]

mod kinds;
mod laws;
mod lock;
mod records;

pub use kinds::{
    CompareAndSwapTail, FetchAndStoreTail, LoadLocked, LoadNext, LoadTail, StoreLocked, StoreNext,
    StorePredecessorNext, StoreSuccessorLocked,
};
pub use laws::McsWords;
pub use lock::Mcs;
