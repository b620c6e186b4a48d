//! Hemlock: a pass that leaves grants the lock to the one behind it by one word of its own, and waits until that word is cleared.
//!
//! It is the lock of Dice and Kogan, "Hemlock: Compact and Scalable Mutual Exclusion", SPAA 2021, in the form of their listing 1.
//! There `Grant` is one word a thread, which holds the address of the lock that is granted; here it is one word a pass of one lock, which
//! holds 1:
//!
//! ```text
//! Lock      pred := swap(Tail, Self)                    begin           swap::<SwapTail>
//!           if pred != null:
//!             while pred.Grant != L: pause              poll, once      load::<LoadPredecessorGrant>
//!             pred.Grant := null                        poll            store::<ClearPredecessorGrant>
//! Unlock    if cas(Tail, Self, null) != Self:           begin_release   compare_exchange::<ExchangeTail>
//!             Self.Grant := L                           begin_release   store::<StoreGrant>
//!             while Self.Grant != null: pause           poll_release    load::<LoadGrant> (and once in begin_release)
//! ```
//!
//! The waiter test, by which a holder learns whether another pass is behind it, is that of Chehab and others, "CLoF: A Compositional
//! Lock Framework for Multi-level NUMA Systems", SOSP 2021: `waiter`, `load::<LoadTail>`. A lock made with `Waiters::Count`
//! learns of waiters by a counter in place of `tail`: `begin` adds 1 to it before its other steps (`announce`), the call that takes
//! subtracts 1 as its last step (`withdraw`), and `waiter` loads it (`count_waiting`).
//!
//! The value is taken out of its slot behind the last step that enters, and put back before the first step that leaves. Each step is a
//! sequentially consistent operation on one word.
//!
//! `tail` and the grants stand on lines of their own in one `LockWords`. `specs/Rule` says what holds of them, `specs/Kinds` has the
//! kinds of step, and `specs/Calls` what each call did.
#![tactic(auto)]

mod kinds;
mod laws;
mod lock;

pub use kinds::{
    ClearPredecessorGrant, ExchangeTail, LoadGrant, LoadPredecessorGrant, LoadTail, StoreGrant,
    SwapTail,
};
pub use laws::HemlockWords;
pub use lock::Hemlock;
