//! The kinds of step on the words of an MCS lock.
ghost use Rattle.mcs_lock.specs.Kinds.{store_next, store_locked, fetch_and_store_tail, store_predecessor_next, load_locked, load_tail};
ghost use Rattle.mcs_lock.specs.Kinds.{load_next, store_successor_locked, compare_and_swap_tail};

use crate::laws::McsWords;
use lock_tables::KindOf;

/// The store of 0 in a pass's own `next`, before its swap.
pub struct StoreNext;

impl KindOf<McsWords> for StoreNext {
    ghost kind = { store_next };

    #[tactic(auto, using(crate::proofs::Kept::clears))]
    fn is_kept() {}
}

/// The store of 1 in a pass's own `locked`, before its swap.
pub struct StoreLocked;

impl KindOf<McsWords> for StoreLocked {
    ghost kind = { store_locked };

    #[tactic(auto, using(crate::proofs::Kept::raises))]
    fn is_kept() {}
}

/// The swap of `tail`, by which a pass enters the queue, and takes where it found none.
pub struct FetchAndStoreTail;

impl KindOf<McsWords> for FetchAndStoreTail {
    ghost kind = { fetch_and_store_tail };

    #[tactic(auto, using(crate::proofs::Kept::swaps))]
    fn is_kept() {}
}

/// The store of a pass's name in its predecessor's `next`.
pub struct StorePredecessorNext;

impl KindOf<McsWords> for StorePredecessorNext {
    ghost kind = { store_predecessor_next };

    #[tactic(auto, using(crate::proofs::Kept::links))]
    fn is_kept() {}
}

/// The load of a pass's own `locked`, by which it takes where it is 0.
pub struct LoadLocked;

impl KindOf<McsWords> for LoadLocked {
    ghost kind = { load_locked };

    #[tactic(auto, using(crate::proofs::Kept::polls))]
    fn is_kept() {}
}

/// The load of `tail`, by which a holder learns of waiters.
pub struct LoadTail;

impl KindOf<McsWords> for LoadTail {
    ghost kind = { load_tail };

    #[tactic(auto, using(crate::proofs::Kept::waits))]
    fn is_kept() {}
}

/// The load of a holder's own `next`, by which it learns of its successor.
pub struct LoadNext;

impl KindOf<McsWords> for LoadNext {
    ghost kind = { load_next };

    #[tactic(auto, using(crate::proofs::Kept::looks))]
    fn is_kept() {}
}

/// The store of 0 in the successor's `locked`, by which a holder leaves the queue.
pub struct StoreSuccessorLocked;

impl KindOf<McsWords> for StoreSuccessorLocked {
    ghost kind = { store_successor_locked };

    #[tactic(auto, using(crate::proofs::Kept::passes))]
    fn is_kept() {}
}

/// The exchange of `tail` from the holder's name to 0, by which it leaves the queue where it is alone in it.
pub struct CompareAndSwapTail;

impl KindOf<McsWords> for CompareAndSwapTail {
    ghost kind = { compare_and_swap_tail };

    #[tactic(auto, using(crate::proofs::Kept::exchanges))]
    fn is_kept() {}
}
