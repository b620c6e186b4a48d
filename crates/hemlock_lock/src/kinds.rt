//! The kinds of step on the words of a Hemlock.
ghost use Rattle.hemlock_lock.specs.Kinds.{swap_tail, load_predecessor_grant, clear_predecessor_grant, load_tail, exchange_tail};
ghost use Rattle.hemlock_lock.specs.Kinds.{store_grant, load_grant};

use crate::laws::HemlockWords;
use lock_tables::KindOf;

/// The swap of `tail`, by which a pass enters the queue, and takes where it was empty.
pub struct SwapTail;

impl KindOf<HemlockWords> for SwapTail {
    ghost kind = { swap_tail };

    #[tactic(auto, using(crate::proofs::Kept::swaps))]
    fn is_kept() {}
}

/// The load of the predecessor's grant, by which a pass takes where it stands.
pub struct LoadPredecessorGrant;

impl KindOf<HemlockWords> for LoadPredecessorGrant {
    ghost kind = { load_predecessor_grant };

    #[tactic(auto, using(crate::proofs::Kept::polls))]
    fn is_kept() {}
}

/// The store of 0 in the predecessor's grant, which lets the predecessor go on.
pub struct ClearPredecessorGrant;

impl KindOf<HemlockWords> for ClearPredecessorGrant {
    ghost kind = { clear_predecessor_grant };

    #[tactic(auto, using(crate::proofs::Kept::clears))]
    fn is_kept() {}
}

/// The load of `tail`, by which a holder learns of waiters.
pub struct LoadTail;

impl KindOf<HemlockWords> for LoadTail {
    ghost kind = { load_tail };

    #[tactic(auto, using(crate::proofs::Kept::waits))]
    fn is_kept() {}
}

/// The exchange of `tail` from the own name to 0, by which a holder leaves where nobody is behind it.
pub struct ExchangeTail;

impl KindOf<HemlockWords> for ExchangeTail {
    ghost kind = { exchange_tail };

    #[tactic(auto, using(crate::proofs::Kept::exchanges))]
    fn is_kept() {}
}

/// The store of 1 in the own grant, by which a holder leaves the queue to the one behind it.
pub struct StoreGrant;

impl KindOf<HemlockWords> for StoreGrant {
    ghost kind = { store_grant };

    #[tactic(auto, using(crate::proofs::Kept::grants))]
    fn is_kept() {}
}

/// The load of the own grant, behind which a pass is idle where it is cleared.
pub struct LoadGrant;

impl KindOf<HemlockWords> for LoadGrant {
    ghost kind = { load_grant };

    #[tactic(auto, using(crate::proofs::Kept::looks))]
    fn is_kept() {}
}
