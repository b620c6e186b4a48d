//! The kinds of step on the words of a CLH lock, but for `waiting`.
ghost use Rattle.clh_lock.specs.Kinds.{store_pending, fetch_and_store_tail, load_watched, load_tail, store_granted};

use crate::laws::ClhWords;
use lock_tables::KindOf;

/// The store of own flag, by which a pass makes its node pending for its swap.
pub struct StorePending;

impl KindOf<ClhWords> for StorePending {
    ghost kind = { store_pending };

    #[tactic(auto, using(crate::proofs::Kept::raises))]
    fn is_kept() {}
}

/// The swap of `tail`, by which a pass enters the queue.
pub struct FetchAndStoreTail;

impl KindOf<ClhWords> for FetchAndStoreTail {
    ghost kind = { fetch_and_store_tail };

    #[tactic(auto, using(crate::proofs::Kept::swaps))]
    fn is_kept() {}
}

/// The load of the predecessor's flag, by which a pass takes where it is granted.
pub struct LoadWatched;

impl KindOf<ClhWords> for LoadWatched {
    ghost kind = { load_watched };

    #[tactic(auto, using(crate::proofs::Kept::polls))]
    fn is_kept() {}
}

/// The load of `tail`, by which a holder learns of waiters.
pub struct LoadTail;

impl KindOf<ClhWords> for LoadTail {
    ghost kind = { load_tail };

    #[tactic(auto, using(crate::proofs::Kept::waits))]
    fn is_kept() {}
}

/// The store of own flag, by which a holder grants its node and leaves the queue.
pub struct StoreGranted;

impl KindOf<ClhWords> for StoreGranted {
    ghost kind = { store_granted };

    #[tactic(auto, using(crate::proofs::Kept::gives_back))]
    fn is_kept() {}
}
