//! The kinds of step on the words of a Ticket lock.
ghost use Rattle.ticket_lock.specs.Kinds.{add_next, load_serving, load_next, store_serving};

use crate::laws::TicketWords;
use lock_tables::KindOf;

/// The addition to `next`, by which a pass enters the queue.
pub struct AddNext;

impl KindOf<TicketWords> for AddNext {
    ghost kind = { add_next };

    #[tactic(auto, using(crate::proofs::Kept::adds))]
    fn is_kept() {}
}

/// The load of `serving`, by which a pass takes where it is its turn.
pub struct LoadServing;

impl KindOf<TicketWords> for LoadServing {
    ghost kind = { load_serving };

    #[tactic(auto, using(crate::proofs::Kept::polls))]
    fn is_kept() {}
}

/// The load of `next`, by which a holder learns of waiters.
pub struct LoadNext;

impl KindOf<TicketWords> for LoadNext {
    ghost kind = { load_next };

    #[tactic(auto, using(crate::proofs::Kept::waits))]
    fn is_kept() {}
}

/// The store of `serving`, by which a holder leaves the queue.
pub struct StoreServing;

impl KindOf<TicketWords> for StoreServing {
    ghost kind = { store_serving };

    #[tactic(auto, using(crate::proofs::Kept::gives_back))]
    fn is_kept() {}
}
