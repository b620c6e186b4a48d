//! The Ticket lock's part of the rule.
ghost use Rattle.ticket_lock.specs.Rule.{ticket_discipline};

use lock_tables::Disciplined;

/// The words `next` and `serving`, and the tickets of the passes in the queue.
pub struct TicketWords;

impl Disciplined for TicketWords {
    ghost discipline = { ticket_discipline };

    #[tactic(auto, using(crate::proofs::Queue::disciplined))]
    fn is_disciplined() {}
}
