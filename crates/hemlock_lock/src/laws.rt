//! Hemlock's part of the rule.
ghost use Rattle.hemlock_lock.specs.Rule.{hemlock_discipline};

use lock_tables::Disciplined;

/// The word `tail`, the grants, and the names that the passes in the queue have of one another.
pub struct HemlockWords;

impl Disciplined for HemlockWords {
    ghost discipline = { hemlock_discipline };

    #[tactic(auto, using(crate::proofs::Queue::disciplined))]
    fn is_disciplined() {}
}
