//! The CLH lock's part of the rule.
ghost use Rattle.clh_lock.specs.Rule.{clh_discipline};

use lock_tables::Disciplined;

/// The words `tail` and the flags, and the nodes of the passes.
pub struct ClhWords;

impl Disciplined for ClhWords {
    ghost discipline = { clh_discipline };

    #[tactic(auto, using(crate::proofs::Queue::disciplined))]
    fn is_disciplined() {}
}
