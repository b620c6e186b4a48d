//! The MCS lock's part of the rule.
ghost use Rattle.mcs_lock.specs.Rule.{mcs_discipline};

use lock_tables::Disciplined;

/// The word `tail`, and the words `next` and `locked` of each pass.
pub struct McsWords;

impl Disciplined for McsWords {
    ghost discipline = { mcs_discipline };

    #[tactic(auto, using(crate::proofs::Queue::disciplined))]
    fn is_disciplined() {}
}
