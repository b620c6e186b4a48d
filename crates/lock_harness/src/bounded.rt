//! A number under a limit.
ghost use Rattle.std.specs.Prelude.{◌≡◌, ◌≤◌, false};
ghost use Rattle.lock_rules.specs.Tag.{leaf};
ghost use Rattle.lock_rules.specs.declared.step.Answer.TheVariants.{Open};

use lock_rules::Cargo;
use std::snapshot::Snapshot;

/// A number that never stands at home above its limit. It is never parked, and keeps no answer. The limit takes no bytes.
#[derive(Drop)]
pub struct BoundedCount {
    pub count: u64,
    pub limit: Snapshot<u64>,
}

impl BoundedCount {
    /// Zero, with this limit.
    pub fn new(limit: u64) -> BoundedCount
        ensures number { result.count ≡ 0 }
        ensures limit { result.limit.value ≡ limit }
    {
        BoundedCount {
            count: 0,
            limit: Snapshot::of(&limit),
        }
    }
}

impl Cargo for BoundedCount {
    ghost tag = { λ t. leaf t.limit.value };

    ghost fit = { λ t. t.count ≤ t.limit.value };

    ghost parked = { λ _. false };

    ghost said = { λ _. Open };

    fn parked(&self) -> bool {
        false
    }
}
