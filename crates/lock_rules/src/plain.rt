//! A value without conditions.
ghost use Rattle.std.specs.Prelude.{◌≡◌, false};
ghost use Rattle.lock_rules.specs.Tag.{leaf};
ghost use Rattle.lock_rules.specs.declared.step.Answer.TheVariants.{Open};

use crate::cargo::Cargo;

/// Any value as what a lock keeps: it may always be put back, is never parked, and keeps no answer.
#[derive(Drop)]
pub struct Plain<T> {
    pub value: T,
}

impl<T: Drop> Cargo for Plain<T> {
    ghost tag = { λ _. leaf 0 };

    ghost fit = { λ _. Unit {0} };

    ghost parked = { λ _. false };

    ghost said = { λ _. Open };

    fn parked(&self) -> bool {
        false
    }
}
