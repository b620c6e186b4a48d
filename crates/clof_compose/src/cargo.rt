//! How a root stands at home in the top lock.
ghost use Rattle.std.specs.Prelude.{false};
ghost use Rattle.lock_rules.specs.declared.step.Answer.TheVariants.{Open};
ghost use Rattle.clof_compose.specs.Roots.{root_tag, IsFit};

use crate::root::Root;
use lock_rules::{Cargo, Payload};

impl<P: Payload> Cargo for Root<P> {
    ghost tag = { root_tag P.tag };

    ghost fit = { IsFit P.calls };

    ghost parked = { λ _. false };

    ghost said = { λ _. Open };

    fn parked(&self) -> bool {
        false
    }
}
