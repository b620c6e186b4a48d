//! How a node's value stands at home, and the loan of the root that it leads to.
ghost use Rattle.std.specs.Prelude.{◌≡◌, true, Some};
ghost use Rattle.std.specs.Borrow.{Lends, sem};
ghost use Rattle.boxed_value.specs.contracts.Boxed.{the_row as the_boxed_row};
ghost use Rattle.lock_rules.specs.Views.{answer_of};
ghost use Rattle.clof_compose.specs.Levels.{kept_stand, high_with_root, IsStanding};
ghost use Rattle.clof_compose.specs.Owns.{own_tag_of, is_kept, IsOwnFit};
ghost use Rattle.clof_compose.specs.Roots.{IsKept};
ghost use Rattle.clof_compose.specs.declared.root.Root.{Root as TheRoot};
ghost use Rattle.clof_compose.specs.contracts.own.High.{the_row as the_high_row};
ghost use Rattle.clof_compose.specs.contracts.root.Root.{the_row as the_root_row};

use crate::own::{High, Own};
use crate::root::Root;
use crate::token::{Resting, Standing};
use boxed_value::Boxed;
use lock_rules::{Cargo, Payload};

impl<P: Payload, Pass: Resting, Held: Standing<P>> Cargo for Own<P, Pass, Held> {
    ghost tag = { λ o. own_tag_of Pass.rest Held.stand o.node o.high };

    ghost fit = { λ o. IsOwnFit Pass.rest Held.stand P.calls P.tag Held.stands o.node o.kept o.said o.high };

    ghost parked = { λ o. is_kept Pass.rest Held.stand o.high };

    ghost said = { λ o. answer_of o.said };

    fn parked(&self) -> bool {
        matches!(self.high.get(), High::Kept(_))
    }
}

/// Lends the root that is reached from a kept high lock.
pub(crate) fn kept_root<P: Payload, Pass: Drop, Held: Standing<P>>(
    high: &mut Boxed<High<Pass, Held>>,
) -> &mut Root<P>
    requires stands { IsStanding Held.stands high.old }
    ensures* writes_back { sem 𝓛 (Lends (the_boxed_row (the_high_row Pass.row Held.row)) (the_root_row P.row) high.entry result
        (high_with_root Held.put_root high.old)) }
    ensures value { (kept_stand Held.stand high.old).root ≡ Some result.now }
    ensures others { (r : TheRoot P) → kept_stand Held.stand (high_with_root Held.put_root high.old r) ≡ record
        (kept_stand Held.stand high.old) { root = Some r } }
    ensures stays { (r : TheRoot P) → IsKept P.calls (kept_stand Held.stand high.old).context.level result.now r
        → IsStanding Held.stands (high_with_root Held.put_root high.old r) }
{
    match high.get_mut() {
        High::Kept(held) => held.root(),
        _ => unreachable!(),
    }
}
