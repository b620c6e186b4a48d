//! The token of a holder, which is one for all four locks.
ghost use Rattle.std.specs.Prelude.{◌≡◌, [], ◌∷◌, None, false};
ghost use Rattle.std.specs.Borrow.{Lends, sem};
ghost use Rattle.lock_rules.specs.Rows.{IsRowOf};
ghost use Rattle.lock_rules.specs.Views.{IsPlain, mark_of};
ghost use Rattle.lock_rules.specs.declared.view.Phase.TheVariants.{Holding};

use crate::view::View;
use atomic_table::Seat;

/// The seat of a holder, with the slot in hand. `mark` is the number by which the lock's words name the holder: its ticket, its pass's
/// number or its node. `predecessor` is the word that its last swap of the tail found, which CLH makes the holder's own node at the
/// release.
#[derive(Drop)]
pub struct HeldSeat<V> {
    pub seat: Seat<Option<V>, View>,
    pub mark: u64,
    pub predecessor: u64,
    pub ghost holds: { seat.me.0.phase ≡ Holding },
    pub ghost plain: { IsPlain seat.me.0 },
    pub ghost silent: { seat.me.0.announced ≡ false },
    pub ghost row: { IsRowOf seat.me.0 seat.table_id },
    pub ghost carries: { seat.me.1 ≡ (0, None) ∷ [] },
    pub ghost marked: { mark ≡ mark_of seat.me.0 },
    pub ghost behind: { predecessor ≡ seat.me.0.predecessor },
}

/// The token of the holder of any of the four locks, with the lock's value.
#[derive(Drop)]
pub struct Held<V> {
    pub seat: HeldSeat<V>,
    pub value: V,
}
