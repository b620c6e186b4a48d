//! What the token of a holder means, how it is made of a seat, and the loan of its value.
ghost use Rattle.std.specs.Prelude.{◌≡◌, [], ◌∷◌, None, false};
ghost use Rattle.lock_rules.specs.Holders.{holder_of, with_value};
ghost use Rattle.lock_rules.specs.Rows.{IsRowOf};
ghost use Rattle.lock_rules.specs.Views.{IsPlain, mark_of};
ghost use Rattle.lock_rules.specs.declared.view.Phase.TheVariants.{Holding};

use crate::held::{Held, HeldSeat};
use crate::token::Holding;
use crate::view::View;
use atomic_table::Seat;

impl<V: Drop> Holding<V> for Held<V> {
    ghost holder = { holder_of };

    ghost put = { with_value };

    fn value(&self) -> &V {
        &self.value
    }

    fn value_mut(&mut self) -> &mut V {
        &mut self.value
    }
}

impl<V> Held<V> {
    /// The token of a seat that has taken the slot, with the value that was in it.
    pub fn of(seat: Seat<Option<V>, View>, value: V, mark: u64, predecessor: u64) -> Held<V>
        requires holds { seat.me.0.phase ≡ Holding }
        requires plain { IsPlain seat.me.0 }
        requires silent { seat.me.0.announced ≡ false }
        requires row { IsRowOf seat.me.0 seat.table_id }
        requires carries { seat.me.1 ≡ (0, None) ∷ [] }
        requires marked { mark ≡ mark_of seat.me.0 }
        requires behind { predecessor ≡ seat.me.0.predecessor }
        ensures seat { result.seat.seat ≡ seat }
        ensures value { result.value ≡ value }
        ensures marks { (result.seat.mark ≡ mark) × (result.seat.predecessor ≡ predecessor) }
    {
        let seat = HeldSeat {
            seat,
            mark,
            predecessor,
        };
        Held { seat, value }
    }

    /// The seat of the holder, its value, its mark and its predecessor.
    pub fn into_parts(self) -> (Seat<Option<V>, View>, V, u64, u64)
        ensures seat { result.0 ≡ self.seat.seat }
        ensures value { result.1 ≡ self.value }
        ensures marks { (result.2 ≡ self.seat.mark) × (result.3 ≡ self.seat.predecessor) }
    {
        let Held { seat, value } = self;
        let HeldSeat {
            seat,
            mark,
            predecessor,
        } = seat;
        (seat, value, mark, predecessor)
    }
}
