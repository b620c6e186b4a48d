//! What the token of a pass that leaves means, and how it is made of a seat.
ghost use Rattle.std.specs.Prelude.{◌≡◌, false};
ghost use Rattle.lock_rules.specs.Hands.{is_full, keeps_slot, phase_left};
ghost use Rattle.lock_rules.specs.Leaves.{LeaveRests, leave_waiting};
ghost use Rattle.lock_rules.specs.Rows.{IsRowOf};
ghost use Rattle.lock_rules.specs.Views.{IsPlain, mark_of};

use crate::cargo::Cargo;
use crate::leave::Leave;
use crate::token::Departing;
use crate::view::View;
use atomic_table::Seat;

impl<V: Cargo> Departing for Leave<V> {
    ghost waiting = { leave_waiting };

    ghost rests = { LeaveRests V.fit V.tag V.parked };
}

impl<V> Leave<V> {
    /// The token of a seat that leaves, and its mark.
    pub fn of(seat: Seat<Option<V>, View>, mark: u64) -> Leave<V>
        requires leaves { seat.me.0.phase ≡ phase_left seat.me.0.algorithm }
        requires plain { IsPlain seat.me.0 }
        requires silent { seat.me.0.announced ≡ false }
        requires row { IsRowOf seat.me.0 seat.table_id }
        requires hand { keeps_slot seat.me.0.algorithm ≡ is_full seat.me.1 }
        requires marked { mark ≡ mark_of seat.me.0 }
        ensures seat { result.seat ≡ seat }
        ensures mark { result.mark ≡ mark }
    {
        Leave { seat, mark }
    }

    /// The seat of the pass, and its mark.
    pub fn into_parts(self) -> (Seat<Option<V>, View>, u64)
        ensures seat { result.0 ≡ self.seat }
        ensures mark { result.1 ≡ self.mark }
    {
        let Leave { seat, mark } = self;
        (seat, mark)
    }
}
