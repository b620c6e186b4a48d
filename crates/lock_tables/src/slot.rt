//! The value in a slot that a seat has in hand.
ghost use Rattle.std.specs.Prelude.{◌≡◌, ◌∷◌, [], Some, None};
ghost use Rattle.lock_tables.specs.Seats.{seat_as};

use crate::rule::Disciplined;
use crate::table::Words;
use atomic_table::Seat;
use lock_rules::{Cargo, View};

/// Takes the value out of the slot that the seat has just taken.
pub(crate) fn take<V: Cargo, D: Disciplined>(
    words: &Words<V, D>,
    seat: &mut Seat<Option<V>, View>,
) -> V
    requires table { seat.old.table_id ≡ words.now.table_id }
    requires full { (x : V) × (seat.old.me.1 ≡ (0, Some x) ∷ []) }
    ensures value { seat.old.me.1 ≡ (0, Some result) ∷ [] }
    ensures seat { seat.new ≡ seat_as seat.old seat.old.me.0 ((0, None) ∷ []) }
{
    let Some(value) = words.exchange(seat, 0, None) else {
        unreachable!()
    };
    value
}

/// Puts a value into the slot that the seat has in hand.
pub(crate) fn put<V: Cargo, D: Disciplined>(
    words: &Words<V, D>,
    seat: &mut Seat<Option<V>, View>,
    value: V,
)
    requires table { seat.old.table_id ≡ words.now.table_id }
    requires empty { seat.old.me.1 ≡ (0, None) ∷ [] }
    ensures seat { seat.new ≡ seat_as seat.old seat.old.me.0 ((0, Some value) ∷ []) }
{
    match words.exchange(seat, 0, Some(value)) {
        None => {}
        Some(_) => unreachable!(),
    }
}
