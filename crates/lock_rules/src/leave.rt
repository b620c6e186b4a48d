//! The token of a pass that leaves, which is one for all four locks.
ghost use Rattle.std.specs.Prelude.{◌≡◌, false};
ghost use Rattle.lock_rules.specs.Hands.{is_full, keeps_slot, phase_left};
ghost use Rattle.lock_rules.specs.Rows.{IsRowOf};
ghost use Rattle.lock_rules.specs.Views.{IsPlain, mark_of};

use crate::view::View;
use atomic_table::Seat;

/// A pass that leaves, and may not be used again yet. One of MCS still holds: it has the slot in hand, with the value back in it. One of
/// Hemlock has an empty hand, and its grant isn't known to be cleared. The release of the others is done with its first call, so they give
/// none; theirs are of a pass that has left, because the contract of a call that takes one must be met by some call. `mark` is the number
/// by which the lock's words name the pass.
#[derive(Drop)]
pub struct Leave<V> {
    pub seat: Seat<Option<V>, View>,
    pub mark: u64,
    pub ghost leaves: { seat.me.0.phase ≡ phase_left seat.me.0.algorithm },
    pub ghost plain: { IsPlain seat.me.0 },
    pub ghost silent: { seat.me.0.announced ≡ false },
    pub ghost row: { IsRowOf seat.me.0 seat.table_id },
    pub ghost hand: { keeps_slot seat.me.0.algorithm ≡ is_full seat.me.1 },
    pub ghost marked: { mark ≡ mark_of seat.me.0 },
}
