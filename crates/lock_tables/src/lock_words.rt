//! The words of a lock, which no other crate can look at but by the calls of `LockWords`.
ghost use Rattle.std.specs.Prelude.{◌≡◌, ◌<◌, ◌≤◌};
ghost use Rattle.crossbeam_utils.specs.Padded.{padded_value};
ghost use Rattle.lock_tables.specs.Seats.{longest_row};

use crate::rule::Disciplined;
use crate::table::LockTable;
use crossbeam_utils::CachePadded;
use lock_rules::{Cargo, Waiters};

/// The words of a lock with this algorithm, and its slot.
#[derive(Drop)]
pub struct LockWords<V: Cargo, D: Disciplined> {
    pub(crate) table: CachePadded<LockTable<V, D>>,
    pub(crate) waiters: Waiters,
    ghost lined: { 0 < (padded_value table).shared.table_id.words },
    ghost few: { (padded_value table).shared.table_id.words ≤ longest_row },
    ghost one_slot: { (padded_value table).shared.table_id.slots ≡ 1 },
    ghost used: { 0 < (padded_value table).shared.key.passes },
    pub ghost chosen: { (padded_value table).shared.key.waiters ≡ waiters },
}
