//! How the table of a lock is made, split into passes, and taken apart.
ghost use Rattle.std.specs.Prelude.{◌≡◌, ◌<◌, ◌≤◌, [], false, IfOk, IfErr, vec_capacity};
ghost use Rattle.lock_rules.specs.Passes.{AreAll};
ghost use Rattle.lock_rules.specs.Tokens.{badge_place};
ghost use Rattle.lock_rules.specs.Views.{first_view, lock_name};
ghost use Rattle.lock_rules.specs.declared.view.Phase.TheVariants.{Idle};
ghost use Rattle.lock_tables.specs.Numbers.{passes_of};
ghost use Rattle.lock_tables.specs.Seats.{IsSized};

use crate::cuts::{Cut, Glue};
use crate::rule::{Disciplined, QueueRule};
use atomic_table::{Seat, Shared, Table};
use lock_rules::{Cargo, Opening, Pass, Refused, View, Waiters};
use std::alloc::{AllocFailed, Global};
use std::snapshot::Snapshot;

/// The words and the slot of a lock with this algorithm.
pub(crate) type Words<V, D> = Shared<Option<V>, View, Opening<V>, QueueRule<D>>;

/// The table of a lock with this algorithm.
pub(crate) type LockTable<V, D> = Table<Option<V>, View, Opening<V>, QueueRule<D>, Global>;

/// The table with the value at home and its words as at the start, and its first seat.
pub(crate) fn new_table<V: Cargo, D: Disciplined>(
    alloc: Global,
    words: &[u64],
    waiters: Waiters,
    passes: u32,
    value: V,
) -> Result<(LockTable<V, D>, Seat<Option<V>, View>), Refused<V>>
    requires words { words.now ≡ D.discipline.opens passes }
    requires some { 0 < passes }
    requires fit { V.fit value }
    requires unparked { V.parked value ≡ false }
    ensures size { IfOk result (λ t. IsSized D.discipline.algorithm passes t.0.shared.table_id) }
    ensures passes { IfOk result (λ t. t.0.shared.key.passes ≡ passes) }
    ensures waiters { IfOk result (λ t. t.0.shared.key.waiters ≡ waiters) }
    ensures value { IfOk result (λ t. t.0.shared.key.value.value ≡ value) }
    ensures table { IfOk result (λ t. t.1.table_id ≡ t.0.shared.table_id) }
    ensures seat { IfOk result (λ t. t.1.me ≡ (first_view D.discipline.algorithm waiters passes (V.tag value), [])) }
    ensures refused { IfErr result (λ r. r.value ≡ value) }
{
    D::is_disciplined();
    let about = Opening {
        passes,
        waiters,
        value: Snapshot::of(&value),
    };
    let mut slots = Vec::new(alloc);
    if let Err(failed) = slots.push(Some(value)) {
        let AllocFailed { value } = failed;
        let Some(value) = value else { unreachable!() };
        return Err(Refused { value });
    }
    match Table::new(alloc, words, slots, &about) {
        Ok(made) => Ok(made),
        Err(refused) => {
            let mut slots = refused.slots;
            let Some(Some(value)) = slots.pop() else {
                unreachable!()
            };
            Err(Refused { value })
        }
    }
}

/// Splits off the passes in the order of their numbers. The first seat is that of the last one.
pub(crate) fn split_passes<V: Cargo, D: Disciplined>(
    words: &Words<V, D>,
    mut seat: Seat<Option<V>, View>,
    passes: u32,
    room: Vec<Pass>,
) -> Vec<Pass>
    requires size { IsSized D.discipline.algorithm passes words.now.table_id }
    requires some { 0 < passes }
    requires key { words.now.key.passes ≡ passes }
    requires table { seat.table_id ≡ words.now.table_id }
    requires seat { seat.me ≡ (first_view D.discipline.algorithm words.now.key.waiters passes (V.tag words.now.key.value.value), []) }
    requires room { (room.items ≡ []) × (passes ≤ vec_capacity room) }
    ensures { AreAll (λ p. badge_place p.badge) (lock_name D.discipline.algorithm words.now.key.waiters words.now.table_id)
        (V.tag words.now.key.value.value) passes result.items }
{
    D::is_disciplined();
    let mut list = room;
    for number in 0..passes - 1 {
        let next = words.split_seat::<Cut>(&mut seat);
        let Ok(()) = list.push(Pass::of(next, u64::from(number))) else {
            unreachable!()
        };
    }
    let Ok(()) = list.push(Pass::of(seat, u64::from(passes - 1))) else {
        unreachable!()
    };
    list
}

/// Joins all passes into one seat.
pub(crate) fn join_passes<V: Cargo, D: Disciplined>(
    words: &Words<V, D>,
    mut passes: Vec<Pass>,
) -> Seat<Option<V>, View>
    requires lined { 0 < words.now.table_id.words }
    requires some { 0 < words.now.key.passes }
    requires all { AreAll (λ p. badge_place p.badge) (lock_name D.discipline.algorithm words.now.key.waiters words.now.table_id)
        (V.tag words.now.key.value.value) words.now.key.passes passes.items }
    ensures table { result.table_id ≡ words.now.table_id }
    ensures idle { result.me.0.phase ≡ Idle }
    ensures silent { result.me.0.announced ≡ false }
    ensures all { passes_of result.me.0 ≡ words.now.key.passes }
{
    D::is_disciplined();
    let Some(pass) = passes.pop() else {
        unreachable!()
    };
    let (mut seat, _) = pass.into_parts();
    while let Some(pass) = passes.pop() {
        let (other, _) = pass.into_parts();
        words.join_seat::<Glue>(&mut seat, other);
    }
    seat
}

/// Takes the value out of a table whose passes are all in one seat.
pub(crate) fn into_value<V: Cargo, D: Disciplined>(
    table: LockTable<V, D>,
    seat: Seat<Option<V>, View>,
) -> V
    requires table { seat.table_id ≡ table.shared.table_id }
    requires one_slot { table.shared.table_id.slots ≡ 1 }
    requires idle { seat.me.0.phase ≡ Idle }
    requires silent { seat.me.0.announced ≡ false }
    requires all { passes_of seat.me.0 ≡ table.shared.key.passes }
    ensures fit { V.fit result }
    ensures tagged { V.tag result ≡ V.tag table.shared.key.value.value }
    ensures unparked { V.parked result ≡ false }
{
    D::is_disciplined();
    let mut closed = table.close_with(seat);
    let slot = closed.take(0);
    closed.free();
    let Some(value) = slot else { unreachable!() };
    value
}
