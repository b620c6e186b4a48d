//! The steps by which a lock counts its waiters. A lock that doesn't count makes none of them.
ghost use Rattle.std.specs.Prelude.{◌≡◌, ◌<◌, true, false};
ghost use Rattle.lock_rules.specs.Rows.{waiting};
ghost use Rattle.lock_rules.specs.Views.{is_counted};
ghost use Rattle.lock_rules.specs.declared.view.Phase.TheVariants.{Idle, Holding};
ghost use Rattle.lock_tables.specs.Counting.{is_announced, Announced, Withdrawn, Counted, HasAnnounced, HasWithdrawn};
ghost use Rattle.lock_tables.specs.Happened.{announced_view, withdrawn_view};

use crate::rule::Disciplined;
use crate::table::Words;
use atomic_table::{Play, Seat};
use lock_rules::{Cargo, View, Waiters};
use std::marker::PhantomData;

const WAITING: usize = 0;

/// The addition to `waiting`, by which a pass is announced.
pub struct AddWaiting<D>(PhantomData<D>);

impl<V: Cargo, D: Disciplined> Play<Option<V>, View> for AddWaiting<D> {
    ghost then = { λ _. Announced D.discipline V.fit V.tag V.parked };
}

/// The subtraction from `waiting`, by which a holder is no longer announced.
pub struct SubtractWaiting<D>(PhantomData<D>);

impl<V: Cargo, D: Disciplined> Play<Option<V>, View> for SubtractWaiting<D> {
    ghost then = { λ _. Withdrawn D.discipline V.fit V.tag V.parked };
}

/// The load of `waiting`, by which a holder learns of waiters.
pub struct LoadWaiting<D>(PhantomData<D>);

impl<V: Cargo, D: Disciplined> Play<Option<V>, View> for LoadWaiting<D> {
    ghost then = { λ _. Counted D.discipline V.fit V.tag V.parked };
}

/// Announces a pass, before the steps by which it enters the queue, where the lock counts its waiters.
pub(crate) fn announce<V: Cargo, D: Disciplined>(
    words: &Words<V, D>,
    waiters: Waiters,
    seat: &mut Seat<Option<V>, View>,
)
    requires lined { 0 < words.now.table_id.words }
    requires key { words.now.key.waiters ≡ waiters }
    requires table { seat.old.table_id ≡ words.now.table_id }
    requires chosen { seat.old.me.0.waiters ≡ waiters }
    requires idle { seat.old.me.0.phase ≡ Idle }
    requires unspent { seat.old.me.0.spent ≡ false }
    requires silent { seat.old.me.0.announced ≡ false }
    ensures table { seat.new.table_id ≡ seat.old.table_id }
    ensures did { HasAnnounced D.discipline V.fit V.tag V.parked waiters seat.old.me seat.new.me }
    ensures seat { seat.new.me ≡ (announced_view seat.old.me.0, seat.old.me.1) }
{
    match waiters {
        Waiters::Queue => {}
        Waiters::Count => add_waiting(words, seat),
    }
}

fn add_waiting<V: Cargo, D: Disciplined>(words: &Words<V, D>, seat: &mut Seat<Option<V>, View>)
    requires lined { 0 < words.now.table_id.words }
    requires key { is_counted words.now.key.waiters ≡ true }
    requires table { seat.old.table_id ≡ words.now.table_id }
    requires chosen { is_counted seat.old.me.0.waiters ≡ true }
    requires idle { seat.old.me.0.phase ≡ Idle }
    requires unspent { seat.old.me.0.spent ≡ false }
    requires silent { seat.old.me.0.announced ≡ false }
    ensures table { seat.new.table_id ≡ seat.old.table_id }
    ensures did { HasAnnounced D.discipline V.fit V.tag V.parked words.now.key.waiters seat.old.me seat.new.me }
{
    D::is_disciplined();
    words.fetch_add::<AddWaiting<D>>(seat, WAITING, 1);
}

/// Lowers the count again, as the last step of a call that has taken, where the lock counts its waiters.
pub(crate) fn withdraw<V: Cargo, D: Disciplined>(
    words: &Words<V, D>,
    waiters: Waiters,
    seat: &mut Seat<Option<V>, View>,
)
    requires lined { 0 < words.now.table_id.words }
    requires key { words.now.key.waiters ≡ waiters }
    requires table { seat.old.table_id ≡ words.now.table_id }
    requires chosen { seat.old.me.0.waiters ≡ waiters }
    requires holds { seat.old.me.0.phase ≡ Holding }
    requires unspent { seat.old.me.0.spent ≡ false }
    requires told { seat.old.me.0.announced ≡ is_counted seat.old.me.0.waiters }
    ensures table { seat.new.table_id ≡ seat.old.table_id }
    ensures did { HasWithdrawn D.discipline V.fit V.tag V.parked waiters seat.old.me seat.new.me }
    ensures seat { seat.new.me ≡ (withdrawn_view seat.old.me.0, seat.old.me.1) }
{
    match waiters {
        Waiters::Queue => {}
        Waiters::Count => subtract_waiting(words, seat),
    }
}

fn subtract_waiting<V: Cargo, D: Disciplined>(words: &Words<V, D>, seat: &mut Seat<Option<V>, View>)
    requires lined { 0 < words.now.table_id.words }
    requires key { is_counted words.now.key.waiters ≡ true }
    requires table { seat.old.table_id ≡ words.now.table_id }
    requires holds { seat.old.me.0.phase ≡ Holding }
    requires unspent { seat.old.me.0.spent ≡ false }
    requires told { seat.old.me.0.announced ≡ true }
    ensures table { seat.new.table_id ≡ seat.old.table_id }
    ensures did { HasWithdrawn D.discipline V.fit V.tag V.parked words.now.key.waiters seat.old.me seat.new.me }
{
    D::is_disciplined();
    words.fetch_sub::<SubtractWaiting<D>>(seat, WAITING, 1);
}

/// How many passes are announced, for a holder of a lock that counts its waiters.
pub(crate) fn count_waiting<V: Cargo, D: Disciplined>(
    words: &Words<V, D>,
    seat: &mut Seat<Option<V>, View>,
) -> u64
    requires lined { 0 < words.now.table_id.words }
    requires table { seat.old.table_id ≡ words.now.table_id }
    requires holds { seat.old.me.0.phase ≡ Holding }
    requires unspent { seat.old.me.0.spent ≡ false }
    requires silent { seat.old.me.0.announced ≡ false }
    ensures table { seat.new.table_id ≡ seat.old.table_id }
    ensures step { Counted D.discipline V.fit V.tag V.parked seat.old.me result seat.new.me }
{
    D::is_disciplined();
    words.load::<LoadWaiting<D>>(seat, WAITING)
}
