//! The rule of a basic lock whose kind is chosen when it is made.
ghost use Rattle.lock_levels.specs.AnyKinds.{lock_inside};
ghost use Rattle.lock_levels.specs.Kinds.{by_kind};
ghost use Rattle.lock_levels.specs.Ruled.{discipline_of, named_by_kind};

use crate::any_lock::AnyLock;
use crate::kinds::Kinds;
use clh_lock::Clh;
use hemlock_lock::Hemlock;
use lock_rules::Cargo;
use lock_tables::{Learner, Ruled};
use mcs_lock::Mcs;
use ticket_lock::Ticket;

impl<V: Cargo> Ruled<V> for AnyLock<V> {
    ghost discipline = { λ l. discipline_of (lock_inside l) };

    ghost table = { λ l. by_kind ⟦<Ticket<V> as Ruled<V>>⟧.table ⟦<Mcs<V> as Ruled<V>>⟧.table ⟦<Clh<V> as Ruled<V>>⟧.table
        ⟦<Hemlock<V> as Ruled<V>>⟧.table (lock_inside l) };

    ghost waiters = { λ l. by_kind ⟦<Ticket<V> as Ruled<V>>⟧.waiters ⟦<Mcs<V> as Ruled<V>>⟧.waiters ⟦<Clh<V> as Ruled<V>>⟧.waiters
        ⟦<Hemlock<V> as Ruled<V>>⟧.waiters (lock_inside l) };

    /// The witness is the words of the lock inside.
    fn show<L: Learner<V>>(&self, learner: L)
        ensures { L.learns learner (discipline_of (lock_inside self.now))
            (by_kind ⟦<Ticket<V> as Ruled<V>>⟧.table ⟦<Mcs<V> as Ruled<V>>⟧.table ⟦<Clh<V> as Ruled<V>>⟧.table
            ⟦<Hemlock<V> as Ruled<V>>⟧.table (lock_inside self.now))
            (by_kind ⟦<Ticket<V> as Ruled<V>>⟧.waiters ⟦<Mcs<V> as Ruled<V>>⟧.waiters ⟦<Clh<V> as Ruled<V>>⟧.waiters
            ⟦<Hemlock<V> as Ruled<V>>⟧.waiters (lock_inside self.now)) }
    {
        match &self.lock {
            Kinds::Ticket(lock) => lock.show(learner),
            Kinds::Mcs(lock) => lock.show(learner),
            Kinds::Clh(lock) => lock.show(learner),
            Kinds::Hemlock(lock) => lock.show(learner),
        }
    }

    ghost named = { λ l. named_by_kind ⟦<Ticket<V> as Ruled<V>>⟧.waiters ⟦<Mcs<V> as Ruled<V>>⟧.waiters ⟦<Clh<V> as Ruled<V>>⟧.waiters
        ⟦<Hemlock<V> as Ruled<V>>⟧.waiters ⟦<Ticket<V> as Ruled<V>>⟧.table ⟦<Mcs<V> as Ruled<V>>⟧.table ⟦<Clh<V> as Ruled<V>>⟧.table
        ⟦<Hemlock<V> as Ruled<V>>⟧.table (lock_inside l) };
}
