//! What a lock does with its words, but for the steps of its own algorithm.
ghost use Rattle.std.specs.Prelude.{◌≡◌, ◌<◌, [], ◌∷◌, None, Some, IfOk, IfErr, MatchBool, false};
ghost use Rattle.lock_rules.specs.Hands.{HasKept, keeps_slot, phase_left};
ghost use Rattle.lock_rules.specs.Holders.{held_view, holder_of};
ghost use Rattle.lock_rules.specs.Leaves.{LeaveRests, leave_waiting};
ghost use Rattle.lock_rules.specs.Passes.{AreAll};
ghost use Rattle.lock_rules.specs.Tokens.{view_of, badge_place, badge_waiting};
ghost use Rattle.lock_rules.specs.Views.{is_counted, lock_name, mark_of, IsPlain, IsTold};
ghost use Rattle.lock_rules.specs.declared.view.Phase.TheVariants.{Idle, Holding};
ghost use Rattle.lock_tables.specs.Counting.{Counted, HasAnnounced, HasWithdrawn};
ghost use Rattle.lock_tables.specs.Happened.{announced_view, withdrawn_view};
ghost use Rattle.lock_tables.specs.Seats.{IsSized, seat_as};
ghost use Rattle.lock_tables.specs.Words.{words_key, words_table, IsOwnOf, IsSeatIn};

use crate::counting::{announce, count_waiting, withdraw};
use crate::lock_words::LockWords;
use crate::rule::Disciplined;
use crate::slot::{put, take};
use crate::table::{into_value, join_passes, new_table, split_passes};
use atomic_table::Seat;
use crossbeam_utils::CachePadded;
use lock_rules::{Cargo, Held, Leave, Pass, Queue, Refused, View, Waiters};
use std::alloc::Global;

impl<V: Cargo, D: Disciplined> LockWords<V, D> {
    /// The words of a new lock with the value at home, and its passes.
    pub fn make(
        alloc: Global,
        opening: &[u64],
        waiters: Waiters,
        passes: u32,
        value: V,
    ) -> Result<(LockWords<V, D>, Vec<Pass>), Refused<V>>
        requires words { opening.now ≡ D.discipline.opens passes }
        requires some { 0 < passes }
        requires fit { V.fit value }
        requires unparked { V.parked value ≡ false }
        ensures size { IfOk result (λ m. IsSized D.discipline.algorithm passes (words_table m.0)) }
        ensures count { IfOk result (λ m. (words_key m.0).passes ≡ passes) }
        ensures waiters { IfOk result (λ m. (words_key m.0).waiters ≡ waiters) }
        ensures value { IfOk result (λ m. (words_key m.0).value.value ≡ value) }
        ensures passes { IfOk result (λ m. AreAll (λ p. badge_place p.badge)
            (lock_name D.discipline.algorithm waiters (words_table m.0)) (V.tag value) passes m.1.items) }
        ensures refused { IfErr result (λ r. r.value ≡ value) }
    {
        let Ok(room) = Vec::with_capacity(alloc, passes as usize) else {
            return Err(Refused { value });
        };
        let (table, seat) = new_table::<V, D>(alloc, opening, waiters, passes, value)?;
        let list = split_passes(&table.shared, seat, passes, room);
        let table = CachePadded::new(table);
        Ok((LockWords { table, waiters }, list))
    }

    /// The value of a lock whose passes came back.
    pub fn close(self, passes: Vec<Pass>) -> V
        requires all { AreAll (λ p. badge_place p.badge) (lock_name D.discipline.algorithm (words_key self).waiters (words_table self))
            (V.tag (words_key self).value.value) (words_key self).passes passes.items }
        ensures fit { V.fit result }
        ensures tagged { V.tag result ≡ V.tag (words_key self).value.value }
        ensures unparked { V.parked result ≡ false }
    {
        let LockWords { table, .. } = self;
        let table = table.into_inner();
        let seat = join_passes(&table.shared, passes);
        into_value(table, seat)
    }

    /// How the lock learns of waiters.
    #[inline]
    pub fn waiters(&self) -> Waiters
        ensures { result ≡ (words_key self.now).waiters }
    {
        self.waiters
    }

    /// The seat of a pass of this lock, and its mark.
    #[inline]
    pub fn pass_parts(&self, pass: Pass) -> (Seat<Option<V>, View>, u64)
        requires of { IsOwnOf V.tag D.discipline.algorithm self.now (badge_place pass.badge) }
        ensures own { IsSeatIn D.discipline.algorithm self.now result.0 }
        ensures table { result.0.table_id ≡ pass.badge.table_id }
        ensures view { result.0.me ≡ (view_of pass.badge, []) }
        ensures plain { IsPlain result.0.me.0 }
        ensures silent { result.0.me.0.announced ≡ false }
        ensures mark { result.1 ≡ mark_of result.0.me.0 }
    {
        pass.into_parts()
    }

    /// The seat of a queued pass of this lock, its mark, and the word that its swap of the tail found.
    #[inline]
    pub fn queue_parts(&self, queue: Queue) -> (Seat<Option<V>, View>, u64, u64)
        requires of { IsOwnOf V.tag D.discipline.algorithm self.now (badge_waiting queue.badge).place }
        ensures own { IsSeatIn D.discipline.algorithm self.now result.0 }
        ensures table { result.0.table_id ≡ queue.badge.table_id }
        ensures view { result.0.me ≡ (view_of queue.badge, []) }
        ensures plain { IsPlain result.0.me.0 }
        ensures told { result.0.me.0.announced ≡ is_counted result.0.me.0.waiters }
        ensures mark { result.1 ≡ mark_of result.0.me.0 }
        ensures predecessor { result.2 ≡ result.0.me.0.predecessor }
    {
        queue.into_parts()
    }

    /// The seat of the holder of this lock, its value, its mark and its predecessor.
    #[inline]
    pub fn held_parts(&self, held: Held<V>) -> (Seat<Option<V>, View>, V, u64, u64)
        requires of { IsOwnOf V.tag D.discipline.algorithm self.now (holder_of held).place }
        ensures own { IsSeatIn D.discipline.algorithm self.now result.0 }
        ensures seat { result.0 ≡ held.seat.seat }
        ensures value { result.1 ≡ held.value }
        ensures plain { IsPlain result.0.me.0 }
        ensures mark { result.2 ≡ mark_of result.0.me.0 }
        ensures predecessor { result.3 ≡ held.seat.predecessor }
    {
        held.into_parts()
    }

    /// The mark of the holder of this lock.
    #[inline]
    pub fn held_mark(&self, held: &Held<V>) -> u64
        requires of { IsOwnOf V.tag D.discipline.algorithm self.now (holder_of held.now).place }
        ensures own { IsSeatIn D.discipline.algorithm self.now held.now.seat.seat }
        ensures mark { result ≡ mark_of (held_view held.now) }
    {
        held.seat.mark
    }

    /// The token of a seat of this lock that leaves, and its mark.
    #[inline]
    pub fn leave_of(&self, seat: Seat<Option<V>, View>, mark: u64) -> Leave<V>
        requires own { IsSeatIn D.discipline.algorithm self.now seat }
        requires leaves { seat.me.0.phase ≡ phase_left D.discipline.algorithm }
        requires plain { IsPlain seat.me.0 }
        requires silent { seat.me.0.announced ≡ false }
        requires hand { HasKept V.fit V.tag V.parked (keeps_slot D.discipline.algorithm) seat.me.0 seat.me.1 }
        requires mark { mark ≡ mark_of seat.me.0 }
        ensures seat { result.seat ≡ seat }
        ensures rests { LeaveRests V.fit V.tag V.parked result }
    {
        Leave::of(seat, mark)
    }

    /// The seat of a pass of this lock that leaves, and its mark.
    #[inline]
    pub fn leave_parts(&self, leave: Leave<V>) -> (Seat<Option<V>, View>, u64)
        requires of { IsOwnOf V.tag D.discipline.algorithm self.now (leave_waiting leave).place }
        requires rests { MatchBool (keeps_slot D.discipline.algorithm) (LeaveRests V.fit V.tag V.parked leave) (Unit {0}) }
        ensures own { IsSeatIn D.discipline.algorithm self.now result.0 }
        ensures seat { result.0 ≡ leave.seat }
        ensures leaves { result.0.me.0.phase ≡ phase_left D.discipline.algorithm }
        ensures hand { HasKept V.fit V.tag V.parked (keeps_slot D.discipline.algorithm) result.0.me.0 result.0.me.1 }
        ensures plain { IsPlain result.0.me.0 }
        ensures told { IsTold result.0.me.0 }
        ensures silent { result.0.me.0.announced ≡ false }
        ensures mark { result.1 ≡ mark_of result.0.me.0 }
    {
        leave.into_parts()
    }

    /// Announces the pass, before its other steps, where the lock counts its waiters.
    #[inline]
    pub fn announce(&self, seat: &mut Seat<Option<V>, View>)
        requires own { IsSeatIn D.discipline.algorithm self.now seat.old }
        requires idle { seat.old.me.0.phase ≡ Idle }
        requires silent { seat.old.me.0.announced ≡ false }
        ensures own { IsSeatIn D.discipline.algorithm self.now seat.new }
        ensures did { HasAnnounced D.discipline V.fit V.tag V.parked seat.old.me.0.waiters seat.old.me seat.new.me }
        ensures view { seat.new.me ≡ (announced_view seat.old.me.0, seat.old.me.1) }
    {
        announce(&self.table.shared, self.waiters, seat);
    }

    /// Takes the announcement back, as the last step of a call that has taken.
    #[inline]
    pub fn withdraw(&self, seat: &mut Seat<Option<V>, View>)
        requires own { IsSeatIn D.discipline.algorithm self.now seat.old }
        requires holds { seat.old.me.0.phase ≡ Holding }
        requires told { seat.old.me.0.announced ≡ is_counted seat.old.me.0.waiters }
        ensures own { IsSeatIn D.discipline.algorithm self.now seat.new }
        ensures did { HasWithdrawn D.discipline V.fit V.tag V.parked seat.old.me.0.waiters seat.old.me seat.new.me }
        ensures view { seat.new.me ≡ (withdrawn_view seat.old.me.0, seat.old.me.1) }
    {
        withdraw(&self.table.shared, self.waiters, seat);
    }

    /// Loads how many passes are announced.
    #[inline]
    pub fn count_waiting(&self, seat: &mut Seat<Option<V>, View>) -> u64
        requires own { IsSeatIn D.discipline.algorithm self.now seat.old }
        requires holds { seat.old.me.0.phase ≡ Holding }
        requires silent { seat.old.me.0.announced ≡ false }
        ensures own { IsSeatIn D.discipline.algorithm self.now seat.new }
        ensures step { Counted D.discipline V.fit V.tag V.parked seat.old.me result seat.new.me }
    {
        count_waiting(&self.table.shared, seat)
    }

    /// Takes the value out of the slot that the seat has just taken.
    #[inline]
    pub fn take(&self, seat: &mut Seat<Option<V>, View>) -> V
        requires own { IsSeatIn D.discipline.algorithm self.now seat.old }
        requires full { (x : V) × (seat.old.me.1 ≡ (0, Some x) ∷ []) }
        ensures own { IsSeatIn D.discipline.algorithm self.now seat.new }
        ensures value { seat.old.me.1 ≡ (0, Some result) ∷ [] }
        ensures seat { seat.new ≡ seat_as seat.old seat.old.me.0 ((0, None) ∷ []) }
    {
        take(&self.table.shared, seat)
    }

    /// Puts the value back.
    #[inline]
    pub fn put(&self, seat: &mut Seat<Option<V>, View>, value: V)
        requires own { IsSeatIn D.discipline.algorithm self.now seat.old }
        requires empty { seat.old.me.1 ≡ (0, None) ∷ [] }
        ensures own { IsSeatIn D.discipline.algorithm self.now seat.new }
        ensures seat { seat.new ≡ seat_as seat.old seat.old.me.0 ((0, Some value) ∷ []) }
    {
        put(&self.table.shared, seat, value);
    }
}
