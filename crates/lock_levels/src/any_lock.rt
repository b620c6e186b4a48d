//! A basic lock whose kind is chosen when it is made.
ghost use Rattle.std.specs.Prelude.{◌≡◌, ◌≢◌, ◌+◌, ◌<◌, true, false, IfOk, IfErr};
ghost use Rattle.lock_rules.specs.Holders.{holder_of};
ghost use Rattle.lock_rules.specs.Leaves.{LeaveRests, leave_waiting};
ghost use Rattle.lock_rules.specs.Passes.{AreAll, IsOf};
ghost use Rattle.lock_rules.specs.Steps.{IfNot, IfGot, IsNot, IsGot};
ghost use Rattle.lock_rules.specs.Tokens.{view_of, badge_place, badge_waiting};
ghost use Rattle.lock_rules.specs.declared.step.Answer.TheVariants.{Open, Yes};
ghost use Rattle.lock_rules.specs.declared.view.Algorithm.TheVariants.{Mcs as mcs_algorithm};
ghost use Rattle.lock_levels.specs.AnyKinds.{any_kind, lock_inside};
ghost use Rattle.lock_levels.specs.Kinds.{algorithm_of, by_kind, kind_of, only_queues};

use crate::kinds::{Kinds, kind_with, parts_of};
use clh_lock::Clh;
use hemlock_lock::Hemlock;
use lock_plan::LockKind;
use lock_rules::{Algorithm, Basic, Cargo, Held, Leave, Pass, Queue, Refused, Step};
use mcs_lock::Mcs;
use std::alloc::Global;
use ticket_lock::Ticket;

/// A lock of one of the four kinds, which learns of waiters in one of the two ways.
#[derive(Drop)]
pub struct AnyLock<V: Cargo> {
    pub(crate) lock: Kinds<Ticket<V>, Mcs<V>, Clh<V>, Hemlock<V>>,
}

impl<V: Cargo> AnyLock<V> {
    /// The kind that it was made of.
    pub fn kind(&self) -> LockKind
        ensures { result ≡ any_kind self.now }
    {
        match &self.lock {
            Kinds::Ticket(lock) => kind_with(Algorithm::Ticket, lock.waiters()),
            Kinds::Mcs(lock) => kind_with(Algorithm::Mcs, lock.waiters()),
            Kinds::Clh(lock) => kind_with(Algorithm::Clh, lock.waiters()),
            Kinds::Hemlock(lock) => kind_with(Algorithm::Hemlock, lock.waiters()),
        }
    }
}

impl<V: Cargo> Basic<V> for AnyLock<V> {
    type Recipe = LockKind;

    type Pass = Pass;

    type Queue = Queue;

    type Held = Held<V>;

    type Leave = Leave<V>;

    ghost name = { λ l. by_kind ⟦<Ticket<V> as Basic<V>>⟧.name ⟦<Mcs<V> as Basic<V>>⟧.name ⟦<Clh<V> as Basic<V>>⟧.name
        ⟦<Hemlock<V> as Basic<V>>⟧.name (lock_inside l) };

    ghost tag = { λ l. by_kind ⟦<Ticket<V> as Basic<V>>⟧.tag ⟦<Mcs<V> as Basic<V>>⟧.tag ⟦<Clh<V> as Basic<V>>⟧.tag
        ⟦<Hemlock<V> as Basic<V>>⟧.tag (lock_inside l) };

    ghost count = { λ l. by_kind ⟦<Ticket<V> as Basic<V>>⟧.count ⟦<Mcs<V> as Basic<V>>⟧.count ⟦<Clh<V> as Basic<V>>⟧.count
        ⟦<Hemlock<V> as Basic<V>>⟧.count (lock_inside l) };

    ghost made = { λ l kind. kind_of (lock_inside l) ≡ kind };

    /// A lock of the kind that is asked for.
    fn make(
        alloc: Global,
        recipe: LockKind,
        passes: u32,
        value: V,
    ) -> Result<(AnyLock<V>, Vec<Pass>), Refused<V>>
        requires some { 0 < passes }
        requires fit { V.fit value }
        requires unparked { V.parked value ≡ false }
        ensures made { IfOk result (λ m. kind_of (lock_inside m.0) ≡ recipe) }
        ensures tag { IfOk result (λ m. by_kind ⟦<Ticket<V> as Basic<V>>⟧.tag ⟦<Mcs<V> as Basic<V>>⟧.tag ⟦<Clh<V> as Basic<V>>⟧.tag
            ⟦<Hemlock<V> as Basic<V>>⟧.tag (lock_inside m.0) ≡ V.tag value) }
        ensures count { IfOk result (λ m. by_kind ⟦<Ticket<V> as Basic<V>>⟧.count ⟦<Mcs<V> as Basic<V>>⟧.count
            ⟦<Clh<V> as Basic<V>>⟧.count ⟦<Hemlock<V> as Basic<V>>⟧.count (lock_inside m.0) ≡ passes) }
        ensures passes { IfOk result (λ m. AreAll (λ p. badge_place p.badge) (by_kind ⟦<Ticket<V> as Basic<V>>⟧.name
            ⟦<Mcs<V> as Basic<V>>⟧.name ⟦<Clh<V> as Basic<V>>⟧.name ⟦<Hemlock<V> as Basic<V>>⟧.name (lock_inside m.0))
            (by_kind ⟦<Ticket<V> as Basic<V>>⟧.tag ⟦<Mcs<V> as Basic<V>>⟧.tag ⟦<Clh<V> as Basic<V>>⟧.tag
            ⟦<Hemlock<V> as Basic<V>>⟧.tag (lock_inside m.0))
            (by_kind ⟦<Ticket<V> as Basic<V>>⟧.count ⟦<Mcs<V> as Basic<V>>⟧.count ⟦<Clh<V> as Basic<V>>⟧.count
            ⟦<Hemlock<V> as Basic<V>>⟧.count (lock_inside m.0)) m.1.items) }
        ensures refused { IfErr result (λ r. r.value ≡ value) }
    {
        let (algorithm, waiters) = parts_of(recipe);
        match algorithm {
            Algorithm::Ticket => {
                let (lock, list) = Ticket::make(alloc, waiters, passes, value)?;
                Ok((
                    AnyLock {
                        lock: Kinds::Ticket(lock),
                    },
                    list,
                ))
            }
            Algorithm::Mcs => {
                let (lock, list) = Mcs::make(alloc, waiters, passes, value)?;
                Ok((
                    AnyLock {
                        lock: Kinds::Mcs(lock),
                    },
                    list,
                ))
            }
            Algorithm::Clh => {
                let (lock, list) = Clh::make(alloc, waiters, passes, value)?;
                Ok((
                    AnyLock {
                        lock: Kinds::Clh(lock),
                    },
                    list,
                ))
            }
            Algorithm::Hemlock => {
                let (lock, list) = Hemlock::make(alloc, waiters, passes, value)?;
                Ok((
                    AnyLock {
                        lock: Kinds::Hemlock(lock),
                    },
                    list,
                ))
            }
        }
    }

    /// In a Ticket and a CLH lock the answer is always `Not`, and in the others only where the swap found another.
    #[inline(always)]
    fn begin(&self, pass: Pass) -> Step<Queue, Held<V>>
        requires own { IsOf (by_kind ⟦<Ticket<V> as Basic<V>>⟧.name ⟦<Mcs<V> as Basic<V>>⟧.name ⟦<Clh<V> as Basic<V>>⟧.name
            ⟦<Hemlock<V> as Basic<V>>⟧.name (lock_inside self.now)) (by_kind ⟦<Ticket<V> as Basic<V>>⟧.tag ⟦<Mcs<V> as Basic<V>>⟧.tag
            ⟦<Clh<V> as Basic<V>>⟧.tag ⟦<Hemlock<V> as Basic<V>>⟧.tag (lock_inside self.now)) (badge_place pass.badge) }
        ensures only_queues { only_queues (algorithm_of (lock_inside self.now)) ≡ true → IsNot result }
        ensures preceded { IfNot result (λ q. only_queues (algorithm_of (lock_inside self.now)) ≡ false
            → (badge_waiting q.badge).preceded ≡ true) }
        ensures queue { IfNot result (λ q. (badge_waiting q.badge).place ≡ badge_place pass.badge) }
        ensures entered { IfNot result (λ q. (view_of q.badge).entries ≡ (view_of pass.badge).entries + 1) }
        ensures held { IfGot result (λ h. (holder_of h).place ≡ badge_place pass.badge) }
        ensures fit { IfGot result (λ h. V.fit h.value) }
        ensures tagged { IfGot result (λ h. V.tag h.value ≡ by_kind ⟦<Ticket<V> as Basic<V>>⟧.tag ⟦<Mcs<V> as Basic<V>>⟧.tag
            ⟦<Clh<V> as Basic<V>>⟧.tag ⟦<Hemlock<V> as Basic<V>>⟧.tag (lock_inside self.now)) }
        ensures untested { IfGot result (λ h. (holder_of h).tested ≡ Open) }
    {
        match &self.lock {
            Kinds::Ticket(lock) => lock.begin(pass),
            Kinds::Mcs(lock) => lock.begin(pass),
            Kinds::Clh(lock) => lock.begin(pass),
            Kinds::Hemlock(lock) => lock.begin(pass),
        }
    }

    #[inline(always)]
    fn poll(&self, queue: Queue) -> Step<Queue, Held<V>> {
        match &self.lock {
            Kinds::Ticket(lock) => lock.poll(queue),
            Kinds::Mcs(lock) => lock.poll(queue),
            Kinds::Clh(lock) => lock.poll(queue),
            Kinds::Hemlock(lock) => lock.poll(queue),
        }
    }

    #[inline(always)]
    fn waiter(&self, held: &mut Held<V>) -> bool {
        match &self.lock {
            Kinds::Ticket(lock) => lock.waiter(held),
            Kinds::Mcs(lock) => lock.waiter(held),
            Kinds::Clh(lock) => lock.waiter(held),
            Kinds::Hemlock(lock) => lock.waiter(held),
        }
    }

    /// In a Ticket and a CLH lock the answer is never `Not`, and in an MCS lock only where the exchange of the tail found another.
    #[inline(always)]
    fn begin_release(&self, held: Held<V>) -> Step<Leave<V>, Pass>
        requires own { IsOf (by_kind ⟦<Ticket<V> as Basic<V>>⟧.name ⟦<Mcs<V> as Basic<V>>⟧.name ⟦<Clh<V> as Basic<V>>⟧.name
            ⟦<Hemlock<V> as Basic<V>>⟧.name (lock_inside self.now)) (by_kind ⟦<Ticket<V> as Basic<V>>⟧.tag ⟦<Mcs<V> as Basic<V>>⟧.tag
            ⟦<Clh<V> as Basic<V>>⟧.tag ⟦<Hemlock<V> as Basic<V>>⟧.tag (lock_inside self.now)) (holder_of held).place }
        requires fit { V.fit held.value }
        requires tagged { V.tag held.value ≡ by_kind ⟦<Ticket<V> as Basic<V>>⟧.tag ⟦<Mcs<V> as Basic<V>>⟧.tag
            ⟦<Clh<V> as Basic<V>>⟧.tag ⟦<Hemlock<V> as Basic<V>>⟧.tag (lock_inside self.now) }
        requires relied_on { V.parked held.value ≡ true → (holder_of held).tested ≡ Yes }
        requires said { V.said held.value ≢ Open → V.said held.value ≡ (holder_of held).tested }
        ensures leaves_at_once { only_queues (algorithm_of (lock_inside self.now)) ≡ true → IsGot result }
        ensures behind { IfNot result (λ l. algorithm_of (lock_inside self.now) ≡ mcs_algorithm → (leave_waiting l).followed ≡ true) }
        ensures leave { IfNot result (λ l. (leave_waiting l).place ≡ (holder_of held).place) }
        ensures loaded { IfNot result (λ l. (leave_waiting l).loads ≡ (holder_of held).loads + 1) }
        ensures unready { IfNot result (λ l. (leave_waiting l).ready ≡ false) }
        ensures rests { IfNot result (λ l. LeaveRests V.fit V.tag V.parked l) }
        ensures pass { IfGot result (λ p. badge_place p.badge ≡ (holder_of held).place) }
    {
        match &self.lock {
            Kinds::Ticket(lock) => lock.begin_release(held),
            Kinds::Mcs(lock) => lock.begin_release(held),
            Kinds::Clh(lock) => lock.begin_release(held),
            Kinds::Hemlock(lock) => lock.begin_release(held),
        }
    }

    fn poll_release(&self, leave: Leave<V>) -> Step<Leave<V>, Pass> {
        match &self.lock {
            Kinds::Ticket(lock) => lock.poll_release(leave),
            Kinds::Mcs(lock) => lock.poll_release(leave),
            Kinds::Clh(lock) => lock.poll_release(leave),
            Kinds::Hemlock(lock) => lock.poll_release(leave),
        }
    }

    fn close(self, passes: Vec<Pass>) -> V
        requires all { AreAll (λ p. badge_place p.badge) (by_kind ⟦<Ticket<V> as Basic<V>>⟧.name ⟦<Mcs<V> as Basic<V>>⟧.name
            ⟦<Clh<V> as Basic<V>>⟧.name ⟦<Hemlock<V> as Basic<V>>⟧.name (lock_inside self)) (by_kind ⟦<Ticket<V> as Basic<V>>⟧.tag
            ⟦<Mcs<V> as Basic<V>>⟧.tag ⟦<Clh<V> as Basic<V>>⟧.tag ⟦<Hemlock<V> as Basic<V>>⟧.tag (lock_inside self))
            (by_kind ⟦<Ticket<V> as Basic<V>>⟧.count ⟦<Mcs<V> as Basic<V>>⟧.count ⟦<Clh<V> as Basic<V>>⟧.count
            ⟦<Hemlock<V> as Basic<V>>⟧.count (lock_inside self)) passes.items }
        ensures fit { V.fit result }
        ensures tagged { V.tag result ≡ by_kind ⟦<Ticket<V> as Basic<V>>⟧.tag ⟦<Mcs<V> as Basic<V>>⟧.tag ⟦<Clh<V> as Basic<V>>⟧.tag
            ⟦<Hemlock<V> as Basic<V>>⟧.tag (lock_inside self) }
        ensures unparked { V.parked result ≡ false }
    {
        match self.lock {
            Kinds::Ticket(lock) => lock.close(passes),
            Kinds::Mcs(lock) => lock.close(passes),
            Kinds::Clh(lock) => lock.close(passes),
            Kinds::Hemlock(lock) => lock.close(passes),
        }
    }
}
