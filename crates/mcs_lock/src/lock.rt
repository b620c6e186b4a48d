//! The lock and its calls.
ghost use Rattle.std.specs.Prelude.{◌≡◌, ◌≢◌, ◌+◌, true, false, refl};
ghost use Rattle.lock_rules.specs.declared.view.Algorithm.TheVariants.{Mcs as mcs_algorithm};
ghost use Rattle.lock_rules.specs.declared.step.Answer.TheVariants.{Open, Yes};
ghost use Rattle.lock_rules.specs.Views.{lock_name, answer_of};
ghost use Rattle.lock_rules.specs.Holders.{held_view, holder_of};
ghost use Rattle.lock_rules.specs.Leaves.{LeaveRests, leave_waiting};
ghost use Rattle.lock_rules.specs.Passes.{AreAll};
ghost use Rattle.lock_rules.specs.Steps.{IfNot, IfGot};
ghost use Rattle.lock_rules.specs.Tokens.{view_of, badge_place, badge_waiting};
ghost use Rattle.lock_tables.specs.Happened.{counting};
ghost use Rattle.lock_tables.specs.Words.{words_key, words_table, IsOwnOf};
ghost use Rattle.mcs_lock.specs.Choice.{mcs_waiters};
ghost use Rattle.mcs_lock.specs.Calls.{HasEntered, HasEnteredAndTaken, HasMissed, HasTaken, HasAsked};
ghost use Rattle.mcs_lock.specs.Calls.{at_home, HasLeft, HasPassed, IsFollowed, HasWaited};
ghost use Rattle.mcs_lock.specs.Rule.{mcs_discipline};

use crate::kinds::{
    CompareAndSwapTail, FetchAndStoreTail, LoadLocked, LoadNext, LoadTail, StoreLocked, StoreNext,
    StorePredecessorNext, StoreSuccessorLocked,
};
use crate::laws::McsWords;
use lock_rules::{Basic, Cargo, Held, Leave, Pass, Queue, Refused, Step, Waiters};
use lock_tables::{Learner, LockWords, Ruled};
use std::alloc::Global;

const TAIL: usize = 16;

/// The MCS lock: the word `tail` on a line of its own, a line for each pass, and its slot.
#[derive(Drop)]
pub struct Mcs<V: Cargo> {
    words: LockWords<V, McsWords>,
}

impl<V: Cargo> Mcs<V> {
    /// How it learns of waiters.
    pub fn waiters(&self) -> Waiters
        ensures { result ≡ mcs_waiters self.now }
    {
        self.words.waiters()
    }
}

impl<V: Cargo> Basic<V> for Mcs<V> {
    type Recipe = Waiters;

    type Pass = Pass;

    type Queue = Queue;

    type Held = Held<V>;

    type Leave = Leave<V>;

    ghost name = { λ l. lock_name mcs_algorithm (words_key l.words).waiters (words_table l.words) };

    ghost tag = { λ l. V.tag (words_key l.words).value.value };

    ghost count = { λ l. (words_key l.words).passes };

    ghost made = { λ l waiters. mcs_waiters l ≡ waiters };

    fn make(
        alloc: Global,
        waiters: Waiters,
        passes: u32,
        value: V,
    ) -> Result<(Mcs<V>, Vec<Pass>), Refused<V>> {
        let Ok(opening) = vec![in alloc; 0; (passes as usize + 2) * 16] else {
            return Err(Refused { value });
        };
        let (words, list) = LockWords::make(alloc, opening.as_slice(), waiters, passes, value)?;
        Ok((Mcs { words }, list))
    }

    /// The answer is `Got` exactly where the swap found no predecessor.
    fn begin(&self, pass: Pass) -> Step<Queue, Held<V>>
        requires own { IsOwnOf V.tag mcs_algorithm self.now.words (badge_place pass.badge) }
        ensures did { IfNot result (λ q. HasEntered V.fit V.tag V.parked pass.badge q.badge) }
        ensures took { IfGot result (λ h. HasEnteredAndTaken V.fit V.tag V.parked pass.badge h) }
        ensures queue { IfNot result (λ q. (badge_waiting q.badge).place ≡ badge_place pass.badge) }
        ensures entered { IfNot result (λ q. (view_of q.badge).entries ≡ (view_of pass.badge).entries + 1) }
        ensures preceded { IfNot result (λ q. (badge_waiting q.badge).preceded ≡ true) }
        ensures held { IfGot result (λ h. (holder_of h).place ≡ badge_place pass.badge) }
        ensures fit { IfGot result (λ h. V.fit h.value) }
        ensures tagged { IfGot result (λ h. V.tag h.value ≡ V.tag (words_key self.now.words).value.value) }
        ensures untested { IfGot result (λ h. (holder_of h).tested ≡ Open) }
        ensures steps { IfNot result (λ q. (view_of q.badge).steps
            ≡ (view_of pass.badge).steps + counting (view_of pass.badge).waiters + 4) }
        ensures steps_taking { IfGot result (λ h. (held_view h).steps
            ≡ (view_of pass.badge).steps + counting (view_of pass.badge).waiters + 3 + counting (view_of pass.badge).waiters) }
    {
        let (mut seat, mark) = self.words.pass_parts(pass);
        let own = self.own_record(&seat, mark);
        self.words.announce(&mut seat);
        self.words.store::<StoreNext>(&mut seat, own.next, 0);
        self.words.store::<StoreLocked>(&mut seat, own.locked, 1);
        let predecessor = self
            .words
            .swap::<FetchAndStoreTail>(&mut seat, TAIL, own.name);
        if predecessor == 0 {
            let value = self.words.take(&mut seat);
            self.words.withdraw(&mut seat);
            return Step::Got(Held::of(seat, value, mark, 0));
        }
        let before = self.record_of(&seat, predecessor - 1);
        self.words
            .store::<StorePredecessorNext>(&mut seat, before.next, own.name);
        Step::Not(Queue::of(seat, mark, predecessor))
    }

    /// The answer is `Got` exactly where the loaded word is 0. The value that was at home is the holder's then.
    fn poll(&self, queue: Queue) -> Step<Queue, Held<V>>
        requires own { IsOwnOf V.tag mcs_algorithm self.now.words (badge_waiting queue.badge).place }
        ensures missed { IfNot result (λ q. HasMissed V.fit V.tag V.parked queue.badge q.badge) }
        ensures took { IfGot result (λ h. HasTaken V.fit V.tag V.parked queue.badge h) }
        ensures queue { IfNot result (λ q. (badge_waiting q.badge).place ≡ (badge_waiting queue.badge).place) }
        ensures loaded { IfNot result (λ q. (badge_waiting q.badge).loads ≡ (badge_waiting queue.badge).loads + 1) }
        ensures unready { IfNot result (λ q. (badge_waiting q.badge).ready ≡ false) }
        ensures held { IfGot result (λ h. (holder_of h).place ≡ (badge_waiting queue.badge).place) }
        ensures fit { IfGot result (λ h. V.fit h.value) }
        ensures tagged { IfGot result (λ h. V.tag h.value ≡ V.tag (words_key self.now.words).value.value) }
        ensures untested { IfGot result (λ h. (holder_of h).tested ≡ Open) }
        ensures steps { IfNot result (λ q. (view_of q.badge).steps ≡ (view_of queue.badge).steps + 1) }
        ensures steps_taking { IfGot result (λ h. (held_view h).steps
            ≡ (view_of queue.badge).steps + 1 + counting (view_of queue.badge).waiters) }
    {
        let (mut seat, mark, predecessor) = self.words.queue_parts(queue);
        let own = self.own_record(&seat, mark);
        if self.words.load::<LoadLocked>(&mut seat, own.locked) != 0 {
            return Step::Not(Queue::of(seat, mark, predecessor));
        }
        let value = self.words.take(&mut seat);
        self.words.withdraw(&mut seat);
        Step::Got(Held::of(seat, value, mark, predecessor))
    }

    /// The answer is yes exactly where the loaded `tail` isn't the holder's name or, in a lock that counts, the loaded number isn't 0.
    fn waiter(&self, held: &mut Held<V>) -> bool
        requires own { IsOwnOf V.tag mcs_algorithm self.now.words (holder_of held.old).place }
        ensures asked { HasAsked V.fit V.tag V.parked held.old held.new result }
        ensures place { (holder_of held.new).place ≡ (holder_of held.old).place }
        ensures value { held.new.value ≡ held.old.value }
        ensures loaded { (holder_of held.new).loads ≡ (holder_of held.old).loads + 1 }
        ensures noted { (holder_of held.new).tested ≡ answer_of result }
        ensures steps { (held_view held.new).steps ≡ (held_view held.old).steps + 1 }
    {
        let mark = self.words.held_mark(held);
        let own = self.own_record(&held.seat.seat, mark);
        let seat = &mut held.seat.seat;
        match self.words.waiters() {
            Waiters::Queue => self.words.load::<LoadTail>(seat, TAIL) != own.name,
            Waiters::Count => self.words.count_waiting(seat) != 0,
        }
    }

    /// The value is put back. The answer is `Got` where the holder saw its successor, which it lets go on, or was alone in the queue.
    fn begin_release(&self, held: Held<V>) -> Step<Leave<V>, Pass>
        requires own { IsOwnOf V.tag mcs_algorithm self.now.words (holder_of held).place }
        requires fit { V.fit held.value }
        requires tagged { V.tag held.value ≡ V.tag (words_key self.now.words).value.value }
        requires relied_on { V.parked held.value ≡ true → (holder_of held).tested ≡ Yes }
        requires said { V.said held.value ≢ Open → V.said held.value ≡ (holder_of held).tested }
        ensures did { IfGot result (λ p. HasLeft V.fit V.tag V.parked (at_home held) p.badge) }
        ensures followed { IfNot result (λ l. IsFollowed V.fit V.tag V.parked (at_home held) l.seat.me) }
        ensures leave { IfNot result (λ l. (leave_waiting l).place ≡ (holder_of held).place) }
        ensures loaded { IfNot result (λ l. (leave_waiting l).loads ≡ (holder_of held).loads + 1) }
        ensures unready { IfNot result (λ l. (leave_waiting l).ready ≡ false) }
        ensures behind { IfNot result (λ l. (leave_waiting l).followed ≡ true) }
        ensures rests { IfNot result (λ l. LeaveRests V.fit V.tag V.parked l) }
        ensures pass { IfGot result (λ p. badge_place p.badge ≡ (holder_of held).place) }
        ensures steps { IfNot result (λ l. l.seat.me.0.steps ≡ (held_view held).steps + 2) }
        ensures steps_leaving { IfGot result (λ p. (view_of p.badge).steps ≡ (held_view held).steps + 2) }
    {
        let (mut seat, value, mark, _) = self.words.held_parts(held);
        let own = self.own_record(&seat, mark);
        self.words.put(&mut seat, value);
        let successor = self.words.load::<LoadNext>(&mut seat, own.next);
        if successor != 0 {
            let behind = self.record_of(&seat, successor - 1);
            self.words
                .store::<StoreSuccessorLocked>(&mut seat, behind.locked, 0);
            return Step::Got(Pass::of(seat, mark));
        }
        let found = self
            .words
            .compare_exchange::<CompareAndSwapTail>(&mut seat, TAIL, own.name, 0);
        if found == own.name {
            return Step::Got(Pass::of(seat, mark));
        }
        Step::Not(self.words.leave_of(seat, mark))
    }

    /// The answer is `Got` exactly where the pass saw its successor, which it lets go on.
    fn poll_release(&self, leave: Leave<V>) -> Step<Leave<V>, Pass>
        requires own { IsOwnOf V.tag mcs_algorithm self.now.words (leave_waiting leave).place }
        requires rests { LeaveRests V.fit V.tag V.parked leave }
        ensures did { IfGot result (λ p. HasPassed V.fit V.tag V.parked leave.seat.me p.badge) }
        ensures waited { IfNot result (λ l. HasWaited V.fit V.tag V.parked leave.seat.me l.seat.me) }
        ensures leave { IfNot result (λ l. (leave_waiting l).place ≡ (leave_waiting leave).place) }
        ensures loaded { IfNot result (λ l. (leave_waiting l).loads ≡ (leave_waiting leave).loads + 1) }
        ensures unready { IfNot result (λ l. (leave_waiting l).ready ≡ false) }
        ensures rests { IfNot result (λ l. LeaveRests V.fit V.tag V.parked l) }
        ensures pass { IfGot result (λ p. badge_place p.badge ≡ (leave_waiting leave).place) }
        ensures steps { IfNot result (λ l. l.seat.me.0.steps ≡ leave.seat.me.0.steps + 1) }
        ensures steps_leaving { IfGot result (λ p. (view_of p.badge).steps ≡ leave.seat.me.0.steps + 2) }
    {
        let (mut seat, mark) = self.words.leave_parts(leave);
        let own = self.own_record(&seat, mark);
        let successor = self.words.load::<LoadNext>(&mut seat, own.next);
        if successor == 0 {
            return Step::Not(self.words.leave_of(seat, mark));
        }
        let behind = self.record_of(&seat, successor - 1);
        self.words
            .store::<StoreSuccessorLocked>(&mut seat, behind.locked, 0);
        Step::Got(Pass::of(seat, mark))
    }

    fn close(self, passes: Vec<Pass>) -> V
        requires all { AreAll (λ p. badge_place p.badge) (lock_name mcs_algorithm (words_key self.words).waiters (words_table self.words))
            (V.tag (words_key self.words).value.value) (words_key self.words).passes passes.items }
        ensures fit { V.fit result }
        ensures tagged { V.tag result ≡ V.tag (words_key self.words).value.value }
        ensures unparked { V.parked result ≡ false }
    {
        let Mcs { words } = self;
        words.close(passes)
    }
}

impl<V: Cargo> Ruled<V> for Mcs<V> {
    ghost discipline = { λ _. mcs_discipline };

    ghost table = { λ l. words_table l.words };

    ghost waiters = { λ l. (words_key l.words).waiters };

    fn show<L: Learner<V>>(&self, learner: L)
        ensures { L.learns learner mcs_discipline (words_table self.now.words) (words_key self.now.words).waiters }
    {
        self.words.show(learner);
    }

    ghost named = { λ l. refl };
}
