//! The lock and its calls.
ghost use Rattle.std.specs.Prelude.{◌≡◌, ◌≢◌, ◌+◌, ◌≤◌, ◌<◌, ◌⊎◌, true, false, refl};
ghost use Rattle.lock_rules.specs.declared.view.Algorithm.TheVariants.{Hemlock as hemlock_algorithm};
ghost use Rattle.lock_rules.specs.declared.step.Answer.TheVariants.{Open, Yes};
ghost use Rattle.lock_rules.specs.Rows.{row_of};
ghost use Rattle.lock_rules.specs.Views.{lock_name, answer_of, mark_of, IsPlain};
ghost use Rattle.lock_rules.specs.Holders.{held_view, holder_of};
ghost use Rattle.lock_rules.specs.Leaves.{LeaveRests, leave_waiting};
ghost use Rattle.lock_rules.specs.Steps.{IfNot, IfGot};
ghost use Rattle.lock_rules.specs.Passes.{IsOf, AreAll};
ghost use Rattle.lock_rules.specs.Tokens.{view_of, badge_place, badge_waiting};
ghost use Rattle.lock_tables.specs.Happened.{counting};
ghost use Rattle.lock_tables.specs.Words.{words_key, words_table, IsOwnOf, IsSeatIn};
ghost use Rattle.hemlock_lock.specs.Calls.{HasQueued, HasTakenAtOnce, HasMissed, HasTaken, HasAsked, HasReleased, HasBegunToLeave};
ghost use Rattle.hemlock_lock.specs.Calls.{HasDone, HasWaited};
ghost use Rattle.hemlock_lock.specs.Kinds.{own_name};
ghost use Rattle.hemlock_lock.specs.Rule.{grant, hemlock_discipline};

use crate::kinds::{
    ClearPredecessorGrant, ExchangeTail, LoadGrant, LoadPredecessorGrant, LoadTail, StoreGrant,
    SwapTail,
};
use crate::laws::HemlockWords;
use atomic_table::Seat;
use lock_rules::{Basic, Cargo, Held, Leave, Pass, Queue, Refused, Step, View, Waiters};
use lock_tables::{Learner, LockWords, Ruled};
use std::alloc::Global;

const TAIL: usize = 16;

/// The Hemlock: the word `tail`, a grant for each pass, each on a line of its own, and its slot.
#[derive(Drop)]
pub struct Hemlock<V: Cargo> {
    words: LockWords<V, HemlockWords>,
}

impl<V: Cargo> Hemlock<V> {
    /// How it learns of waiters.
    pub fn waiters(&self) -> Waiters
        ensures { result ≡ (words_key self.now.words).waiters }
    {
        self.words.waiters()
    }

    /// The name of the seat's own pass.
    #[inline]
    fn name_of(&self, seat: &Seat<Option<V>, View>, mark: u64) -> u64
        requires own { IsSeatIn hemlock_algorithm self.now.words seat.now }
        requires plain { IsPlain seat.now.me.0 }
        requires mark { mark ≡ mark_of seat.now.me.0 }
        ensures name { result ≡ own_name seat.now.me.0 }
        ensures within { result ≤ seat.now.me.0.count }
    {
        mark + 1
    }

    /// The word of the pass with this name, in the lock that the seat is of.
    #[inline]
    fn grant_of(&self, _seat: &Seat<Option<V>, View>, name: u64) -> usize
        requires own { IsSeatIn hemlock_algorithm self.now.words _seat.now }
        requires within { name ≤ _seat.now.me.0.count }
        ensures word { result ≡ grant name }
        ensures inside { result < row_of hemlock_algorithm _seat.now.me.0.count }
    {
        16 * (name as usize + 1)
    }
}

impl<V: Cargo> Basic<V> for Hemlock<V> {
    type Recipe = Waiters;

    type Pass = Pass;

    type Queue = Queue;

    type Held = Held<V>;

    type Leave = Leave<V>;

    ghost name = { λ l. lock_name hemlock_algorithm (words_key l.words).waiters
        (words_table l.words) };

    ghost tag = { λ l. V.tag (words_key l.words).value.value };

    ghost count = { λ l. (words_key l.words).passes };

    ghost made = { λ l waiters. (words_key l.words).waiters ≡ waiters };

    fn make(
        alloc: Global,
        waiters: Waiters,
        passes: u32,
        value: V,
    ) -> Result<(Hemlock<V>, Vec<Pass>), Refused<V>> {
        let Ok(opening) = vec![in alloc; 0; 16 * (passes as usize + 2)] else {
            return Err(Refused { value });
        };
        let (words, list) = LockWords::make(alloc, opening.as_slice(), waiters, passes, value)?;
        Ok((Hemlock { words }, list))
    }

    /// The answer is `Not` exactly where the swap of `tail` found a predecessor. Else the queue was empty, and the value that was at home
    /// is the holder's.
    fn begin(&self, pass: Pass) -> Step<Queue, Held<V>>
        requires own { IsOwnOf V.tag hemlock_algorithm self.now.words (badge_place pass.badge) }
        ensures entered_behind { IfNot result (λ q. HasQueued V.fit V.tag V.parked pass.badge q.badge) }
        ensures took_at_once { IfGot result (λ h. HasTakenAtOnce V.fit V.tag V.parked pass.badge h) }
        ensures preceded { IfNot result (λ q. (badge_waiting q.badge).preceded ≡ true) }
        ensures queue { IfNot result (λ q. (badge_waiting q.badge).place ≡ badge_place pass.badge) }
        ensures entered { IfNot result (λ q. (view_of q.badge).entries ≡ (view_of pass.badge).entries + 1) }
        ensures steps { IfNot result (λ q. (view_of q.badge).steps ≡ (view_of pass.badge).steps
            + counting (view_of pass.badge).waiters + 1) }
        ensures steps_behind { IfGot result (λ h. (held_view h).steps ≡ (view_of pass.badge).steps
            + counting (view_of pass.badge).waiters + 1 + counting (view_of pass.badge).waiters) }
        ensures held { IfGot result (λ h. (holder_of h).place ≡ badge_place pass.badge) }
        ensures fit { IfGot result (λ h. V.fit h.value) }
        ensures tagged { IfGot result (λ h. V.tag h.value ≡ V.tag (words_key self.now.words).value.value) }
        ensures untested { IfGot result (λ h. (holder_of h).tested ≡ Open) }
    {
        let (mut seat, mark) = self.words.pass_parts(pass);
        let own = self.name_of(&seat, mark);
        self.words.announce(&mut seat);
        let predecessor = self.words.swap::<SwapTail>(&mut seat, TAIL, own);
        if predecessor != 0 {
            return Step::Not(Queue::of(seat, mark, predecessor));
        }
        let value = self.words.take(&mut seat);
        self.words.withdraw(&mut seat);
        Step::Got(Held::of(seat, value, mark, 0))
    }

    /// The answer is `Not` exactly where the predecessor's grant isn't 1. Else it is cleared, and the value that was at home is the
    /// holder's.
    fn poll(&self, queue: Queue) -> Step<Queue, Held<V>>
        requires own { IsOwnOf V.tag hemlock_algorithm self.now.words (badge_waiting queue.badge).place }
        ensures missed { IfNot result (λ q. HasMissed V.fit V.tag V.parked queue.badge q.badge) }
        ensures took { IfGot result (λ h. HasTaken V.fit V.tag V.parked queue.badge h) }
        ensures queue { IfNot result (λ q. (badge_waiting q.badge).place ≡ (badge_waiting queue.badge).place) }
        ensures loaded { IfNot result (λ q. (badge_waiting q.badge).loads ≡ (badge_waiting queue.badge).loads + 1) }
        ensures unready { IfNot result (λ q. (badge_waiting q.badge).ready ≡ false) }
        ensures steps { IfNot result (λ q. (view_of q.badge).steps ≡ (view_of queue.badge).steps + 1) }
        ensures steps_behind { IfGot result (λ h. (held_view h).steps ≡ (view_of queue.badge).steps + 2
            + counting (view_of queue.badge).waiters) }
        ensures held { IfGot result (λ h. (holder_of h).place ≡ (badge_waiting queue.badge).place) }
        ensures fit { IfGot result (λ h. V.fit h.value) }
        ensures tagged { IfGot result (λ h. V.tag h.value ≡ V.tag (words_key self.now.words).value.value) }
        ensures untested { IfGot result (λ h. (holder_of h).tested ≡ Open) }
    {
        let (mut seat, mark, predecessor) = self.words.queue_parts(queue);
        let grant = self.grant_of(&seat, predecessor);
        if self.words.load::<LoadPredecessorGrant>(&mut seat, grant) != 1 {
            return Step::Not(Queue::of(seat, mark, predecessor));
        }
        self.words
            .store::<ClearPredecessorGrant>(&mut seat, grant, 0);
        let value = self.words.take(&mut seat);
        self.words.withdraw(&mut seat);
        Step::Got(Held::of(seat, value, mark, 0))
    }

    /// The answer is yes exactly where `tail` names another than the holder or, in a lock that counts, where `waiting` isn't 0.
    fn waiter(&self, held: &mut Held<V>) -> bool
        requires own { IsOwnOf V.tag hemlock_algorithm self.now.words (holder_of held.old).place }
        ensures asked { HasAsked V.fit V.tag V.parked held.old held.new result }
        ensures place { (holder_of held.new).place ≡ (holder_of held.old).place }
        ensures value { held.new.value ≡ held.old.value }
        ensures loaded { (holder_of held.new).loads ≡ (holder_of held.old).loads + 1 }
        ensures noted { (holder_of held.new).tested ≡ answer_of result }
        ensures steps { (held_view held.new).steps ≡ (held_view held.old).steps + 1 }
    {
        let mark = self.words.held_mark(held);
        let own = self.name_of(&held.seat.seat, mark);
        let seat = &mut held.seat.seat;
        match self.words.waiters() {
            Waiters::Queue => self.words.load::<LoadTail>(seat, TAIL) != own,
            Waiters::Count => self.words.count_waiting(seat) != 0,
        }
    }

    /// The answer is `Got` where `tail` named the holder, or the one behind it has cleared its grant already.
    fn begin_release(&self, held: Held<V>) -> Step<Leave<V>, Pass>
        requires own { IsOwnOf V.tag hemlock_algorithm self.now.words (holder_of held).place }
        requires fit { V.fit held.value }
        requires tagged { V.tag held.value ≡ V.tag (words_key self.now.words).value.value }
        requires relied_on { V.parked held.value ≡ true → (holder_of held).tested ≡ Yes }
        requires said { V.said held.value ≢ Open → V.said held.value ≡ (holder_of held).tested }
        ensures released { IfGot result (λ p. HasReleased V.fit V.tag V.parked held p.badge) }
        ensures began_to_leave { IfNot result (λ l. HasBegunToLeave V.fit V.tag V.parked held l.seat.me) }
        ensures leave { IfNot result (λ l. (leave_waiting l).place ≡ (holder_of held).place) }
        ensures loaded { IfNot result (λ l. (leave_waiting l).loads ≡ (holder_of held).loads + 1) }
        ensures unready { IfNot result (λ l. (leave_waiting l).ready ≡ false) }
        ensures rests { IfNot result (λ l. LeaveRests V.fit V.tag V.parked l) }
        ensures pass { IfGot result (λ p. badge_place p.badge ≡ (holder_of held).place) }
        ensures steps { IfNot result (λ l. l.seat.me.0.steps ≡ (held_view held).steps + 3) }
        ensures steps_behind { IfGot result (λ p. (((view_of p.badge).loads ≡ (holder_of held).loads)
            × ((view_of p.badge).steps ≡ (held_view held).steps + 1))
            ⊎ (((view_of p.badge).loads ≡ (holder_of held).loads + 1) × ((view_of p.badge).steps ≡ (held_view held).steps + 3))) }
    {
        let (mut seat, value, mark, _) = self.words.held_parts(held);
        let own = self.name_of(&seat, mark);
        let grant = self.grant_of(&seat, own);
        self.words.put(&mut seat, value);
        let found = self
            .words
            .compare_exchange::<ExchangeTail>(&mut seat, TAIL, own, 0);
        if found == own {
            return Step::Got(Pass::of(seat, mark));
        }
        self.words.store::<StoreGrant>(&mut seat, grant, 1);
        if self.words.load::<LoadGrant>(&mut seat, grant) != 0 {
            return Step::Not(self.words.leave_of(seat, mark));
        }
        Step::Got(Pass::of(seat, mark))
    }

    /// The answer is `Not` exactly where the grant isn't cleared.
    fn poll_release(&self, leave: Leave<V>) -> Step<Leave<V>, Pass>
        requires own { IsOwnOf V.tag hemlock_algorithm self.now.words (leave_waiting leave).place }
        ensures done { IfGot result (λ p. HasDone V.fit V.tag V.parked leave.seat.me p.badge) }
        ensures waited { IfNot result (λ l. HasWaited V.fit V.tag V.parked leave.seat.me l.seat.me) }
        ensures leave { IfNot result (λ l. (leave_waiting l).place ≡ (leave_waiting leave).place) }
        ensures loaded { IfNot result (λ l. (leave_waiting l).loads ≡ (leave_waiting leave).loads + 1) }
        ensures unready { IfNot result (λ l. (leave_waiting l).ready ≡ false) }
        ensures rests { IfNot result (λ l. LeaveRests V.fit V.tag V.parked l) }
        ensures pass { IfGot result (λ p. badge_place p.badge ≡ (leave_waiting leave).place) }
        ensures steps { IfNot result (λ l. l.seat.me.0.steps ≡ leave.seat.me.0.steps + 1) }
        ensures steps_behind { IfGot result (λ p. (view_of p.badge).steps ≡ leave.seat.me.0.steps + 1) }
    {
        let (mut seat, mark) = self.words.leave_parts(leave);
        let own = self.name_of(&seat, mark);
        let grant = self.grant_of(&seat, own);
        if self.words.load::<LoadGrant>(&mut seat, grant) != 0 {
            return Step::Not(self.words.leave_of(seat, mark));
        }
        Step::Got(Pass::of(seat, mark))
    }

    fn close(self, passes: Vec<Pass>) -> V
        requires all { AreAll (λ p. badge_place p.badge) (lock_name hemlock_algorithm (words_key self.words).waiters
            (words_table self.words)) (V.tag (words_key self.words).value.value) (words_key self.words).passes passes.items }
        ensures fit { V.fit result }
        ensures tagged { V.tag result ≡ V.tag (words_key self.words).value.value }
        ensures unparked { V.parked result ≡ false }
    {
        let Hemlock { words } = self;
        words.close(passes)
    }
}

impl<V: Cargo> Ruled<V> for Hemlock<V> {
    ghost discipline = { λ _. hemlock_discipline };

    ghost table = { λ l. words_table l.words };

    ghost waiters = { λ l. (words_key l.words).waiters };

    fn show<L: Learner<V>>(&self, learner: L)
        ensures { L.learns learner hemlock_discipline (words_table self.now.words) (words_key self.now.words).waiters }
    {
        self.words.show(learner);
    }

    ghost named = { λ l. refl };
}
