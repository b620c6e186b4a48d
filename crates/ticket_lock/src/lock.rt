//! The lock and its calls.
ghost use Rattle.std.specs.Prelude.{◌≡◌, ◌≢◌, ◌+◌, true, false, refl};
ghost use Rattle.lock_rules.specs.declared.view.Algorithm.TheVariants.{Ticket as ticket_algorithm};
ghost use Rattle.lock_rules.specs.declared.step.Answer.TheVariants.{Open, Yes};
ghost use Rattle.lock_rules.specs.Views.{lock_name, answer_of};
ghost use Rattle.lock_rules.specs.Holders.{held_view, holder_of};
ghost use Rattle.lock_rules.specs.Leaves.{LeaveRests, leave_waiting};
ghost use Rattle.lock_rules.specs.Steps.{IfNot, IfGot, IsNot, IsGot};
ghost use Rattle.lock_rules.specs.Passes.{IsOf, AreAll};
ghost use Rattle.lock_rules.specs.Tokens.{view_of, badge_place, badge_waiting};
ghost use Rattle.lock_tables.specs.Happened.{counting};
ghost use Rattle.lock_tables.specs.Words.{words_key, words_table, IsOwnOf};
ghost use Rattle.ticket_lock.specs.Choice.{ticket_waiters};
ghost use Rattle.ticket_lock.specs.Calls.{HasEntered, HasMissed, HasTaken, HasAsked, HasLeft};
ghost use Rattle.ticket_lock.specs.Rule.{ticket_discipline};

use crate::kinds::{AddNext, LoadNext, LoadServing, StoreServing};
use crate::laws::TicketWords;
use lock_rules::{Basic, Cargo, Held, Leave, Pass, Queue, Refused, Step, Waiters};
use lock_tables::{Learner, LockWords, Ruled};
use std::alloc::Global;

const NEXT: usize = 16;

const SERVING: usize = 32;

const OPENING: [u64; 48] = [0; 48];

/// The Ticket lock: the words `next` and `serving`, each on a line of its own, and its slot.
#[derive(Drop)]
pub struct Ticket<V: Cargo> {
    words: LockWords<V, TicketWords>,
}

impl<V: Cargo> Ticket<V> {
    /// How it learns of waiters.
    pub fn waiters(&self) -> Waiters
        ensures { result ≡ ticket_waiters self.now }
    {
        self.words.waiters()
    }
}

impl<V: Cargo> Basic<V> for Ticket<V> {
    type Recipe = Waiters;

    type Pass = Pass;

    type Queue = Queue;

    type Held = Held<V>;

    type Leave = Leave<V>;

    ghost name = { λ l. lock_name ticket_algorithm (words_key l.words).waiters (words_table l.words) };

    ghost tag = { λ l. V.tag (words_key l.words).value.value };

    ghost count = { λ l. (words_key l.words).passes };

    ghost made = { λ l waiters. ticket_waiters l ≡ waiters };

    fn make(
        alloc: Global,
        waiters: Waiters,
        passes: u32,
        value: V,
    ) -> Result<(Ticket<V>, Vec<Pass>), Refused<V>> {
        let (words, list) = LockWords::make(alloc, &OPENING, waiters, passes, value)?;
        Ok((Ticket { words }, list))
    }

    /// The answer is always `Not`: a pass draws its ticket, and looks whether it is served by `poll` alone.
    fn begin(&self, pass: Pass) -> Step<Queue, Held<V>>
        requires own { IsOwnOf V.tag ticket_algorithm self.now.words (badge_place pass.badge) }
        ensures only_queues { IsNot result }
        ensures did { IfNot result (λ q. HasEntered V.fit V.tag V.parked pass.badge q.badge) }
        ensures queue { IfNot result (λ q. (badge_waiting q.badge).place ≡ badge_place pass.badge) }
        ensures entered { IfNot result (λ q. (view_of q.badge).entries ≡ (view_of pass.badge).entries + 1) }
        ensures steps { IfNot result (λ q. (view_of q.badge).steps
            ≡ (view_of pass.badge).steps + counting (view_of pass.badge).waiters + 1) }
        ensures held { IfGot result (λ h. (holder_of h).place ≡ badge_place pass.badge) }
        ensures fit { IfGot result (λ h. V.fit h.value) }
        ensures tagged { IfGot result (λ h. V.tag h.value ≡ V.tag (words_key self.now.words).value.value) }
        ensures untested { IfGot result (λ h. (holder_of h).tested ≡ Open) }
    {
        let (mut seat, _) = self.words.pass_parts(pass);
        self.words.announce(&mut seat);
        let ticket = self.words.fetch_add::<AddNext>(&mut seat, NEXT, 1);
        Step::Not(Queue::of(seat, ticket, 0))
    }

    /// The answer is `Not` exactly where the loaded word isn't the pass's ticket. Else the value that was at home is the holder's.
    fn poll(&self, queue: Queue) -> Step<Queue, Held<V>>
        requires own { IsOwnOf V.tag ticket_algorithm self.now.words (badge_waiting queue.badge).place }
        ensures missed { IfNot result (λ q. HasMissed V.fit V.tag V.parked queue.badge q.badge) }
        ensures took { IfGot result (λ h. HasTaken V.fit V.tag V.parked queue.badge h) }
        ensures queue { IfNot result (λ q. (badge_waiting q.badge).place ≡ (badge_waiting queue.badge).place) }
        ensures loaded { IfNot result (λ q. (badge_waiting q.badge).loads ≡ (badge_waiting queue.badge).loads + 1) }
        ensures unready { IfNot result (λ q. (badge_waiting q.badge).ready ≡ false) }
        ensures steps { IfNot result (λ q. (view_of q.badge).steps ≡ (view_of queue.badge).steps + 1) }
        ensures steps_behind { IfGot result (λ h. (held_view h).steps
            ≡ (view_of queue.badge).steps + 1 + counting (view_of queue.badge).waiters) }
        ensures held { IfGot result (λ h. (holder_of h).place ≡ (badge_waiting queue.badge).place) }
        ensures fit { IfGot result (λ h. V.fit h.value) }
        ensures tagged { IfGot result (λ h. V.tag h.value ≡ V.tag (words_key self.now.words).value.value) }
        ensures untested { IfGot result (λ h. (holder_of h).tested ≡ Open) }
    {
        let (mut seat, ticket, predecessor) = self.words.queue_parts(queue);
        if self.words.load::<LoadServing>(&mut seat, SERVING) != ticket {
            return Step::Not(Queue::of(seat, ticket, predecessor));
        }
        let value = self.words.take(&mut seat);
        self.words.withdraw(&mut seat);
        Step::Got(Held::of(seat, value, ticket, predecessor))
    }

    /// The answer is yes exactly where the loaded word isn't the ticket behind the holder's or, in a lock that counts, isn't 0.
    fn waiter(&self, held: &mut Held<V>) -> bool
        requires own { IsOwnOf V.tag ticket_algorithm self.now.words (holder_of held.old).place }
        ensures asked { HasAsked V.fit V.tag V.parked held.old held.new result }
        ensures place { (holder_of held.new).place ≡ (holder_of held.old).place }
        ensures value { held.new.value ≡ held.old.value }
        ensures loaded { (holder_of held.new).loads ≡ (holder_of held.old).loads + 1 }
        ensures noted { (holder_of held.new).tested ≡ answer_of result }
        ensures steps { (held_view held.new).steps ≡ (held_view held.old).steps + 1 }
    {
        let ticket = self.words.held_mark(held);
        let seat = &mut held.seat.seat;
        match self.words.waiters() {
            Waiters::Queue => self.words.load::<LoadNext>(seat, NEXT) != ticket.wrapping_add(1),
            Waiters::Count => self.words.count_waiting(seat) != 0,
        }
    }

    /// The answer is never `Not`: the value is put back, and the next ticket is served.
    fn begin_release(&self, held: Held<V>) -> Step<Leave<V>, Pass>
        requires own { IsOwnOf V.tag ticket_algorithm self.now.words (holder_of held).place }
        requires fit { V.fit held.value }
        requires tagged { V.tag held.value ≡ V.tag (words_key self.now.words).value.value }
        requires relied_on { V.parked held.value ≡ true → (holder_of held).tested ≡ Yes }
        requires said { V.said held.value ≢ Open → V.said held.value ≡ (holder_of held).tested }
        ensures leaves_at_once { IsGot result }
        ensures did { IfGot result (λ p. HasLeft V.fit V.tag V.parked held p.badge) }
        ensures leave { IfNot result (λ l. (leave_waiting l).place ≡ (holder_of held).place) }
        ensures loaded { IfNot result (λ l. (leave_waiting l).loads ≡ (holder_of held).loads + 1) }
        ensures unready { IfNot result (λ l. (leave_waiting l).ready ≡ false) }
        ensures rests { IfNot result (λ l. LeaveRests V.fit V.tag V.parked l) }
        ensures pass { IfGot result (λ p. badge_place p.badge ≡ (holder_of held).place) }
        ensures steps { IfGot result (λ p. (view_of p.badge).steps ≡ (held_view held).steps + 1) }
    {
        let (mut seat, value, ticket, _) = self.words.held_parts(held);
        self.words.put(&mut seat, value);
        let next = ticket.wrapping_add(1);
        self.words.store::<StoreServing>(&mut seat, SERVING, next);
        Step::Got(Pass::of(seat, ticket))
    }

    /// The answer is never `Not`: the pass has left already.
    fn poll_release(&self, leave: Leave<V>) -> Step<Leave<V>, Pass>
        requires own { IsOwnOf V.tag ticket_algorithm self.now.words (leave_waiting leave).place }
        ensures leaves_at_once { IsGot result }
        ensures leave { IfNot result (λ l. (leave_waiting l).place ≡ (leave_waiting leave).place) }
        ensures loaded { IfNot result (λ l. (leave_waiting l).loads ≡ (leave_waiting leave).loads + 1) }
        ensures unready { IfNot result (λ l. (leave_waiting l).ready ≡ false) }
        ensures rests { IfNot result (λ l. LeaveRests V.fit V.tag V.parked l) }
        ensures pass { IfGot result (λ p. badge_place p.badge ≡ (leave_waiting leave).place) }
    {
        let (seat, mark) = self.words.leave_parts(leave);
        Step::Got(Pass::of(seat, mark))
    }

    fn close(self, passes: Vec<Pass>) -> V
        requires all { AreAll (λ p. badge_place p.badge) (lock_name ticket_algorithm (words_key self.words).waiters
            (words_table self.words)) (V.tag (words_key self.words).value.value) (words_key self.words).passes passes.items }
        ensures fit { V.fit result }
        ensures tagged { V.tag result ≡ V.tag (words_key self.words).value.value }
        ensures unparked { V.parked result ≡ false }
    {
        let Ticket { words } = self;
        words.close(passes)
    }
}

impl<V: Cargo> Ruled<V> for Ticket<V> {
    ghost discipline = { λ _. ticket_discipline };

    ghost table = { λ l. words_table l.words };

    ghost waiters = { λ l. (words_key l.words).waiters };

    fn show<L: Learner<V>>(&self, learner: L)
        ensures { L.learns learner ticket_discipline (words_table self.now.words) (words_key self.now.words).waiters }
    {
        self.words.show(learner);
    }

    ghost named = { λ l. refl };
}
