//! The lock and its calls.
ghost use Rattle.std.specs.Prelude.{◌≡◌, ◌≢◌, ◌+◌, ◌<◌, ◌^◌, true, false, refl, IfOk};
ghost use Rattle.lock_rules.specs.declared.view.Algorithm.TheVariants.{Clh as clh_algorithm};
ghost use Rattle.lock_rules.specs.declared.step.Answer.TheVariants.{Open, Yes};
ghost use Rattle.lock_rules.specs.Views.{lock_name, answer_of};
ghost use Rattle.lock_rules.specs.Holders.{held_view, holder_of};
ghost use Rattle.lock_rules.specs.Leaves.{LeaveRests, leave_waiting};
ghost use Rattle.lock_rules.specs.Steps.{IfNot, IfGot, IsNot, IsGot};
ghost use Rattle.lock_rules.specs.Passes.{IsOf, AreAll};
ghost use Rattle.lock_rules.specs.Tokens.{view_of, badge_place, badge_waiting};
ghost use Rattle.lock_tables.specs.Happened.{counting};
ghost use Rattle.lock_tables.specs.Words.{words_key, words_table, IsOwnOf};
ghost use Rattle.clh_lock.specs.Choice.{clh_waiters};
ghost use Rattle.clh_lock.specs.Calls.{HasEntered, HasMissed, HasTaken, HasAsked, HasLeft};
ghost use Rattle.clh_lock.specs.Rule.{clh_discipline, flag, opens};

use crate::kinds::{FetchAndStoreTail, LoadTail, LoadWatched, StoreGranted, StorePending};
use crate::laws::ClhWords;
use lock_rules::{Basic, Cargo, Held, Leave, Pass, Queue, Refused, Step, Waiters};
use lock_tables::{Learner, LockWords, Ruled};
use std::alloc::{AllocError, Global};

const PENDING: u64 = 1;

const GRANTED: u64 = 0;

/// How many words a line has, and how many stand before the first.
const LINE: usize = 16;

const TAIL: usize = 16;

/// The words of a new lock.
fn open(alloc: Global, passes: u32) -> Result<Vec<u64>, AllocError>
    ensures { IfOk result (λ w. w.items ≡ opens passes) }
{
    let mut words = vec![in alloc; GRANTED; LINE * (passes as usize + 3)]?;
    words[TAIL] = u64::from(passes);
    Ok(words)
}

/// Where the flag of a node is.
fn flag_of(node: u64) -> usize
    requires { node < 2 ^ 32 }
    ensures { result ≡ flag node }
{
    LINE * (node as usize + 2)
}

/// The CLH lock: the words `waiting` and `tail` and the flags, each on a line of its own, and its slot.
#[derive(Drop)]
pub struct Clh<V: Cargo> {
    words: LockWords<V, ClhWords>,
}

impl<V: Cargo> Clh<V> {
    /// How it learns of waiters.
    pub fn waiters(&self) -> Waiters
        ensures { result ≡ clh_waiters self.now }
    {
        self.words.waiters()
    }
}

impl<V: Cargo> Basic<V> for Clh<V> {
    type Recipe = Waiters;

    type Pass = Pass;

    type Queue = Queue;

    type Held = Held<V>;

    type Leave = Leave<V>;

    ghost name = { λ l. lock_name clh_algorithm (words_key l.words).waiters (words_table l.words) };

    ghost tag = { λ l. V.tag (words_key l.words).value.value };

    ghost count = { λ l. (words_key l.words).passes };

    ghost made = { λ l waiters. clh_waiters l ≡ waiters };

    fn make(
        alloc: Global,
        waiters: Waiters,
        passes: u32,
        value: V,
    ) -> Result<(Clh<V>, Vec<Pass>), Refused<V>> {
        let Ok(opening) = open(alloc, passes) else {
            return Err(Refused { value });
        };
        let (words, list) = LockWords::make(alloc, &opening, waiters, passes, value)?;
        Ok((Clh { words }, list))
    }

    /// The answer is always `Not`: a pass swaps its node into `tail`, and looks whether the node before it is granted by `poll` alone.
    fn begin(&self, pass: Pass) -> Step<Queue, Held<V>>
        requires own { IsOwnOf V.tag clh_algorithm self.now.words (badge_place pass.badge) }
        ensures only_queues { IsNot result }
        ensures did { IfNot result (λ q. HasEntered V.fit V.tag V.parked pass.badge q.badge) }
        ensures steps { IfNot result (λ q. (view_of q.badge).steps
            ≡ (view_of pass.badge).steps + counting (view_of pass.badge).waiters + 2) }
        ensures queue { IfNot result (λ q. (badge_waiting q.badge).place ≡ badge_place pass.badge) }
        ensures entered { IfNot result (λ q. (view_of q.badge).entries ≡ (view_of pass.badge).entries + 1) }
        ensures held { IfGot result (λ h. (holder_of h).place ≡ badge_place pass.badge) }
        ensures fit { IfGot result (λ h. V.fit h.value) }
        ensures tagged { IfGot result (λ h. V.tag h.value ≡ V.tag (words_key self.now.words).value.value) }
        ensures untested { IfGot result (λ h. (holder_of h).tested ≡ Open) }
    {
        let (mut seat, node) = self.words.pass_parts(pass);
        self.words.announce(&mut seat);
        self.words
            .store::<StorePending>(&mut seat, flag_of(node), PENDING);
        let predecessor = self.words.swap::<FetchAndStoreTail>(&mut seat, TAIL, node);
        Step::Not(Queue::of(seat, node, predecessor))
    }

    /// The answer is `Not` exactly where the flag of the node that the pass watches isn't granted. Else the value that was at home is the
    /// holder's.
    fn poll(&self, queue: Queue) -> Step<Queue, Held<V>>
        requires own { IsOwnOf V.tag clh_algorithm self.now.words (badge_waiting queue.badge).place }
        ensures missed { IfNot result (λ q. HasMissed V.fit V.tag V.parked queue.badge q.badge) }
        ensures took { IfGot result (λ h. HasTaken V.fit V.tag V.parked queue.badge h) }
        ensures steps { IfNot result (λ q. (view_of q.badge).steps ≡ (view_of queue.badge).steps + 1) }
        ensures steps_behind { IfGot result (λ h. (held_view h).steps
            ≡ (view_of queue.badge).steps + 1 + counting (view_of queue.badge).waiters) }
        ensures queue { IfNot result (λ q. (badge_waiting q.badge).place ≡ (badge_waiting queue.badge).place) }
        ensures loaded { IfNot result (λ q. (badge_waiting q.badge).loads ≡ (badge_waiting queue.badge).loads + 1) }
        ensures unready { IfNot result (λ q. (badge_waiting q.badge).ready ≡ false) }
        ensures held { IfGot result (λ h. (holder_of h).place ≡ (badge_waiting queue.badge).place) }
        ensures fit { IfGot result (λ h. V.fit h.value) }
        ensures tagged { IfGot result (λ h. V.tag h.value ≡ V.tag (words_key self.now.words).value.value) }
        ensures untested { IfGot result (λ h. (holder_of h).tested ≡ Open) }
    {
        let (mut seat, node, predecessor) = self.words.queue_parts(queue);
        if self
            .words
            .load::<LoadWatched>(&mut seat, flag_of(predecessor))
            != GRANTED
        {
            return Step::Not(Queue::of(seat, node, predecessor));
        }
        let value = self.words.take(&mut seat);
        self.words.withdraw(&mut seat);
        Step::Got(Held::of(seat, value, node, predecessor))
    }

    /// The answer is yes exactly where `tail` isn't the holder's own node or, in a lock that counts its waiters, `waiting` isn't 0.
    fn waiter(&self, held: &mut Held<V>) -> bool
        requires own { IsOwnOf V.tag clh_algorithm self.now.words (holder_of held.old).place }
        ensures asked { HasAsked V.fit V.tag V.parked held.old held.new result }
        ensures steps { (held_view held.new).steps ≡ (held_view held.old).steps + 1 }
        ensures place { (holder_of held.new).place ≡ (holder_of held.old).place }
        ensures value { held.new.value ≡ held.old.value }
        ensures loaded { (holder_of held.new).loads ≡ (holder_of held.old).loads + 1 }
        ensures noted { (holder_of held.new).tested ≡ answer_of result }
    {
        let node = self.words.held_mark(held);
        let seat = &mut held.seat.seat;
        match self.words.waiters() {
            Waiters::Queue => self.words.load::<LoadTail>(seat, TAIL) != node,
            Waiters::Count => self.words.count_waiting(seat) != 0,
        }
    }

    /// The answer is never `Not`: the value is put back, the holder's node is granted, and the node that it watched is its own from then
    /// on.
    fn begin_release(&self, held: Held<V>) -> Step<Leave<V>, Pass>
        requires own { IsOwnOf V.tag clh_algorithm self.now.words (holder_of held).place }
        requires fit { V.fit held.value }
        requires tagged { V.tag held.value ≡ V.tag (words_key self.now.words).value.value }
        requires relied_on { V.parked held.value ≡ true → (holder_of held).tested ≡ Yes }
        requires said { V.said held.value ≢ Open → V.said held.value ≡ (holder_of held).tested }
        ensures leaves_at_once { IsGot result }
        ensures did { IfGot result (λ p. HasLeft V.fit V.tag V.parked held p.badge) }
        ensures steps { IfGot result (λ p. (view_of p.badge).steps ≡ (held_view held).steps + 1) }
        ensures leave { IfNot result (λ l. (leave_waiting l).place ≡ (holder_of held).place) }
        ensures loaded { IfNot result (λ l. (leave_waiting l).loads ≡ (holder_of held).loads + 1) }
        ensures unready { IfNot result (λ l. (leave_waiting l).ready ≡ false) }
        ensures rests { IfNot result (λ l. LeaveRests V.fit V.tag V.parked l) }
        ensures pass { IfGot result (λ p. badge_place p.badge ≡ (holder_of held).place) }
    {
        let (mut seat, value, node, predecessor) = self.words.held_parts(held);
        self.words.put(&mut seat, value);
        self.words
            .store::<StoreGranted>(&mut seat, flag_of(node), GRANTED);
        Step::Got(Pass::of(seat, predecessor))
    }

    /// The answer is never `Not`: the pass has left already.
    fn poll_release(&self, leave: Leave<V>) -> Step<Leave<V>, Pass>
        requires own { IsOwnOf V.tag clh_algorithm self.now.words (leave_waiting leave).place }
        ensures leaves_at_once { IsGot result }
        ensures steps { IfGot result (λ p. (view_of p.badge).steps ≡ leave.seat.me.0.steps) }
        ensures leave { IfNot result (λ l. (leave_waiting l).place ≡ (leave_waiting leave).place) }
        ensures loaded { IfNot result (λ l. (leave_waiting l).loads ≡ (leave_waiting leave).loads + 1) }
        ensures unready { IfNot result (λ l. (leave_waiting l).ready ≡ false) }
        ensures rests { IfNot result (λ l. LeaveRests V.fit V.tag V.parked l) }
        ensures pass { IfGot result (λ p. badge_place p.badge ≡ (leave_waiting leave).place) }
    {
        let (seat, mark) = self.words.leave_parts(leave);
        Step::Got(Pass::of(seat, mark))
    }

    fn close(self, passes: Vec<Pass>) -> V
        requires all { AreAll (λ p. badge_place p.badge) (lock_name clh_algorithm (words_key self.words).waiters
            (words_table self.words)) (V.tag (words_key self.words).value.value)
            (words_key self.words).passes passes.items }
        ensures fit { V.fit result }
        ensures tagged { V.tag result ≡ V.tag (words_key self.words).value.value }
        ensures unparked { V.parked result ≡ false }
    {
        let Clh { words } = self;
        words.close(passes)
    }
}

impl<V: Cargo> Ruled<V> for Clh<V> {
    ghost discipline = { λ _. clh_discipline };

    ghost table = { λ l. words_table l.words };

    ghost waiters = { λ l. (words_key l.words).waiters };

    fn show<L: Learner<V>>(&self, learner: L)
        ensures { L.learns learner clh_discipline (words_table self.now.words) (words_key self.now.words).waiters }
    {
        self.words.show(learner);
    }

    ghost named = { λ l. refl };
}
