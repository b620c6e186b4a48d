//! The contract of a basic lock.
ghost use Rattle.std.specs.Prelude.{◌≡◌, ◌≢◌, ◌+◌, ◌<◌, ℕ, true, false, IfOk, IfErr};
ghost use Rattle.std.specs.Borrow.{Lends, sem};
ghost use Rattle.lock_rules.specs.Tag.{Tag};
ghost use Rattle.lock_rules.specs.Steps.{IfNot, IfGot};
ghost use Rattle.lock_rules.specs.Passes.{IsOf, AreAll};
ghost use Rattle.lock_rules.specs.Views.{answer_of};
ghost use Rattle.lock_rules.specs.declared.step.Answer.TheVariants.{Open, Yes};

use crate::cargo::Cargo;
use crate::pauses::Pauses;
use crate::step::{Refused, Step};
use crate::token::{Departing, Holding, Placed, Queueing};
use std::alloc::Global;
use std::sync::Wait;

/// A lock that keeps one value and hands it to one of its passes at a time.
///
/// `name` tells the lock from all others, `tag` is the tag of its value, `count` is the number of passes that it was made with, and `made`
/// says that the lock is one that this recipe makes. A call that is handed a token asks that it is of this lock, and gives a token of the
/// same lock, tag and number. Only `make` takes memory, and only `acquire` and `release` wait.
///
/// The contract says what callers rely on, and not how a lock is made: a mutex round the value that is taken by `try_lock` could meet it
/// with tokens that count its tries. That the four locks are the queue locks of their papers is said by the rules of their tables and by
/// the clauses of their own calls.
pub trait Basic<V: Cargo>: Sized {
    type Recipe: Copy;

    type Pass: Placed;

    type Queue: Queueing;

    type Held: Holding<V>;

    type Leave: Departing;

    ghost name: { Self → Tag };

    ghost tag: { Self → Tag };

    ghost count: { Self → ℕ };

    ghost made: { Self → Self.Recipe → Type 0 };

    /// A lock with its passes, in the order of their numbers from 0. It is refused for want of memory alone.
    fn make(
        alloc: Global,
        recipe: Self::Recipe,
        passes: u32,
        value: V,
    ) -> Result<(Self, Vec<Self::Pass>), Refused<V>>
        requires some { 0 < passes }
        requires fit { V.fit value }
        requires unparked { V.parked value ≡ false }
        ensures made { IfOk result (λ m. made m.0 recipe) }
        ensures tag { IfOk result (λ m. tag m.0 ≡ V.tag value) }
        ensures count { IfOk result (λ m. count m.0 ≡ passes) }
        ensures passes { IfOk result (λ m. AreAll Self.Pass.place (name m.0) (tag m.0) (count m.0) m.1.items) }
        ensures refused { IfErr result (λ r. r.value ≡ value) };

    /// Enters the queue; a lock that counts its waiters is told first. The answer is `Not` only where this call made an entering step,
    /// which the token records.
    fn begin(&self, pass: Self::Pass) -> Step<Self::Queue, Self::Held>
        requires own { IsOf (name self.now) (tag self.now) (Self.Pass.place pass) }
        ensures queue { IfNot result (λ q. (Self.Queue.waiting q).place ≡ Self.Pass.place pass) }
        ensures entered { IfNot result (λ q. (Self.Queue.waiting q).entries ≡ Self.Pass.entries pass + 1) }
        ensures held { IfGot result (λ h. (Self.Held.holder h).place ≡ Self.Pass.place pass) }
        ensures fit { IfGot result (λ h. V.fit (Self.Held.holder h).value) }
        ensures tagged { IfGot result (λ h. V.tag (Self.Held.holder h).value ≡ tag self.now) }
        ensures untested { IfGot result (λ h. (Self.Held.holder h).tested ≡ Open) };

    /// Takes the value where the pass is the head of the queue. The answer is `Not` only where the one load of this call, which the token
    /// records, didn't show the word that the pass waits for.
    fn poll(&self, queue: Self::Queue) -> Step<Self::Queue, Self::Held>
        requires own { IsOf (name self.now) (tag self.now) (Self.Queue.waiting queue).place }
        ensures queue { IfNot result (λ q. (Self.Queue.waiting q).place ≡ (Self.Queue.waiting queue).place) }
        ensures loaded { IfNot result (λ q. (Self.Queue.waiting q).loads ≡ (Self.Queue.waiting queue).loads + 1) }
        ensures unready { IfNot result (λ q. (Self.Queue.waiting q).ready ≡ false) }
        ensures held { IfGot result (λ h. (Self.Held.holder h).place ≡ (Self.Queue.waiting queue).place) }
        ensures fit { IfGot result (λ h. V.fit (Self.Held.holder h).value) }
        ensures tagged { IfGot result (λ h. V.tag (Self.Held.holder h).value ≡ tag self.now) }
        ensures untested { IfGot result (λ h. (Self.Held.holder h).tested ≡ Open) };

    /// Whether another pass waits, by one load, which the token records: one that is queued behind the holder or, in a lock that counts its
    /// waiters, one that has begun and not yet taken. A yes stays true until the release.
    fn waiter(&self, held: &mut Self::Held) -> bool
        requires own { IsOf (name self.now) (tag self.now) (Self.Held.holder held.old).place }
        ensures place { (Self.Held.holder held.new).place ≡ (Self.Held.holder held.old).place }
        ensures value { (Self.Held.holder held.new).value ≡ (Self.Held.holder held.old).value }
        ensures loaded { (Self.Held.holder held.new).loads ≡ (Self.Held.holder held.old).loads + 1 }
        ensures noted { (Self.Held.holder held.new).tested ≡ answer_of result };

    /// Puts the value back and leaves the queue. A parked value needs a yes of `waiter`, and a value that keeps an answer keeps the last
    /// one.
    fn begin_release(&self, held: Self::Held) -> Step<Self::Leave, Self::Pass>
        requires own { IsOf (name self.now) (tag self.now) (Self.Held.holder held).place }
        requires fit { V.fit (Self.Held.holder held).value }
        requires tagged { V.tag (Self.Held.holder held).value ≡ tag self.now }
        requires relied_on { V.parked (Self.Held.holder held).value ≡ true → (Self.Held.holder held).tested ≡ Yes }
        requires said { V.said (Self.Held.holder held).value ≢ Open
            → V.said (Self.Held.holder held).value ≡ (Self.Held.holder held).tested }
        ensures leave { IfNot result (λ l. (Self.Leave.waiting l).place ≡ (Self.Held.holder held).place) }
        ensures loaded { IfNot result (λ l. (Self.Leave.waiting l).loads ≡ (Self.Held.holder held).loads + 1) }
        ensures unready { IfNot result (λ l. (Self.Leave.waiting l).ready ≡ false) }
        ensures rests { IfNot result (λ l. Self.Leave.rests l) }
        ensures pass { IfGot result (λ p. Self.Pass.place p ≡ (Self.Held.holder held).place) };

    /// Goes on with a release. The answer is `Not` only where the one load of this call, which the token records, didn't show the word that
    /// the pass waits for.
    fn poll_release(&self, leave: Self::Leave) -> Step<Self::Leave, Self::Pass>
        requires own { IsOf (name self.now) (tag self.now) (Self.Leave.waiting leave).place }
        requires rests { Self.Leave.rests leave }
        ensures leave { IfNot result (λ l. (Self.Leave.waiting l).place ≡ (Self.Leave.waiting leave).place) }
        ensures loaded { IfNot result (λ l. (Self.Leave.waiting l).loads ≡ (Self.Leave.waiting leave).loads + 1) }
        ensures unready { IfNot result (λ l. (Self.Leave.waiting l).ready ≡ false) }
        ensures rests { IfNot result (λ l. Self.Leave.rests l) }
        ensures pass { IfGot result (λ p. Self.Pass.place p ≡ (Self.Leave.waiting leave).place) };

    /// Takes the lock apart, with all its passes in the order of their numbers.
    fn close(self, passes: Vec<Self::Pass>) -> V
        requires all { AreAll Self.Pass.place (name self) (tag self) (count self) passes.items }
        ensures fit { V.fit result }
        ensures tagged { V.tag result ≡ tag self }
        ensures unparked { V.parked result ≡ false };

    final fn value(held: &Self::Held) -> &V
        ensures { result.now ≡ (Self.Held.holder held.now).value }
    {
        held.value()
    }

    final fn value_mut(held: &mut Self::Held) -> &mut V
        ensures* writes_back { sem 𝓛 (Lends Self.Held.row V.row held.entry result (Self.Held.put held.old)) }
        ensures value { result.now ≡ (Self.Held.holder held.old).value }
        ensures others { (w : V) → Self.Held.holder (Self.Held.put held.old w) ≡ record (Self.Held.holder held.old) { value = w } }
    {
        held.value_mut()
    }

    /// Waits until the pass holds the value.
    #[inline(always)]
    final fn acquire<R: Wait>(&self, rt: &R, pass: Self::Pass) -> Self::Held
        requires own { IsOf (name self.now) (tag self.now) (Self.Pass.place pass) }
        ensures held { (Self.Held.holder result).place ≡ Self.Pass.place pass }
        ensures fit { V.fit (Self.Held.holder result).value }
        ensures tagged { V.tag (Self.Held.holder result).value ≡ tag self.now }
        ensures untested { (Self.Held.holder result).tested ≡ Open }
    {
        let mut queue = match self.begin(pass) {
            Step::Got(held) => return held,
            Step::Not(queue) => queue,
        };
        let mut pauses = Pauses::new();
        for _ in rt.forever() {
            queue = match self.poll(queue) {
                Step::Got(held) => return held,
                Step::Not(queue) => queue,
            };
            pauses.pause();
        }
        unreachable!()
    }

    /// Gives the value back, and waits until the pass is idle again.
    #[inline(always)]
    final fn release<R: Wait>(&self, rt: &R, held: Self::Held) -> Self::Pass
        requires own { IsOf (name self.now) (tag self.now) (Self.Held.holder held).place }
        requires fit { V.fit (Self.Held.holder held).value }
        requires tagged { V.tag (Self.Held.holder held).value ≡ tag self.now }
        requires relied_on { V.parked (Self.Held.holder held).value ≡ true → (Self.Held.holder held).tested ≡ Yes }
        requires said { V.said (Self.Held.holder held).value ≢ Open
            → V.said (Self.Held.holder held).value ≡ (Self.Held.holder held).tested }
        ensures pass { Self.Pass.place result ≡ (Self.Held.holder held).place }
    {
        let mut leave = match self.begin_release(held) {
            Step::Got(pass) => return pass,
            Step::Not(leave) => leave,
        };
        let mut pauses = Pauses::new();
        for _ in rt.forever() {
            leave = match self.poll_release(leave) {
                Step::Got(pass) => return pass,
                Step::Not(leave) => leave,
            };
            pauses.pause();
        }
        unreachable!()
    }
}
