//! A lock that lets its users wait.
ghost use Rattle.std.specs.Prelude.{◌≡◌, false};
ghost use Rattle.lock_rules.specs.Passes.{AreAll};
ghost use Rattle.lock_rules.specs.Tag.{leaf};
ghost use Rattle.lock_harness.specs.Slow.{late_queue, late_leave, MayLeave};

use crate::parcel::Parcel;
use lock_rules::{Basic, Departing, Holding, Queueing, Refused, Step};
use std::alloc::Global;

/// A lock over another one. Each `poll` of a pass, and each call that releases it, answers `Not` for the first `rounds` times, and only
/// then asks the lock inside. So `acquire` and `release` meet as many `Not`s as a test wants, whichever lock is inside. The value counts
/// them (`Parcel::waits`).
#[derive(Drop)]
pub struct Slow<B> {
    lock: B,
    rounds: u32,
}

/// A pass in the queue of the lock inside, and how often it was told `Not` since.
#[derive(Drop)]
pub struct SlowQueue<Q> {
    queue: Q,
    missed: u64,
}

/// A pass that leaves: the holder of the lock inside, or one that has begun to leave it. `missed` counts the `Not`s that the lock inside
/// doesn't know of.
#[derive(Drop)]
pub enum SlowLeave<H, L> {
    Waits { held: H, missed: u64 },
    Leaves { leave: L, missed: u64 },
}

impl<Q: Queueing> Queueing for SlowQueue<Q> {
    ghost waiting = { λ q. late_queue (Q.waiting q.queue) q.missed };
}

impl<H: Holding<Parcel>, L: Departing> Departing for SlowLeave<H, L> {
    ghost waiting = { late_leave H.holder L.waiting };

    ghost rests = { MayLeave H.holder L.rests };
}

impl<B: Basic<Parcel>> Basic<Parcel> for Slow<B> {
    type Recipe = (B::Recipe, u32);

    type Pass = B::Pass;

    type Queue = SlowQueue<B::Queue>;

    type Held = B::Held;

    type Leave = SlowLeave<B::Held, B::Leave>;

    ghost name = { λ l. B.name l.lock };

    ghost tag = { λ l. B.tag l.lock };

    ghost count = { λ l. B.count l.lock };

    ghost made = { λ l r. B.made l.lock r.0 };

    fn make(
        alloc: Global,
        recipe: (B::Recipe, u32),
        passes: u32,
        value: Parcel,
    ) -> Result<(Slow<B>, Vec<B::Pass>), Refused<Parcel>> {
        let (inside, rounds) = recipe;
        let (lock, list) = B::make(alloc, inside, passes, value)?;
        Ok((Slow { lock, rounds }, list))
    }

    fn begin(&self, pass: B::Pass) -> Step<SlowQueue<B::Queue>, B::Held> {
        match self.lock.begin(pass) {
            Step::Not(queue) => Step::Not(SlowQueue { queue, missed: 0 }),
            Step::Got(held) => Step::Got(held),
        }
    }

    fn poll(&self, queue: SlowQueue<B::Queue>) -> Step<SlowQueue<B::Queue>, B::Held> {
        let SlowQueue { queue, missed } = queue;
        if missed < u64::from(self.rounds) {
            let missed = missed + 1;
            return Step::Not(SlowQueue { queue, missed });
        }
        match self.lock.poll(queue) {
            Step::Not(queue) => Step::Not(SlowQueue { queue, missed }),
            Step::Got(mut held) => {
                add_waits::<B>(&mut held, missed);
                Step::Got(held)
            }
        }
    }

    fn waiter(&self, held: &mut B::Held) -> bool {
        self.lock.waiter(held)
    }

    fn begin_release(&self, held: B::Held) -> Step<SlowLeave<B::Held, B::Leave>, B::Pass> {
        Step::Not(SlowLeave::Waits { held, missed: 1 })
    }

    fn poll_release(
        &self,
        leave: SlowLeave<B::Held, B::Leave>,
    ) -> Step<SlowLeave<B::Held, B::Leave>, B::Pass> {
        match leave {
            SlowLeave::Waits { held, missed } if missed < u64::from(self.rounds) => {
                let missed = missed + 1;
                Step::Not(SlowLeave::Waits { held, missed })
            }
            SlowLeave::Waits { mut held, missed } => {
                add_waits::<B>(&mut held, missed);
                match self.lock.begin_release(held) {
                    Step::Not(leave) => Step::Not(SlowLeave::Leaves { leave, missed }),
                    Step::Got(pass) => Step::Got(pass),
                }
            }
            SlowLeave::Leaves { leave, missed } => match self.lock.poll_release(leave) {
                Step::Not(leave) => Step::Not(SlowLeave::Leaves { leave, missed }),
                Step::Got(pass) => Step::Got(pass),
            },
        }
    }

    fn close(self, passes: Vec<B::Pass>) -> Parcel
        requires all { AreAll B.Pass.place (B.name self.lock) (B.tag self.lock) (B.count self.lock) passes.items }
        ensures fit { Unit {0} }
        ensures tagged { leaf 0 ≡ B.tag self.lock }
        ensures unparked { result.parked ≡ false }
    {
        let Slow { lock, rounds: _ } = self;
        lock.close(passes)
    }
}

// Adds to the value's count of waits.
fn add_waits<B: Basic<Parcel>>(held: &mut B::Held, missed: u64)
    ensures place { (B.Held.holder held.new).place ≡ (B.Held.holder held.old).place }
    ensures loads { (B.Held.holder held.new).loads ≡ (B.Held.holder held.old).loads }
    ensures tested { (B.Held.holder held.new).tested ≡ (B.Held.holder held.old).tested }
    ensures parked { (B.Held.holder held.new).value.parked ≡ (B.Held.holder held.old).value.parked }
{
    let parcel = B::value_mut(held);
    parcel.waits = parcel.waits.wrapping_add(missed);
}
