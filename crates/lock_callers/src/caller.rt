//! A caller of a lock.
ghost use Rattle.std.specs.Prelude.{◌≡◌, false, IfOk, IfErr};
ghost use Rattle.lock_callers.specs.Goes.{Goes, LoadedOnce, WasLoaded, Tells, TellsIdle, is_idle, is_queued, is_holding, is_leaving};
ghost use Rattle.lock_callers.specs.declared.standing.Standing.TheVariants.{Idle, Queued, Holding, Leaving};

use crate::stage::Stage;
use crate::standing::{Reply, Standing};
use crossbeam_utils::CachePadded;
use lock_rules::{Basic, Plain, Step};
use std::marker::Model;
use std::mem;
use std::sync::Arc;

/// A caller: a lock that it shares with the lock's other callers, and a token of that lock. The last caller that is let go takes the lock
/// with it.
#[derive(Drop)]
pub struct Caller<B: Basic<Plain<()>>> {
    pub(crate) lock: Arc<B>,
    pub(crate) stage: CachePadded<Stage<B::Pass, B::Queue, B::Held, B::Leave>>,
}

impl<B: Basic<Plain<()>>> Model for Caller<B> {
    ghost use Rattle.std.specs.Arc.{arc_value};
    ghost use Rattle.crossbeam_utils.specs.Padded.{padded_value};
    ghost use Rattle.lock_callers.specs.Seen.{Seen, seen_code};
    ghost use Rattle.lock_callers.specs.Sound.{IsSound, standing_of, loads_of, tested_of};

    ghost Value = { Seen };

    ghost coded = { seen_code };

    ghost view = { λ c. record {
      standing = standing_of (padded_value c.stage);
      lock = B.name (arc_value c.lock);
      loads = loads_of B.Queue.waiting B.Held.holder B.Leave.waiting (padded_value c.stage);
      tested = tested_of B.Held.holder (padded_value c.stage);
    } };

    ghost invariant = { λ c. IsSound B.Pass.place B.Queue.waiting B.Held.holder B.Leave.waiting B.Leave.rests
        (B.name (arc_value c.lock)) (B.tag (arc_value c.lock)) (padded_value c.stage) };
}

impl<B: Basic<Plain<()>>> Caller<B> {
    /// Where the caller stands.
    pub fn standing(&self) -> Standing
        ensures stands { result ≡ self.now.standing }
    {
        self.stage.standing()
    }

    /// From Idle: enters the queue.
    pub fn begin(&mut self) -> Reply
        ensures goes { Goes (is_idle self.old.standing) Queued Holding self.old self.new result }
    {
        match mem::replace(&mut *self.stage, Stage::Spent) {
            Stage::Idle(pass) => match self.lock.begin(pass) {
                Step::Not(queue) => {
                    *self.stage = Stage::Queued(queue);
                    Reply::NotYet
                }
                Step::Got(held) => {
                    *self.stage = Stage::Holding(held);
                    Reply::Done
                }
            },
            other => {
                *self.stage = other;
                Reply::Elsewhere
            }
        }
    }

    /// From Queued: asks once whether the caller is the head of the queue.
    pub fn poll(&mut self) -> Reply
        ensures goes { Goes (is_queued self.old.standing) Queued Holding self.old self.new result }
        ensures loaded { LoadedOnce self.old self.new result }
    {
        match mem::replace(&mut *self.stage, Stage::Spent) {
            Stage::Queued(queue) => match self.lock.poll(queue) {
                Step::Not(queue) => {
                    *self.stage = Stage::Queued(queue);
                    Reply::NotYet
                }
                Step::Got(held) => {
                    *self.stage = Stage::Holding(held);
                    Reply::Done
                }
            },
            other => {
                *self.stage = other;
                Reply::Elsewhere
            }
        }
    }

    /// From Idle: enters the queue, and asks once whether the caller is its head.
    pub fn enter(&mut self) -> Reply
        ensures goes { Goes (is_idle self.old.standing) Queued Holding self.old self.new result }
        ensures loaded { WasLoaded self.new result }
    {
        match self.begin() {
            Reply::NotYet => self.poll(),
            reply => reply,
        }
    }

    /// From Holding: leaves the queue.
    pub fn begin_release(&mut self) -> Reply
        ensures goes { Goes (is_holding self.old.standing) Leaving Idle self.old self.new result }
        ensures loaded { LoadedOnce self.old self.new result }
    {
        match mem::replace(&mut *self.stage, Stage::Spent) {
            Stage::Holding(held) => match self.lock.begin_release(held) {
                Step::Not(leave) => {
                    *self.stage = Stage::Leaving(leave);
                    Reply::NotYet
                }
                Step::Got(pass) => {
                    *self.stage = Stage::Idle(pass);
                    Reply::Done
                }
            },
            other => {
                *self.stage = other;
                Reply::Elsewhere
            }
        }
    }

    /// From Leaving: goes on with a release.
    pub fn poll_release(&mut self) -> Reply
        ensures goes { Goes (is_leaving self.old.standing) Leaving Idle self.old self.new result }
        ensures loaded { LoadedOnce self.old self.new result }
    {
        match mem::replace(&mut *self.stage, Stage::Spent) {
            Stage::Leaving(leave) => match self.lock.poll_release(leave) {
                Step::Not(leave) => {
                    *self.stage = Stage::Leaving(leave);
                    Reply::NotYet
                }
                Step::Got(pass) => {
                    *self.stage = Stage::Idle(pass);
                    Reply::Done
                }
            },
            other => {
                *self.stage = other;
                Reply::Elsewhere
            }
        }
    }

    /// Whether the caller may be let go: done from Idle.
    pub fn may_free(&self) -> Reply
        ensures told { TellsIdle (is_idle self.now.standing) result }
    {
        match self.standing() {
            Standing::Idle => Reply::Done,
            _ => Reply::Elsewhere,
        }
    }

    /// At Holding: whether another caller is queued behind this one. `None` at any other standing.
    pub fn waiters(&mut self) -> Option<bool>
        ensures tells { Tells (is_holding self.old.standing) self.old self.new result }
    {
        match mem::replace(&mut *self.stage, Stage::Spent) {
            Stage::Holding(mut held) => {
                let told = self.lock.waiter(&mut held);
                *self.stage = Stage::Holding(held);
                Some(told)
            }
            other => {
                *self.stage = other;
                None
            }
        }
    }
}

impl<B: Basic<Plain<()>> + Drop> Caller<B> {
    /// Lets an idle caller go. At any other standing it comes back.
    pub fn free(self) -> Result<(), Caller<B>>
        ensures freed { IfOk result (λ _. self.standing ≡ Idle) }
        ensures back { IfErr result (λ c. (c ≡ self) × (is_idle self.standing ≡ false)) }
    {
        match self.standing() {
            Standing::Idle => Ok(()),
            _ => Err(self),
        }
    }
}
