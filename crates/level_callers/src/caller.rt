//! A caller of a composed lock.
ghost use Rattle.std.specs.Prelude.{◌≡◌, false, IfOk, IfErr};
ghost use Rattle.lock_callers.specs.Goes.{is_idle};
ghost use Rattle.lock_callers.specs.declared.standing.Standing.TheVariants.{Idle};
ghost use Rattle.level_callers.specs.Goes.{Begins, Polls, BeginsRelease, PollsRelease, TellsIdle};
ghost use Rattle.level_callers.specs.Goes.{HasClimbed, HasLooked, HasBegunToLeave, HasDescended};

use crate::holder::noted;
use crate::reply::Reply;
use clof_compose::Composed;
use crossbeam_utils::CachePadded;
use keep_local::Share;
use lock_callers::{Stage, Standing};
use lock_rules::Step;
use own_payload::Noted;
use std::marker::Model;
use std::mem;
use std::sync::Arc;

/// A caller: a lock that it shares with the lock's other callers, a token of that lock, and its share of the turns. The last caller that
/// is let go takes the lock with it.
#[derive(Drop)]
pub struct Caller<C: Composed<Noted<()>>> {
    pub(crate) lock: Arc<C>,
    pub(crate) share: Share,
    pub(crate) stage: CachePadded<Stage<C::Pass, C::Queue, C::Held, C::Leave>>,
}

impl<C: Composed<Noted<()>>> Model for Caller<C> {
    ghost use Rattle.std.specs.Arc.{arc_value};
    ghost use Rattle.crossbeam_utils.specs.Padded.{padded_value};
    ghost use Rattle.lock_rules.specs.Tag.{leaf};
    ghost use Rattle.lock_callers.specs.Sound.{standing_of};
    ghost use Rattle.level_callers.specs.Seen.{Seen, seen_code};
    ghost use Rattle.level_callers.specs.Sound.{IsSound, IsToken, level_of, loads_of};

    ghost Value = { Seen };

    ghost coded = { seen_code };

    ghost view = { λ c. record {
      standing = standing_of (padded_value c.stage);
      lock = C.tag (arc_value c.lock);
      caller = c.share.caller;
      made = c.share.made;
      allowed = c.share.quota;
      level = level_of C.Queue.climb C.Held.stand C.Leave.descent (padded_value c.stage);
      loads = loads_of C.Queue.climb C.Held.stand C.Leave.descent (padded_value c.stage);
    } };

    ghost invariant = { λ c. IsSound (C.sound (arc_value c.lock)) (C.level (arc_value c.lock)) (C.tag (arc_value c.lock)) c.share
        (IsToken C.Pass.rest C.Queue.climb C.Queue.climbs C.Held.stand C.Held.stands C.Leave.descent C.Leave.descends
        (λ n. n.calls.callers) (λ _. leaf 0) (C.has (arc_value c.lock)) (C.level (arc_value c.lock)) (C.tag (arc_value c.lock)) c.share
        (padded_value c.stage)) };
}

impl<C: Composed<Noted<()>>> Caller<C> {
    /// Where the caller stands.
    pub fn standing(&self) -> Standing
        ensures stands { result ≡ self.now.standing }
    {
        self.stage.standing()
    }

    /// From Idle: enters the queue of its lowest level, and goes up from there as far as it can.
    pub fn begin(&mut self) -> Reply
        ensures goes { Begins self.old self.new result }
    {
        match mem::replace(&mut *self.stage, Stage::Spent) {
            Stage::Idle(pass) if self.share.may_turn() => {
                match self.lock.begin(pass, &mut self.share) {
                    Step::Not(queue) => {
                        *self.stage = Stage::Queued(queue);
                        Reply::NotYet
                    }
                    Step::Got(held) => {
                        *self.stage = Stage::Holding(noted(&*self.lock, held, &self.share));
                        Reply::Done
                    }
                }
            }
            Stage::Idle(pass) => {
                *self.stage = Stage::Idle(pass);
                Reply::NoTurn
            }
            other => {
                *self.stage = other;
                Reply::Elsewhere
            }
        }
    }

    /// From Queued: asks once whether the caller is the head of the queue where it is queued, and goes up from there as far as it can.
    pub fn poll(&mut self) -> Reply
        ensures goes { Polls self.old self.new result }
        ensures climbed { HasClimbed self.old self.new result }
    {
        match mem::replace(&mut *self.stage, Stage::Spent) {
            Stage::Queued(queue) => match self.lock.poll(queue, &mut self.share) {
                Step::Not(queue) => {
                    *self.stage = Stage::Queued(queue);
                    Reply::NotYet
                }
                Step::Got(held) => {
                    *self.stage = Stage::Holding(noted(&*self.lock, held, &self.share));
                    Reply::Done
                }
            },
            other => {
                *self.stage = other;
                Reply::Elsewhere
            }
        }
    }

    /// From Idle: begins, and polls once where that is not done.
    pub fn enter(&mut self) -> Reply
        ensures goes { Begins self.old self.new result }
        ensures looked { HasLooked self.new result }
    {
        match self.begin() {
            Reply::NotYet => self.poll(),
            reply => reply,
        }
    }

    /// From Holding: leaves the lock.
    pub fn begin_release(&mut self) -> Reply
        ensures goes { BeginsRelease self.old self.new result }
        ensures left { HasBegunToLeave self.old self.new result }
    {
        match mem::replace(&mut *self.stage, Stage::Spent) {
            Stage::Holding(held) => match self.lock.begin_release(held) {
                Step::Not(leave) => {
                    *self.stage = Stage::Leaving(leave);
                    Reply::NotYet
                }
                Step::Got(pass) => {
                    *self.stage = Stage::Idle(pass);
                    Reply::Done
                }
            },
            other => {
                *self.stage = other;
                Reply::Elsewhere
            }
        }
    }

    /// From Leaving: goes on with a release.
    pub fn poll_release(&mut self) -> Reply
        ensures goes { PollsRelease self.old self.new result }
        ensures descended { HasDescended self.old self.new result }
    {
        match mem::replace(&mut *self.stage, Stage::Spent) {
            Stage::Leaving(leave) => match self.lock.poll_release(leave) {
                Step::Not(leave) => {
                    *self.stage = Stage::Leaving(leave);
                    Reply::NotYet
                }
                Step::Got(pass) => {
                    *self.stage = Stage::Idle(pass);
                    Reply::Done
                }
            },
            other => {
                *self.stage = other;
                Reply::Elsewhere
            }
        }
    }

    /// Whether the caller may be let go: done from Idle.
    pub fn may_free(&self) -> Reply
        ensures told { TellsIdle (is_idle self.now.standing) result }
    {
        match self.standing() {
            Standing::Idle => Reply::Done,
            _ => Reply::Elsewhere,
        }
    }
}

impl<C: Composed<Noted<()>> + Drop> Caller<C> {
    /// Lets an idle caller go. At any other standing it comes back.
    pub fn free(self) -> Result<(), Caller<C>>
        ensures freed { IfOk result (λ _. self.standing ≡ Idle) }
        ensures back { IfErr result (λ c. (c ≡ self) × (is_idle self.standing ≡ false)) }
    {
        match self.standing() {
            Standing::Idle => Ok(()),
            _ => Err(self),
        }
    }
}
