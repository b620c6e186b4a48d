//! The tokens of a level: those of its node's basic lock, beside those of the high lock while it is being taken or released.
ghost use Rattle.clof_compose.specs.LevelTokens.{level_rest, level_stand, level_with_root, level_climb, level_descent};
ghost use Rattle.clof_compose.specs.LevelTokens.{LevelStands, LevelClimbs, LevelDescends};

use crate::context_id::ContextId;
use crate::own::Own;
use crate::own_cargo::kept_root;
use crate::report::Report;
use crate::root::Root;
use crate::stage::{LeaveStage, QueueStage};
use crate::token::{Climbing, Descending, Resting, Standing};
use lock_rules::{Departing, Held as Holds, Holding, Payload, Placed, Queueing};

/// A pass of a level at rest: that of its node's lock, its context, and what its last release told.
#[derive(Drop)]
pub struct LevelPass<L> {
    pub(crate) low: L,
    pub(crate) id: ContextId,
    pub(crate) report: Report,
}

/// The holder of a level: it holds its node's lock, whose value has the holder of the high lock.
#[derive(Drop)]
pub struct LevelHeld<P, Pass, Held> {
    pub(crate) low: Holds<Own<P, Pass, Held>>,
    pub(crate) id: ContextId,
    // So that no byte only pads.
    pub(crate) filler: u32,
}

/// A pass that climbs, at its node's lock or higher.
#[derive(Drop)]
pub struct LevelQueue<P, Q, Pass, Held, HQ> {
    pub(crate) stage: QueueStage<P, Q, Pass, Held, HQ>,
    pub(crate) id: ContextId,
}

/// A pass that leaves, its node's lock or a higher one.
#[derive(Drop)]
pub struct LevelLeave<P, L, Pass, Held, HL> {
    pub(crate) stage: LeaveStage<P, L, Pass, Held, HL>,
    pub(crate) id: ContextId,
}

impl<L: Placed> Resting for LevelPass<L> {
    ghost rest = { level_rest L.place L.entries };

    fn tests(&self) -> u32 {
        self.report.tests
    }

    fn take_report(&mut self) -> Report {
        self.report.take()
    }
}

impl<P: Payload, Pass: Resting, Held: Standing<P>> Standing<P> for LevelHeld<P, Pass, Held> {
    ghost stand = { level_stand Held.stand };

    ghost stands = { LevelStands Held.stand Held.stands };

    ghost put_root = { level_with_root Held.put_root };

    fn root(&mut self) -> &mut Root<P> {
        let own = self.low.value_mut();
        kept_root(&mut own.high)
    }
}

impl<P: Payload, Q: Queueing, Pass: Resting, Held: Standing<P>, HQ: Climbing> Climbing
    for LevelQueue<P, Q, Pass, Held, HQ> {
    ghost climb = { level_climb Q.waiting HQ.climb };

    ghost climbs = { LevelClimbs HQ.climb HQ.climbs };

    fn waits_at(&self) -> u32 {
        match &self.stage {
            QueueStage::Low(_) => self.id.level,
            QueueStage::High(_, high) => high.waits_at(),
        }
    }
}

impl<P: Payload, L: Departing, Pass: Resting, Held: Standing<P>, HL: Descending> Descending
    for LevelLeave<P, L, Pass, Held, HL> {
    ghost descent = { level_descent L.waiting HL.descent };

    ghost descends = { LevelDescends L.rests HL.descent HL.descends };

    fn leaves_at(&self) -> u32 {
        match &self.stage {
            LeaveStage::Low(_, _) => self.id.level,
            LeaveStage::High(_, high) => high.leaves_at(),
        }
    }
}
