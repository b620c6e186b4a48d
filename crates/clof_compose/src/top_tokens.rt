//! The tokens of the top lock: those of its basic lock, with its level.
ghost use Rattle.clof_compose.specs.TopTokens.{top_rest, top_climb, top_stand, top_with_root, top_descent, TopStands, TopDescends};

use crate::report::Report;
use crate::root::Root;
use crate::token::{Climbing, Descending, Resting, Standing};
use lock_rules::{Departing, Held, Holding, Payload, Placed, Queueing};

/// A pass of the top lock at rest, and what its last release told.
#[derive(Drop)]
pub struct TopPass<L> {
    pub(crate) low: L,
    pub(crate) level: u32,
    pub(crate) report: Report,
}

/// A pass in the queue of the top lock.
#[derive(Drop)]
pub struct TopQueue<L> {
    pub(crate) low: L,
    pub(crate) level: u32,
}

/// The holder of the top lock, who has the root in hand.
#[derive(Drop)]
pub struct TopHeld<P> {
    pub(crate) low: Held<Root<P>>,
    pub(crate) level: u32,
    // So that no byte only pads.
    pub(crate) filler: u32,
}

/// A pass that leaves the top lock, and what its release tells.
#[derive(Drop)]
pub struct TopLeave<L> {
    pub(crate) low: L,
    pub(crate) level: u32,
    pub(crate) report: Report,
}

impl<L: Placed> Resting for TopPass<L> {
    ghost rest = { top_rest L.place L.entries };

    fn tests(&self) -> u32 {
        self.report.tests
    }

    fn take_report(&mut self) -> Report {
        self.report.take()
    }
}

impl<L: Queueing> Climbing for TopQueue<L> {
    ghost climb = { top_climb L.waiting };

    ghost climbs = { λ _. Unit {0} };

    fn waits_at(&self) -> u32 {
        self.level
    }
}

impl<P: Payload> Standing<P> for TopHeld<P> {
    ghost stand = { top_stand };

    ghost stands = { TopStands P.calls };

    ghost put_root = { top_with_root };

    fn root(&mut self) -> &mut Root<P> {
        self.low.value_mut()
    }
}

impl<L: Departing> Descending for TopLeave<L> {
    ghost descent = { top_descent L.waiting };

    ghost descends = { TopDescends L.rests };

    fn leaves_at(&self) -> u32 {
        self.level
    }
}
