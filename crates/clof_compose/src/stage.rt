//! How far a token of a level has come.

use crate::own::Own;
use crate::report::Report;
use lock_rules::Held as Holds;

/// Queued at the level's own basic lock, or at the high lock with the node's value in hand.
#[derive(Drop)]
pub enum QueueStage<P, Q, Pass, Held, HQ> {
    Low(Q),
    High(Holds<Own<P, Pass, Held>>, HQ),
}

/// Leaving the level's own basic lock, with what the release tells, or the high lock with the node's value in hand.
#[derive(Drop)]
pub enum LeaveStage<P, L, Pass, Held, HL> {
    Low(L, Report),
    High(Holds<Own<P, Pass, Held>>, HL),
}
