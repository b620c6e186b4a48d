//! What the seats of a lock's table know, and what the table is told when it is made.
ghost use base.Fml.{ftrue};
ghost use Rattle.lock_rules.specs.Tag.{Tag, tag_code};

use crate::step::Answer;
use std::marker::Model;
use std::snapshot::Snapshot;

/// The algorithms of the four locks. A lock's name has its algorithm, so a token of one lock is never taken for a token of another.
#[derive(Clone, Copy, Drop)]
pub enum Algorithm {
    Ticket,
    Mcs,
    Clh,
    Hemlock,
}

/// How a lock learns of waiters: from its queue, or from a count of the passes that have begun and not yet taken, which a holder may see
/// before they are queued. A lock's name has its choice too.
#[derive(Clone, Copy, Drop)]
pub enum Waiters {
    Queue,
    Count,
}

/// Where a pass stands. A pass that is leaving has put the value back, and its lock still waits for the next pass.
pub enum Phase {
    Idle,
    Queued,
    Holding,
    Leaving,
}

/// A tag as views carry it. It has no bytes; no value of it is made.
pub struct Tagged {
    pub ghost tag: { Tag } by { tag_code },
}

impl Model for Tagged {
    ghost also_owns = { λ _. ftrue };
}

/// What a seat at the table of a lock knows. It exists in proofs alone, and no value of it is made.
///
/// One type serves all four locks, because each type that a token names is compared with all others where locks are nested: with a view,
/// and so a holder's token, of its own for each lock, a composition of a few levels is out of the checker's reach. A field that a lock
/// doesn't use stays as it was at the start. Words name a pass by its number plus 1, so that 0 names none.
pub struct View {
    /// Of all locks: which lock it is, how it learns of waiters, and how many passes it has. No step changes these.
    pub algorithm: Algorithm,
    pub waiters: Waiters,
    pub count: u64,
    /// Of all locks: the tag of the lock's value. No step changes it.
    pub tag: Tagged,
    /// Of all locks: the seat's own pass, the passes from `from` up to `to` that were not split off yet, and those that it took over by
    /// joining. A clause reads an array as a list, of any length.
    pub number: u64,
    pub from: u64,
    pub to: u64,
    pub joined: [u64; 0],
    /// Of all locks: the seat was joined into another.
    pub spent: bool,
    /// Of all locks: where the pass stands.
    pub phase: Phase,
    /// Of all locks: how many steps on words the view recorded.
    pub steps: u64,
    /// Of counted locks: the pass has raised the count of waiters, and not lowered it again.
    pub announced: bool,
    /// Of all locks: how many entering steps the view recorded, the additions of Ticket and the swaps of the others.
    pub entries: u64,
    /// Of all locks: how many loads the view recorded.
    pub loads: u64,
    /// Of all locks: the last load of a call that polls or releases showed the word that lets the pass go on.
    pub ready: bool,
    /// Of all locks: what the last load of `waiter` in this hold showed.
    pub tested: Answer,
    /// Of Ticket: the ticket that the last addition found.
    pub ticket: u64,
    /// Of CLH: the own node, and the nodes that were taken over by joining.
    pub node: u64,
    pub nodes: [u64; 0],
    /// Of MCS, CLH and Hemlock: the word that the last swap of the tail found, a pass or (CLH) a node. Hemlock's store of 0 sets it to 0.
    pub predecessor: u64,
    /// Of MCS: the own `next` was stored 0 for the swap to come.
    pub unlinked: bool,
    /// Of MCS and CLH: the own `locked` (CLH: flag) was stored 1 for the swap to come.
    pub raised: bool,
    /// Of MCS: the own link was stored in the predecessor's `next`.
    pub linked: bool,
    /// Of MCS: the word that the last load of the own `next` in this hold showed.
    pub successor: u64,
    /// Of MCS and Hemlock: an exchange of the tail found another pass behind.
    pub followed: bool,
    /// Of Hemlock: the pass took by its predecessor's grant and has not cleared it yet.
    pub owes: bool,
}

/// What the table of a lock is told when it is made: how many passes there are, how the lock learns of waiters, and the opening value, as
/// clauses see it.
#[derive(Drop)]
pub struct Opening<V> {
    pub passes: u32,
    pub waiters: Waiters,
    pub value: Snapshot<V>,
}
