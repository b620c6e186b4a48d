//! The kinds of basic locks: four algorithms, each of which learns of waiters in one of two ways.
ghost use Rattle.std.specs.Prelude.{◌≡◌};
ghost use Rattle.lock_levels.specs.Kinds.{kind_with};

use lock_plan::LockKind;
use lock_rules::{Algorithm, Waiters};

/// What is of one of the four kinds of basic locks.
#[derive(Drop)]
pub enum Kinds<T, M, C, H> {
    Ticket(T),
    Mcs(M),
    Clh(C),
    Hemlock(H),
}

/// The kind of the locks of an algorithm that learn of waiters in this way.
pub(crate) fn kind_with(algorithm: Algorithm, waiters: Waiters) -> LockKind
    ensures { result ≡ kind_with algorithm waiters }
{
    match (algorithm, waiters) {
        (Algorithm::Ticket, Waiters::Queue) => LockKind::Tkt,
        (Algorithm::Ticket, Waiters::Count) => LockKind::TktC,
        (Algorithm::Mcs, Waiters::Queue) => LockKind::Mcs,
        (Algorithm::Mcs, Waiters::Count) => LockKind::McsC,
        (Algorithm::Clh, Waiters::Queue) => LockKind::Clh,
        (Algorithm::Clh, Waiters::Count) => LockKind::ClhC,
        (Algorithm::Hemlock, Waiters::Queue) => LockKind::Hem,
        (Algorithm::Hemlock, Waiters::Count) => LockKind::HemC,
    }
}

/// The algorithm of a kind, and how its locks learn of waiters.
pub(crate) fn parts_of(kind: LockKind) -> (Algorithm, Waiters)
    ensures { kind_with result.0 result.1 ≡ kind }
{
    match kind {
        LockKind::Tkt => (Algorithm::Ticket, Waiters::Queue),
        LockKind::Mcs => (Algorithm::Mcs, Waiters::Queue),
        LockKind::Clh => (Algorithm::Clh, Waiters::Queue),
        LockKind::Hem => (Algorithm::Hemlock, Waiters::Queue),
        LockKind::TktC => (Algorithm::Ticket, Waiters::Count),
        LockKind::McsC => (Algorithm::Mcs, Waiters::Count),
        LockKind::ClhC => (Algorithm::Clh, Waiters::Count),
        LockKind::HemC => (Algorithm::Hemlock, Waiters::Count),
    }
}
