//! A caller of any of the four locks.
ghost use Rattle.std.specs.Prelude.{◌≡◌};
ghost use Rattle.lock_callers.specs.Goes.{Acts, Tells, is_holding};
ghost use Rattle.lock_handles.specs.Calls.{lock_of, seen_of};

use clh_lock::Clh;
use hemlock_lock::Hemlock;
use lock_callers::{Call, Caller, Reply};
use lock_rules::Plain;
use mcs_lock::Mcs;
use ticket_lock::Ticket;

/// Which of the four locks.
#[derive(Clone, Copy, PartialEq, Eq, Debug, Drop)]
pub enum Kind {
    Ticket,
    Mcs,
    Clh,
    Hemlock,
}

/// A caller of a Ticket, MCS, CLH or Hemlock lock.
#[derive(Drop)]
pub enum AnyCaller {
    Ticket(Caller<Ticket<Plain<()>>>),
    Mcs(Caller<Mcs<Plain<()>>>),
    Clh(Caller<Clh<Plain<()>>>),
    Hemlock(Caller<Hemlock<Plain<()>>>),
}

impl AnyCaller {
    /// Does a call, from the standing that its name says.
    pub fn act(&mut self, call: Call) -> Reply
        ensures acts { Acts call (seen_of self.old) (seen_of self.new) result }
        ensures kind { lock_of self.new ≡ lock_of self.old }
    {
        match self {
            AnyCaller::Ticket(caller) => caller.act(call),
            AnyCaller::Mcs(caller) => caller.act(call),
            AnyCaller::Clh(caller) => caller.act(call),
            AnyCaller::Hemlock(caller) => caller.act(call),
        }
    }

    /// At Holding: whether another caller is queued behind this one. `None` at any other standing.
    pub fn waiters(&mut self) -> Option<bool>
        ensures tells { Tells (is_holding (seen_of self.old).standing) (seen_of self.old) (seen_of self.new) result }
    {
        match self {
            AnyCaller::Ticket(caller) => caller.waiters(),
            AnyCaller::Mcs(caller) => caller.waiters(),
            AnyCaller::Clh(caller) => caller.waiters(),
            AnyCaller::Hemlock(caller) => caller.waiters(),
        }
    }
}
