//! The calls on a handle. Each is answered `None` where the handle is empty.
ghost use Rattle.std.specs.Prelude.{◌≡◌, is_none};
ghost use Rattle.std.specs.Option.{MatchOption};
ghost use Rattle.std.specs.declared.option.Option.TheVariants.{None, Some};
ghost use Rattle.lock_callers.specs.Goes.{Acts};
ghost use Rattle.lock_handles.specs.Calls.{HandleDoes, HandleFrees, Waits};

use crate::any::AnyCaller;
use crate::handle::ClofCaller;
use lock_callers::{Call, Reply};
use std::alloc::Global;
use std::mem;

impl ClofCaller {
    /// The caller, taken out, so that the handle is empty.
    fn take(&mut self, alloc: Global) -> Option<Box<AnyCaller>>
        ensures taken { MatchOption result (self.old.held ≡ None) (λ b. self.old.held ≡ Some b.value) }
        ensures empty { self.new.held ≡ None }
    {
        mem::replace(self, ClofCaller::empty(alloc)).into_box()
    }

    /// Puts a caller in the place of what the handle had.
    pub(crate) fn put(&mut self, caller: Box<AnyCaller>)
        ensures put { self.new.held ≡ Some caller.value }
    {
        drop(mem::replace(self, ClofCaller::full(caller)));
    }

    /// Does a call with the caller, from the standing that the call's name says.
    pub fn act(&mut self, alloc: Global, call: Call) -> Option<Reply>
        ensures does { HandleDoes (Acts call) self.old.held self.new.held result }
    {
        let mut caller = self.take(alloc)?;
        let reply = caller.act(call);
        self.put(caller);
        Some(reply)
    }

    /// Whether another caller is queued behind this one: told of a holder alone.
    pub fn waiters(&mut self, alloc: Global) -> Option<Option<bool>>
        ensures tells { HandleDoes Waits self.old.held self.new.held result }
    {
        let mut caller = self.take(alloc)?;
        let told = caller.waiters();
        self.put(caller);
        Some(told)
    }

    /// From Idle: lets the caller go. The last caller of a lock takes it with it.
    pub fn free(&mut self, alloc: Global) -> Option<Reply>
        ensures frees { HandleFrees self.old.held self.new.held result }
    {
        let mut caller = self.take(alloc)?;
        match caller.act(Call::MayFree) {
            Reply::Done => Some(Reply::Done),
            _ => {
                self.put(caller);
                Some(Reply::Elsewhere)
            }
        }
    }

    /// Whether the handle has no caller.
    pub fn is_empty(&mut self, alloc: Global) -> bool
        ensures same { self.new.held ≡ self.old.held }
        ensures empty { result ≡ is_none self.old.held }
    {
        match self.take(alloc) {
            None => true,
            Some(caller) => {
                self.put(caller);
                false
            }
        }
    }
}
