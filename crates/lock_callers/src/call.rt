//! The calls of a caller as data, so that what stands on many locks names each of them once.
ghost use Rattle.lock_callers.specs.Goes.{Acts};

use crate::caller::Caller;
use crate::standing::Reply;
use lock_rules::{Basic, Plain};

/// A call on a caller. `MayFree` asks whether the caller may be let go: done from Idle, and nothing changes.
#[derive(Clone, Copy, PartialEq, Eq, Debug, Drop)]
pub enum Call {
    Begin,
    Enter,
    Poll,
    BeginRelease,
    PollRelease,
    MayFree,
}

impl<B: Basic<Plain<()>>> Caller<B> {
    /// Does a call, from the standing that its name says.
    pub fn act(&mut self, call: Call) -> Reply
        ensures acts { Acts call self.old self.new result }
    {
        match call {
            Call::Begin => self.begin(),
            Call::Enter => self.enter(),
            Call::Poll => self.poll(),
            Call::BeginRelease => self.begin_release(),
            Call::PollRelease => self.poll_release(),
            Call::MayFree => self.may_free(),
        }
    }
}
