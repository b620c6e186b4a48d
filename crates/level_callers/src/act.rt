//! A call as data, so that what stands on many locks names each of them once.
ghost use Rattle.level_callers.specs.Goes.{Acts};

use crate::caller::Caller;
use crate::reply::Reply;
use clof_compose::Composed;
use lock_callers::Call;
use own_payload::Noted;

impl<C: Composed<Noted<()>>> Caller<C> {
    /// Does a call, from the standing that its name says.
    pub fn act(&mut self, call: Call) -> Reply
        ensures acts { Acts call self.old self.new result }
    {
        match call {
            Call::Begin => self.begin(),
            Call::Enter => self.enter(),
            Call::Poll => self.poll(),
            Call::BeginRelease => self.begin_release(),
            Call::PollRelease => self.poll_release(),
            Call::MayFree => self.may_free(),
        }
    }
}
