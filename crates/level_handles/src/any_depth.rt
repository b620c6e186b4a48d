//! A caller of a composed lock of any depth.
ghost use Rattle.std.specs.Prelude.{◌≡◌};
ghost use Rattle.level_callers.specs.Goes.{Acts};
ghost use Rattle.level_handles.specs.Calls.{levels_of, seen_of};

use crate::depths::{FiveLevels, FourLevels, OneLevel, ThreeLevels, TwoLevels};
use level_callers::{Call, Reply};

/// A caller of a composed lock of one to five levels.
#[derive(Drop)]
pub enum AnyDepth {
    One(OneLevel),
    Two(TwoLevels),
    Three(ThreeLevels),
    Four(FourLevels),
    Five(FiveLevels),
}

impl AnyDepth {
    /// Does a call, from the standing that its name says.
    pub fn act(&mut self, call: Call) -> Reply
        ensures acts { Acts call (seen_of self.old) (seen_of self.new) result }
        ensures levels { levels_of self.new ≡ levels_of self.old }
    {
        match self {
            AnyDepth::One(caller) => caller.act(call),
            AnyDepth::Two(caller) => caller.act(call),
            AnyDepth::Three(caller) => caller.act(call),
            AnyDepth::Four(caller) => caller.act(call),
            AnyDepth::Five(caller) => caller.act(call),
        }
    }
}
