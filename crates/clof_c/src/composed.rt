//! The calls on callers of composed locks.
ghost use Rattle.lock_callers.specs.declared.call.Call.TheVariants.{Begin, Enter, Poll, BeginRelease, PollRelease};
ghost use Rattle.level_callers.specs.Goes.{Acts};
ghost use Rattle.clof_c.specs.Composed.{AnswersComposed, AnswersComposedFree};

use crate::composed_codes::composed_code;
use level_handles::{Call, ClofComposedCaller};
use std::alloc::Global;

/// From Idle: enters the queue of its lowest level, and goes up from there as far as it can.
#[unsafe(no_mangle)]
pub extern "C" fn clof_composed_begin(alloc: Global, caller: &mut ClofComposedCaller) -> u32
    ensures answers { AnswersComposed (Acts Begin) caller.old.held caller.new.held result }
{
    composed_code(caller.act(alloc, Call::Begin))
}

/// From Idle: begins, and polls once where that is not done.
#[unsafe(no_mangle)]
pub extern "C" fn clof_composed_enter(alloc: Global, caller: &mut ClofComposedCaller) -> u32
    ensures answers { AnswersComposed (Acts Enter) caller.old.held caller.new.held result }
{
    composed_code(caller.act(alloc, Call::Enter))
}

/// From Queued: asks once whether the caller is the head of the queue where it is queued, and goes up from there as far as it can.
#[unsafe(no_mangle)]
pub extern "C" fn clof_composed_poll(alloc: Global, caller: &mut ClofComposedCaller) -> u32
    ensures answers { AnswersComposed (Acts Poll) caller.old.held caller.new.held result }
{
    composed_code(caller.act(alloc, Call::Poll))
}

/// From Holding: leaves the lock.
#[unsafe(no_mangle)]
pub extern "C" fn clof_composed_begin_release(alloc: Global, caller: &mut ClofComposedCaller) -> u32
    ensures answers { AnswersComposed (Acts BeginRelease) caller.old.held caller.new.held result }
{
    composed_code(caller.act(alloc, Call::BeginRelease))
}

/// From Leaving: goes on with a release.
#[unsafe(no_mangle)]
pub extern "C" fn clof_composed_poll_release(alloc: Global, caller: &mut ClofComposedCaller) -> u32
    ensures answers { AnswersComposed (Acts PollRelease) caller.old.held caller.new.held result }
{
    composed_code(caller.act(alloc, Call::PollRelease))
}

/// From Idle: lets the caller go, and leaves the handle zero. The last caller of a lock takes it with it.
#[unsafe(no_mangle)]
pub extern "C" fn clof_composed_free(alloc: Global, caller: &mut ClofComposedCaller) -> u32
    ensures answers { AnswersComposedFree caller.old.held caller.new.held result }
{
    composed_code(caller.free(alloc))
}
