//! The calls.
ghost use Rattle.lock_callers.specs.Goes.{Begins, Enters, Polls, BeginsRelease, PollsRelease};
ghost use Rattle.clof_c.specs.Codes.{Answers, AnswersWaiters, AnswersFree};

use crate::codes::{reply_code, told_code};
use lock_handles::{Call, ClofCaller};
use std::alloc::Global;

/// From Idle: enters the queue.
#[unsafe(no_mangle)]
pub extern "C" fn clof_begin(alloc: Global, caller: &mut ClofCaller) -> u32
    ensures answers { Answers Begins caller.old.held caller.new.held result }
{
    reply_code(caller.act(alloc, Call::Begin))
}

/// From Idle: enters the queue, and asks once whether the caller is its head.
#[unsafe(no_mangle)]
pub extern "C" fn clof_enter(alloc: Global, caller: &mut ClofCaller) -> u32
    ensures answers { Answers Enters caller.old.held caller.new.held result }
{
    reply_code(caller.act(alloc, Call::Enter))
}

/// From Queued: asks once whether the caller is the head of the queue.
#[unsafe(no_mangle)]
pub extern "C" fn clof_poll(alloc: Global, caller: &mut ClofCaller) -> u32
    ensures answers { Answers Polls caller.old.held caller.new.held result }
{
    reply_code(caller.act(alloc, Call::Poll))
}

/// From Holding: leaves the queue.
#[unsafe(no_mangle)]
pub extern "C" fn clof_begin_release(alloc: Global, caller: &mut ClofCaller) -> u32
    ensures answers { Answers BeginsRelease caller.old.held caller.new.held result }
{
    reply_code(caller.act(alloc, Call::BeginRelease))
}

/// From Leaving: goes on with a release.
#[unsafe(no_mangle)]
pub extern "C" fn clof_poll_release(alloc: Global, caller: &mut ClofCaller) -> u32
    ensures answers { Answers PollsRelease caller.old.held caller.new.held result }
{
    reply_code(caller.act(alloc, Call::PollRelease))
}

/// At Holding: whether another caller is queued behind this one.
#[unsafe(no_mangle)]
pub extern "C" fn clof_waiters(alloc: Global, caller: &mut ClofCaller) -> u32
    ensures answers { AnswersWaiters caller.old.held caller.new.held result }
{
    told_code(caller.waiters(alloc))
}

/// From Idle: lets the caller go, and leaves the handle zero. The last caller of a lock takes it with it.
#[unsafe(no_mangle)]
pub extern "C" fn clof_free(alloc: Global, caller: &mut ClofCaller) -> u32
    ensures answers { AnswersFree caller.old.held caller.new.held result }
{
    reply_code(caller.free(alloc))
}
