//! Holds of one caller, by calls that wait.
ghost use Rattle.std.specs.Prelude.{◌≡◌, ◌+◌};
ghost use Rattle.clof_compose.specs.Calls.{MayTurn};
ghost use Rattle.clof_compose.specs.Courses.{course_of};
ghost use Rattle.clof_compose.specs.Passes.{IsNumber};
ghost use Rattle.level_harness.specs.Rooms.{HasRoom};
ghost use Rattle.clof_compose.specs.Shares.{IsShareIn};

use crate::roll::{Roll, call};
use clof_compose::{Resting, Standing, Waits};
use keep_local::Share;
use std::sync::Wait;

/// Holds the lock once, and notes the caller.
pub fn hold<C: Waits<Roll>, R: Wait>(rt: &R, lock: &C, pass: C::Pass, share: &mut Share) -> C::Pass
    requires sound { C.sound lock.now }
    requires own { C.has lock.now (C.Pass.rest pass).context }
    requires lowest { C.level lock.now ≡ 0 }
    requires room { HasRoom (course_of (C.tag lock.now)) }
    requires share { MayTurn (course_of (C.tag lock.now)) 0 (C.Pass.rest pass).context.number share.old }
    ensures pass { (C.Pass.rest result).context ≡ (C.Pass.rest pass).context }
    ensures made { share.new ≡ record share.old { made = share.old.made + 1 } }
{
    let mut held = lock.acquire(rt, pass, share);
    call(held.root(), share.caller());
    lock.release(rt, held)
}

/// A caller's part in a run on threads: its pass and its share.
#[derive(Drop)]
pub struct Job<P> {
    pub pass: P,
    pub share: Share,
}

/// Holds the lock once for each turn that the caller has left.
pub fn hold_all<C: Waits<Roll>, R: Wait>(rt: &R, lock: &C, job: Job<C::Pass>) -> Job<C::Pass>
    requires sound { C.sound lock.now }
    requires lowest { C.level lock.now ≡ 0 }
    requires room { HasRoom (course_of (C.tag lock.now)) }
    requires pass { IsNumber (C.has lock.now) (C.level lock.now) (C.tag lock.now) job.share.caller (C.Pass.rest job.pass).context }
    requires share { IsShareIn (course_of (C.tag lock.now)) job.share.caller job.share }
    ensures pass { (C.Pass.rest result.pass).context ≡ (C.Pass.rest job.pass).context }
    ensures share { result.share ≡ record job.share { made = job.share.quota } }
{
    let Job {
        mut pass,
        mut share,
    } = job;
    for _ in share.turns_made()..share.turns_allowed() {
        pass = hold(rt, lock, pass, &mut share);
    }
    Job { pass, share }
}
