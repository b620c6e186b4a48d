//! Holds of one caller, who counts them.
ghost use Rattle.std.specs.Prelude.{◌≡◌, ◌+◌, ◌∷◌, [], ◌++◌};
ghost use Rattle.clof_compose.specs.Calls.{MayTurn};
ghost use Rattle.clof_compose.specs.Courses.{course_of};
ghost use Rattle.clof_compose.specs.Roots.{payload_of, trail_of};
ghost use Rattle.own_payload.specs.Jobs.{HasServed, MayWork};

use clof_compose::{Resting, Root, Standing, Waits};
use keep_local::Share;
use own_payload::{Job, Noted};
use std::sync::Wait;

/// Holds the lock so often, or until the share allows no further turn.
pub(crate) fn hold_often<C: Waits<Noted<u64>>, R: Wait>(
    rt: &R,
    lock: &C,
    holds: u32,
    job: Job<C::Pass>,
) -> Job<C::Pass>
    requires { MayWork C.Pass.rest (C.has lock.now) (C.sound lock.now) (C.level lock.now) (C.tag lock.now) job }
    ensures { HasServed C.Pass.rest (λ _. Unit {0}) job result }
{
    let Job {
        mut pass,
        mut share,
    } = job;
    let mut left = holds;
    for _ in share.turns_made()..share.turns_allowed() {
        if left == 0 {
            return Job { pass, share };
        }
        left -= 1;
        pass = hold(rt, lock, pass, &mut share);
    }
    Job { pass, share }
}

// Holds the lock once, and counts the hold.
fn hold<C: Waits<Noted<u64>>, R: Wait>(
    rt: &R,
    lock: &C,
    pass: C::Pass,
    share: &mut Share,
) -> C::Pass
    requires sound { C.sound lock.now }
    requires own { C.has lock.now (C.Pass.rest pass).context }
    requires lowest { C.level lock.now ≡ 0 }
    requires share { MayTurn (course_of (C.tag lock.now)) 0 (C.Pass.rest pass).context.number share.old }
    ensures pass { (C.Pass.rest result).context ≡ (C.Pass.rest pass).context }
    ensures made { share.new ≡ record share.old { made = share.old.made + 1 } }
{
    let mut held = lock.acquire(rt, pass, share);
    call(held.root(), share.caller());
    lock.release(rt, held)
}

// Notes the holder's call, and counts it.
fn call(root: &mut Root<Noted<u64>>, caller: u32)
    ensures trail { trail_of root.new ≡ trail_of root.old }
    ensures noted { (payload_of root.new).calls.callers ≡ (payload_of root.old).calls.callers ++ caller ∷ [] }
{
    let noted = root.payload_mut();
    noted.note(caller);
    noted.value = noted.value.wrapping_add(1);
}
