//! Holds of one caller.
ghost use Rattle.std.specs.Prelude.{◌≡◌, ◌+◌, ◌∷◌, [], ◌++◌};
ghost use Rattle.clof_compose.specs.Calls.{MayTurn};
ghost use Rattle.clof_compose.specs.Courses.{course_of};
ghost use Rattle.clof_compose.specs.Roots.{payload_of, trail_of};
ghost use Rattle.own_payload.specs.Jobs.{MayWork, HasServed};

use crate::jobs::Job;
use crate::noted::Noted;
use crate::serves::Serves;
use clof_compose::{Resting, Root, Standing, Waits};
use keep_local::Share;
use std::sync::Wait;

// Notes the holder's call, and has the value changed.
fn call<T: Drop, A, F: FnOnce(&mut T, u32) -> A>(
    root: &mut Root<Noted<T>>,
    caller: u32,
    work: F,
) -> A
    requires callable { (value : _) → F.pre work value caller }
    ensures trail { trail_of root.new ≡ trail_of root.old }
    ensures noted { (payload_of root.new).calls.callers ≡ (payload_of root.old).calls.callers ++ caller ∷ [] }
{
    let noted = root.payload_mut();
    noted.note(caller);
    work(&mut noted.value, caller)
}

/// Holds the lock once, and has `work` change the value, which is told the caller. The answer has the pass, and what `work` answered.
pub fn hold<T: Drop, A, C: Waits<Noted<T>>, F: FnOnce(&mut T, u32) -> A, R: Wait>(
    rt: &R,
    lock: &C,
    pass: C::Pass,
    share: &mut Share,
    work: F,
) -> (C::Pass, A)
    requires sound { C.sound lock.now }
    requires own { C.has lock.now (C.Pass.rest pass).context }
    requires lowest { C.level lock.now ≡ 0 }
    requires share { MayTurn (course_of (C.tag lock.now)) 0 (C.Pass.rest pass).context.number share.old }
    requires callable { (value : _) → F.pre work value share.old.caller }
    ensures pass { (C.Pass.rest result.0).context ≡ (C.Pass.rest pass).context }
    ensures made { share.new ≡ record share.old { made = share.old.made + 1 } }
{
    let mut held = lock.acquire(rt, pass, share);
    let answer = call(held.root(), share.caller(), work);
    (lock.release(rt, held), answer)
}

/// Has a caller take its tasks and hold the lock for each, until it stops or its share allows no further turn.
pub fn serve_caller<T: Drop, C: Waits<Noted<T>>, S: Serves<T>, R: Wait>(
    rt: &R,
    lock: &C,
    job: Job<C::Pass>,
    server: &S,
) -> Job<C::Pass>
    requires may { MayWork C.Pass.rest (C.has lock.now) (C.sound lock.now) (C.level lock.now) (C.tag lock.now) job }
    requires asked { S.may server.now job.share.caller }
    ensures { HasServed C.Pass.rest (S.stops server.now) job result }
{
    let Job {
        mut pass,
        mut share,
    } = job;
    for _ in share.turns_made()..share.turns_allowed() {
        let Some(task) = server.next(share.caller()) else {
            return Job { pass, share };
        };
        let (rested, answer) = hold(
            rt,
            lock,
            pass,
            &mut share,
            |value: &mut T, caller: u32| server.apply(value, caller, task),
        );
        pass = rested;
        server.tell(share.caller(), answer);
    }
    Job { pass, share }
}
