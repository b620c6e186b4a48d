//! What a caller does under the lock.
ghost use Rattle.std.specs.Prelude.{◌≡◌, ◌+◌, ◌<◌, ◌++◌, ◌∷◌, [], false};
ghost use Rattle.clof_compose.specs.Calls.{MayTurn};
ghost use Rattle.clof_compose.specs.Courses.{course_of};
ghost use Rattle.clof_compose.specs.Roots.{payload_of, trail_of};
ghost use Rattle.kv_history.specs.Log.{IsNext, calls};
ghost use Rattle.mc_text.specs.Commands.{commands_left};
ghost use Rattle.mc_text.specs.Request.{view};
ghost use Rattle.threaded_runner.specs.Jobs.{HasLeft, HasServed, IsCommandAt, IsJob};

use crate::book::Book;
use crate::job::Job;
use crate::waiting::acquire;
use clof_compose::{Composed, Resting, Root, Standing, Waits};
use keep_local::Share;
use mc_text::{Command, Commands};
use run_texts::Gate;
use std::sync::Wait;

/// Holds the lock once for each command that a caller has left, and applies the command to the journal at the root. The caller stops
/// before its commands end where one was refused, which is for want of memory.
pub fn serve<'a, C: Waits<Book<'a>>, G: Gate, R: Wait>(
    rt: &R,
    lock: &C,
    gate: &G,
    job: Job<'a, C::Pass>,
) -> Job<'a, C::Pass>
    requires sound { C.sound lock.now }
    requires lowest { C.level lock.now ≡ 0 }
    requires job { IsJob C.Pass.rest (C.has lock.now) (C.level lock.now) (C.tag lock.now) job.share.caller job }
    ensures served { HasServed C.Pass.rest job.entry result }
{
    // The parts of the job are apart until its end, so that none but the pass is moved from one command to the next.
    let Job {
        mut pass,
        mut share,
        mut commands,
        ..
    } = job;
    for _ in share.turns_made()..share.turns_allowed() {
        let (back, stopped) = give(rt, lock, gate, pass, &mut share, &mut commands);
        pass = back;
        if stopped {
            return Job {
                pass,
                share,
                commands,
                stopped,
            };
        }
    }
    Job {
        pass,
        share,
        commands,
        stopped: false,
    }
}

/// Holds the lock for the next command of a caller that has one left. The caller stops where it was refused, which is for want of memory.
pub fn give_next<'a, C: Waits<Book<'a>>, G: Gate, R: Wait>(
    rt: &R,
    lock: &C,
    gate: &G,
    job: Job<'a, C::Pass>,
) -> Job<'a, C::Pass>
    requires sound { C.sound lock.now }
    requires lowest { C.level lock.now ≡ 0 }
    requires job { IsJob C.Pass.rest (C.has lock.now) (C.level lock.now) (C.tag lock.now) job.share.caller job }
    requires some { job.share.made < job.share.quota }
    ensures job { IsJob C.Pass.rest (C.has lock.now) (C.level lock.now) (C.tag lock.now) job.entry.share.caller result }
    ensures pass { (C.Pass.rest result.pass).context ≡ (C.Pass.rest job.entry.pass).context }
    ensures share { result.share ≡ record job.entry.share { made = job.entry.share.made + 1 } }
{
    let Job {
        pass,
        mut share,
        mut commands,
        ..
    } = job;
    let (pass, stopped) = give(rt, lock, gate, pass, &mut share, &mut commands);
    Job {
        pass,
        share,
        commands,
        stopped,
    }
}

// Holds the lock for the next command of a caller that has one left, whose job stands in its parts. The answer has the pass, and whether
// the command was refused.
fn give<'a, C: Waits<Book<'a>>, G: Gate, R: Wait>(
    rt: &R,
    lock: &C,
    gate: &G,
    pass: C::Pass,
    share: &mut Share,
    commands: &mut Commands<'a>,
) -> (C::Pass, bool)
    requires sound { C.sound lock.now }
    requires lowest { C.level lock.now ≡ 0 }
    requires job { IsJob C.Pass.rest (C.has lock.now) (C.level lock.now) (C.tag lock.now) share.old.caller
        (record { pass = pass; share = share.old; commands = commands.old; stopped = false }) }
    requires some { share.old.made < share.old.quota }
    ensures job { IsJob C.Pass.rest (C.has lock.now) (C.level lock.now) (C.tag lock.now) share.old.caller
        (record { pass = result.0; share = share.new; commands = commands.new; stopped = false }) }
    ensures pass { (C.Pass.rest result.0).context ≡ (C.Pass.rest pass).context }
    ensures share { share.new ≡ record share.old { made = share.old.made + 1 } }
{
    let command = take_next(lock, &pass, share, commands);
    hold(rt, lock, gate, pass, share, command)
}

// The next command of a caller that has one left, which it may hold the lock for.
fn take_next<'a, C: Composed<Book<'a>>>(
    _lock: &C,
    _pass: &C::Pass,
    _share: &Share,
    commands: &mut Commands<'a>,
) -> Command<'a>
    requires lowest { C.level _lock.now ≡ 0 }
    requires job { IsJob C.Pass.rest (C.has _lock.now) (C.level _lock.now) (C.tag _lock.now) _share.now.caller
        (record { pass = _pass.now; share = _share.now; commands = commands.old; stopped = false }) }
    requires some { _share.now.made < _share.now.quota }
    ensures may { MayTurn (course_of (C.tag _lock.now)) (C.level _lock.now) (C.Pass.rest _pass.now).context.number _share.now }
    ensures next { IsCommandAt (course_of (C.tag _lock.now)).payload _share.now.caller _share.now.made (view result) }
    ensures left { HasLeft (course_of (C.tag _lock.now)).payload (record _share.now { made = _share.now.made + 1 })
        (commands_left commands.new) }
{
    let Some(command) = commands.next() else {
        unreachable!()
    };
    command
}

// Holds the lock once and applies a command. The answer has the pass, and whether the command was refused.
fn hold<'a, C: Waits<Book<'a>>, G: Gate, R: Wait>(
    rt: &R,
    lock: &C,
    gate: &G,
    pass: C::Pass,
    share: &mut Share,
    command: Command<'a>,
) -> (C::Pass, bool)
    requires sound { C.sound lock.now }
    requires own { C.has lock.now (C.Pass.rest pass).context }
    requires lowest { C.level lock.now ≡ 0 }
    requires share { MayTurn (course_of (C.tag lock.now)) (C.level lock.now) (C.Pass.rest pass).context.number share.old }
    requires next { IsCommandAt (course_of (C.tag lock.now)).payload share.old.caller share.old.made (view command) }
    ensures pass { (C.Pass.rest result.0).context ≡ (C.Pass.rest pass).context }
    ensures made { share.new ≡ record share.old { made = share.old.made + 1 } }
{
    let caller = share.caller();
    let mut held = acquire(rt, lock, gate, pass, share);
    gate.inside(caller);
    let refused = apply(held.root(), caller, command);
    (lock.release(rt, held), refused)
}

/// Applies a caller's next command to the journal of a root. The answer is whether it was refused, which is for want of memory.
pub fn apply<'a>(root: &mut Root<Book<'a>>, caller: u32, command: Command<'a>) -> bool
    requires next { IsNext (payload_of root.old).journal.sections (calls (payload_of root.old).journal) caller (view command) }
    ensures trail { trail_of root.new ≡ trail_of root.old }
    ensures sections { (payload_of root.new).journal.sections ≡ (payload_of root.old).journal.sections }
    ensures called { calls (payload_of root.new).journal ≡ calls (payload_of root.old).journal ++ caller ∷ [] }
{
    root.payload_mut().journal.apply(caller, command).is_err()
}
