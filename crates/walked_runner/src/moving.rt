//! The step of a caller in a round.
ghost use Rattle.std.specs.Prelude.{◌≡◌, ◌<◌, IsSomeAnd};
ghost use Rattle.clof_compose.specs.Calls.{HasOpened};
ghost use Rattle.clof_compose.specs.Courses.{course_of};
ghost use Rattle.clof_compose.specs.Passes.{IsNumber};
ghost use Rattle.clof_compose.specs.Shares.{IsShareIn};
ghost use Rattle.mc_text.specs.Commands.{commands_left};
ghost use Rattle.threaded_runner.specs.Books.{book_calls, book_tag};
ghost use Rattle.threaded_runner.specs.Jobs.{HasLeft};
ghost use Rattle.walked_runner.specs.Steps.{FromHolding, FromIdle, FromLeaving, FromQueued, HasStepped};
ghost use Rattle.walked_runner.specs.Walkers.{HasBegun, Stands};

use crate::walker::{State, StateIn, Task, WalkerIn};
use clof_compose::{Composed, Standing};
use lock_rules::Step;
use std::mem;
use threaded_runner::{Book, apply};

// Begins to take the lock, where a command is left.
fn enter<'a, C: Composed<Book<'a>>>(lock: &C, pass: C::Pass, task: &mut Task<'a>) -> StateIn<'a, C>
    requires sound { C.sound lock.now }
    requires lowest { C.level lock.now ≡ 0 }
    requires pass { IsNumber (C.has lock.now) (C.level lock.now) (C.tag lock.now) task.old.share.caller (C.Pass.rest pass).context }
    requires share { IsShareIn (course_of (C.tag lock.now)) task.old.share.caller task.old.share }
    requires left { HasLeft (course_of (C.tag lock.now)).payload task.old.share (commands_left task.old.commands) }
    ensures stands { Stands C.Pass.rest C.Queue.climb C.Queue.climbs C.Held.stand C.Held.stands C.Leave.descent C.Leave.descends
        (C.has lock.now) (C.level lock.now) (C.tag lock.now) result task.new }
    ensures share { IsShareIn (course_of (C.tag lock.now)) task.old.share.caller task.new.share }
    ensures moved { FromIdle result task.old task.new }
{
    if task.stopped || !task.share.may_turn() {
        return State::Idle(pass);
    }
    match lock.begin(pass, &mut task.share) {
        Step::Not(queue) => State::Queued(queue),
        Step::Got(held) => State::Holding(held),
    }
}

// Asks whether the lock is had now.
fn wait<'a, C: Composed<Book<'a>>>(lock: &C, queue: C::Queue, task: &mut Task<'a>) -> StateIn<'a, C>
    requires sound { C.sound lock.now }
    requires lowest { C.level lock.now ≡ 0 }
    requires queue { IsNumber (C.has lock.now) (C.level lock.now) (C.tag lock.now) task.old.share.caller (C.Queue.climb queue).context }
    requires climbs { C.Queue.climbs queue }
    requires some { task.old.share.made < task.old.share.quota }
    requires share { IsShareIn (course_of (C.tag lock.now)) task.old.share.caller task.old.share }
    requires left { HasLeft (course_of (C.tag lock.now)).payload task.old.share (commands_left task.old.commands) }
    ensures stands { Stands C.Pass.rest C.Queue.climb C.Queue.climbs C.Held.stand C.Held.stands C.Leave.descent C.Leave.descends
        (C.has lock.now) (C.level lock.now) (C.tag lock.now) result task.new }
    ensures share { IsShareIn (course_of (C.tag lock.now)) task.old.share.caller task.new.share }
    ensures moved { FromQueued C.Queue.climb queue result task.old task.new }
{
    match lock.poll(queue, &mut task.share) {
        Step::Not(queue) => State::Queued(queue),
        Step::Got(held) => State::Holding(held),
    }
}

// Applies the next command, and begins to leave the lock. The caller stops where the command was refused.
fn leave<'a, C: Composed<Book<'a>>>(
    lock: &C,
    mut held: C::Held,
    task: &mut Task<'a>,
) -> StateIn<'a, C>
    requires sound { C.sound lock.now }
    requires lowest { C.level lock.now ≡ 0 }
    requires held { IsNumber (C.has lock.now) (C.level lock.now) (C.tag lock.now) task.old.share.caller (C.Held.stand held).context }
    requires stands { C.Held.stands held }
    requires opened { IsSomeAnd (C.Held.stand held).root (HasOpened book_calls book_tag (C.tag lock.now) (C.level lock.now)
        task.old.share) }
    requires begun { HasBegun (course_of (C.tag lock.now)).payload task.old.share (commands_left task.old.commands) }
    ensures stands { Stands C.Pass.rest C.Queue.climb C.Queue.climbs C.Held.stand C.Held.stands C.Leave.descent C.Leave.descends
        (C.has lock.now) (C.level lock.now) (C.tag lock.now) result task.new }
    ensures share { task.new.share ≡ task.old.share }
    ensures moved { FromHolding result task.old task.new }
{
    let Some(command) = task.commands.next() else {
        unreachable!()
    };
    let refused = apply(held.root(), task.share.caller(), command);
    task.stopped = refused;
    match lock.begin_release(held) {
        Step::Not(leave) => State::Leaving(leave),
        Step::Got(pass) => State::Idle(pass),
    }
}

// Asks whether the lock is left now.
fn go<'a, C: Composed<Book<'a>>>(lock: &C, leave: C::Leave, task: &Task<'a>) -> StateIn<'a, C>
    requires sound { C.sound lock.now }
    requires leave { IsNumber (C.has lock.now) (C.level lock.now) (C.tag lock.now) task.now.share.caller (C.Leave.descent leave).context }
    requires descends { C.Leave.descends leave }
    requires left { HasLeft (course_of (C.tag lock.now)).payload task.now.share (commands_left task.now.commands) }
    ensures stands { Stands C.Pass.rest C.Queue.climb C.Queue.climbs C.Held.stand C.Held.stands C.Leave.descent C.Leave.descends
        (C.has lock.now) (C.level lock.now) (C.tag lock.now) result task.now }
    ensures moved { FromLeaving C.Leave.descent leave result }
{
    match lock.poll_release(leave) {
        Step::Not(leave) => State::Leaving(leave),
        Step::Got(pass) => State::Idle(pass),
    }
}

/// Makes the caller's step of a round: an idle caller with a command left begins to take the lock, a queued one asks again, a holder
/// applies its next command and begins to leave, and one that leaves asks again.
pub(crate) fn step<'a, C: Composed<Book<'a>>>(lock: &C, walker: &mut WalkerIn<'a, C>)
    requires sound { C.sound lock.now }
    requires lowest { C.level lock.now ≡ 0 }
    requires share { IsShareIn (course_of (C.tag lock.now)) walker.old.task.share.caller walker.old.task.share }
    requires stands { Stands C.Pass.rest C.Queue.climb C.Queue.climbs C.Held.stand C.Held.stands C.Leave.descent C.Leave.descends
        (C.has lock.now) (C.level lock.now) (C.tag lock.now) walker.old.state walker.old.task }
    ensures share { IsShareIn (course_of (C.tag lock.now)) walker.old.task.share.caller walker.new.task.share }
    ensures stands { Stands C.Pass.rest C.Queue.climb C.Queue.climbs C.Held.stand C.Held.stands C.Leave.descent C.Leave.descends
        (C.has lock.now) (C.level lock.now) (C.tag lock.now) walker.new.state walker.new.task }
    ensures stepped { HasStepped C.Queue.climb C.Leave.descent walker.old walker.new }
{
    walker.state = match mem::replace(&mut walker.state, State::Stepping) {
        State::Idle(pass) => enter(lock, pass, &mut walker.task),
        State::Queued(queue) => wait(lock, queue, &mut walker.task),
        State::Holding(held) => leave(lock, held, &mut walker.task),
        State::Leaving(token) => go(lock, token, &walker.task),
        State::Stepping => unreachable!(),
    };
}
