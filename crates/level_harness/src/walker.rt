//! One caller of a walk, and its steps.
ghost use Rattle.std.specs.Prelude.{◌≡◌, ◌<◌, IsSomeAnd};
ghost use Rattle.clof_compose.specs.Calls.{HasOpened};
ghost use Rattle.clof_compose.specs.Courses.{course_of};
ghost use Rattle.level_harness.specs.Rooms.{HasRoom, roll_tag};
ghost use Rattle.clof_compose.specs.Passes.{IsNumber};
ghost use Rattle.clof_compose.specs.Shares.{IsShareIn};
ghost use Rattle.level_harness.specs.Walkers.{Stands, stood_of};

use crate::roll::{Roll, call};
use clof_compose::{Climbing, Composed, Descending, Standing};
use keep_local::Share;
use lock_rules::Step;
use std::mem;

/// Where a caller stands, with its token. It is stepping only inside a step.
#[derive(Drop)]
pub enum State<P, Q, H, L> {
    Idle(P),
    Queued(Q),
    Holding(H),
    Leaving(L),
    Stepping,
}

/// A caller of a walk. It has commands left while its share has turns left.
#[derive(Drop)]
pub struct Walker<P, Q, H, L> {
    pub(crate) state: State<P, Q, H, L>,
    pub(crate) share: Share,
}

/// Where a caller stood behind a step: where it was queued or was leaving, at which level. No caller is nowhere.
#[derive(Clone, Copy, Debug, Drop, PartialEq, Eq)]
pub enum Stood {
    Idle,
    Queued(u32),
    Holding,
    Leaving(u32),
    Nowhere,
}

// The state of a caller of C.
pub(crate) type StateIn<C> = State<
    <C as Composed<Roll>>::Pass,
    <C as Composed<Roll>>::Queue,
    <C as Composed<Roll>>::Held,
    <C as Composed<Roll>>::Leave,
>;

// A caller of C.
pub(crate) type WalkerIn<C> = Walker<
    <C as Composed<Roll>>::Pass,
    <C as Composed<Roll>>::Queue,
    <C as Composed<Roll>>::Held,
    <C as Composed<Roll>>::Leave,
>;

// Begins to take the lock, where a command is left.
fn enter<C: Composed<Roll>>(lock: &C, pass: C::Pass, share: &mut Share) -> StateIn<C>
    requires sound { C.sound lock.now }
    requires lowest { C.level lock.now ≡ 0 }
    requires pass { IsNumber (C.has lock.now) (C.level lock.now) (C.tag lock.now) share.old.caller (C.Pass.rest pass).context }
    requires share { IsShareIn (course_of (C.tag lock.now)) share.old.caller share.old }
    ensures stands { Stands C.Pass.rest C.Queue.climb C.Queue.climbs C.Held.stand C.Held.stands C.Leave.descent C.Leave.descends
        (C.has lock.now) (C.level lock.now) (C.tag lock.now) result share.new }
    ensures share { IsShareIn (course_of (C.tag lock.now)) share.old.caller share.new }
{
    if !share.may_turn() {
        return State::Idle(pass);
    }
    match lock.begin(pass, share) {
        Step::Not(queue) => State::Queued(queue),
        Step::Got(held) => State::Holding(held),
    }
}

// Asks whether the lock is had now.
fn wait<C: Composed<Roll>>(lock: &C, queue: C::Queue, share: &mut Share) -> StateIn<C>
    requires sound { C.sound lock.now }
    requires lowest { C.level lock.now ≡ 0 }
    requires queue { IsNumber (C.has lock.now) (C.level lock.now) (C.tag lock.now) share.old.caller (C.Queue.climb queue).context }
    requires climbs { C.Queue.climbs queue }
    requires left { share.old.made < share.old.quota }
    requires share { IsShareIn (course_of (C.tag lock.now)) share.old.caller share.old }
    ensures stands { Stands C.Pass.rest C.Queue.climb C.Queue.climbs C.Held.stand C.Held.stands C.Leave.descent C.Leave.descends
        (C.has lock.now) (C.level lock.now) (C.tag lock.now) result share.new }
    ensures share { IsShareIn (course_of (C.tag lock.now)) share.old.caller share.new }
{
    match lock.poll(queue, share) {
        Step::Not(queue) => State::Queued(queue),
        Step::Got(held) => State::Holding(held),
    }
}

// Makes one call of the payload, and begins to leave the lock.
fn leave<C: Composed<Roll>>(lock: &C, mut held: C::Held, share: &Share) -> StateIn<C>
    requires sound { C.sound lock.now }
    requires lowest { C.level lock.now ≡ 0 }
    requires room { HasRoom (course_of (C.tag lock.now)) }
    requires held { IsNumber (C.has lock.now) (C.level lock.now) (C.tag lock.now) share.now.caller (C.Held.stand held).context }
    requires stands { C.Held.stands held }
    requires opened { IsSomeAnd (C.Held.stand held).root (HasOpened (λ r. r.callers.items) roll_tag (C.tag lock.now)
        (C.level lock.now) share.now) }
    ensures { Stands C.Pass.rest C.Queue.climb C.Queue.climbs C.Held.stand C.Held.stands C.Leave.descent C.Leave.descends
        (C.has lock.now) (C.level lock.now) (C.tag lock.now) result share.now }
{
    call(held.root(), share.caller());
    match lock.begin_release(held) {
        Step::Not(leave) => State::Leaving(leave),
        Step::Got(pass) => State::Idle(pass),
    }
}

// Asks whether the lock is left now.
fn go<C: Composed<Roll>>(lock: &C, leave: C::Leave, share: &Share) -> StateIn<C>
    requires sound { C.sound lock.now }
    requires leave { IsNumber (C.has lock.now) (C.level lock.now) (C.tag lock.now) share.now.caller (C.Leave.descent leave).context }
    requires descends { C.Leave.descends leave }
    ensures { Stands C.Pass.rest C.Queue.climb C.Queue.climbs C.Held.stand C.Held.stands C.Leave.descent C.Leave.descends
        (C.has lock.now) (C.level lock.now) (C.tag lock.now) result share.now }
{
    match lock.poll_release(leave) {
        Step::Not(leave) => State::Leaving(leave),
        Step::Got(pass) => State::Idle(pass),
    }
}

/// Where the caller stands.
pub(crate) fn stood_of<P, Q: Climbing, H, L: Descending>(walker: &Walker<P, Q, H, L>) -> Stood
    ensures { result ≡ stood_of Q.climb L.descent walker.now.state }
{
    match &walker.state {
        State::Idle(_) => Stood::Idle,
        State::Queued(queue) => Stood::Queued(queue.waits_at()),
        State::Holding(_) => Stood::Holding,
        State::Leaving(leave) => Stood::Leaving(leave.leaves_at()),
        State::Stepping => Stood::Nowhere,
    }
}

/// Makes the caller's step of a round.
pub(crate) fn step<C: Composed<Roll>>(lock: &C, walker: &mut WalkerIn<C>)
    requires sound { C.sound lock.now }
    requires lowest { C.level lock.now ≡ 0 }
    requires room { HasRoom (course_of (C.tag lock.now)) }
    requires share { IsShareIn (course_of (C.tag lock.now)) walker.old.share.caller walker.old.share }
    requires stands { Stands C.Pass.rest C.Queue.climb C.Queue.climbs C.Held.stand C.Held.stands C.Leave.descent C.Leave.descends
        (C.has lock.now) (C.level lock.now) (C.tag lock.now) walker.old.state walker.old.share }
    ensures share { IsShareIn (course_of (C.tag lock.now)) walker.old.share.caller walker.new.share }
    ensures stands { Stands C.Pass.rest C.Queue.climb C.Queue.climbs C.Held.stand C.Held.stands C.Leave.descent C.Leave.descends
        (C.has lock.now) (C.level lock.now) (C.tag lock.now) walker.new.state walker.new.share }
{
    walker.state = match mem::replace(&mut walker.state, State::Stepping) {
        State::Idle(pass) => enter(lock, pass, &mut walker.share),
        State::Queued(queue) => wait(lock, queue, &mut walker.share),
        State::Holding(held) => leave(lock, held, &walker.share),
        State::Leaving(token) => go(lock, token, &walker.share),
        State::Stepping => unreachable!(),
    };
}
