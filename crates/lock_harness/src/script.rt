//! Calls of two passes on one thread.
ghost use Rattle.std.specs.Prelude.{◌≡◌, ◌+◌, false, cond, IfSome, length, vec_len};
ghost use Rattle.lock_rules.specs.Tag.{leaf};
ghost use Rattle.lock_rules.specs.Passes.{IsOf};
ghost use Rattle.lock_harness.specs.declared.script.Told.TheVariants.{Yes, No};
ghost use Rattle.lock_harness.specs.declared.script.Who.TheVariants.{First, Second};
ghost use Rattle.lock_harness.specs.Tokens.{place_of_token, Stands, IsNoted, IsSound, ArePair, ArePasses};

use crate::holds::use_parcel;
use crate::parcel::Parcel;
use lock_rules::{Basic, Step};
use std::alloc::Global;

/// The number in the value of a script's lock, which no move changes.
pub const START: u64 = 7;

/// Which of the two passes makes a call.
#[derive(Clone, Copy, Drop)]
pub enum Who {
    First,
    Second,
}

/// What a pass does in a step of a script.
#[derive(Clone, Copy, Drop)]
pub enum Call {
    Begin,
    Poll,
    Waiter,
    BeginRelease,
    PollRelease,
    /// Parks the value, which a holder may do behind a yes of `waiter`.
    Park,
    /// Takes the value's mark off.
    Unpark,
    /// What a holder of `hold_by` does where the holders park.
    Use,
}

/// A call of a script.
#[derive(Clone, Copy, Drop)]
pub struct Move {
    pub who: Who,
    pub call: Call,
}

/// A call of the first pass.
pub const fn first(call: Call) -> Move
    ensures { result ≡ record { who = First; call = call } }
{
    Move {
        who: Who::First,
        call,
    }
}

/// A call of the second pass.
pub const fn second(call: Call) -> Move
    ensures { result ≡ record { who = Second; call = call } }
{
    Move {
        who: Who::Second,
        call,
    }
}

/// What a call answered: `Not` or `Got`; for `waiter` yes or no; for `Unpark` whether the value was parked; for `Use` whether it parked it.
#[derive(Clone, Copy, PartialEq, Eq, Debug, Drop)]
pub enum Told {
    Not,
    Got,
    Yes,
    No,
}

impl Told {
    fn of(yes: bool) -> Told
        ensures { result ≡ cond yes Yes No }
    {
        if yes { Told::Yes } else { Told::No }
    }
}

/// What the calls of a script answered, in order, and the number in the value at the end.
#[derive(Drop)]
pub struct Outcome {
    pub told: Vec<Told>,
    pub count: u64,
}

/// Where a pass stands in a script.
#[derive(Drop)]
pub enum Token<P, Q, H, L> {
    Idle(P),
    Queued(Q),
    Holding(Holder<H>),
    Leaving(L),
}

/// A holder's token, and whether the last `waiter` of this hold said yes.
#[derive(Drop)]
pub struct Holder<H> {
    pub held: H,
    pub told_yes: bool,
}

impl<H> Holder<H> {
    /// A holder that hasn't asked yet.
    fn new(held: H) -> Holder<H>
        ensures { result ≡ record { held = held; told_yes = false } }
    {
        Holder {
            held,
            told_yes: false,
        }
    }
}

fn play_idle<B: Basic<Parcel>>(
    lock: &B,
    pass: B::Pass,
    call: Call,
) -> Option<(Token<B::Pass, B::Queue, B::Held, B::Leave>, Told)>
    requires { IsOf (B.name lock.now) (B.tag lock.now) (B.Pass.place pass) }
    ensures { IfSome result (λ t. Stands B.Pass.place B.Queue.waiting B.Held.holder B.Leave.waiting B.Leave.rests (B.Pass.place pass) t.0) }
{
    let Call::Begin = call else { return None };
    match lock.begin(pass) {
        Step::Not(queue) => Some((Token::Queued(queue), Told::Not)),
        Step::Got(held) => Some((Token::Holding(Holder::new(held)), Told::Got)),
    }
}

fn play_queued<B: Basic<Parcel>>(
    lock: &B,
    queue: B::Queue,
    call: Call,
) -> Option<(Token<B::Pass, B::Queue, B::Held, B::Leave>, Told)>
    requires { IsOf (B.name lock.now) (B.tag lock.now) (B.Queue.waiting queue).place }
    ensures { IfSome result (λ t. Stands B.Pass.place B.Queue.waiting B.Held.holder B.Leave.waiting B.Leave.rests
        (B.Queue.waiting queue).place t.0) }
{
    let Call::Poll = call else { return None };
    match lock.poll(queue) {
        Step::Not(queue) => Some((Token::Queued(queue), Told::Not)),
        Step::Got(held) => Some((Token::Holding(Holder::new(held)), Told::Got)),
    }
}

fn release<B: Basic<Parcel>>(
    lock: &B,
    holder: Holder<B::Held>,
) -> Option<(Token<B::Pass, B::Queue, B::Held, B::Leave>, Told)>
    requires own { IsOf (B.name lock.now) (B.tag lock.now) (B.Held.holder holder.held).place }
    requires tag { B.tag lock.now ≡ leaf 0 }
    requires said { IsNoted B.Held.holder holder }
    ensures { IfSome result (λ t. Stands B.Pass.place B.Queue.waiting B.Held.holder B.Leave.waiting B.Leave.rests
        (B.Held.holder holder.held).place t.0) }
{
    let Holder { held, told_yes } = holder;
    if B::value(&held).parked && !told_yes {
        return None;
    }
    match lock.begin_release(held) {
        Step::Not(leave) => Some((Token::Leaving(leave), Told::Not)),
        Step::Got(pass) => Some((Token::Idle(pass), Told::Got)),
    }
}

fn ask<B: Basic<Parcel>>(lock: &B, holder: Holder<B::Held>) -> (Holder<B::Held>, Told)
    requires { IsOf (B.name lock.now) (B.tag lock.now) (B.Held.holder holder.held).place }
    ensures place { (B.Held.holder result.0.held).place ≡ (B.Held.holder holder.held).place }
    ensures said { IsNoted B.Held.holder result.0 }
{
    let Holder {
        mut held,
        told_yes: _,
    } = holder;
    let told_yes = lock.waiter(&mut held);
    (Holder { held, told_yes }, Told::of(told_yes))
}

fn park<B: Basic<Parcel>>(holder: Holder<B::Held>) -> Holder<B::Held>
    requires { IsNoted B.Held.holder holder }
    ensures place { (B.Held.holder result.held).place ≡ (B.Held.holder holder.held).place }
    ensures said { IsNoted B.Held.holder result }
{
    let Holder { mut held, told_yes } = holder;
    B::value_mut(&mut held).parked = true;
    Holder { held, told_yes }
}

fn unpark<B: Basic<Parcel>>(holder: Holder<B::Held>) -> (Holder<B::Held>, Told)
    requires { IsNoted B.Held.holder holder }
    ensures place { (B.Held.holder result.0.held).place ≡ (B.Held.holder holder.held).place }
    ensures said { IsNoted B.Held.holder result.0 }
{
    let Holder { mut held, told_yes } = holder;
    let told = Told::of(B::value(&held).parked);
    B::value_mut(&mut held).parked = false;
    (Holder { held, told_yes }, told)
}

fn use_value<B: Basic<Parcel>>(lock: &B, holder: Holder<B::Held>) -> (Holder<B::Held>, Told)
    requires { IsOf (B.name lock.now) (B.tag lock.now) (B.Held.holder holder.held).place }
    ensures place { (B.Held.holder result.0.held).place ≡ (B.Held.holder holder.held).place }
    ensures said { IsNoted B.Held.holder result.0 }
{
    let Holder {
        mut held,
        told_yes: _,
    } = holder;
    use_parcel(lock, &mut held, true);
    let told_yes = B::value(&held).parked;
    (Holder { held, told_yes }, Told::of(told_yes))
}

fn play_holding<B: Basic<Parcel>>(
    lock: &B,
    holder: Holder<B::Held>,
    call: Call,
) -> Option<(Token<B::Pass, B::Queue, B::Held, B::Leave>, Told)>
    requires own { IsOf (B.name lock.now) (B.tag lock.now) (B.Held.holder holder.held).place }
    requires tag { B.tag lock.now ≡ leaf 0 }
    requires said { IsNoted B.Held.holder holder }
    ensures { IfSome result (λ t. Stands B.Pass.place B.Queue.waiting B.Held.holder B.Leave.waiting B.Leave.rests
        (B.Held.holder holder.held).place t.0) }
{
    match call {
        Call::Waiter => {
            let (holder, told) = ask(lock, holder);
            Some((Token::Holding(holder), told))
        }
        Call::Park => Some((Token::Holding(park::<B>(holder)), Told::Got)),
        Call::Unpark => {
            let (holder, told) = unpark::<B>(holder);
            Some((Token::Holding(holder), told))
        }
        Call::Use => {
            let (holder, told) = use_value(lock, holder);
            Some((Token::Holding(holder), told))
        }
        Call::BeginRelease => release(lock, holder),
        _ => None,
    }
}

fn play_leaving<B: Basic<Parcel>>(
    lock: &B,
    leave: B::Leave,
    call: Call,
) -> Option<(Token<B::Pass, B::Queue, B::Held, B::Leave>, Told)>
    requires own { IsOf (B.name lock.now) (B.tag lock.now) (B.Leave.waiting leave).place }
    requires rests { B.Leave.rests leave }
    ensures { IfSome result (λ t. Stands B.Pass.place B.Queue.waiting B.Held.holder B.Leave.waiting B.Leave.rests
        (B.Leave.waiting leave).place t.0) }
{
    let Call::PollRelease = call else {
        return None;
    };
    match lock.poll_release(leave) {
        Step::Not(leave) => Some((Token::Leaving(leave), Told::Not)),
        Step::Got(pass) => Some((Token::Idle(pass), Told::Got)),
    }
}

/// Makes a call of a pass. The answer is `None` where the call isn't one of a pass that stands so.
fn play<B: Basic<Parcel>>(
    lock: &B,
    token: Token<B::Pass, B::Queue, B::Held, B::Leave>,
    call: Call,
) -> Option<(Token<B::Pass, B::Queue, B::Held, B::Leave>, Told)>
    requires own { IsOf (B.name lock.now) (B.tag lock.now)
        (place_of_token B.Pass.place B.Queue.waiting B.Held.holder B.Leave.waiting B.Leave.rests token) }
    requires sound { IsSound B.Pass.place B.Queue.waiting B.Held.holder B.Leave.waiting B.Leave.rests token }
    requires tag { B.tag lock.now ≡ leaf 0 }
    ensures { IfSome result (λ t. Stands B.Pass.place B.Queue.waiting B.Held.holder B.Leave.waiting B.Leave.rests
        (place_of_token B.Pass.place B.Queue.waiting B.Held.holder B.Leave.waiting B.Leave.rests token) t.0) }
{
    match token {
        Token::Idle(pass) => play_idle(lock, pass, call),
        Token::Queued(queue) => play_queued(lock, queue, call),
        Token::Holding(holder) => play_holding(lock, holder, call),
        Token::Leaving(leave) => play_leaving(lock, leave, call),
    }
}

/// The two passes of a script, in the order of their numbers.
#[derive(Drop)]
struct Pair<P, Q, H, L> {
    first: Token<P, Q, H, L>,
    second: Token<P, Q, H, L>,
}

/// Makes one move of a script.
fn make_move<B: Basic<Parcel>>(
    lock: &B,
    pair: Pair<B::Pass, B::Queue, B::Held, B::Leave>,
    next: Move,
) -> Option<(Pair<B::Pass, B::Queue, B::Held, B::Leave>, Told)>
    requires pair { ArePair B.Pass.place B.Queue.waiting B.Held.holder B.Leave.waiting B.Leave.rests (B.name lock.now)
        (B.tag lock.now) pair.first pair.second }
    requires tag { B.tag lock.now ≡ leaf 0 }
    ensures { IfSome result (λ t. ArePair B.Pass.place B.Queue.waiting B.Held.holder B.Leave.waiting B.Leave.rests (B.name lock.now)
        (B.tag lock.now) t.0.first t.0.second) }
{
    let Pair { first, second } = pair;
    match next.who {
        Who::First => {
            let (first, told) = play(lock, first, next.call)?;
            Some((Pair { first, second }, told))
        }
        Who::Second => {
            let (second, told) = play(lock, second, next.call)?;
            Some((Pair { first, second }, told))
        }
    }
}

/// Makes all moves of a script, and notes the answers.
fn make_moves<B: Basic<Parcel>>(
    lock: &B,
    mut pair: Pair<B::Pass, B::Queue, B::Held, B::Leave>,
    moves: &[Move],
    told: &mut Vec<Told>,
) -> Option<(B::Pass, B::Pass)>
    requires pair { ArePair B.Pass.place B.Queue.waiting B.Held.holder B.Leave.waiting B.Leave.rests (B.name lock.now)
        (B.tag lock.now) pair.first pair.second }
    requires tag { B.tag lock.now ≡ leaf 0 }
    ensures passes { IfSome result (λ t. ArePasses B.Pass.place (B.name lock.now) (B.tag lock.now) t.0 t.1) }
    ensures told { IfSome result (λ _. vec_len told.new ≡ vec_len told.old + length moves.now) }
{
    for next in moves {
        let (moved, answer) = make_move(lock, pair, *next)?;
        pair = moved;
        told.push(answer).ok()?;
    }
    let Pair { first, second } = pair;
    let (Token::Idle(first), Token::Idle(second)) = (first, second) else {
        return None;
    };
    Some((first, second))
}

/// A lock with two passes, the moves of a script on it, and its end. The answer is `None` for want of memory, or where a move isn't one of
/// a pass that stands so, or a pass isn't idle at the end.
pub fn carry_out<B: Basic<Parcel> + Drop>(
    alloc: Global,
    recipe: B::Recipe,
    moves: &[Move],
) -> Option<Outcome>
    ensures { IfSome result (λ o. vec_len o.told ≡ length moves.now) }
{
    let (lock, mut passes) = B::make(alloc, recipe, 2, Parcel::new(START)).ok()?;
    let second = Token::Idle(passes.pop()?);
    let first = Token::Idle(passes.pop()?);
    let mut told = Vec::new(alloc);
    let (first, second) = make_moves(&lock, Pair { first, second }, moves, &mut told)?;
    passes.push(first).ok()?;
    passes.push(second).ok()?;
    let count = lock.close(passes).count;
    Some(Outcome { told, count })
}
