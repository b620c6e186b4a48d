//! Cohorts that are made, served and closed.
ghost use Rattle.std.specs.Prelude.{◌≡◌, ◌<◌, ℕ, None, map, length, IfOk, IfSome};
ghost use Rattle.lock_rules.specs.Tag.{leaf};
ghost use Rattle.cohort_queue.specs.Numbers.{IsIn, times, once_below};
ghost use Rattle.cohort_queue.specs.States.{IsSeatOf, AreAll};

use cohort_queue::{Cohort, Numbered, Rest, Seat, cohorts_are_shared};
use lock_threads::{Works, by_all};
use std::alloc::{AllocError, Global};
use std::sync::Wait;
use std::test::Fail;
use std::thread::Threads;

// How many turns each thread tries to give.
const ROUNDS: u32 = 2000;

// A caller counts the turns that it had.
#[derive(Drop)]
struct Caller {
    number: u32,
    turns: u32,
}

impl Numbered for Caller {
    ghost use Rattle.lock_rules.specs.Tag.{leaf};

    ghost number = { λ c. c.number };

    ghost tag = { λ _. leaf 0 };

    fn number(&self) -> u32 {
        self.number
    }
}

// The callers 0, 1, 2 and so on, as many as asked.
fn callers(alloc: Global, count: u32) -> Result<Vec<Caller>, AllocError>
    ensures many { IfOk result (λ jobs. length jobs.items ≡ count) }
    ensures each { IfOk result (λ jobs. (x : ℕ) → times x (map (λ c. c.number) jobs.items) ≡ once_below count x) }
{
    let mut jobs = Vec::with_capacity(alloc, count as usize)?;
    for number in 0..count {
        jobs.push_reserved(Caller { number, turns: 0 });
    }
    Ok(jobs)
}

// A cohort of so many callers, and its seats.
fn made<R: Wait>(
    rt: &R,
    alloc: Global,
    count: u32,
    seats: u32,
) -> Result<(Cohort<Caller>, Vec<Seat<Caller>>), AllocError>
    requires some { 0 < count }
    requires seats { 0 < seats }
    ensures count { IfOk result (λ made. made.0.seats ≡ seats) }
    ensures seats { IfOk result (λ made. AreAll made.0 made.1.items) }
{
    match Cohort::make(rt, alloc, callers(alloc, count)?, seats) {
        Ok(made) => Ok(made),
        Err(_) => Err(AllocError),
    }
}

// Takes the caller in front, which is then out with the seat.
fn take<R: Wait>(rt: &R, cohort: &Cohort<Caller>, seat: &mut Seat<Caller>) -> Option<Caller>
    requires seat { IsSeatOf cohort.now seat.old }
    ensures seat { IsSeatOf cohort.now seat.new }
    ensures same { seat.new.seat ≡ seat.old.seat }
    ensures out { IfSome result (λ caller. IsIn caller.number seat.new.outs) }
    ensures tag { IfSome result (λ _. cohort.now.tag ≡ leaf 0) }
    ensures none { result ≡ None → seat.new ≡ seat.old }
{
    cohort.take(rt, seat)
}

// Puts a caller back that is out with the seat.
fn put<R: Wait>(rt: &R, cohort: &Cohort<Caller>, seat: &mut Seat<Caller>, caller: Caller)
    requires seat { IsSeatOf cohort.now seat.old }
    requires out { IsIn caller.number seat.old.outs }
    requires tag { cohort.now.tag ≡ leaf 0 }
    ensures seat { IsSeatOf cohort.now seat.new }
    ensures same { seat.new.seat ≡ seat.old.seat }
{
    cohort.put(rt, seat, caller)
}

// The caller in front has a turn and goes behind the others. The answer is its number.
fn turn<R: Wait>(rt: &R, cohort: &Cohort<Caller>, seat: &mut Seat<Caller>) -> Option<u32>
    requires seat { IsSeatOf cohort.now seat.old }
    ensures seat { IsSeatOf cohort.now seat.new }
    ensures same { seat.new.seat ≡ seat.old.seat }
{
    let mut caller = take(rt, cohort, seat)?;
    let number = caller.number;
    caller.turns = caller.turns.wrapping_add(1);
    put(rt, cohort, seat, caller);
    Some(number)
}

// The turns that one thread gives.
fn turns<R: Wait>(rt: &R, cohort: &Cohort<Caller>, mut seat: Seat<Caller>) -> Seat<Caller>
    requires seat { IsSeatOf cohort.now seat }
    ensures seat { IsSeatOf cohort.now result }
    ensures same { result.seat ≡ seat.seat }
{
    for _ in 0..ROUNDS {
        turn(rt, cohort, &mut seat);
    }
    seat
}

// What each thread needs.
#[derive(Drop)]
struct Shift<'a, R> {
    rt: &'a R,
    cohort: &'a Cohort<Caller>,
}

impl<'a, R: Wait> Works<Seat<Caller>> for Shift<'a, R> {
    ghost allows = { λ s seat. IsSeatOf s.cohort.now seat };

    ghost gives = { λ s seat left. IsSeatOf s.cohort.now left × (left.seat ≡ seat.seat) };

    fn work(&self, seat: Seat<Caller>) -> Seat<Caller> {
        turns(self.rt, self.cohort, seat)
    }
}

// Each seat gives turns in a thread of its own. The answer is what is in the queue behind them.
fn served<R: Threads + Wait + Sync>(
    rt: &R,
    alloc: Global,
    count: u32,
    seats: u32,
) -> Result<Rest<Caller>, AllocError>
    requires some { 0 < count }
    requires seats { 0 < seats }
{
    let (cohort, seats) = made(rt, alloc, count, seats)?;
    cohorts_are_shared::<Caller>();
    let shift = Shift {
        rt,
        cohort: &cohort,
    };
    let seats = by_all(rt, &shift, seats);
    Ok(cohort.close(seats))
}

// The turns that all these callers had, or `None` where they aren't the callers below this number, each once.
fn turns_of_all<R: Wait>(rt: &R, rest: &mut Rest<Caller>, count: u32) -> Option<u32> {
    let mut seen = [false; 256];
    let mut turns: u32 = 0;
    for _ in 0..count {
        let caller = rest.next(rt)?;
        let had = seen.get_mut(caller.number as usize)?;
        if *had || caller.number >= count {
            return None;
        }
        *had = true;
        turns = turns.wrapping_add(caller.turns);
    }
    match rest.next(rt) {
        Some(_) => None,
        None => Some(turns),
    }
}

// The two seats of a cohort.
fn both_seats(
    cohort: &Cohort<Caller>,
    mut seats: Vec<Seat<Caller>>,
) -> Option<(Seat<Caller>, Seat<Caller>)>
    requires all { AreAll cohort.now seats.items }
    requires two { cohort.now.seats ≡ 2 }
    ensures first { IfSome result (λ both. IsSeatOf cohort.now both.0 × (both.0.seat ≡ 1)) }
    ensures second { IfSome result (λ both. IsSeatOf cohort.now both.1 × (both.1.seat ≡ 0)) }
{
    let second = seats.pop()?;
    let first = seats.pop()?;
    Some((first, second))
}

// Closes a cohort of two seats.
fn closed(
    alloc: Global,
    cohort: Cohort<Caller>,
    first: Seat<Caller>,
    second: Seat<Caller>,
) -> Result<Rest<Caller>, AllocError>
    requires two { cohort.seats ≡ 2 }
    requires first { IsSeatOf cohort first × (first.seat ≡ 1) }
    requires second { IsSeatOf cohort second × (second.seat ≡ 0) }
{
    let mut seats = Vec::with_capacity(alloc, 2)?;
    seats.push_reserved(first);
    seats.push_reserved(second);
    Ok(cohort.close(seats))
}

#[test]
fn callers_come_round(rt: HostRuntime) -> Result<(), Fail> {
    let (cohort, seats) = made(&rt, rt.alloc(), 3, 2)?;
    let Some((mut first, mut second)) = both_seats(&cohort, seats) else {
        panic!(rt; "there are two seats")
    };
    for want in [0, 1, 2, 0, 1, 2] {
        assert!(rt; turn(&rt, &cohort, &mut first) == Some(want));
    }
    assert!(rt; turn(&rt, &cohort, &mut second) == Some(0));
    let mut rest = closed(rt.alloc(), cohort, first, second)?;
    for want in [(1, 2), (2, 2), (0, 3)] {
        let caller = rest.next(&rt);
        assert!(rt; caller.is_some_and(|caller| (caller.number(), caller.turns) == want));
    }
    assert!(rt; rest.next(&rt).is_none() && rest.next(&rt).is_none());
    Ok(())
}

// At the end a caller is in the queue, and one is out with each seat.
#[test]
fn two_seats_share_the_callers(rt: HostRuntime) -> Result<(), Fail> {
    let (cohort, seats) = made(&rt, rt.alloc(), 3, 2)?;
    let Some((mut first, mut second)) = both_seats(&cohort, seats) else {
        panic!(rt; "there are two seats")
    };
    let Some(zero) = take(&rt, &cohort, &mut first) else {
        panic!(rt; "three callers wait")
    };
    let one = take(&rt, &cohort, &mut second);
    let two = take(&rt, &cohort, &mut second);
    assert!(rt; zero.number == 0 && one.is_some_and(|caller| caller.number == 1));
    if let Some(_) = take(&rt, &cohort, &mut first) {
        panic!(rt; "all callers are out")
    }
    put(&rt, &cohort, &mut first, zero);
    if let Some(caller) = two {
        assert!(rt; caller.number == 2);
        put(&rt, &cohort, &mut second, caller);
    }
    let again = take(&rt, &cohort, &mut second);
    assert!(rt; again.is_some_and(|caller| caller.number == 0));
    let mut rest = closed(rt.alloc(), cohort, first, second)?;
    let last = rest.next(&rt);
    assert!(rt; last.is_some_and(|caller| caller.number == 2));
    assert!(rt; rest.next(&rt).is_none());
    Ok(())
}

#[test]
fn threads_lose_and_double_no_caller(rt: HostRuntime) -> Result<(), Fail> {
    for (count, seats) in [(1, 1), (4, 4), (7, 2), (256, 4)] {
        let mut rest = served(&rt, rt.alloc(), count, seats)?;
        assert!(rt; turns_of_all(&rt, &mut rest, count) == Some(seats * ROUNDS));
    }
    Ok(())
}

// One caller for four threads: how many of their tries find it depends on how they run, but the first of all does.
#[test]
fn threads_find_the_queue_empty(rt: HostRuntime) -> Result<(), Fail> {
    let mut rest = served(&rt, rt.alloc(), 1, 4)?;
    let turns = turns_of_all(&rt, &mut rest, 1);
    assert!(rt; turns.is_some_and(|turns| 0 < turns && turns <= 4 * ROUNDS));
    Ok(())
}
