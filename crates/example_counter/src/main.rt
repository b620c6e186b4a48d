//! Threads add to one counter under a Ticket lock, and the sum is printed.
#![tactic(auto)]

#[cfg(test)]
mod tests;

ghost use Rattle.std.specs.Prelude.{◌≡◌, ◌<◌};
ghost use Rattle.lock_rules.specs.Passes.{IsOf};

use anyhow::Context;
use lock_rules::{Basic, Pass, Placed, Plain, Waiters};
use lock_threads::{Works, by_all};
use std::alloc::Global;
use std::sync::Wait;
use std::thread::Threads;
use ticket_lock::Ticket;

/// A number under a lock. `Plain` is a value without conditions, so the user of the lock has nothing to prove of it.
type Counter = Ticket<Plain<u64>>;

/// What each thread needs: they share the counter by a plain borrow.
#[derive(Drop)]
struct Adder<'a, R> {
    rt: &'a R,
    counter: &'a Counter,
    times: u32,
}

impl<'a, R: Wait> Works<Pass> for Adder<'a, R> {
    // a thread works with a pass of this lock
    ghost allows = { λ s p. IsOf (⟦<Counter as Basic<Plain<u64>>>⟧.name s.counter.now) (⟦<Counter as Basic<Plain<u64>>>⟧.tag s.counter.now)
        (⟦<Pass as Placed>⟧.place p) };

    // and gives the same pass back
    ghost gives = { λ _ p q. ⟦<Pass as Placed>⟧.place q ≡ ⟦<Pass as Placed>⟧.place p };

    /// Adds 1 as often as asked. The pass is handed over and comes back, so nobody can use it twice at a time.
    fn work(&self, mut pass: Pass) -> Pass {
        for _ in 0..self.times {
            // waits until this pass is the head of the queue; then the number is in `held`
            let mut held = self.counter.acquire(self.rt, pass);
            let number = Counter::value_mut(&mut held);
            number.value = number.value.wrapping_add(1);
            // puts the number back, and lets the next pass have it
            pass = self.counter.release(self.rt, held);
        }
        pass
    }
}

/// The sum that so many threads make, or `None` for want of memory.
fn add_by_all<R: Threads + Wait + Sync>(
    rt: &R,
    alloc: Global,
    threads: u32,
    times: u32,
) -> Option<u64>
    requires { 0 < threads }
{
    let Ok((lock, passes)) = Counter::make(alloc, Waiters::Queue, threads, Plain { value: 0 })
    else {
        return None;
    };
    let adder = Adder {
        rt,
        counter: &lock,
        times,
    };
    let passes = by_all(rt, &adder, passes);
    // with all passes back, in the order of their numbers, nobody holds: the lock may be taken apart
    Some(lock.close(passes).value)
}

fn main(rt: HostRuntime) -> anyhow::Result<()> {
    println!(rt;
        "{}",
        add_by_all(&rt, rt.alloc(), 4, 1000).context("no memory")?
    )?;
    Ok(())
}
