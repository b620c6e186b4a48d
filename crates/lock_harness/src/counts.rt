//! Holds that add to a number.
ghost use Rattle.std.specs.Prelude.{◌≡◌, ◌*◌, ◌<◌, ◌≤◌, IfSome};
ghost use Rattle.lock_rules.specs.Passes.{IsOf};
ghost use Rattle.lock_rules.specs.Tag.{leaf};

use crate::bounded::BoundedCount;
use crate::runs::{HoldsOften, run};
use lock_rules::Basic;
use std::alloc::Global;
use std::sync::Wait;
use std::thread::Threads;

/// Adds one to the number, but not beyond the limit.
fn add_one(number: &mut BoundedCount, limit: u64)
    requires limit { number.old.limit.value ≡ limit }
    requires within { number.old.count ≤ limit }
    ensures limit { number.new.limit.value ≡ limit }
    ensures within { number.new.count ≤ limit }
{
    if number.count < limit {
        number.count += 1;
    }
}

/// Holds the lock as often as asked, and adds one to the number each time.
fn count_often<B: Basic<BoundedCount>, R: Wait>(
    rt: &R,
    lock: &B,
    pass: B::Pass,
    holds: u32,
    limit: u64,
) -> B::Pass
    requires own { IsOf (B.name lock.now) (B.tag lock.now) (B.Pass.place pass) }
    requires tag { B.tag lock.now ≡ leaf limit }
    ensures { B.Pass.place result ≡ B.Pass.place pass }
{
    let mut pass = pass;
    for _ in 0..holds {
        let mut held = lock.acquire(rt, pass);
        add_one(B::value_mut(&mut held), limit);
        pass = lock.release(rt, held);
    }
    pass
}

/// Holders of a number.
#[derive(Drop)]
struct Counter {
    holds: u32,
    limit: u64,
}

impl HoldsOften<BoundedCount> for Counter {
    ghost may = { λ c t. t ≡ leaf c.limit };

    fn hold_often<B: Basic<BoundedCount>, R: Wait>(
        &self,
        rt: &R,
        lock: &B,
        pass: B::Pass,
    ) -> B::Pass {
        count_often(rt, lock, pass, self.holds, self.limit)
    }
}

/// So many threads each hold the lock as often as asked and add one to the number. The answer is the number at the end, or `None` for want
/// of memory.
pub fn count_by<B: Basic<BoundedCount> + Sync + Drop, R: Threads + Wait + Sync>(
    rt: &R,
    alloc: Global,
    recipe: B::Recipe,
    threads: u32,
    holds: u32,
) -> Option<u64>
where
    B::Recipe: Send,
    B::Pass: Send,
    B::Queue: Send,
    B::Held: Send,
    B::Leave: Send,
    requires some { 0 < threads }
    ensures within { IfSome result (λ n. n ≤ threads * holds) }
{
    let limit = u64::from(threads) * u64::from(holds);
    let counter = Counter { holds, limit };
    let value = BoundedCount::new(limit);
    let left = run::<BoundedCount, B, Counter, R>(rt, alloc, recipe, threads, value, &counter)?;
    Some(left.count)
}
