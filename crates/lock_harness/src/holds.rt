//! Holds that change a parcel.
ghost use Rattle.std.specs.Prelude.{◌≡◌, ◌<◌, true, false, IfSome};
ghost use Rattle.lock_rules.specs.Tag.{leaf};
ghost use Rattle.lock_rules.specs.Passes.{IsOf};
ghost use Rattle.lock_rules.specs.declared.step.Answer.TheVariants.{Yes};

use crate::parcel::Parcel;
use crate::runs::{HoldsOften, run};
use lock_rules::{Basic, Pauses};
use std::alloc::Global;
use std::sync::Wait;
use std::thread::Threads;

/// How often each thread holds the lock in the tests of the locks.
pub const HOLDS: u32 = 100;

/// How often the first holder of all asks whether another waits: until the threads that were started with it have come.
const FIRST_ASKS: u32 = 10_000_000;

/// Whether another waits, asked up to so many times.
fn another_waits<B: Basic<Parcel>>(lock: &B, held: &mut B::Held, asks: u32) -> bool
    requires own { IsOf (B.name lock.now) (B.tag lock.now) (B.Held.holder held.old).place }
    ensures place { (B.Held.holder held.new).place ≡ (B.Held.holder held.old).place }
    ensures value { (B.Held.holder held.new).value ≡ (B.Held.holder held.old).value }
    ensures noted { result ≡ true → (B.Held.holder held.new).tested ≡ Yes }
{
    let mut pauses = Pauses::new();
    for _ in 0..asks {
        if lock.waiter(held) {
            return true;
        }
        pauses.pause();
    }
    false
}

/// What a holder does with the value: it adds one to the number, and notes whether the value was parked. Where `parks` is true it parks
/// the value again where `waiter`, which is asked only then, says that somebody waits behind; the first holder of all asks until it does.
pub(crate) fn use_parcel<B: Basic<Parcel>>(lock: &B, held: &mut B::Held, parks: bool)
    requires own { IsOf (B.name lock.now) (B.tag lock.now) (B.Held.holder held.old).place }
    ensures place { (B.Held.holder held.new).place ≡ (B.Held.holder held.old).place }
    ensures relied_on { (B.Held.holder held.new).value.parked ≡ true → (B.Held.holder held.new).tested ≡ Yes }
{
    let is_first = B::value(held).count == 0;
    let parked = parks && another_waits(lock, held, if is_first { FIRST_ASKS } else { 1 });
    let parcel = B::value_mut(held);
    parcel.met = parcel.met || (is_first && parked);
    parcel.unparkings = parcel.unparkings.wrapping_add(u64::from(parcel.parked));
    parcel.parkings = parcel.parkings.wrapping_add(u64::from(parked));
    parcel.parked = parked;
    parcel.count = parcel.count.wrapping_add(1);
}

/// Holds the lock once.
fn hold<B: Basic<Parcel>, R: Wait>(rt: &R, lock: &B, pass: B::Pass, parks: bool) -> B::Pass
    requires own { IsOf (B.name lock.now) (B.tag lock.now) (B.Pass.place pass) }
    requires tag { B.tag lock.now ≡ leaf 0 }
    ensures { B.Pass.place result ≡ B.Pass.place pass }
{
    let mut held = lock.acquire(rt, pass);
    use_parcel(lock, &mut held, parks);
    lock.release(rt, held)
}

fn hold_often<B: Basic<Parcel>, R: Wait>(
    rt: &R,
    lock: &B,
    pass: B::Pass,
    holds: u32,
    parks: bool,
) -> B::Pass
    requires own { IsOf (B.name lock.now) (B.tag lock.now) (B.Pass.place pass) }
    requires tag { B.tag lock.now ≡ leaf 0 }
    ensures { B.Pass.place result ≡ B.Pass.place pass }
{
    let mut pass = pass;
    for _ in 0..holds {
        pass = hold(rt, lock, pass, parks);
    }
    pass
}

/// Holders of a parcel.
#[derive(Drop)]
struct Carrier {
    holds: u32,
    parks: bool,
}

impl HoldsOften<Parcel> for Carrier {
    ghost may = { λ _ t. t ≡ leaf 0 };

    fn hold_often<B: Basic<Parcel>, R: Wait>(&self, rt: &R, lock: &B, pass: B::Pass) -> B::Pass {
        hold_often(rt, lock, pass, self.holds, self.parks)
    }
}

/// So many threads each hold the lock as often as asked and add one to the number in the value. Where `parks` is true each holder unparks
/// the value, and parks it where somebody is queued behind. The answer is the value at the end, or `None` for want of memory.
pub fn hold_by<B: Basic<Parcel> + Sync + Drop, R: Threads + Wait + Sync>(
    rt: &R,
    alloc: Global,
    recipe: B::Recipe,
    threads: u32,
    holds: u32,
    parks: bool,
) -> Option<Parcel>
where
    B::Recipe: Send,
    B::Pass: Send,
    B::Queue: Send,
    B::Held: Send,
    B::Leave: Send,
    requires some { 0 < threads }
    ensures unparked { IfSome result (λ p. p.parked ≡ false) }
{
    let carrier = Carrier { holds, parks };
    run::<Parcel, B, Carrier, R>(rt, alloc, recipe, threads, Parcel::new(0), &carrier)
}
