//! A new lock that threads hold, each by a pass of its own.
ghost use Rattle.std.specs.Prelude.{◌≡◌, ◌<◌, false, IfSome};
ghost use Rattle.lock_rules.specs.Tag.{Tag};
ghost use Rattle.lock_rules.specs.Passes.{IsOf};

use lock_rules::{Basic, Cargo};
use lock_threads::{Works, by_all};
use std::alloc::Global;
use std::marker::PhantomData;
use std::sync::Wait;
use std::thread::Threads;

/// What each thread does with its pass: it holds the lock, and comes back with the same pass.
pub(crate) trait HoldsOften<V: Cargo> {
    // It may hold a lock whose value has this tag.
    ghost may: { Self → Tag → Type 0 };

    fn hold_often<B: Basic<V>, R: Wait>(&self, rt: &R, lock: &B, pass: B::Pass) -> B::Pass
        requires own { IsOf (B.name lock.now) (B.tag lock.now) (B.Pass.place pass) }
        requires may { may self.now (B.tag lock.now) }
        ensures { B.Pass.place result ≡ B.Pass.place pass };
}

/// The part of each thread.
#[derive(Drop)]
struct Shift<'a, V, B, H, R> {
    rt: &'a R,
    lock: &'a B,
    holder: &'a H,
    value: PhantomData<V>,
}

impl<'a, V: Cargo, B: Basic<V>, H: HoldsOften<V>, R: Wait> Works<B::Pass>
    for Shift<'a, V, B, H, R> {
    ghost allows = { λ s p. IsOf (B.name s.lock.now) (B.tag s.lock.now) (B.Pass.place p) × H.may s.holder.now (B.tag s.lock.now) };

    ghost gives = { λ _ p q. B.Pass.place q ≡ B.Pass.place p };

    fn work(&self, pass: B::Pass) -> B::Pass {
        self.holder.hold_often(self.rt, self.lock, pass)
    }
}

/// Makes a lock around a value, has a thread for each of its passes do what the holder does, and takes the lock apart. The answer is the
/// value at the end, or `None` for want of memory.
pub(crate) fn run<
    V: Cargo + Send + Sync,
    B: Basic<V> + Sync + Drop,
    H: HoldsOften<V> + Sync,
    R: Threads + Wait + Sync,
>(rt: &R, alloc: Global, recipe: B::Recipe, threads: u32, value: V, holder: &H) -> Option<V>
where
    B::Recipe: Send,
    B::Pass: Send,
    B::Queue: Send,
    B::Held: Send,
    B::Leave: Send,
    requires some { 0 < threads }
    requires fit { V.fit value }
    requires unparked { V.parked value ≡ false }
    requires may { H.may holder.now (V.tag value) }
    ensures fit { IfSome result V.fit }
    ensures tagged { IfSome result (λ v. V.tag v ≡ V.tag value) }
    ensures unparked { IfSome result (λ v. V.parked v ≡ false) }
{
    let Ok((lock, passes)) = B::make(alloc, recipe, threads, value) else {
        return None;
    };
    let shift = Shift::<V, B, H, R> {
        rt,
        lock: &lock,
        holder,
        value: PhantomData,
    };
    let passes = by_all(rt, &shift, passes);
    Some(lock.close(passes))
}
