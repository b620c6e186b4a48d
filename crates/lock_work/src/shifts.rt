//! Work under a lock that is ready, of any type: the threads, their worker, and the end.
ghost use Rattle.std.specs.Prelude.{◌≡◌, ℕ, IfOk};
ghost use Rattle.lock_work.specs.Ready.{IsSet};

use crate::under_lock::{Dealt, OnThread, UnderLock};
use clof_compose::{Payload, Resting, Waits};
use lock_threads::{Works, by_all};
use out_of_memory::OutOfMemory;
use std::alloc::Global;
use std::marker::PhantomData;
use std::sync::Wait;
use std::thread::Threads;

/// What each thread needs: they share the lock, the floor and whatever else they have in common by plain borrows.
#[derive(Drop)]
struct Shift<'b, P, K, G, W, C, R> {
    rt: &'b R,
    lock: &'b C,
    shared: &'b G,
    floor: &'b K,
    payload: PhantomData<P>,
    work: PhantomData<W>,
}

impl<
    'b,
    P: Payload,
    Q: Resting,
    K,
    J,
    G,
    W: OnThread<P, Q, K, J, G>,
    C: Waits<P, Pass = Q>,
    R: Wait,
> Works<J> for Shift<'b, P, K, G, W, C, R> {
    // a thread may do this job
    ghost allows = { λ s j. W.may s.shared.now (C.has s.lock.now) (C.level s.lock.now) (C.tag s.lock.now) (C.sound s.lock.now) s.floor.now
        j };

    // and this comes of it
    ghost gives = { λ s j k. W.did s.shared.now (C.has s.lock.now) (C.level s.lock.now) (C.tag s.lock.now) s.floor.now j k };

    fn work(&self, job: J) -> J {
        W::serve::<C, R>(self.rt, self.lock, self.shared, self.floor, job)
    }
}

// Has the callers work, in threads where they need some.
fn run_threads<
    P: Payload + Send + Sync,
    Q: Resting + Send,
    K: Sync,
    J: Send + Drop,
    B,
    F,
    G: Sync,
    W: UnderLock<P, Q, K, J, B, F, G> + Send + Sync,
    C: Waits<P, Pass = Q> + Sync,
    R: Threads + Wait + Sync,
>(rt: &R, alloc: Global, lock: &C, shared: &G, passes: Vec<Q>, brought: B) -> W::Crew
where
    C::Queue: Send,
    C::Held: Send,
    C::Leave: Send,
    requires { IsSet Q.rest (C.has lock.now) (C.sound lock.now) (C.level lock.now) (C.count lock.now) (C.tag lock.now) (W.dealt shared.now)
        brought passes.items }
    ensures { W.is_crew shared.now (C.has lock.now) (C.level lock.now) (C.count lock.now) (C.tag lock.now) result }
{
    let Dealt { floor, jobs, aside } = match W::deal::<C, R>(
        rt, alloc, lock, shared, passes, brought,
    ) {
        Ok(dealt) => dealt,
        Err(crew) => return crew,
    };
    let shift = Shift::<P, K, G, W, C, R> {
        rt,
        lock,
        shared,
        floor: &floor,
        payload: PhantomData,
        work: PhantomData,
    };
    let jobs = by_all(rt, &shift, jobs);
    W::gather::<C, R>(rt, lock, shared, floor, jobs, aside)
}

/// Work under a lock that is ready, which is then taken apart: its callers work in threads where they need some, and share this.
pub fn work_under<
    P: Payload + Send + Sync,
    Q: Resting + Send,
    K: Sync,
    J: Send + Drop,
    B,
    F,
    G: Sync,
    W: UnderLock<P, Q, K, J, B, F, G> + Send + Sync,
    C: Waits<P, Pass = Q> + Sync + Drop,
    R: Threads + Wait + Sync,
>(rt: &R, alloc: Global, lock: C, shared: &G, passes: Vec<Q>, brought: B) -> Result<F, OutOfMemory>
where
    C::Queue: Send,
    C::Held: Send,
    C::Leave: Send,
    requires { IsSet Q.rest (C.has lock) (C.sound lock) (C.level lock) (C.count lock) (C.tag lock) (W.dealt shared.now) brought
        passes.items }
    ensures { IfOk result (W.left shared.now (C.tag lock)) }
{
    let crew = run_threads::<P, Q, K, J, B, F, G, W, C, R>(
        rt, alloc, &lock, shared, passes, brought,
    );
    W::close::<C, R>(rt, lock, shared, crew)
}
