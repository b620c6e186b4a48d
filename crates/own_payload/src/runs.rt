//! A run of all callers, each in a thread of its own.
ghost use Rattle.std.specs.Prelude.{◌≡◌, ℕ, length, slice_get, All, IfSome, Some};
ghost use Rattle.lock_rules.specs.Tag.{leaf};
ghost use Rattle.keep_local.specs.States.{IsShareOf};
ghost use Rattle.clof_compose.specs.Courses.{course_of};
ghost use Rattle.clof_compose.specs.Roots.{IsFit, root_tag, payload_of, trail_of};
ghost use Rattle.own_payload.specs.Jobs.{AreEmpty, EachEnded, HasServed, IsEnded, MayWork};
ghost use Rattle.own_payload.specs.Ready.{IsReady};

use crate::holding::serve_caller;
use crate::jobs::{Job, Lists, deal, gather};
use crate::noted::Noted;
use crate::serves::Serves;
use clof_compose::{Composed, Root, Waits};
use keep_local::{Share, Trail};
use lock_threads::{Works, by_all};
use std::alloc::Global;
use std::marker::PhantomData;
use std::sync::Wait;
use std::thread::Threads;

// What each thread needs: they share the lock and the server by plain borrows.
#[derive(Drop)]
struct Shift<'b, T, C, S, R> {
    rt: &'b R,
    lock: &'b C,
    server: &'b S,
    value: PhantomData<T>,
}

impl<'b, T: Drop, C: Waits<Noted<T>>, S: Serves<T>, R: Wait> Works<Job<C::Pass>>
    for Shift<'b, T, C, S, R> {
    // the job is that of a caller of this lock, and the server may be asked for it
    ghost allows = { λ s j. MayWork C.Pass.rest (C.has s.lock.now) (C.sound s.lock.now) (C.level s.lock.now) (C.tag s.lock.now) j
        × S.may s.server.now j.share.caller };

    // and all its turns are made, unless it may stop
    ghost gives = { λ s j k. HasServed C.Pass.rest (S.stops s.server.now) j k };

    fn work(&self, job: Job<C::Pass>) -> Job<C::Pass> {
        serve_caller(self.rt, self.lock, job, self.server)
    }
}

/// Has each caller take its tasks and hold the lock for each, in a thread of its own, until it stops or its share allows no further turn.
/// The lock is then taken apart, and gives its root. The answer is `None` for want of memory.
pub fn serve<
    T: Send + Sync + Drop,
    C: Waits<Noted<T>> + Sync + Drop,
    S: Serves<T> + Sync,
    R: Threads + Wait + Sync,
>(rt: &R, alloc: Global, lock: C, lists: Lists<C::Pass>, server: &S) -> Option<Root<Noted<T>>>
where
    C::Pass: Send,
    C::Queue: Send,
    C::Held: Send,
    C::Leave: Send,
    S::Task: Send,
    S::Answer: Send,
    requires ready { IsReady C.Pass.rest (C.has lock) (C.sound lock) (C.level lock) (C.count lock) (C.tag lock) lists.passes.items
        lists.shares.items }
    requires asked { (caller : ℕ) → S.may server.now caller }
    ensures fit { IfSome result (IsFit (λ n. n.calls.callers)) }
    ensures tagged { IfSome result (λ r. root_tag (λ _. leaf 0) r ≡ C.tag lock) }
    ensures ended { IfSome result (λ r. EachEnded (S.stops server.now) (trail_of r)) }
{
    let Some((jobs, lists)) = deal(alloc, &lock, lists) else {
        return None;
    };
    let shift = Shift::<T, C, S, R> {
        rt,
        lock: &lock,
        server,
        value: PhantomData,
    };
    let jobs = by_all(rt, &shift, jobs);
    Some(close_ended(lock, jobs, lists, server))
}

/// Takes a lock apart whose callers have all ended, and gives its root: its trail and the shares show each other how many turns each
/// caller has made. The lists are the emptied ones that `deal` gave.
pub fn close_ended<T: Drop, C: Composed<Noted<T>> + Drop, S: Serves<T>>(
    lock: C,
    jobs: Vec<Job<C::Pass>>,
    lists: Lists<C::Pass>,
    _server: &S,
) -> Root<Noted<T>>
    requires sound { C.sound lock }
    requires quotas { C.count lock ≡ length (course_of (C.tag lock)).quotas }
    requires many { length jobs.items ≡ C.count lock }
    requires each { (k : ℕ) (j : _) → slice_get jobs.items k ≡ Some j → IsEnded C.Pass.rest (S.stops _server.now) (C.has lock)
        (C.level lock) (C.tag lock) k j }
    requires emptied { AreEmpty (C.count lock) lists }
    ensures fit { IsFit (λ n. n.calls.callers) result }
    ensures tagged { root_tag (λ _. leaf 0) result ≡ C.tag lock }
    ensures ended { EachEnded (S.stops _server.now) (trail_of result) }
{
    let Lists { passes, shares } = gather(jobs, lists);
    let root = lock.close(passes);
    agreed(root, shares)
}

// The same root: its trail and the shares show each other how many turns each caller has made.
fn agreed<T: Drop>(root: Root<Noted<T>>, shares: Vec<Share>) -> Root<Noted<T>>
    requires own { (k : ℕ) (s : _) → slice_get shares.items k ≡ Some s → s.name ≡ (trail_of root).name }
    ensures trail { trail_of result ≡ trail_of root }
    ensures payload { payload_of result ≡ payload_of root }
    ensures counted { All (IsShareOf (trail_of root)) shares.items }
{
    let (mut trail, payload) = root.into_parts();
    agree(&mut trail, shares);
    Root::new(trail, payload)
}

fn agree(trail: &mut Trail, mut shares: Vec<Share>)
    requires own { (k : ℕ) (s : _) → slice_get shares.items k ≡ Some s → s.name ≡ trail.old.name }
    ensures trail { trail.new ≡ trail.old }
    ensures counted { All (IsShareOf trail.old) shares.items }
{
    while let Some(mut share) = shares.pop() {
        trail.agree(&mut share);
    }
}
