//! The parts of all callers in a run on threads.
ghost use Rattle.std.specs.Prelude.{◌≡◌, ◌≤◌, ℕ, [], length, map, slice_get, Some, IfSome, vec_capacity};
ghost use Rattle.clof_compose.specs.Courses.{course_of};
ghost use Rattle.clof_compose.specs.Passes.{IsNumber};
ghost use Rattle.clof_compose.specs.Shares.{IsShareIn};
ghost use Rattle.own_payload.specs.Jobs.{AreEmpty, IsJob};
ghost use Rattle.own_payload.specs.Ready.{IsReady};

use clof_compose::{Composed, Payload, Resting};
use keep_local::Share;
use std::alloc::Global;

/// What a caller has of a lock: its pass and its share.
#[derive(Drop)]
pub struct Job<Q> {
    pub pass: Q,
    pub share: Share,
}

/// The passes and the shares of all callers, each in the order of the callers.
#[derive(Drop)]
pub struct Lists<Q> {
    pub passes: Vec<Q>,
    pub shares: Vec<Share>,
}

/// A job for each caller of a lock, in order, and the emptied lists, for `gather`. The answer is `None` for want of memory.
pub fn deal<P: Payload, C: Composed<P>>(
    alloc: Global,
    lock: &C,
    lists: Lists<C::Pass>,
) -> Option<(Vec<Job<C::Pass>>, Lists<C::Pass>)>
    requires ready { IsReady C.Pass.rest (C.has lock.now) (C.sound lock.now) (C.level lock.now) (C.count lock.now) (C.tag lock.now)
        lists.passes.items lists.shares.items }
    ensures each { IfSome result (λ m. (k : ℕ) (j : _) → slice_get m.0.items k ≡ Some j → IsJob C.Pass.rest (C.has lock.now)
        (C.level lock.now) (C.tag lock.now) k j) }
    ensures many { IfSome result (λ m. length m.0.items ≡ C.count lock.now) }
    ensures emptied { IfSome result (λ m. AreEmpty (C.count lock.now) m.1) }
{
    let Lists { passes, shares } = lists;
    let Ok(jobs) = Vec::with_capacity(alloc, passes.len()) else {
        return None;
    };
    Some(pair(lock, passes, shares, jobs))
}

// A job for each pass and each share, and the emptied lists.
fn pair<P: Payload, C: Composed<P>>(
    _lock: &C,
    mut passes: Vec<C::Pass>,
    mut shares: Vec<Share>,
    mut jobs: Vec<Job<C::Pass>>,
) -> (Vec<Job<C::Pass>>, Lists<C::Pass>)
    requires passes { (k : ℕ) (p : C.Pass) → slice_get passes.items k ≡ Some p
        → IsNumber (C.has _lock.now) (C.level _lock.now) (C.tag _lock.now) k (C.Pass.rest p).context }
    requires shares { (k : ℕ) (s : _) → slice_get shares.items k ≡ Some s → IsShareIn (course_of (C.tag _lock.now)) k s }
    requires many { length shares.items ≡ length passes.items }
    requires empty { jobs.items ≡ [] }
    requires room { length passes.items ≤ vec_capacity jobs }
    ensures each { (k : ℕ) (j : _) → slice_get result.0.items k ≡ Some j → IsJob C.Pass.rest (C.has _lock.now) (C.level _lock.now)
        (C.tag _lock.now) k j }
    ensures many { length result.0.items ≡ length passes.items }
    ensures emptied { AreEmpty (length passes.items) result.1 }
{
    while let Some(pass) = passes.pop() {
        let Some(share) = shares.pop() else {
            unreachable!()
        };
        jobs.push_reserved(Job { pass, share });
    }
    jobs.reverse();
    (jobs, Lists { passes, shares })
}

/// The passes and the shares of jobs, each in their order, in the emptied lists that `deal` gave.
pub fn gather<Q: Drop>(mut jobs: Vec<Job<Q>>, lists: Lists<Q>) -> Lists<Q>
    requires emptied { AreEmpty (length jobs.items) lists }
    ensures passes { result.passes.items ≡ map (λ j. j.pass) jobs.items }
    ensures shares { result.shares.items ≡ map (λ j. j.share) jobs.items }
{
    let Lists {
        mut passes,
        mut shares,
    } = lists;
    while let Some(job) = jobs.pop() {
        let Job { pass, share } = job;
        passes.push_reserved(pass);
        shares.push_reserved(share);
    }
    passes.reverse();
    shares.reverse();
    Lists { passes, shares }
}
