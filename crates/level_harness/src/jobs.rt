//! The jobs of all callers of a lock, for a run in which each has a thread of its own.
ghost use Rattle.std.specs.Prelude.{◌≡◌, ◌≤◌, ℕ, [], length, slice_get, Some, IfSome, vec_capacity};
ghost use Rattle.keep_local.specs.Shapes.{callers_of};
ghost use Rattle.keep_local.specs.States.{new_shares};
ghost use Rattle.clof_compose.specs.Courses.{course_of};
ghost use Rattle.clof_compose.specs.Passes.{AreAll, IsNumber};
ghost use Rattle.clof_compose.specs.Roots.{IsFit, root_tag};
ghost use Rattle.level_harness.specs.Jobs.{IsEnded, IsJob};
ghost use Rattle.level_harness.specs.Rooms.{roll_tag};
ghost use Rattle.clof_compose.specs.Shares.{IsShareIn};

use crate::holds::Job;
use crate::roll::Roll;
use clof_compose::{Composed, Resting, Root};
use keep_local::Share;
use std::alloc::Global;

/// A job for each pass and each share of a lock of the lowest level, in order, and the emptied list of the passes. The answer is `None` for
/// want of memory.
pub fn deal<C: Composed<Roll>>(
    alloc: Global,
    lock: &C,
    passes: Vec<C::Pass>,
    shares: Vec<Share>,
) -> Option<(Vec<Job<C::Pass>>, Vec<C::Pass>)>
    requires count { C.count lock.now ≡ callers_of (course_of (C.tag lock.now)).shape }
    requires all { AreAll (λ p. (C.Pass.rest p).context) (C.has lock.now) (C.level lock.now) (C.tag lock.now) (C.count lock.now)
        passes.items }
    requires quotas { length (course_of (C.tag lock.now)).quotas ≡ callers_of (course_of (C.tag lock.now)).shape }
    requires shares { shares.items ≡ new_shares (course_of (C.tag lock.now)).name (course_of (C.tag lock.now)).quotas }
    ensures each { IfSome result (λ m. (k : ℕ) (j : _) → slice_get m.0.items k ≡ Some j → IsJob C.Pass.rest (C.has lock.now)
        (C.level lock.now) (C.tag lock.now) k j) }
    ensures many { IfSome result (λ m. length m.0.items ≡ C.count lock.now) }
    ensures emptied { IfSome result (λ m. m.1.items ≡ []) }
    ensures room { IfSome result (λ m. C.count lock.now ≤ vec_capacity m.1) }
{
    let Ok(jobs) = Vec::with_capacity(alloc, passes.len()) else {
        return None;
    };
    Some(pair(lock, passes, shares, jobs))
}

/// Takes a lock apart once all its callers have made all their turns. `ended` are their jobs and an empty list with room for all passes,
/// or `None` where the run wanted memory, and so is the answer. Else it is the root.
pub fn close_ended<C: Composed<Roll> + Drop>(
    lock: C,
    ended: Option<(Vec<Job<C::Pass>>, Vec<C::Pass>)>,
) -> Option<Root<Roll>>
    requires sound { C.sound lock }
    requires many { IfSome ended (λ e. length e.0.items ≡ C.count lock) }
    requires each { IfSome ended (λ e. (k : ℕ) (j : _) → slice_get e.0.items k ≡ Some j → IsEnded C.Pass.rest (C.has lock) (C.level lock)
        (C.tag lock) k j) }
    requires empty { IfSome ended (λ e. e.1.items ≡ []) }
    requires room { IfSome ended (λ e. C.count lock ≤ vec_capacity e.1) }
    ensures fit { IfSome result (IsFit (λ r. r.callers.items)) }
    ensures tagged { IfSome result (λ r. root_tag roll_tag r ≡ C.tag lock) }
{
    let Some((jobs, passes)) = ended else {
        return None;
    };
    let passes = ended_passes(&lock, jobs, passes);
    Some(lock.close(passes))
}

// A job for each pass and each share, and the emptied list of the passes.
fn pair<C: Composed<Roll>>(
    _lock: &C,
    mut passes: Vec<C::Pass>,
    mut shares: Vec<Share>,
    mut jobs: Vec<Job<C::Pass>>,
) -> (Vec<Job<C::Pass>>, Vec<C::Pass>)
    requires passes { (k : ℕ) (p : C.Pass) → slice_get passes.items k ≡ Some p
        → IsNumber (C.has _lock.now) (C.level _lock.now) (C.tag _lock.now) k (C.Pass.rest p).context }
    requires shares { (k : ℕ) (s : _) → slice_get shares.items k ≡ Some s → IsShareIn (course_of (C.tag _lock.now)) k s }
    requires many { length shares.items ≡ length passes.items }
    requires empty { jobs.items ≡ [] }
    requires room { length passes.items ≤ vec_capacity jobs }
    ensures each { (k : ℕ) (j : _) → slice_get result.0.items k ≡ Some j → IsJob C.Pass.rest (C.has _lock.now) (C.level _lock.now)
        (C.tag _lock.now) k j }
    ensures many { length result.0.items ≡ length passes.items }
    ensures emptied { result.1.items ≡ [] }
    ensures room { vec_capacity result.1 ≡ vec_capacity passes }
{
    while let Some(pass) = passes.pop() {
        let Some(share) = shares.pop() else {
            unreachable!()
        };
        jobs.push_reserved(Job { pass, share });
    }
    jobs.reverse();
    (jobs, passes)
}

// The passes of ended jobs, in a list that has room for them.
fn ended_passes<C: Composed<Roll>>(
    _lock: &C,
    mut jobs: Vec<Job<C::Pass>>,
    mut passes: Vec<C::Pass>,
) -> Vec<C::Pass>
    requires each { (k : ℕ) (j : _) → slice_get jobs.items k ≡ Some j → IsEnded C.Pass.rest (C.has _lock.now) (C.level _lock.now)
        (C.tag _lock.now) k j }
    requires empty { passes.items ≡ [] }
    requires room { length jobs.items ≤ vec_capacity passes }
    ensures { AreAll (λ p. (C.Pass.rest p).context) (C.has _lock.now) (C.level _lock.now) (C.tag _lock.now) (length jobs.items)
        result.items }
{
    while let Some(job) = jobs.pop() {
        let Job { pass, .. } = job;
        passes.push_reserved(pass);
    }
    passes.reverse();
    passes
}
