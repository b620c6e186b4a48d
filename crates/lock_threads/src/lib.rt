//! Jobs that are done by threads of their own, each of which comes back.
//!
//! A worker says what it asks of a job and what may come of it (`Works`), and `by_all` hands each job to a thread. No job is lost: one that
//! no thread could be had for is done by the calling thread.
#![tactic(auto)]

ghost use Rattle.std.specs.Prelude.{◌≡◌, ◌≤◌, ℕ, length, slice_get, vec_capacity, Some};
ghost use Rattle.std.specs.Thread.{IsSync};

use std::thread::{Threads, join};

/// What a thread does with its job, such as a pass. The checker doesn't yet send a closure to a thread whose body rests on a trait like
/// `Basic`, where an associated type has a bound with a type argument, so the closures rest on this trait.
pub trait Works<J> {
    // This job may be done.
    ghost allows: { Self → J → Type 0 };

    // This is what may come of this job.
    ghost gives: { Self → J → J → Type 0 };

    fn work(&self, job: J) -> J
        requires { allows self.now job }
        ensures { gives self.now job result };
}

/// Each job is done by a thread of its own, the first by the calling one, which also does those that no thread can be had for. The answer
/// has what came of each, in order, in the list that the jobs came in; no memory is taken.
pub fn by_all<J: Send + Drop, W: Works<J> + Sync, R: Threads + Sync>(
    rt: &R,
    worker: &W,
    jobs: Vec<J>,
) -> Vec<J>
    requires allowed { (i : ℕ) (job : J) → slice_get jobs.items i ≡ Some job → W.allows worker.now job }
    ensures many { length result.items ≡ length jobs.items }
    ensures each { (i : ℕ) (job left : J) → slice_get jobs.items i ≡ Some job → slice_get result.items i ≡ Some left
        → W.gives worker.now job left }
    ensures room { vec_capacity jobs ≤ vec_capacity result }
{
    let mut jobs = jobs;
    let Some(job) = jobs.pop() else {
        return jobs;
    };
    if jobs.is_empty() {
        jobs.push_reserved(worker.work(job));
        return jobs;
    }
    let (last, mut ended) = join(
        rt,
        move || -> J
            requires { W.allows worker.now job }
            ensures { W.gives worker.entry.now job result }
        { worker.work(job) },
        move || -> Vec<J>
            requires threads { IsSync R.row }
            requires allowed { (i : ℕ) (one : J) → slice_get jobs.items i ≡ Some one → W.allows worker.now one }
            ensures many { length result.items ≡ length jobs.items }
            ensures each { (i : ℕ) (one left : J) → slice_get jobs.items i ≡ Some one → slice_get result.items i ≡ Some left
                → W.gives worker.entry.now one left }
            ensures room { vec_capacity jobs ≤ vec_capacity result }
        { by_all(rt, worker, jobs) },
    );
    ended.push_reserved(last);
    ended
}
