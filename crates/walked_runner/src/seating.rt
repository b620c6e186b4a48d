//! The callers of a walk, made of their jobs, and the jobs that come of them.
ghost use Rattle.std.specs.Prelude.{◌≡◌, ◌≤◌, ℕ, [], length, slice_get, Some, vec_capacity};
ghost use Rattle.mc_text.specs.Commands.{commands_left};
ghost use Rattle.threaded_runner.specs.Jobs.{IsJob, IsServed};
ghost use Rattle.walked_runner.specs.Walkers.{IsDone, IsWalker};

use crate::walker::{State, Task, Walker, WalkerIn};
use clof_compose::{Composed, Resting};
use threaded_runner::{Book, Job};

/// A caller for each job, all idle, and the emptied list of the jobs.
pub(crate) fn seat<'a, C: Composed<Book<'a>>>(
    _lock: &C,
    mut jobs: Vec<Job<'a, C::Pass>>,
    mut walkers: Vec<WalkerIn<'a, C>>,
) -> (Vec<WalkerIn<'a, C>>, Vec<Job<'a, C::Pass>>)
    requires jobs { (k : ℕ) (j : _) → slice_get jobs.items k ≡ Some j → IsJob C.Pass.rest (C.has _lock.now) (C.level _lock.now)
        (C.tag _lock.now) k j }
    requires empty { walkers.items ≡ [] }
    requires room { length jobs.items ≤ vec_capacity walkers }
    ensures each { (k : ℕ) (w : _) → slice_get result.0.items k ≡ Some w → IsWalker C.Pass.rest C.Queue.climb C.Queue.climbs C.Held.stand
        C.Held.stands C.Leave.descent C.Leave.descends (C.has _lock.now) (C.level _lock.now) (C.tag _lock.now) k w }
    ensures many { length result.0.items ≡ length jobs.entry.items }
    ensures emptied { result.1.items ≡ [] }
    ensures room { vec_capacity result.1 ≡ vec_capacity jobs.entry }
{
    while let Some(job) = jobs.pop() {
        walkers.push_reserved(walker_of::<C>(job));
    }
    walkers.reverse();
    (walkers, jobs)
}

// The caller of a job, idle.
fn walker_of<'a, C: Composed<Book<'a>>>(job: Job<'a, C::Pass>) -> WalkerIn<'a, C>
    ensures state { result.state ≡ State.Idle job.entry.pass }
    ensures share { result.task.share ≡ job.entry.share }
    ensures commands { commands_left result.task.commands ≡ commands_left job.entry.commands }
{
    let Job {
        pass,
        share,
        commands,
        stopped,
    } = job;
    Walker {
        state: State::Idle(pass),
        task: Task {
            share,
            commands,
            stopped,
        },
    }
}

/// The jobs of callers that are done, in a list that has room for them.
pub(crate) fn rise<'a, C: Composed<Book<'a>>>(
    _lock: &C,
    mut walkers: Vec<WalkerIn<'a, C>>,
    mut jobs: Vec<Job<'a, C::Pass>>,
) -> Vec<Job<'a, C::Pass>>
    requires each { (k : ℕ) (w : _) → slice_get walkers.items k ≡ Some w → IsWalker C.Pass.rest C.Queue.climb C.Queue.climbs C.Held.stand
        C.Held.stands C.Leave.descent C.Leave.descends (C.has _lock.now) (C.level _lock.now) (C.tag _lock.now) k w }
    requires done { (k : ℕ) (w : _) → slice_get walkers.items k ≡ Some w → IsDone w }
    requires empty { jobs.items ≡ [] }
    requires room { length walkers.items ≤ vec_capacity jobs }
    ensures each { (k : ℕ) (j : _) → slice_get result.items k ≡ Some j → IsServed C.Pass.rest (C.has _lock.now) (C.level _lock.now)
        (C.tag _lock.now) k j }
    ensures many { length result.items ≡ length walkers.entry.items }
{
    while let Some(walker) = walkers.pop() {
        let Walker { state, task } = walker;
        let State::Idle(pass) = state else {
            unreachable!()
        };
        jobs.push_reserved(Job {
            pass,
            share: task.share,
            commands: task.commands,
            stopped: task.stopped,
        });
    }
    jobs.reverse();
    jobs
}
