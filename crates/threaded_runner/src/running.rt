//! What a run takes apart and puts together again, over any lock.
ghost use Rattle.std.specs.Prelude.{◌≡◌, ◌≤◌, ℕ, [], length, map, slice_get, vec_capacity, IfErr, IfOk, IfSome, Some};
ghost use Rattle.std.specs.List.{list_any};
ghost use Rattle.lock_rules.specs.Trees.{lists_in};
ghost use Rattle.clof_compose.specs.Courses.{course_of};
ghost use Rattle.clof_compose.specs.Passes.{AreAll, IsNumber};
ghost use Rattle.clof_compose.specs.Shares.{IsShareIn};
ghost use Rattle.mc_text.specs.Reading.{commands_of};
ghost use Rattle.threaded_runner.specs.Crews.{HasRoom, IsCrew};
ghost use Rattle.threaded_runner.specs.Jobs.{IsJob, IsServed};
ghost use Rattle.threaded_runner.specs.Ready.{IsDealt};

use crate::book::Book;
use crate::crew::Crew;
use crate::dealing::{deal, stops, take_apart};
use crate::job::Job;
use clof_compose::{Composed, Resting};
use keep_local::Share;
use run_texts::Section;
use std::alloc::Global;

/// What a run has before its callers work: their jobs, and empty lists with room for what comes back.
#[derive(Drop)]
pub struct Prepared<'a, Q> {
    pub jobs: Vec<Job<'a, Q>>,
    pub passes: Vec<Q>,
    pub shares: Vec<Share>,
    pub stopped: Vec<bool>,
}

/// Makes the jobs of all callers. Without memory it gives back what a run gives back that didn't start.
pub fn prepare<'a, C: Composed<Book<'a>>>(
    alloc: Global,
    lock: &C,
    passes: Vec<C::Pass>,
    shares: Vec<Share>,
    sections: &[Section<'a>],
) -> Result<Prepared<'a, C::Pass>, Crew<C::Pass>>
    requires passes { AreAll (λ p. (C.Pass.rest p).context) (C.has lock.now) (C.level lock.now) (C.tag lock.now) (C.count lock.now)
        passes.items }
    requires count { C.count lock.now ≡ length sections.now }
    requires dealt { IsDealt (course_of (C.tag lock.now)) (map (λ section. section.bytes.now) sections.now) shares.items }
    ensures each { IfOk result (λ made. (k : ℕ) (j : _) → slice_get made.jobs.items k ≡ Some j → IsJob C.Pass.rest (C.has lock.now)
        (C.level lock.now) (C.tag lock.now) k j) }
    ensures many { IfOk result (λ made. length made.jobs.items ≡ C.count lock.now) }
    ensures lists { IfOk result (λ made. HasRoom (C.count lock.now) made.passes made.shares made.stopped) }
    ensures refused { IfErr result (λ crew. IsCrew C.Pass.rest (C.has lock.now) (C.level lock.now) (C.count lock.now) (C.tag lock.now)
        crew) }
{
    let Some((jobs, stopped)) = rooms(alloc, passes.len()) else {
        return Err(not_started(alloc, lock, passes, shares, sections));
    };
    may_deal(lock, &passes, &shares, sections);
    let (jobs, passes, shares) = deal(lock, passes, shares, sections, jobs);
    Ok(Prepared {
        jobs,
        passes,
        shares,
        stopped,
    })
}

// What the lists of a run tell of each of its callers.
fn may_deal<'a, C: Composed<Book<'a>>>(
    _lock: &C,
    _passes: &Vec<C::Pass>,
    _shares: &Vec<Share>,
    _sections: &[Section<'a>],
)
    requires passes { AreAll (λ p. (C.Pass.rest p).context) (C.has _lock.now) (C.level _lock.now) (C.tag _lock.now) (C.count _lock.now)
        _passes.now.items }
    requires count { C.count _lock.now ≡ length _sections.now }
    requires dealt { IsDealt (course_of (C.tag _lock.now)) (map (λ section. section.bytes.now) _sections.now) _shares.now.items }
    ensures passes { (k : ℕ) (p : C.Pass) → slice_get _passes.now.items k ≡ Some p
        → IsNumber (C.has _lock.now) (C.level _lock.now) (C.tag _lock.now) k (C.Pass.rest p).context }
    ensures shares { (k : ℕ) (s : _) → slice_get _shares.now.items k ≡ Some s
        → IsShareIn (course_of (C.tag _lock.now)) k s × (s.made ≡ 0) }
    ensures many { length _shares.now.items ≡ length _passes.now.items }
    ensures all { length _sections.now ≡ length _passes.now.items }
    ensures sections { lists_in (course_of (C.tag _lock.now)).payload ≡ map (λ section. section.bytes.now) _sections.now }
    ensures quotas { (course_of (C.tag _lock.now)).quotas
        ≡ map (λ section. length (commands_of section.bytes.now)) _sections.now }
{}

// Empty lists with room for so many jobs, and for what is told of each; none for want of memory.
fn rooms<'a, Q: Drop>(alloc: Global, count: usize) -> Option<(Vec<Job<'a, Q>>, Vec<bool>)>
    ensures jobs { IfSome result (λ made. made.0.items ≡ []) }
    ensures jobs_room { IfSome result (λ made. count ≤ vec_capacity made.0) }
    ensures stopped { IfSome result (λ made. made.1.items ≡ []) }
    ensures stopped_room { IfSome result (λ made. count ≤ vec_capacity made.1) }
{
    let jobs = Vec::with_capacity(alloc, count).ok()?;
    let stopped = Vec::with_capacity(alloc, count).ok()?;
    Some((jobs, stopped))
}

/// What comes back of a run that doesn't start, for want of memory. It is called for a lock as `prepare` is.
pub fn not_started<'a, C: Composed<Book<'a>>>(
    alloc: Global,
    _lock: &C,
    passes: Vec<C::Pass>,
    shares: Vec<Share>,
    _sections: &[Section<'a>],
) -> Crew<C::Pass>
    requires passes { AreAll (λ p. (C.Pass.rest p).context) (C.has _lock.now) (C.level _lock.now) (C.tag _lock.now) (C.count _lock.now)
        passes.items }
    requires count { C.count _lock.now ≡ length _sections.now }
    requires dealt { IsDealt (course_of (C.tag _lock.now)) (map (λ section. section.bytes.now) _sections.now) shares.items }
    ensures { IsCrew C.Pass.rest (C.has _lock.now) (C.level _lock.now) (C.count _lock.now) (C.tag _lock.now) result }
{
    Crew {
        passes,
        shares,
        refused: true,
        started: false,
        stopped: Vec::new(alloc),
    }
}

/// What comes back of a run whose jobs are these. The lists are empty and have room for what the jobs have.
pub fn crew_of<'a, C: Composed<Book<'a>>>(
    _lock: &C,
    jobs: Vec<Job<'a, C::Pass>>,
    passes: Vec<C::Pass>,
    shares: Vec<Share>,
    stopped: Vec<bool>,
) -> Crew<C::Pass>
    requires each { (k : ℕ) (j : _) → slice_get jobs.items k ≡ Some j → IsServed C.Pass.rest (C.has _lock.now) (C.level _lock.now)
        (C.tag _lock.now) k j }
    requires many { length jobs.items ≡ C.count _lock.now }
    requires lists { HasRoom (C.count _lock.now) passes shares stopped }
    ensures { IsCrew C.Pass.rest (C.has _lock.now) (C.level _lock.now) (C.count _lock.now) (C.tag _lock.now) result }
{
    let stopped = stops(&jobs, stopped);
    let (passes, shares) = take_apart(jobs, passes, shares);
    let refused = any_stopped(&stopped);
    Crew {
        passes,
        shares,
        refused,
        started: true,
        stopped,
    }
}

// Whether some caller stopped.
fn any_stopped(stopped: &[bool]) -> bool
    ensures { result ≡ list_any (λ stops. stops) stopped.now }
{
    stopped.iter().any(|stops| *stops)
}
