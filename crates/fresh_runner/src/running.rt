//! What a run takes apart and puts together again, over any lock.
ghost use Rattle.std.specs.Prelude.{◌≡◌, ◌≤◌, ℕ, [], length, map, slice_get, vec_capacity, IfErr, IfOk, IfSome, Some};
ghost use Rattle.std.specs.List.{list_any};
ghost use Rattle.lock_rules.specs.Trees.{lists_in};
ghost use Rattle.clof_compose.specs.Courses.{course_of};
ghost use Rattle.clof_compose.specs.Passes.{AreAll};
ghost use Rattle.mc_text.specs.Reading.{commands_of};
ghost use Rattle.fresh_runner.specs.Books.{book_in};
ghost use Rattle.fresh_runner.specs.Crews.{AreEmptied, AreLists, IsFreshCrew};
ghost use Rattle.fresh_runner.specs.Jobs.{IsBlank, IsFreshJob, IsFreshServed};
ghost use Rattle.fresh_runner.specs.Ready.{IsFreshDealt};

use crate::account::Marks;
use crate::book::FreshBook;
use crate::crew::FreshCrew;
use crate::dealing::{deal, marks_for, stops, take_apart};
use crate::job::FreshJob;
use crate::lists::Lists;
use clof_compose::{Composed, Resting};
use fresh_root::Seen;
use keep_local::Share;
use run_texts::Section;
use std::alloc::Global;

/// What a run has before its callers work: their jobs, and empty lists with room for what comes back.
#[derive(Drop)]
pub struct FreshPrepared<'a, Q> {
    pub jobs: Vec<FreshJob<'a, Q>>,
    pub lists: Lists<Q>,
    pub stopped: Vec<bool>,
}

/// Makes the jobs of all callers, with room for the marks of all their turns. Without memory it gives back what a run gives back that
/// didn't start.
pub fn prepare_fresh<'a, C: Composed<FreshBook<'a>>>(
    alloc: Global,
    lock: &C,
    passes: Vec<C::Pass>,
    shares: Vec<Share>,
    seens: Vec<Seen>,
    sections: &[Section<'a>],
) -> Result<FreshPrepared<'a, C::Pass>, FreshCrew<C::Pass>>
    requires passes { AreAll (λ p. (C.Pass.rest p).context) (C.has lock.now) (C.level lock.now) (C.tag lock.now) (C.count lock.now)
        passes.items }
    requires count { C.count lock.now ≡ length sections.now }
    requires dealt { IsFreshDealt (course_of (C.tag lock.now)) (map (λ section. section.bytes.now) sections.now) shares.items seens.items }
    ensures each { IfOk result (λ made. (k : ℕ) (j : _) → slice_get made.jobs.items k ≡ Some j → IsFreshJob C.Pass.rest (C.has lock.now)
        (C.level lock.now) (C.tag lock.now) k j) }
    ensures many { IfOk result (λ made. length made.jobs.items ≡ C.count lock.now) }
    ensures lists { IfOk result (λ made. AreEmptied (C.count lock.now) made.lists) }
    ensures no_stopped { IfOk result (λ made. made.stopped.items ≡ []) }
    ensures stopped_room { IfOk result (λ made. C.count lock.now ≤ vec_capacity made.stopped) }
    ensures refused { IfErr result (λ crew. IsFreshCrew C.Pass.rest (C.has lock.now) (C.level lock.now) (C.count lock.now) (C.tag lock.now)
        crew) }
{
    let Some((jobs, marks, stopped)) = rooms_for(alloc, lock, &passes, &shares, &seens, sections)
    else {
        return Err(not_started(alloc, lock, passes, shares, seens, sections));
    };
    let lists = Lists {
        passes,
        shares,
        seens,
        marks,
    };
    let (jobs, lists) = deal(lock, lists, sections, jobs);
    Ok(FreshPrepared {
        jobs,
        lists,
        stopped,
    })
}

// Empty lists with room for the jobs of callers who bring these lists, and empty marks, with which the lists are what jobs are made of.
fn rooms_for<'a, C: Composed<FreshBook<'a>>>(
    alloc: Global,
    _lock: &C,
    _passes: &Vec<C::Pass>,
    shares: &Vec<Share>,
    _seens: &Vec<Seen>,
    _sections: &[Section<'a>],
) -> Option<(Vec<FreshJob<'a, C::Pass>>, Vec<Marks>, Vec<bool>)>
    requires passes { AreAll (λ p. (C.Pass.rest p).context) (C.has _lock.now) (C.level _lock.now) (C.tag _lock.now) (C.count _lock.now)
        _passes.now.items }
    requires count { C.count _lock.now ≡ length _sections.now }
    requires dealt { IsFreshDealt (course_of (C.tag _lock.now)) (map (λ section. section.bytes.now) _sections.now) shares.now.items
        _seens.now.items }
    ensures lists { IfSome result (λ made. AreLists C.Pass.rest (C.has _lock.now) (C.level _lock.now) (C.tag _lock.now)
        (length _sections.now) (record { passes = _passes.now; shares = shares.now; seens = _seens.now; marks = made.1 })) }
    ensures sections { lists_in (book_in (course_of (C.tag _lock.now)).payload) ≡ map (λ section. section.bytes.now) _sections.now }
    ensures quotas { (course_of (C.tag _lock.now)).quotas ≡ map (λ section. length (commands_of section.bytes.now)) _sections.now }
    ensures empty { IfSome result (λ made. made.0.items ≡ []) }
    ensures room { IfSome result (λ made. length _sections.now ≤ vec_capacity made.0) }
    ensures stopped { IfSome result (λ made. made.2.items ≡ []) }
    ensures stopped_room { IfSome result (λ made. C.count _lock.now ≤ vec_capacity made.2) }
{
    rooms(alloc, shares)
}

// Empty lists with room for a job for each share and for what is told of each, and for each its empty marks; none for want of memory.
fn rooms<'a, Q: Drop>(
    alloc: Global,
    shares: &[Share],
) -> Option<(Vec<FreshJob<'a, Q>>, Vec<Marks>, Vec<bool>)>
    ensures jobs { IfSome result (λ made. made.0.items ≡ []) }
    ensures jobs_room { IfSome result (λ made. length shares.now ≤ vec_capacity made.0) }
    ensures many { IfSome result (λ made. length made.1.items ≡ length shares.now) }
    ensures marks { IfSome result (λ made. (k : ℕ) (s : _) (m : _) → slice_get shares.now k ≡ Some s → slice_get made.1.items k ≡ Some m
        → IsBlank s.quota m) }
    ensures stopped { IfSome result (λ made. made.2.items ≡ []) }
    ensures stopped_room { IfSome result (λ made. length shares.now ≤ vec_capacity made.2) }
{
    let jobs = Vec::with_capacity(alloc, shares.len()).ok()?;
    let marks = marks_for(alloc, shares).ok()?;
    let stopped = Vec::with_capacity(alloc, shares.len()).ok()?;
    Some((jobs, marks, stopped))
}

// What comes back of a run that doesn't start, for want of memory.
fn not_started<'a, C: Composed<FreshBook<'a>>>(
    alloc: Global,
    _lock: &C,
    passes: Vec<C::Pass>,
    shares: Vec<Share>,
    seens: Vec<Seen>,
    _sections: &[Section<'a>],
) -> FreshCrew<C::Pass>
    requires passes { AreAll (λ p. (C.Pass.rest p).context) (C.has _lock.now) (C.level _lock.now) (C.tag _lock.now) (C.count _lock.now)
        passes.items }
    requires count { C.count _lock.now ≡ length _sections.now }
    requires dealt { IsFreshDealt (course_of (C.tag _lock.now)) (map (λ section. section.bytes.now) _sections.now) shares.items
        seens.items }
    ensures { IsFreshCrew C.Pass.rest (C.has _lock.now) (C.level _lock.now) (C.count _lock.now) (C.tag _lock.now) result }
{
    FreshCrew {
        passes,
        shares,
        seens,
        marks: Vec::new(alloc),
        refused: true,
        started: false,
        stopped: Vec::new(alloc),
    }
}

/// What comes back of a run whose jobs are these. The lists are empty and have room for what the jobs have.
pub fn fresh_crew_of<'a, C: Composed<FreshBook<'a>>>(
    _lock: &C,
    jobs: Vec<FreshJob<'a, C::Pass>>,
    lists: Lists<C::Pass>,
    stopped: Vec<bool>,
) -> FreshCrew<C::Pass>
    requires each { (k : ℕ) (j : _) → slice_get jobs.items k ≡ Some j → IsFreshServed C.Pass.rest (C.has _lock.now) (C.level _lock.now)
        (C.tag _lock.now) k j }
    requires many { length jobs.items ≡ C.count _lock.now }
    requires lists { AreEmptied (C.count _lock.now) lists }
    requires no_stopped { stopped.items ≡ [] }
    requires stopped_room { C.count _lock.now ≤ vec_capacity stopped }
    ensures { IsFreshCrew C.Pass.rest (C.has _lock.now) (C.level _lock.now) (C.count _lock.now) (C.tag _lock.now) result }
{
    let stopped = stops(&jobs, stopped);
    let Lists {
        passes,
        shares,
        seens,
        marks,
    } = take_apart(jobs, lists);
    let refused = any_stopped(&stopped);
    FreshCrew {
        passes,
        shares,
        seens,
        marks,
        refused,
        started: true,
        stopped,
    }
}

// Whether some caller stopped.
fn any_stopped(stopped: &[bool]) -> bool
    ensures { result ≡ list_any (λ stops. stops) stopped.now }
{
    stopped.iter().any(|stops| *stops)
}
