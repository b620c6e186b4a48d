//! A new Cohort and what it takes.
ghost use Rattle.std.specs.Prelude.{All, ◌≡◌, ◌<◌, ◌≤◌, [], ℕ, IfErr, IfOk, IfSome, Some, length, map, slice_get, vec_capacity};
ghost use Rattle.cohort_queue.specs.Jobs.{HaveOneTag};
ghost use Rattle.cohort_queue.specs.Numbers.{AreDistinct};

use cohort_queue::{Cohort, Numbered, Seat};
use lock_rules::Refused;
use std::alloc::Global;
use std::sync::Wait;

/// A new Cohort, its seats, and an empty list for each.
#[derive(Drop)]
pub(crate) struct Making<J: Numbered> {
    pub(crate) cohort: Cohort<J>,
    pub(crate) seats: Vec<Seat<J>>,
    pub(crate) lists: Vec<Vec<J>>,
}

// So many empty lists with room for this many jobs; none for want of memory.
fn kept_lists<J: Numbered>(alloc: Global, count: u32, many: usize) -> Option<Vec<Vec<J>>>
    ensures count { IfSome result (λ lists. length lists.items ≡ count) }
    ensures each { IfSome result (λ lists. (i : ℕ) (v : _) → slice_get lists.items i ≡ Some v
        → (v.items ≡ []) × (many ≤ vec_capacity v)) }
{
    let Ok(mut lists) = Vec::with_capacity(alloc, count as usize) else {
        return None;
    };
    for _ in 0..count {
        let Ok(list) = Vec::with_capacity(alloc, many) else {
            return None;
        };
        lists.push_reserved(list);
    }
    Some(lists)
}

impl<J: Numbered> Making<J> {
    ghost use Rattle.cohort_desks.specs.Makings.{IsMaking};

    /// A Cohort of these jobs, with as many seats. Without memory the jobs come back.
    pub(crate) fn new<R: Wait>(
        rt: &R,
        alloc: Global,
        jobs: Vec<J>,
        threads: u32,
    ) -> Result<Making<J>, Refused<Vec<J>>>
        requires some { 0 < length jobs.items }
        requires distinct { AreDistinct (map J.number jobs.items) }
        requires tag { HaveOneTag J.tag jobs.items }
        requires threads { 0 < threads }
        ensures made { IfOk result (IsMaking threads) }
        ensures numbers { IfOk result (λ making. making.cohort.numbers ≡ map J.number jobs.items) }
        ensures tagged { IfOk result (λ making. All (λ j. J.tag j ≡ making.cohort.tag) jobs.items) }
        ensures refused { IfErr result (λ refused. refused.value ≡ jobs) }
    {
        let Some(lists) = kept_lists(alloc, threads, jobs.len()) else {
            return Err(Refused { value: jobs });
        };
        match Cohort::make(rt, alloc, jobs, threads) {
            Ok((cohort, seats)) => Ok(Making {
                cohort,
                seats,
                lists,
            }),
            Err(refused) => Err(refused),
        }
    }
}
