//! The roll of a run's callers.
ghost use Rattle.std.specs.Prelude.{◌≡◌};
ghost use Rattle.cohort_runner.specs.Rolls.{contexts_of, roll_tag};

use clof_compose::Resting;
use cohort_desks::Tells;
use std::snapshot::Snapshot;
use threaded_runner::Job;

/// All callers of a run, as they were before any of them began. It has no bytes, and is there for the clauses alone.
#[derive(Drop)]
pub struct Roll<'a, Q> {
    pub told: Snapshot<Vec<Job<'a, Q>>>,
}

/// What it tells is the list of all callers' contexts.
impl<'a, Q: Resting> Tells for Roll<'a, Q> {
    ghost told = { λ r. roll_tag (contexts_of Q.rest r.told.value.items) };
}

impl<'a, Q> Roll<'a, Q> {
    /// The roll of these callers.
    pub(crate) fn of(jobs: &Vec<Job<'a, Q>>) -> Roll<'a, Q>
        ensures { result.told.value ≡ jobs.now }
    {
        Roll {
            told: Snapshot::of(jobs),
        }
    }
}
