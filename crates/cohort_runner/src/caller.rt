//! A caller that waits for a thread.
ghost use Rattle.std.specs.Prelude.{◌≡◌};
ghost use Rattle.cohort_runner.specs.Callers.{IsCaller};
ghost use Rattle.cohort_runner.specs.Rolls.{contexts_of, roll_tag};

use crate::roll::Roll;
use clof_compose::Resting;
use cohort_queue::Numbered;
use std::marker::Model;
use std::snapshot::Snapshot;
use threaded_runner::Job;

/// A caller's pass, its share and the commands that it hasn't given. They are those of one caller on the roll.
///
/// Contracts see its number and the tag of the roll.
#[derive(Drop)]
pub struct Caller<'a, Q: Resting> {
    job: Job<'a, Q>,
    roll: Snapshot<Roll<'a, Q>>,
}

impl<'a, Q: Resting> Model for Caller<'a, Q> {
    ghost use Rattle.std.specs.Coded.{codes};
    ghost use Rattle.lock_rules.specs.Tag.{tag_code};
    ghost use Rattle.cohort_runner.specs.Callers.{CallerState, IsCaller};
    ghost use Rattle.cohort_runner.specs.Rolls.{contexts_of, roll_tag};

    ghost Value = { CallerState };

    ghost coded = { Prim.hlevel (codes, tag_code) };

    ghost view = { λ c. record {
      number = c.job.share.caller;
      tag = roll_tag (contexts_of Q.rest c.roll.value.told.value.items);
    } };

    ghost invariant = { λ c. IsCaller Q.rest (contexts_of Q.rest c.roll.value.told.value.items) c.job };
}

/// A caller has the number of its share, and all callers on one roll have its tag in common.
impl<'a, Q: Resting> Numbered for Caller<'a, Q> {
    ghost number = { λ c. c.number };

    ghost tag = { λ c. c.tag };

    fn number(&self) -> u32 {
        self.job.share.caller()
    }
}

impl<'a, Q: Resting> Caller<'a, Q> {
    /// The caller on this roll with this job.
    pub(crate) fn on(roll: &Roll<'a, Q>, job: Job<'a, Q>) -> Caller<'a, Q>
        requires { IsCaller Q.rest (contexts_of Q.rest roll.now.told.value.items) job }
        ensures number { result.number ≡ job.entry.share.caller }
        ensures tag { result.tag ≡ roll_tag (contexts_of Q.rest roll.now.told.value.items) }
    {
        Caller {
            job,
            roll: Snapshot::of(roll),
        }
    }

    /// Its job, and the roll that it stands on.
    pub(crate) fn into_parts(self) -> (Job<'a, Q>, Snapshot<Roll<'a, Q>>)
        ensures caller { IsCaller Q.rest (contexts_of Q.rest result.1.value.told.value.items) result.0 }
        ensures number { result.0.share.caller ≡ self.entry.number }
        ensures tag { roll_tag (contexts_of Q.rest result.1.value.told.value.items) ≡ self.entry.tag }
    {
        let Caller { job, roll } = self;
        (job, roll)
    }
}
