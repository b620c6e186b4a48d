//! Laws of a Cohort. Each is a function that does nothing, whose contract is the law.
ghost use Rattle.std.specs.Thread.{IsSync};
ghost use Rattle.cohort_queue.specs.Laws.{NoneLostOrDoubled};
ghost use Rattle.cohort_queue.specs.contracts.cohort.Cohort.{the_row};

use crate::numbered::Numbered;
use crate::rule::{Place, Queue};
use crate::shared::is_shared;
use std::snapshot::Snapshot;

/// At every moment each number that was given stands once: in the queue, or with the one seat that took it.
pub fn none_is_lost_or_doubled<J: Numbered>()
    ensures { NoneLostOrDoubled J.number J.tag }
{}

/// A Cohort may be shared between threads where its jobs may go to another thread. The checker finds of what borrows a Cohort that it may
/// be shared once it knows this.
pub fn cohorts_are_shared<J: Numbered + Send>()
    ensures shared { IsSync (the_row J.row ⟦<J as Numbered>⟧) }
{
    is_shared::<Queue<J>>();
    is_shared::<Snapshot<Place<J>>>();
}
