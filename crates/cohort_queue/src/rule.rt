//! The rule of a Cohort's queue, and its kinds of step.
ghost use Rattle.cohort_queue.specs.Rule.{IsCohort};
ghost use Rattle.cohort_queue.specs.Steps.{Gives, Takes, PutsBack, LeavesRoom, StoodWith, HasOthers};
ghost use Rattle.cohort_queue.specs.Steps.{counting_one_more, split_off, with_other};
ghost use Rattle.cohort_queue.specs.Views.{first_view, spent_view};

use crate::numbered::Numbered;
use crate::view::View;
use crossbeam_queue::protocol::{Join, Lesson, Outcome, Protocol, Split};
use crossbeam_queue::{Pass, RuledArrayQueue};
use std::alloc::Global;

/// The queue of a Cohort.
pub(crate) type Queue<J> = RuledArrayQueue<J, View, CohortRule, Global>;

/// A seat at it.
pub(crate) type Place<J> = Pass<J, View>;

/// The rule of the queue.
pub struct CohortRule;

impl<J: Numbered> Protocol<J, View> for CohortRule {
    ghost holds = { IsCohort J.number J.tag };

    ghost first = { first_view };
}

/// A push of the first seat, by which a job is given.
pub struct Give;

impl<J: Numbered> Outcome<J, View> for Give {
    ghost then = { Gives J.number J.tag };
}

impl<J: Numbered> Lesson<J, View> for Give {
    ghost fact = { LeavesRoom };
}

/// A pop. Where it finds the queue empty, there was such a state.
pub struct Take;

impl<J: Numbered> Outcome<J, View> for Take {
    ghost then = { Takes J.number J.tag };
}

impl<J: Numbered> Lesson<J, View> for Take {
    ghost fact = { StoodWith J.number J.tag };
}

/// A pop by a seat that took over all others. Where it finds the queue empty, all that was given is out with it.
pub struct TakeLast;

impl<J: Numbered> Outcome<J, View> for TakeLast {
    ghost then = { Takes J.number J.tag };
}

impl<J: Numbered> Lesson<J, View> for TakeLast {
    ghost fact = { HasOthers J.number };
}

/// A push of a job that is out.
pub struct PutBack;

impl<J: Numbered> Outcome<J, View> for PutBack {
    ghost then = { PutsBack J.number };
}

impl<J: Numbered> Lesson<J, View> for PutBack {
    ghost fact = { LeavesRoom };
}

/// A seat is split off the first one.
pub struct SplitOff;

impl Split<View> for SplitOff {
    ghost left = { counting_one_more };

    ghost right = { split_off };
}

/// A seat is joined to the first one, and is spent.
pub struct TakeOver;

impl Join<View> for TakeOver {
    ghost both = { with_other };

    ghost spent = { spent_view };
}
