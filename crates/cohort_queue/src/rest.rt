//! What is left in the queue of a Cohort that was closed.
ghost use Rattle.std.specs.Prelude.{◌≡◌, ◌∷◌, ◌++◌, [], ◌↔◌, None, IfSome};
ghost use Rattle.cohort_queue.specs.Numbers.{AreSame, IsIn, IsNotIn};

use crate::numbered::Numbered;
use crate::rule::{Place, Queue, TakeLast};
use std::marker::Model;
use std::sync::Wait;

/// The jobs that are still in the queue of a Cohort that was closed.
///
/// Contracts see the numbers and the tag of the Cohort, and `outs`, the numbers that have been handed out: those that the seats had out
/// when they came back, and those of the jobs that `next` gave.
#[derive(Drop)]
pub struct Rest<J: Numbered> {
    pub(crate) queue: Queue<J>,
    pub(crate) first: Place<J>,
}

impl<J: Numbered> Model for Rest<J> {
    ghost use Rattle.std.specs.Coded.{codes};
    ghost use Rattle.lock_rules.specs.Tag.{tag_code};
    ghost use Rattle.cohort_queue.specs.Seats.{rest_at, IsClosed};
    ghost use Rattle.cohort_queue.specs.States.{RestState};

    ghost Value = { RestState };

    ghost coded = { Prim.hlevel (codes, tag_code) };

    ghost view = { λ r. rest_at r.first };

    ghost invariant = { λ r. IsClosed r.queue r.first };
}

impl<J: Numbered> Rest<J> {
    /// The job that has waited longest. It is `None` exactly where every number that the Cohort was made with has been handed out, each
    /// once.
    pub fn next<R: Wait>(&mut self, rt: &R) -> Option<J>
        ensures same { (self.new.numbers ≡ self.old.numbers) × (self.new.tag ≡ self.old.tag) }
        ensures tagged { IfSome result (λ job. J.tag job ≡ self.old.tag) }
        ensures given { IfSome result (λ job. IsIn (J.number job) self.old.numbers) }
        ensures new { IfSome result (λ job. IsNotIn (J.number job) self.old.outs) }
        ensures out { IfSome result (λ job. self.new.outs ≡ self.old.outs ++ J.number job ∷ []) }
        ensures none { result ≡ None → self.new ≡ self.old }
        ensures all { (result ≡ None) ↔ AreSame self.old.outs self.old.numbers }
    {
        self.queue.pop_as::<TakeLast, R>(rt, &mut self.first)
    }
}
