//! The seat of a thread at a Cohort.

use crate::numbered::Numbered;
use crate::rule::Place;
use std::marker::Model;

/// A seat at a Cohort, by which one thread takes jobs and puts them back. It has no bytes.
///
/// Contracts see of which Cohort it is, its number among the seats, and `outs`, the numbers of the jobs that it took and didn't put back.
#[derive(Drop)]
pub struct Seat<J: Numbered> {
    pub(crate) place: Place<J>,
}

impl<J: Numbered> Model for Seat<J> {
    ghost use Rattle.std.specs.Coded.{codes};
    ghost use Rattle.lock_rules.specs.Tag.{tag_code};
    ghost use Rattle.cohort_queue.specs.Seats.{seat_at, IsSeat};
    ghost use Rattle.cohort_queue.specs.States.{SeatState};

    ghost Value = { SeatState };

    ghost coded = { Prim.hlevel (codes, tag_code) };

    ghost view = { λ s. seat_at s.place };

    ghost invariant = { λ s. IsSeat s.place };
}
