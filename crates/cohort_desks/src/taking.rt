//! How a thread takes a job from a Cohort and puts it back.
ghost use Rattle.std.specs.Prelude.{◌≡◌, ◌<◌, IfSome, None, length};
ghost use Rattle.cohort_desks.specs.Desks.{HasTaken, HasTakenAt, IsDesk, IsPlace};

use crate::desk::{Desk, Place};
use cohort_queue::{Cohort, Numbered};
use std::sync::Wait;

// Takes the job that has waited longest at a Cohort.
fn take_at<J: Numbered, R: Wait>(rt: &R, cohort: &Cohort<J>, place: &mut Place<J>) -> Option<J>
    requires place { IsPlace J.number J.tag cohort.now place.old }
    ensures taken { IfSome result (λ job. HasTaken J.number J.tag cohort.now place.new (J.number job) (J.tag job)) }
    ensures none { result ≡ None → IsPlace J.number J.tag cohort.now place.new }
    ensures same { place.new.seat.seat ≡ place.old.seat.seat }
{
    cohort.take(rt, &mut place.seat)
}

// Puts a job that was taken back, or keeps it.
fn settle<J: Numbered, R: Wait>(
    rt: &R,
    cohort: &Cohort<J>,
    place: &mut Place<J>,
    job: J,
    back: bool,
)
    requires taken { HasTaken J.number J.tag cohort.now place.old (J.number job) (J.tag job) }
    ensures place { IsPlace J.number J.tag cohort.now place.new }
    ensures same { place.new.seat.seat ≡ place.old.seat.seat }
{
    if back {
        cohort.put(rt, &mut place.seat, job);
    } else {
        place.kept.push_reserved(job);
    }
}

/// Takes the job that has waited longest at one of the Cohorts. It is `None` only where the queue was empty at a moment of this call.
pub fn take_from<J: Numbered, R: Wait>(
    rt: &R,
    cohorts: &[Cohort<J>],
    desk: &mut Desk<J>,
    at: usize,
) -> Option<J>
    requires desk { IsDesk J.number J.tag cohorts.now desk.old }
    requires at { at < length cohorts.now }
    ensures number { desk.new.number ≡ desk.old.number }
    ensures taken { IfSome result (λ job. HasTakenAt J.number J.tag cohorts.now desk.new at (J.number job) (J.tag job)) }
    ensures none { result ≡ None → IsDesk J.number J.tag cohorts.now desk.new }
{
    take_at(rt, &cohorts[at], &mut desk.places[at])
}

/// Puts a job that was taken from one of the Cohorts back behind all others there, or keeps it.
pub fn settle_at<J: Numbered, R: Wait>(
    rt: &R,
    cohorts: &[Cohort<J>],
    desk: &mut Desk<J>,
    at: usize,
    job: J,
    back: bool,
)
    requires at { at < length cohorts.now }
    requires taken { HasTakenAt J.number J.tag cohorts.now desk.old at (J.number job) (J.tag job) }
    ensures number { desk.new.number ≡ desk.old.number }
    ensures desk { IsDesk J.number J.tag cohorts.now desk.new }
{
    settle(rt, &cohorts[at], &mut desk.places[at], job, back);
}
