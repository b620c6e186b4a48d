//! How a run ends: its lock is taken apart, and the shares that came back show that every turn was made.
ghost use Rattle.std.specs.Prelude.{◌≡◌, ◌<◌, ℕ, length, map, slice_get, All, IfOk, OnErr, Some, true};
ghost use Rattle.lock_rules.specs.Trees.{lists_in};
ghost use Rattle.keep_local.specs.States.{IsShareOf};
ghost use Rattle.clof_compose.specs.Courses.{course_of};
ghost use Rattle.clof_compose.specs.Roots.{IsFit, payload_of, trail_of};
ghost use Rattle.mc_text.specs.Reading.{commands_of};
ghost use Rattle.kv_history.specs.Log.{NoneVoid};
ghost use Rattle.run_texts.specs.Printed.{IsRun};
ghost use Rattle.run_texts.specs.Views.{section_view};
ghost use Rattle.threaded_runner.specs.Books.{book_calls};
ghost use Rattle.threaded_runner.specs.Crews.{IsCrew};
ghost use Rattle.threaded_runner.specs.Done.{AreDone};
ghost use Rattle.threaded_runner.specs.Finished.{IsFinished};

use crate::book::Book;
use crate::crew::Crew;
use clof_compose::{Composed, Resting, Root};
use keep_local::{Share, Trail};
use kv_history::Journal;
use out_of_memory::OutOfMemory;
use run_texts::{Section, text};
use std::alloc::Global;

/// What a run leaves whose callers have given all their commands: the trail of their turns, and the journal.
#[derive(Drop)]
pub struct Finished<'a> {
    pub trail: Trail,
    pub journal: Journal<'a>,
}

/// Takes a lock apart whose callers have come back, and gives what they leave. Some caller that stopped, or some command that was refused,
/// is answered as want of memory, which is the cause of both.
pub fn close_run<'a, C: Composed<Book<'a>> + Drop>(
    lock: C,
    crew: Crew<C::Pass>,
) -> Result<Finished<'a>, OutOfMemory>
    requires sound { C.sound lock }
    requires crew { IsCrew C.Pass.rest (C.has lock) (C.level lock) (C.count lock) (C.tag lock) crew }
    requires count { C.count lock ≡ length (lists_in (course_of (C.tag lock)).payload) }
    requires quotas { (course_of (C.tag lock)).quotas
        ≡ map (λ section. length (commands_of section)) (lists_in (course_of (C.tag lock)).payload) }
    requires recorded { (course_of (C.tag lock)).recorded ≡ true }
    ensures finished { IfOk result (λ left. IsFinished left.trail left.journal) }
    ensures shape { IfOk result (λ left. left.trail.shape ≡ (course_of (C.tag lock)).shape) }
    ensures sections { IfOk result (λ left. left.journal.sections ≡ lists_in (course_of (C.tag lock)).payload) }
{
    let Crew {
        passes,
        shares,
        refused,
        ..
    } = crew;
    if refused {
        return Err(OutOfMemory);
    }
    finish(lock.close(passes), shares)
}

/// What a run leaves, from the root of its lock and the shares of its callers, each of which has made all its turns. Where some command was
/// refused memory, that is the answer.
pub fn finish<'a>(root: Root<Book<'a>>, shares: Vec<Share>) -> Result<Finished<'a>, OutOfMemory>
    requires fit { IsFit book_calls root }
    requires quotas { (trail_of root).quotas ≡ map (λ section. length (commands_of section)) (payload_of root).journal.sections }
    requires recorded { (trail_of root).recorded ≡ true }
    requires shares { AreDone (trail_of root).name (trail_of root).quotas shares.items }
    requires many { length shares.items ≡ length (payload_of root).journal.sections }
    ensures finished { IfOk result (λ left. IsFinished left.trail left.journal) }
    ensures trail { IfOk result (λ left. left.trail ≡ trail_of root.entry) }
    ensures journal { IfOk result (λ left. left.journal ≡ (payload_of root.entry).journal) }
    ensures void { OnErr result (¬ NoneVoid (payload_of root.entry).journal.entries) }
{
    let (mut trail, Book { journal, .. }) = root.into_parts();
    agree(&mut trail, shares);
    journal.facts();
    if !journal.whole() {
        return Err(OutOfMemory);
    }
    Ok(Finished { trail, journal })
}

// Shows that each share has made as many turns as the trail has of its caller.
fn agree(trail: &mut Trail, mut shares: Vec<Share>)
    requires own { (k : ℕ) (s : _) → slice_get shares.items k ≡ Some s → s.name ≡ trail.old.name }
    ensures trail { trail.new ≡ trail.old }
    ensures counted { All (IsShareOf trail.old) shares.items }
{
    while let Some(mut share) = shares.pop() {
        trail.agree(&mut share);
    }
}

/// The printed text of a run that has finished, whose callers have these sections. Without memory for it nothing is given.
pub fn printed(
    alloc: Global,
    sections: &[Section<'_>],
    left: &Finished<'_>,
) -> Result<Vec<u8>, OutOfMemory>
    requires finished { IsFinished left.now.trail left.now.journal }
    requires sections { left.now.journal.sections ≡ map (λ section. section.bytes.now) sections.now }
    ensures run { IfOk result (λ printed. IsRun (map section_view sections.now) left.now.trail.shape printed.items) }
{
    left.journal.facts();
    text(alloc, sections, left.trail.turns(), &left.journal)
}
