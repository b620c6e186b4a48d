//! How a run ends: its lock is taken apart, the tokens go back, and the marks are known to be the numbers of the turns.
ghost use Rattle.std.specs.Prelude.{◌≡◌, ℕ, length, map, slice_get, IfOk, Some, true};
ghost use Rattle.lock_rules.specs.Trees.{lists_in};
ghost use Rattle.keep_local.specs.States.{callers_in};
ghost use Rattle.clof_compose.specs.Courses.{course_of};
ghost use Rattle.clof_compose.specs.Roots.{IsFit, payload_of, trail_of};
ghost use Rattle.fresh_root.specs.States.{AreAll};
ghost use Rattle.mc_text.specs.Reading.{commands_of};
ghost use Rattle.threaded_runner.specs.Done.{AreDone};
ghost use Rattle.threaded_runner.specs.Finished.{IsFinished};
ghost use Rattle.fresh_runner.specs.Books.{book_in, fresh_book_calls, tokens_in};
ghost use Rattle.fresh_runner.specs.Crews.{IsFreshCrew};
ghost use Rattle.fresh_runner.specs.Marked.{AreMarked};
ghost use Rattle.fresh_runner.specs.Places.{places_of};

use crate::account::Marks;
use crate::book::FreshBook;
use crate::crew::FreshCrew;
use clof_compose::{Composed, Resting, Root};
use fresh_root::Seen;
use keep_local::Share;
use out_of_memory::OutOfMemory;
use threaded_runner::{Finished, finish};

/// What a run leaves whose callers have given all their commands, and the numbers of the turns of each caller, in order.
#[derive(Drop)]
pub struct Marked<'a> {
    pub left: Finished<'a>,
    pub marks: Vec<Marks>,
}

/// Takes a lock apart whose callers have come back, takes their tokens back, and gives what they leave, as `close_run` does. The marks are
/// then the numbers of the callers' turns.
pub fn close_fresh<'a, C: Composed<FreshBook<'a>> + Drop>(
    lock: C,
    crew: FreshCrew<C::Pass>,
) -> Result<Marked<'a>, OutOfMemory>
    requires sound { C.sound lock }
    requires crew { IsFreshCrew C.Pass.rest (C.has lock) (C.level lock) (C.count lock) (C.tag lock) crew }
    requires count { C.count lock ≡ length (lists_in (book_in (course_of (C.tag lock)).payload)) }
    requires tokens { C.count lock ≡ tokens_in (course_of (C.tag lock)).payload }
    requires quotas { (course_of (C.tag lock)).quotas
        ≡ map (λ section. length (commands_of section)) (lists_in (book_in (course_of (C.tag lock)).payload)) }
    requires recorded { (course_of (C.tag lock)).recorded ≡ true }
    ensures finished { IfOk result (λ made. IsFinished made.left.trail made.left.journal) }
    ensures shape { IfOk result (λ made. made.left.trail.shape ≡ (course_of (C.tag lock)).shape) }
    ensures sections { IfOk result (λ made. made.left.journal.sections ≡ lists_in (book_in (course_of (C.tag lock)).payload)) }
    ensures marks { IfOk result (λ made. AreMarked (callers_in made.left.trail.closed) (C.count lock) made.marks.items) }
{
    let FreshCrew {
        passes,
        shares,
        seens,
        marks,
        refused,
        ..
    } = crew;
    if refused {
        return Err(OutOfMemory);
    }
    finish_fresh(lock.close(passes), shares, seens, marks)
}

// What a run leaves, from the root of its lock, and what its callers bring back, each of which has made all its turns.
fn finish_fresh<'a>(
    root: Root<FreshBook<'a>>,
    shares: Vec<Share>,
    seens: Vec<Seen>,
    marks: Vec<Marks>,
) -> Result<Marked<'a>, OutOfMemory>
    requires fit { IsFit fresh_book_calls root }
    requires quotas { (trail_of root).quotas ≡ map (λ section. length (commands_of section)) (lists_in (payload_of root).fresh.tag) }
    requires recorded { (trail_of root).recorded ≡ true }
    requires shares { AreDone (trail_of root).name (trail_of root).quotas shares.items }
    requires many { length shares.items ≡ length (lists_in (payload_of root).fresh.tag) }
    requires seens { AreAll (payload_of root).fresh.name (payload_of root).fresh.tokens seens.items }
    requires tokens { (payload_of root).fresh.tokens ≡ length shares.items }
    requires many_marks { length marks.items ≡ length shares.items }
    requires marked { (k : ℕ) (s : _) (m : _) → slice_get seens.items k ≡ Some s → slice_get marks.items k ≡ Some m
        → m.turns.items ≡ places_of k s.list }
    requires as_many { (k : ℕ) (s : _) (m : _) → slice_get shares.items k ≡ Some s → slice_get marks.items k ≡ Some m
        → length m.turns.items ≡ s.made }
    ensures finished { IfOk result (λ made. IsFinished made.left.trail made.left.journal) }
    ensures trail { IfOk result (λ made. made.left.trail ≡ trail_of root.entry) }
    ensures sections { IfOk result (λ made. made.left.journal.sections ≡ lists_in (payload_of root.entry).fresh.tag) }
    ensures marks { IfOk result (λ made. AreMarked (callers_in made.left.trail.closed) (length shares.items) made.marks.items) }
{
    let (trail, FreshBook { fresh, .. }) = root.into_parts();
    let book = fresh.close(seens);
    let left = finish(Root::new(trail, book), shares)?;
    Ok(Marked { left, marks })
}
