//! What a lock for callers is made over: a root with a book beside its counted history, and a token for each caller.
ghost use Rattle.std.specs.Prelude.{◌≡◌, ◌<◌, ◌^◌, length, map, sum_by, IfOk};
ghost use Rattle.keep_local.specs.Shapes.{IsWellFormed, callers_of};
ghost use Rattle.clof_compose.specs.Courses.{course_of};
ghost use Rattle.clof_compose.specs.Roots.{IsFit, root_tag, trail_of};
ghost use Rattle.fresh_runner.specs.Books.{fresh_book_calls, fresh_book_tag};
ghost use Rattle.fresh_runner.specs.Ready.{IsFreshDealt};

use crate::book::FreshBook;
use clof_compose::Root;
use fresh_root::{Fresh, Seen};
use keep_local::{Shape, Share};
use out_of_memory::OutOfMemory;
use run_texts::Section;
use std::alloc::Global;
use threaded_runner::root_of;

/// A root for callers with these sections, before any turn, as `root_of` makes one, with the history of the book's calls. The shares and
/// the tokens are those of the callers, in order.
pub fn fresh_root_of<'a>(
    alloc: Global,
    sections: &[Section<'a>],
    shape: Shape,
) -> Result<(Root<FreshBook<'a>>, Vec<Share>, Vec<Seen>), OutOfMemory>
    requires shaped { IsWellFormed shape }
    requires callers { callers_of shape ≡ length sections.now }
    requires some { 0 < length sections.now }
    requires few { length sections.now < 2 ^ 32 }
    requires small { sum_by (λ section. length section.bytes.now) sections.now < 2 ^ 32 }
    ensures fit { IfOk result (λ made. IsFit fresh_book_calls made.0) }
    ensures dealt { IfOk result (λ made. IsFreshDealt (course_of (root_tag fresh_book_tag made.0))
        (map (λ section. section.bytes.now) sections.now) made.1.items made.2.items) }
    ensures shape { IfOk result (λ made. (trail_of made.0).shape ≡ shape) }
{
    let (root, shares) = root_of(alloc, sections, shape)?;
    let (trail, book) = root.into_parts();
    match Fresh::make(alloc, book, sections.len() as u32) {
        Ok((fresh, seens)) => Ok((Root::new(trail, FreshBook::new(fresh)), shares, seens)),
        Err(_) => Err(OutOfMemory),
    }
}
