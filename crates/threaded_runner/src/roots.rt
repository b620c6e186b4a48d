//! What a lock for callers is made over: a root with a journal for their sections and a trail with a turn for each of their commands.
ghost use Rattle.std.specs.Prelude.{◌≡◌, ◌<◌, ◌≤◌, ◌^◌, [], length, map, sum, sum_by, IfOk};
ghost use Rattle.keep_local.specs.Shapes.{IsWellFormed, callers_of};
ghost use Rattle.keep_local.specs.States.{new_trail};
ghost use Rattle.clof_compose.specs.Courses.{course_of};
ghost use Rattle.clof_compose.specs.Roots.{IsFit, root_tag, payload_of, trail_of};
ghost use Rattle.mc_text.specs.Reading.{commands_of};
ghost use Rattle.threaded_runner.specs.Books.{book_calls, book_tag};
ghost use Rattle.threaded_runner.specs.Ready.{IsDealt};

use crate::book::Book;
use clof_compose::Root;
use keep_local::{Shape, Share, Trail};
use kv_history::Journal;
use out_of_memory::OutOfMemory;
use run_texts::Section;
use std::alloc::{AllocError, Global};

/// A root for callers with these sections, before any turn: a trail of this shape, in which each caller may hold as often as its section
/// has commands, and a journal without entries. The shares are those of the callers, in order.
pub fn root_of<'a>(
    alloc: Global,
    sections: &[Section<'a>],
    shape: Shape,
) -> Result<(Root<Book<'a>>, Vec<Share>), OutOfMemory>
    requires shaped { IsWellFormed shape }
    requires callers { callers_of shape ≡ length sections.now }
    requires few { length sections.now < 2 ^ 32 }
    requires small { sum_by (λ section. length section.bytes.now) sections.now < 2 ^ 32 }
    ensures fit { IfOk result (λ made. IsFit book_calls made.0) }
    ensures dealt { IfOk result (λ made. IsDealt (course_of (root_tag book_tag made.0))
        (map (λ section. section.bytes.now) sections.now) made.1.items) }
    ensures trail { IfOk result (λ made. trail_of made.0 ≡ new_trail (trail_of made.0).name (trail_of made.0).receipts shape
        (map (λ section. length (commands_of section.bytes.now)) sections.now)) }
    ensures sections { IfOk result (λ made. (payload_of made.0).journal.sections ≡ map (λ section. section.bytes.now) sections.now) }
    ensures entries { IfOk result (λ made. (payload_of made.0).journal.entries ≡ []) }
{
    let journal = journal_of(alloc, sections)?;
    journal.facts();
    let quotas = quotas_of(alloc, &journal, sections.len())?;
    let (trail, shares) = Trail::reserve(alloc, shape, &quotas)?;
    let book = Book::new(journal);
    Ok((Root::new(trail, book), shares))
}

/// A journal for these sections, without entries.
pub fn journal_of<'a>(alloc: Global, sections: &[Section<'a>]) -> Result<Journal<'a>, OutOfMemory>
    requires small { sum_by (λ section. length section.bytes.now) sections.now < 2 ^ 32 }
    ensures sections { IfOk result (λ journal. journal.sections ≡ map (λ section. section.bytes.now) sections.now) }
    ensures entries { IfOk result (λ journal. journal.entries ≡ []) }
{
    let bytes = bytes_of(alloc, sections)?;
    Journal::reserve(alloc, &bytes)
}

// The bytes of sections.
fn bytes_of<'a>(alloc: Global, sections: &[Section<'a>]) -> Result<Vec<&'a [u8]>, AllocError>
    ensures { IfOk result (λ bytes. map (λ one. one.now) bytes.items ≡ map (λ section. section.bytes.now) sections.now) }
{
    let mut bytes = Vec::with_capacity(alloc, sections.len())?;
    for section in sections {
        bytes.push(section.bytes)?;
    }
    Ok(bytes)
}

/// How many commands the section of each of a journal's callers has.
pub fn quotas_of(
    alloc: Global,
    journal: &Journal<'_>,
    callers: usize,
) -> Result<Vec<u32>, AllocError>
    requires { callers ≡ length journal.now.sections }
    ensures { IfOk result (λ quotas. quotas.items ≡ map (λ section. length (commands_of section)) journal.now.sections) }
{
    let mut quotas = Vec::with_capacity(alloc, callers)?;
    for caller in 0..callers {
        quotas.push(journal.tally(caller).commands)?;
    }
    Ok(quotas)
}
