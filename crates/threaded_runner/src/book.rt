//! What the callers of a lock work on.
ghost use Rattle.std.specs.Prelude.{◌≡◌};
ghost use Rattle.threaded_runner.specs.Books.{book_calls, book_tag};

use kv_history::Journal;
use lock_rules::Payload;

/// A journal as the payload of a lock.
///
/// It has no more than the journal. A journal hides its borrows, and the checker takes a lock of two or more levels over a payload that
/// borrows only where it sees a borrow in the payload; so an empty one stands here in plain sight.
#[derive(Drop)]
pub struct Book<'a> {
    pub journal: Journal<'a>,
    lent: &'a [u8],
}

/// Its calls are the callers of all entries of the journal, void ones included, and its tag is the list of the journal's sections.
impl<'a> Payload for Book<'a> {
    ghost calls = { book_calls };

    ghost tag = { book_tag };
}

impl<'a> Book<'a> {
    /// A book of this journal.
    pub fn new(journal: Journal<'a>) -> Book<'a>
        ensures { result.journal ≡ journal.entry }
    {
        Book { journal, lent: b"" }
    }
}
