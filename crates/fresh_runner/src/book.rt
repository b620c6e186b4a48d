//! What the callers of a lock work on.
ghost use Rattle.std.specs.Prelude.{◌≡◌};
ghost use Rattle.fresh_runner.specs.Books.{fresh_book_calls, fresh_book_tag};

use fresh_root::Fresh;
use lock_rules::Payload;
use threaded_runner::Book;

/// A book beside its counted history, as the payload of a lock.
///
/// It has no more than the `Fresh`. That hides its borrows as a journal does, and a lock of two or more levels takes a payload that borrows
/// only where it sees a borrow; so an empty one stands here in plain sight, as in a `Book`.
#[derive(Drop)]
pub struct FreshBook<'a> {
    pub fresh: Fresh<Book<'a>>,
    lent: &'a [u8],
}

/// Its calls and its tag are those of the `Fresh`.
impl<'a> Payload for FreshBook<'a> {
    ghost calls = { fresh_book_calls };

    ghost tag = { fresh_book_tag };
}

impl<'a> FreshBook<'a> {
    /// A book of this journal beside its counted history.
    pub fn new(fresh: Fresh<Book<'a>>) -> FreshBook<'a>
        ensures { result.fresh ≡ fresh.entry }
    {
        FreshBook { fresh, lent: b"" }
    }
}
