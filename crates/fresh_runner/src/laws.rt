//! What may go to another thread, or be shared with one, as laws for the checker: it finds that of a lock whose root has one once it knows
//! it of the payload.
ghost use Rattle.std.specs.Thread.{IsSend, IsSync};
ghost use Rattle.fresh_runner.specs.contracts.book.FreshBook.{the_row};

use fresh_root::{histories_may_be_sent, histories_may_be_shared};

/// A book beside its counted history may go to another thread.
pub fn fresh_books_may_be_sent()
    ensures { (life : _) → IsSend (the_row life) }
{
    histories_may_be_sent();
}

/// A book beside its counted history may be shared between threads.
pub fn fresh_books_may_be_shared()
    ensures { (life : _) → IsSync (the_row life) }
{
    histories_may_be_shared();
}
