//! How a caller comes to hold the lock, and tells the gate on the way.
ghost use Rattle.std.specs.Prelude.{◌≡◌, ◌+◌, IsSomeAnd};
ghost use Rattle.clof_compose.specs.Calls.{HasOpened, MayTurn};
ghost use Rattle.clof_compose.specs.Courses.{course_of};
ghost use Rattle.threaded_runner.specs.Books.{book_calls, book_tag};

use crate::book::Book;
use clof_compose::{Composed, Resting, Standing};
use keep_local::Share;
use lock_rules::Step;
use run_texts::Gate;
use std::sync::Wait;

/// Enters the queue, tells the gate that the caller is queued, and waits until it holds.
pub(crate) fn acquire<'a, C: Composed<Book<'a>>, G: Gate, R: Wait>(
    rt: &R,
    lock: &C,
    gate: &G,
    pass: C::Pass,
    share: &mut Share,
) -> C::Held
    requires sound { C.sound lock.now }
    requires own { C.has lock.now (C.Pass.rest pass).context }
    requires share { MayTurn (course_of (C.tag lock.now)) (C.level lock.now) (C.Pass.rest pass).context.number share.old }
    ensures held { (C.Held.stand result).context ≡ (C.Pass.rest pass).context }
    ensures stands { C.Held.stands result }
    ensures made { share.new ≡ record share.old { made = share.old.made + 1 } }
    ensures opened { IsSomeAnd (C.Held.stand result).root (HasOpened book_calls book_tag (C.tag lock.now) (C.level lock.now) share.new) }
{
    let caller = share.caller();
    let begun = lock.begin(pass, share);
    gate.queued(caller);
    match begun {
        Step::Got(held) => held,
        Step::Not(queue) => lock.wait(rt, queue, share),
    }
}
