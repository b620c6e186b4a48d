//! A journal is what the callers of a lock work on.
ghost use Rattle.std.specs.Prelude.{map};
ghost use Rattle.lock_rules.specs.Trees.{tree_of_lists};

use crate::Journal;
use lock_rules::Payload;

/// Its calls are the callers of all entries, void ones included, and its tag is the list of its sections.
impl<'a> Payload for Journal<'a> {
    ghost calls = { λ journal. map (λ entry. entry.caller) journal.entries };

    ghost tag = { λ journal. tree_of_lists journal.sections };
}
