//! The witness of a lock's words.
ghost use Rattle.std.specs.Prelude.{◌≡◌};
ghost use Rattle.atomic_table.specs.Seated.{TableId};
ghost use Rattle.lock_rules.specs.declared.view.Waiters.{Waiters};
ghost use Rattle.lock_tables.specs.Laws.{RuleIsBasic};
ghost use Rattle.lock_tables.specs.Rule.{Discipline};
ghost use Rattle.lock_tables.specs.Words.{words_key, words_table};

use crate::lock_words::LockWords;
use crate::rule::{Disciplined, rule_is_basic};
use lock_rules::{Cargo, Waiters};

/// No other crate can name it.
pub trait Sealed {}

impl<V: Cargo, D: Disciplined> Sealed for LockWords<V, D> {}

/// The words of a lock, whatever its algorithm. No type but `LockWords` is a witness, and nobody reaches the words by it.
pub trait Witness<V: Cargo>: Sealed {
    // What the algorithm adds to the rule of the table.
    ghost discipline: { Discipline };

    ghost table: { Self → TableId };

    ghost choice: { Self → Waiters };

    /// How the lock learns of waiters.
    fn waiters(&self) -> Waiters
        ensures { result ≡ choice self.now };

    /// The rule of the table implies that of a basic lock.
    fn is_basic(&self)
        ensures { RuleIsBasic discipline V.fit V.tag V.parked };
}

impl<V: Cargo, D: Disciplined> Witness<V> for LockWords<V, D> {
    ghost discipline = { D.discipline };

    ghost table = { words_table };

    ghost choice = { λ w. (words_key w).waiters };

    fn waiters(&self) -> Waiters {
        self.waiters
    }

    fn is_basic(&self) {
        rule_is_basic::<V, D>();
    }
}
