//! A basic lock whose table is under the rule of a queue lock, and how it shows that it is.
ghost use Rattle.std.specs.Prelude.{◌≡◌};
ghost use Rattle.atomic_table.specs.Seated.{TableId};
ghost use Rattle.lock_rules.specs.Views.{lock_name};
ghost use Rattle.lock_rules.specs.declared.view.Waiters.{Waiters};
ghost use Rattle.lock_tables.specs.Laws.{RuleIsBasic};
ghost use Rattle.lock_tables.specs.Rule.{Discipline};
ghost use Rattle.lock_tables.specs.Words.{words_key, words_table};

use crate::lock_words::LockWords;
use crate::rule::Disciplined;
use crate::witness::Witness;
use lock_rules::{Basic, Cargo, Held, Leave, Pass, Queue};

/// What is learned of a lock by its witness, whatever its algorithm.
pub trait Learner<V: Cargo>: Sized {
    // What it learns of a lock whose table is under the rule of this discipline, and that learns of waiters in this way.
    ghost learns: { Self → Discipline → TableId → Waiters → Type 0 };

    fn learn<W: Witness<V>>(self, witness: &W)
        ensures { learns self W.discipline (W.table witness.now) (W.choice witness.now) };
}

impl<V: Cargo, D: Disciplined> LockWords<V, D> {
    /// Shows these words as a witness.
    pub fn show<L: Learner<V>>(&self, learner: L)
        ensures { L.learns learner D.discipline (words_table self.now) (words_key self.now).waiters }
    {
        learner.learn(self);
    }
}

/// A lock whose table is under the rule of a queue lock, with what its algorithm adds to that rule.
///
/// Its tokens are seats of that table: the lock's name has the table, and what a token of it says of loads and entering steps are steps on
/// the table's words.
pub trait Ruled<V: Cargo>: Basic<V, Pass = Pass, Queue = Queue, Held = Held<V>, Leave = Leave<V>> {
    ghost discipline: { Self → Discipline };

    // Its table, and how it learns of waiters.
    ghost table: { Self → TableId };

    ghost waiters: { Self → Waiters };

    /// Shows its words. A lock that doesn't know its learner can keep the clause in one way alone: it has words whose table is this one and
    /// whose algorithm has this discipline, and shows them.
    fn show<L: Learner<V>>(&self, learner: L)
        ensures { L.learns learner (discipline self.now) (table self.now) (waiters self.now) };

    /// The rule of the table implies that of a basic lock.
    final fn is_basic(&self)
        ensures { RuleIsBasic (discipline self.now) V.fit V.tag V.parked }
    {
        self.show(Points);
    }

    // The lock is named by its algorithm and its table.
    ghost named: { (l : Self) → Self.Basic.name l ≡ lock_name (discipline l).algorithm (waiters l) (table l) };
}

/// Learns that the rule implies that of a basic lock.
#[derive(Drop)]
struct Points;

impl<V: Cargo> Learner<V> for Points {
    ghost learns = { λ _ d _ _. RuleIsBasic d V.fit V.tag V.parked };

    fn learn<W: Witness<V>>(self, witness: &W)
        ensures { RuleIsBasic W.discipline V.fit V.tag V.parked }
    {
        witness.is_basic();
    }
}
