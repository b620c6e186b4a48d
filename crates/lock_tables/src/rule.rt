//! The rule of a lock's table.
ghost use Rattle.lock_rules.specs.Views.{first_view};
ghost use Rattle.lock_tables.specs.Rule.{Discipline, IsLock};
ghost use Rattle.lock_tables.specs.Laws.{IsDisciplined, RuleIsBasic};

use atomic_table::TableRule;
use lock_rules::{Cargo, Opening, View};
use std::marker::PhantomData;

/// An algorithm of a queue lock: its words, its part of the rule, and its queue as a function of words and views.
pub trait Disciplined: Sized {
    ghost discipline: { Discipline };

    /// The algorithm's part of the rule holds at the start, is kept where seats are split off and joined, and tells its queue.
    fn is_disciplined()
        ensures { IsDisciplined discipline };
}

/// The rule of the table of a lock with this algorithm.
pub struct QueueRule<D>(PhantomData<D>);

impl<V: Cargo, D: Disciplined> TableRule<Option<V>, View, Opening<V>> for QueueRule<D> {
    ghost holds = { λ key. IsLock D.discipline V.fit V.tag V.parked key.waiters key.passes (V.tag key.value.value) };

    ghost first = { λ key. first_view D.discipline.algorithm key.waiters key.passes (V.tag key.value.value) };
}

/// The rule implies the rule of a basic lock: the queue has no repeats and consists of the passes that are queued or hold; a holder is its
/// head; a value is at home or there is a holder, and not both; a parked value at home has a pass that is queued or announced; a holder
/// that tested yes isn't announced, and another pass is behind it or announced; one choice, one tag, and a fit value; a counted lock's
/// word `waiting` is the number of announced passes, and no pass of another lock is announced; each number below n has exactly one seat,
/// and no other number has one.
pub fn rule_is_basic<V: Cargo, D: Disciplined>()
    ensures { RuleIsBasic D.discipline V.fit V.tag V.parked }
{
    D::is_disciplined();
}
