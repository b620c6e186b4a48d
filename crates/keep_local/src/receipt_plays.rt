//! The rule of the table that the receipts of a trail come from, and its four kinds of step. No step changes the table's word: by each the
//! home seat learns of closed turns or is told something, or a seat is split off or joined.
ghost use Rattle.keep_local.specs.ReceiptRule.{AreOneList};
ghost use Rattle.keep_local.specs.ReceiptViews.{before_turns, itself, copy_of, shown_to, no_turns};
ghost use Rattle.keep_local.specs.ReceiptSteps.{recorded, checked, none_closed};

use crate::receipt_view::ReceiptView;
use atomic_table::{Join, Play, Split, TableRule};
use std::marker::{Brand, PhantomData};

/// The rule of the table.
pub struct ReceiptRule;

impl TableRule<(), ReceiptView, ()> for ReceiptRule {
    ghost holds = { λ _. AreOneList };

    ghost first = { λ _. before_turns };
}

/// The turns that a step records, for the proof alone. A call at `Brand` picks them.
pub trait ClosedTurns {
    ghost use Rattle.std.specs.Prelude.{List};
    ghost use Rattle.keep_local.specs.declared.turn.Turn.{Turn};

    ghost turns: { List Turn };
}

impl ClosedTurns for Brand {
    ghost turns = { none_closed };
}

/// The load by which the home seat adds turns to those that are closed.
pub struct Record<T> {
    of: PhantomData<T>,
}

impl<T: ClosedTurns> Play<(), ReceiptView> for Record<T> {
    ghost then = { recorded T.turns };
}

/// The load by the home seat, which tells that what it was shown are the first of the turns that it knows.
pub struct Check;

impl Play<(), ReceiptView> for Check {
    ghost then = { checked };
}

/// A new seat knows the same closed turns.
pub struct CopyTurns;

impl Split<ReceiptView> for CopyTurns {
    ghost left = { itself };

    ghost right = { copy_of };
}

/// A seat is shown what another knows, which is spent.
pub struct Show;

impl Join<ReceiptView> for Show {
    ghost both = { shown_to };

    ghost spent = { no_turns };
}
