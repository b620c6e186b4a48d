//! The table that the receipts of a trail come from.
ghost use Rattle.std.specs.Prelude.{◌≡◌, [], ◌++◌, ◌≢◌, IfOk, replicate};
ghost use Rattle.keep_local.specs.ReceiptRule.{AreFirst};
ghost use Rattle.keep_local.specs.States.{all_tests, new_notes};

use crate::receipt::ClosedReceipt;
use crate::receipt_plays::{Check, ClosedTurns, CopyTurns, ReceiptRule, Record, Show};
use crate::receipt_view::ReceiptView;
use crate::turn::Turn;
use atomic_table::{Badge, Seat, Table};
use out_of_memory::OutOfMemory;
use std::alloc::Global;
use std::marker::{Brand, Model};
use std::mem;

type ReceiptTable = Table<(), ReceiptView, (), ReceiptRule, Global>;

// The one word never changes: each step loads it.
const WORD: usize = 0;

/// The table with its home seat, as a trail keeps it. Contracts see its name and the closed turns, which stand nowhere in memory.
#[derive(Drop)]
pub(crate) struct Receipts {
    table: ReceiptTable,
    home: Seat<(), ReceiptView>,
}

impl Model for Receipts {
    ghost use Rattle.keep_local.specs.States.{NotesState};

    ghost Value = { NotesState };

    ghost use Rattle.keep_local.specs.Receipts.{notes_state, HasHome};

    ghost view = { notes_state };

    ghost invariant = { HasHome };
}

impl Receipts {
    /// The table before any turn.
    pub(crate) fn make(alloc: Global) -> Result<Receipts, OutOfMemory>
        ensures { IfOk result (λ r. r ≡ new_notes r.name) }
    {
        let (table, home) = Table::of_words(alloc, &[0], &())?;
        Ok(Receipts { table, home })
    }

    /// So many turns like this one are closed. Nothing is written but what clauses see.
    pub(crate) fn record(&mut self, turn: Turn, times: u64)
        ensures { self.new ≡ record self.old { turns = self.old.turns ++ replicate times turn } }
    {
        self.record_as::<Brand>(turn, times);
    }

    // The same for the turns that the proof of a call picks.
    fn record_as<T: ClosedTurns>(&mut self, _turn: Turn, _times: u64)
        requires { replicate _times _turn ≡ T.turns }
        ensures { self.new ≡ record self.old { turns = self.old.turns ++ T.turns } }
    {
        let table = &self.table;
        table.shared.load::<Record<T>>(&mut self.home, WORD);
    }

    /// A receipt of the turns that are closed now.
    pub(crate) fn give(&mut self) -> ClosedReceipt
        ensures own { result.name ≡ self.old.name }
        ensures tests { result.tests ≡ all_tests self.old.turns }
        ensures same { self.new ≡ self.old }
    {
        let table = &self.table;
        let seat = table.shared.split_seat::<CopyTurns>(&mut self.home);
        ClosedReceipt {
            badge: seat.into_badge(),
        }
    }

    /// Shows that the tests of a receipt are the first of those of the turns that are closed now.
    pub(crate) fn check(&mut self, receipt: &mut ClosedReceipt)
        requires own { receipt.old.name ≡ self.old.name }
        requires some { receipt.old.tests ≢ [] }
        ensures first { AreFirst receipt.old.tests (all_tests self.old.turns) }
        ensures receipt { receipt.new ≡ receipt.old }
        ensures same { self.new ≡ self.old }
    {
        let badge = mem::replace(&mut receipt.badge, Badge::blank());
        let table = &self.table;
        let mut seat = badge.into_seat();
        let copy = table.shared.split_seat::<CopyTurns>(&mut seat);
        table.shared.join_seat::<Show>(&mut self.home, copy);
        table.shared.load::<Check>(&mut self.home, WORD);
        receipt.badge = seat.into_badge();
    }
}
