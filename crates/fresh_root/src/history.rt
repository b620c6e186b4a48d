//! The table that counts a history.
ghost use Rattle.std.specs.Prelude.{◌≡◌, ◌+◌, ◌^◌, ◌<◌, ◌≤◌, [], ◌∷◌, ◌++◌, length, All, IfOk, vec_capacity};
ghost use Rattle.fresh_root.specs.Prefixes.{IsPrefixOf};
ghost use Rattle.fresh_root.specs.States.{AreAll};
ghost use Rattle.fresh_root.specs.Views.{first_view};

use crate::plays::{Append, Called, CopyList, FreshRule, Keep, Look};
use crate::seen::Seen;
use crate::view::View;
use atomic_table::{Badge, Seat, Shared, Table};
use std::alloc::{AllocError, Global};
use std::marker::Model;
use std::mem;

type Words = Shared<(), View, u32, FreshRule>;

type Counted = Table<(), View, u32, FreshRule, Global>;

// The one word, which counts the calls.
const COUNT: usize = 0;

/// The table with its home seat, as a `Fresh` keeps it. Contracts see its name, how many tokens it gave, and the history, which is the
/// callers of all calls.
#[derive(Drop)]
pub(crate) struct History {
    table: Counted,
    home: Seat<(), View>,
}

impl Model for History {
    ghost use Rattle.fresh_root.specs.States.{HistoryState};

    ghost Value = { HistoryState };

    ghost use Rattle.fresh_root.specs.Histories.{history_state, IsHistory};

    ghost view = { history_state };

    ghost invariant = { IsHistory };
}

impl History {
    /// The history before any call, and the tokens of this many callers, in order.
    pub(crate) fn make(alloc: Global, tokens: u32) -> Result<(History, Vec<Seen>), AllocError>
        ensures tokens { IfOk result (λ m. m.0.tokens ≡ tokens) }
        ensures empty { IfOk result (λ m. m.0.list ≡ []) }
        ensures seens { IfOk result (λ m. AreAll m.0.name tokens m.1.items) }
        ensures blank { IfOk result (λ m. All (λ s. s.list ≡ []) m.1.items) }
    {
        let room = Vec::with_capacity(alloc, tokens as usize)?;
        let (table, mut home) = Table::of_words(alloc, &[0], &tokens)?;
        let seens = split_seens(&table.shared, &mut home, tokens, room);
        Ok((History { table, home }, seens))
    }

    /// Counts one more call, of this caller.
    pub(crate) fn append<C: Called>(&mut self, caller: u32)
        requires caller { caller ≡ C.caller }
        requires room { length self.old.list + 1 < 2 ^ 32 }
        ensures { self.new ≡ record self.old { list = self.old.list ++ caller ∷ [] } }
    {
        let _ = caller;
        let table = &self.table;
        table
            .shared
            .fetch_add::<Append<C>>(&mut self.home, COUNT, 1);
    }

    /// Shows a token the whole history.
    pub(crate) fn show(&mut self, seen: &mut Seen)
        requires own { seen.old.fresh ≡ self.old.name }
        ensures prefix { IsPrefixOf seen.old.list self.old.list }
        ensures seen { seen.new ≡ record seen.old { list = self.old.list } }
        ensures same { self.new ≡ self.old }
    {
        let badge = mem::replace(&mut seen.badge, Badge::blank());
        let mut seat = badge.into_seat();
        let table = &self.table;
        let words = &table.shared;
        let copy = words.split_seat::<CopyList>(&mut seat);
        words.join_seat::<Keep>(&mut self.home, copy);
        let count = words.load::<Look>(&mut self.home, COUNT);
        let copy = words.split_seat::<CopyList>(&mut self.home);
        words.join_seat::<Keep>(&mut seat, copy);
        seen.badge = seat.into_badge();
        seen.length = count as u32;
    }

    /// Takes a token back, whose list is a beginning of the history.
    pub(crate) fn take_back(&mut self, seen: Seen)
        requires own { seen.fresh ≡ self.old.name }
        ensures prefix { IsPrefixOf seen.list self.old.list }
        ensures same { self.new ≡ self.old }
    {
        let mut seen = seen;
        self.show(&mut seen);
    }
}

// Splits off a token for each caller.
fn split_seens(words: &Words, home: &mut Seat<(), View>, tokens: u32, room: Vec<Seen>) -> Vec<Seen>
    requires word { words.now.table_id.words ≡ 1 }
    requires own { home.old.table_id ≡ words.now.table_id }
    requires seat { home.old.me ≡ (first_view, []) }
    requires room { (room.items ≡ []) × (tokens ≤ vec_capacity room) }
    ensures own { home.new.table_id ≡ home.old.table_id }
    ensures seat { home.new.me ≡ (first_view, []) }
    ensures seens { AreAll words.now.table_id tokens result.items }
    ensures blank { All (λ s. s.list ≡ []) result.items }
{
    let mut seens = room;
    for caller in 0..tokens {
        let badge = words.split_seat::<CopyList>(home).into_badge();
        let seen = Seen {
            badge,
            caller,
            length: 0,
        };
        seens.push_reserved(seen);
    }
    seens
}
