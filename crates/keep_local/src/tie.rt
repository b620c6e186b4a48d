//! The table that ties a trail and its shares.
ghost use Rattle.std.specs.Prelude.{◌≡◌, ◌+◌, ◌^◌, ◌<◌, ◌≤◌, [], ◌∷◌, ◌++◌, length, map, replicate, sum, IfOk, vec_capacity};
ghost use Rattle.std.specs.List.{enumerate_from};
ghost use Rattle.keep_local.specs.States.{IsCounted, new_shares};
ghost use Rattle.keep_local.specs.Views.{first_view, home_view};

use crate::plays::{Append, Cut, Glue, Look, TieRule};
use crate::share::Share;
use crate::view::View;
use atomic_table::{Badge, Seat, Shared, Table};
use out_of_memory::OutOfMemory;
use sequence::Sequence;
use std::alloc::Global;
use std::marker::Model;
use std::mem;

type Words = Shared<(), View, Sequence<u64>, TieRule>;

type TieTable = Table<(), View, Sequence<u64>, TieRule, Global>;

// The one word counts the turns. Its number is told to proofs alone.
const TURNS: usize = 0;

/// The table with its home seat, as a trail keeps it. Contracts see its name, the quotas, and the callers of all turns.
#[derive(Drop)]
pub(crate) struct Tie {
    table: TieTable,
    home: Seat<(), View>,
}

impl Model for Tie {
    ghost use Rattle.keep_local.specs.States.{TieState};

    ghost Value = { TieState };

    ghost use Rattle.keep_local.specs.Ties.{tie_state, IsTie};

    ghost view = { tie_state };

    ghost invariant = { IsTie };
}

impl Tie {
    /// The tie before any turn, and a share for each quota, in order.
    pub(crate) fn make(alloc: Global, quotas: &[u64]) -> Result<(Tie, Vec<Share>), OutOfMemory>
        requires few { length quotas.now < 2 ^ 32 }
        requires fits { sum quotas.now < 2 ^ 64 }
        ensures quotas { IfOk result (λ m. m.0.quotas ≡ quotas.now) }
        ensures callers { IfOk result (λ m. m.0.callers ≡ []) }
        ensures shares { IfOk result (λ m. m.1.items ≡ new_shares m.0.name quotas.now) }
    {
        let room = Vec::with_capacity(alloc, quotas.len())?;
        let (table, mut home) = new_table(alloc, quotas)?;
        let shares = split_shares(&table.shared, &mut home, quotas, room);
        Ok((Tie { table, home }, shares))
    }

    /// Counts so many more turns of the share's caller.
    pub(crate) fn append(&mut self, share: &mut Share, turns: u64)
        requires own { share.old.name ≡ self.old.name }
        requires left { share.old.made + turns ≤ share.old.quota }
        ensures tie { self.new ≡ record self.old { callers = self.old.callers ++ replicate turns share.old.caller } }
        ensures share { share.new ≡ record share.old { made = share.old.made + turns } }
        ensures told { IsCounted self.old share.old }
        ensures room { length self.old.callers + turns ≤ sum self.old.quotas }
    {
        let badge = mem::replace(&mut share.badge, Badge::blank());
        let table = &self.table;
        let words = &table.shared;
        words.join_seat::<Glue>(&mut self.home, badge.into_seat());
        words.fetch_add::<Append>(&mut self.home, TURNS, turns);
        share.badge = words.split_seat::<Cut>(&mut self.home).into_badge();
        share.made += turns;
    }

    /// Shows that the share's caller has made as many turns as the share says.
    pub(crate) fn look(&mut self, share: &mut Share)
        requires own { share.old.name ≡ self.old.name }
        ensures tie { self.new ≡ self.old }
        ensures share { share.new ≡ share.old }
        ensures told { IsCounted self.old share.old }
    {
        let badge = mem::replace(&mut share.badge, Badge::blank());
        let table = &self.table;
        let words = &table.shared;
        words.join_seat::<Glue>(&mut self.home, badge.into_seat());
        words.load::<Look>(&mut self.home, TURNS);
        share.badge = words.split_seat::<Cut>(&mut self.home).into_badge();
    }
}

// The table with its word at 0, and its first seat, which has all tallies.
fn new_table(alloc: Global, quotas: &[u64]) -> Result<(TieTable, Seat<(), View>), OutOfMemory>
    requires fits { sum quotas.now < 2 ^ 64 }
    ensures table { IfOk result (λ m. m.0.shared.key ≡ quotas.now) }
    ensures word { IfOk result (λ m. m.0.shared.table_id.words ≡ 1) }
    ensures own { IfOk result (λ m. m.1.table_id ≡ m.0.shared.table_id) }
    ensures seat { IfOk result (λ m. m.1.me ≡ (first_view quotas.now, [])) }
{
    let about = Sequence::from_vec(quotas.to_vec(alloc)?);
    Ok(Table::of_words(alloc, &[0], &about)?)
}

// Splits off a share for each quota.
fn split_shares(
    words: &Words,
    home: &mut Seat<(), View>,
    quotas: &[u64],
    room: Vec<Share>,
) -> Vec<Share>
    requires word { words.now.table_id.words ≡ 1 }
    requires own { home.old.table_id ≡ words.now.table_id }
    requires seat { home.old.me ≡ (first_view quotas.now, []) }
    requires few { length quotas.now < 2 ^ 32 }
    requires room { (room.items ≡ []) × (length quotas.now ≤ vec_capacity room) }
    ensures own { home.new.table_id ≡ home.old.table_id }
    ensures seat { home.new.me ≡ (home_view quotas.now [] [], []) }
    ensures shares { result.items ≡ new_shares words.now.table_id quotas.now }
{
    let mut shares = room;
    for (caller, quota) in quotas.iter().enumerate() {
        let badge = words.split_seat::<Cut>(home).into_badge();
        let share = Share {
            badge,
            caller: caller as u32,
            made: 0,
            quota: *quota,
        };
        shares.push_reserved(share);
    }
    shares
}
