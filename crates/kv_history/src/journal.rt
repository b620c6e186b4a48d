//! The journal.
ghost use Rattle.std.specs.Prelude.{◌≡◌, ◌^◌, ◌<◌, ◌≤◌, ◌↔◌, ◌++◌, ◌∷◌, [], length, map, option_map, slice_get, slice_range};
ghost use Rattle.std.specs.Prelude.{sum_by, take, vec_capacity, vec_len, not, IfOk, IsTrue, OnErr, OnOk, Some};
ghost use Rattle.std.specs.Bool.{OnTrue};
ghost use Rattle.std.specs.List.{All, list_all};
ghost use Rattle.mc_text.specs.Request.{request_of, view};
ghost use Rattle.mc_text.specs.Reading.{commands_of, rest_of};
ghost use Rattle.kv_history.specs.Answer.{store_after};
ghost use Rattle.kv_history.specs.Contents.{NoneExpired};
ghost use Rattle.kv_history.specs.Log.{command_count, IsNext, IsOneThread, NoneVoid, VoidIsSilent, EachHasSection, EachOwnFirst, IsHistory};
ghost use Rattle.kv_history.specs.Log.{all_replies, applied, applied_entry, calls, void_entry, store_now};
ghost use Rattle.kv_history.specs.Callers.{section_of, IsTallied};

use crate::Store;
use crate::caller::Caller;
use crate::kept::Kept;
use crate::record::Record;
use mc_text::{Command, Tally};
use out_of_memory::OutOfMemory;
use std::alloc::Global;
use std::marker::Model;

/// What a caller is told of a command that was applied.
#[derive(Clone, Copy, Debug, PartialEq, Eq)]
pub struct Receipt {
    /// The number of the command's entry.
    pub turn: u32,
}

/// An entry of a journal.
#[derive(Clone, Copy, Debug)]
pub struct Entry<'a> {
    /// The number of the caller.
    pub caller: u32,
    /// The bytes of the command.
    pub spelling: &'a [u8],
    /// Whether the command was not applied, for want of memory.
    pub void: bool,
}

/// A store with the list of the commands that callers applied to it, and the replies. Contracts see it as its
/// sections and its entries; `calls` are the callers of the entries. It is one pointer, since it moves with every hold.
#[derive(Drop)]
pub struct Journal<'a> {
    kept: Box<Kept<'a>>,
}

impl<'a> Model for Journal<'a> {
    ghost use Rattle.kv_history.specs.Log.{Log};

    ghost Value = { Log };

    ghost use Rattle.kv_history.specs.Journal.{log_of, IsKept};

    ghost view = { λ journal. log_of journal.kept.value };

    ghost invariant = { λ journal. IsKept journal.kept.value };
}

impl<'a> Journal<'a> {
    /// A journal without entries, with the empty store, for callers with these sections: caller 0 has the first. It
    /// takes room for an entry for each command of every section, and for replies of 32 bytes a command and twice the
    /// sections' bytes; replies that have more than this in all make the room grow.
    pub fn reserve(alloc: Global, sections: &[&'a [u8]]) -> Result<Journal<'a>, OutOfMemory>
        requires { sum_by (λ section. length section.now) sections.now < 2 ^ 32 }
        ensures sections { IfOk result (λ journal. journal.sections ≡ map (λ section. section.now) sections.now) }
        ensures entries { IfOk result (λ journal. journal.entries ≡ []) }
    {
        let callers = callers_of(alloc, sections)?;
        let commands = commands_in(&callers) as usize;
        let kept = Kept {
            records: Vec::with_capacity(alloc, commands)?,
            replies: Vec::with_capacity(alloc, reply_room(commands, sections))?,
            callers,
            store: Store::new(alloc),
        };
        let kept = Box::new(alloc, kept)?;
        Ok(Journal { kept })
    }

    /// Applies the next command of a caller to the store, and appends an entry with its reply; the receipt names its
    /// place. Without memory the store stays, and the entry is void and has an empty reply.
    pub fn apply(&mut self, caller: u32, command: Command<'a>) -> Result<Receipt, OutOfMemory>
        requires { IsNext self.old.sections (calls self.old) caller (view command) }
        ensures sections { self.new.sections ≡ self.old.sections }
        ensures calls { calls self.new ≡ calls self.old ++ caller ∷ [] }
        ensures applied { OnOk result
            (self.new.entries ≡ self.old.entries ++ applied_entry self.old.entries caller (view command.entry) ∷ []) }
        ensures store { OnOk result (store_now self.new.entries ≡ store_after (store_now self.old.entries) (request_of command.entry)) }
        ensures place { IfOk result (λ receipt. receipt.turn ≡ length self.old.entries) }
        ensures void { OnErr result (self.new.entries ≡ self.old.entries ++ void_entry caller (view command.entry) ∷ []) }
        ensures store_stays { OnErr result (store_now self.new.entries ≡ store_now self.old.entries) }
    {
        let kept = &mut *self.kept;
        let turn = kept.records.len() as u32;
        kept.apply(caller, &command)?;
        Ok(Receipt { turn })
    }

    /// What the section of a caller holds, by the caller's number: how many commands, and what stands behind them.
    pub fn tally(&self, caller: usize) -> Tally<'a>
        requires { caller < length self.now.sections }
        ensures commands { option_map (λ section. length (commands_of section)) (slice_get self.now.sections caller)
            ≡ Some result.commands }
        ensures rest { option_map rest_of (slice_get self.now.sections caller) ≡ Some result.rest.now }
    {
        self.kept.callers[caller].tally
    }

    /// What holds of every journal. It does nothing.
    pub fn facts(&self)
        ensures callers { EachHasSection self.now }

        // Each caller's entries are the first commands of its section, in its order.
        ensures own_first { EachOwnFirst self.now }

        // The replies are those of one thread that applies the commands of the entries that aren't void, in their order.
        ensures applied { IsOneThread (applied self.now.entries) }
        ensures silent { VoidIsSilent self.now.entries }

        // Without void entries these are all, and the callers, in their order, and the sections make them.
        ensures one_thread { NoneVoid self.now.entries → IsOneThread self.now.entries }
        ensures history { NoneVoid self.now.entries → IsHistory self.now }

        // The sections together have fewer commands than 2 ^ 32.
        ensures small { command_count self.now.sections < 2 ^ 32 }
    {
        let _ = &self.kept;
    }

    /// The number of entries.
    pub fn entries(&self) -> u32
        ensures { result ≡ length self.now.entries }
    {
        self.kept.records.len() as u32
    }

    /// An entry, by its number.
    pub fn entry(&self, turn: u32) -> Entry<'a>
        requires { turn < length self.now.entries }
        ensures caller { option_map (λ entry. entry.caller) (slice_get self.now.entries turn) ≡ Some result.caller }
        ensures spelling { option_map (λ entry. entry.command.spelling) (slice_get self.now.entries turn) ≡ Some result.spelling.now }
        ensures void { option_map (λ entry. entry.void) (slice_get self.now.entries turn) ≡ Some result.void }
    {
        let record = &self.kept.records[turn as usize];
        Entry {
            caller: record.caller,
            spelling: record.spelling,
            void: record.void,
        }
    }

    /// The reply of an entry, by its number.
    pub fn reply(&self, turn: u32) -> &[u8]
        requires { turn < length self.now.entries }
        ensures { option_map (λ entry. entry.reply) (slice_get self.now.entries turn) ≡ Some result.now }
    {
        let turn = turn as usize;
        part(
            &self.kept.replies,
            self.replies_end(turn),
            self.replies_end(turn + 1),
        )
    }

    /// The replies of all entries, in their order, one behind the other.
    pub fn replies(&self) -> &[u8]
        ensures { result.now ≡ all_replies self.now.entries }
    {
        &self.kept.replies
    }

    // Where the replies of the first so many entries end.
    fn replies_end(&self, entries: usize) -> usize
        requires { entries ≤ length self.now.entries }
        ensures { result ≡ length (all_replies (take entries self.now.entries)) }
    {
        match entries.checked_sub(1) {
            Some(last) => self.kept.records[last].end,
            None => 0,
        }
    }

    /// The store. It holds what the commands of the entries that aren't void leave, in their order, on the empty store, and
    /// no item that has expired.
    pub fn store(&self) -> &Store
        ensures value { result.now ≡ store_now self.now.entries }
        ensures none_expired { NoneExpired result.now }
    {
        &self.kept.store
    }

    /// Whether no entry is void.
    pub fn whole(&self) -> bool
        ensures { IsTrue result ↔ NoneVoid self.now.entries }
    {
        none_void(&self.kept.records)
    }
}

// The bytes of a text between two places.
fn part(text: &[u8], start: usize, end: usize) -> &[u8]
    requires order { start ≤ end }
    requires within { end ≤ length text.now }
    ensures { result.now ≡ slice_range text.now start end }
{
    &text[start..end]
}

// Whether no record is void.
fn none_void(records: &[Record<'_>]) -> bool
    ensures { result ≡ list_all (λ one. not one.void) records.now }
{
    records.iter().all(|record| !record.void)
}

// The callers with these sections.
fn callers_of<'a>(alloc: Global, sections: &[&'a [u8]]) -> Result<Vec<Caller<'a>>, OutOfMemory>
    requires { sum_by (λ section. length section.now) sections.now < 2 ^ 32 }
    ensures sections { IfOk result (λ callers. map section_of callers.items ≡ map (λ section. section.now) sections.now) }
    ensures tallied { IfOk result (λ callers. All IsTallied callers.items) }
{
    let mut callers = Vec::with_capacity(alloc, sections.len())?;
    for section in sections {
        callers.push(Caller {
            section,
            tally: Tally::new(section),
        })?;
    }
    Ok(callers)
}

// How many commands some callers have.
#[tactic(auto, using(std::proofs::lemmas::List::Sums::sum_by_more_le))]
fn commands_in(callers: &[Caller<'_>]) -> u32
    requires { sum_by (λ caller. caller.tally.commands) callers.now < 2 ^ 32 }
    ensures { result ≡ sum_by (λ caller. caller.tally.commands) callers.now }
{
    let mut commands = 0;
    for caller in callers {
        commands += caller.tally.commands;
    }
    commands
}

// How many bytes are taken for the replies to so many commands, which stand in these sections.
fn reply_room(commands: usize, sections: &[&[u8]]) -> usize
    requires commands { commands < 2 ^ 32 }
    requires bytes { sum_by (λ section. length section.now) sections.now < 2 ^ 32 }
{
    let bytes: usize = sections.iter().map(|section| section.len()).sum();
    32 * commands + 2 * bytes
}
