//! The replay of the callers' commands by the journal's store.

ghost use Rattle.std.specs.Prelude.{◌≡◌, ◌<◌, ◌^◌, ◌↔◌, [], length, map, sum_by, IfOk, IsTrue};
ghost use Rattle.kv_history.specs.Log.{EachHasSection, EachOwnFirst, IsOneThread, NoneVoid};
ghost use Rattle.mc_text.specs.Reading as reading;
ghost use Rattle.mc_text.specs.Commands.{commands_left};
ghost use Rattle.run_check.specs.Replays.{AllGiven, Gives};

use kv_history::Journal;
use mc_text::Commands;
use out_of_memory::OutOfMemory;
use run_texts::Section;
use std::alloc::Global;
use std::marker::Model;

/// A journal of the callers' sections, with what each caller still has to give.
#[derive(Drop)]
pub(crate) struct Replay<'a> {
    journal: Journal<'a>,
    left: Vec<Commands<'a>>,
}

impl<'a> Model for Replay<'a> {
    ghost use Rattle.kv_history.specs.Log.{Log};

    ghost Value = { Log };

    ghost use Rattle.run_check.specs.Replays.{log_of, IsReplay};

    ghost view = { log_of };

    ghost invariant = { IsReplay };
}

impl<'a> Replay<'a> {
    /// No caller has given a command.
    pub(crate) fn new(alloc: Global, sections: &[Section<'a>]) -> Result<Replay<'a>, OutOfMemory>
        requires { sum_by (λ section. length section.bytes.now) sections.now < 2 ^ 32 }
        ensures sections { IfOk result (λ replay. replay.sections ≡ map (λ section. section.bytes.now) sections.now) }
        ensures entries { IfOk result (λ replay. replay.entries ≡ []) }
    {
        let lent = bytes_of(alloc, sections)?;
        let journal = Journal::reserve(alloc, &lent)?;
        let left = commands_of(alloc, sections)?;
        Ok(Replay { journal, left })
    }

    /// The journal.
    pub(crate) fn journal(&self) -> &Journal<'a>
        ensures { result.now ≡ self.now }
    {
        &self.journal
    }

    /// What holds of every replay. It does nothing.
    pub(crate) fn facts(&self)
        ensures callers { EachHasSection self.now }
        ensures own_first { EachOwnFirst self.now }
        ensures one_thread { NoneVoid self.now.entries → IsOneThread self.now.entries }
    {
        self.journal.facts();
    }

    /// Applies the next command of a caller, and tells whether it has one. Where memory is refused, the replay is of no further use.
    pub(crate) fn give(&mut self, caller: u32) -> Result<bool, OutOfMemory>
        ensures { IfOk result (Gives self.old self.new caller) }
    {
        let Some(commands) = self.left.get_mut(caller as usize) else {
            return Ok(false);
        };
        let Some(command) = commands.next() else {
            return Ok(false);
        };
        self.journal.apply(caller, command)?;
        Ok(true)
    }

    /// Whether each caller has given all its commands.
    pub(crate) fn has_ended(&self) -> bool
        ensures { IsTrue result ↔ AllGiven self.now }
    {
        self.journal.facts();
        for commands in &self.left {
            let mut commands = *commands;
            if let Some(_) = commands.next() {
                return false;
            }
        }
        true
    }
}

// The bytes of sections.
fn bytes_of<'a>(alloc: Global, sections: &[Section<'a>]) -> Result<Vec<&'a [u8]>, OutOfMemory>
    ensures { IfOk result (λ lent. map (λ bytes. bytes.now) lent.items ≡ map (λ section. section.bytes.now) sections.now) }
{
    let mut lent = Vec::with_capacity(alloc, sections.len())?;
    for section in sections {
        lent.push(section.bytes)?;
    }
    Ok(lent)
}

// All commands of each section.
fn commands_of<'a>(
    alloc: Global,
    sections: &[Section<'a>],
) -> Result<Vec<Commands<'a>>, OutOfMemory>
    ensures { IfOk result (λ left. map commands_left left.items ≡ map (λ section. reading.commands_of section.bytes.now) sections.now) }
{
    let mut left = Vec::with_capacity(alloc, sections.len())?;
    for section in sections {
        left.push(Commands::new(section.bytes))?;
    }
    Ok(left)
}
