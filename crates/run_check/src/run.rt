//! A run under way, as its lines tell it.

ghost use Rattle.std.specs.Prelude.{◌≡◌, ℕ, ◌+◌, ◌-◌, ◌<◌, ◌≤◌, ◌^◌, ◌↔◌, List, [], ◌++◌, length, map, slice_get, sum_by};
ghost use Rattle.std.specs.Prelude.{IfOk, IsTrue, MatchOption, OnOk, Some};
ghost use Rattle.keep_local.specs.declared.shape.Shape as tree;
ghost use Rattle.keep_local.specs.Shapes.{top_of};
ghost use Rattle.kv_history.specs.Log.{EachHasSection, EachOwnFirst, IsOneThread, Logged, NoneVoid};
ghost use Rattle.run_texts.specs.Entries.{told_entry};
ghost use Rattle.run_texts.specs.Callers.{Placed};
ghost use Rattle.run_texts.specs.Text.{caller_line, turn_line};
ghost use Rattle.run_texts.specs.Views.{section_view};
ghost use Rattle.run_check.specs.Broken.{HaveEnded};
ghost use Rattle.run_check.specs.Runs.{holds_of, HasNextTurn, IsUnderWay, Makes, TellsNoTurn};

use crate::reading::read_hold;
use crate::replay::Replay;
use crate::turns::Turns;
use keep_local::{Shape, Turn};
use out_of_memory::OutOfMemory;
use run_texts::{Line, Section, push_caller, push_turn};
use std::alloc::Global;
use std::marker::Model;

/// The turns of the lines so far, with the commands that their callers have given.
#[derive(Drop)]
pub(crate) struct Run<'a> {
    turns: Turns,
    replay: Replay<'a>,
}

impl<'a> Model for Run<'a> {
    ghost use Rattle.run_check.specs.Runs.{Course};

    ghost Value = { Course };

    ghost use Rattle.run_check.specs.Runs.{course_of};

    ghost view = { course_of };
}

impl<'a> Run<'a> {
    /// No turn was made.
    pub(crate) fn new(alloc: Global, sections: &[Section<'a>]) -> Result<Run<'a>, OutOfMemory>
        requires { sum_by (λ section. length section.bytes.now) sections.now < 2 ^ 32 }
        ensures turns { IfOk result (λ run. run.turns ≡ []) }
        ensures under_way { IfOk result (λ run. (shape : tree.Shape) → IsUnderWay (map section_view sections.now) shape run) }
    {
        let replay = Replay::new(alloc, sections)?;
        Ok(Run {
            turns: Turns::new(alloc),
            replay,
        })
    }

    /// What holds of every run. It does nothing.
    pub(crate) fn facts(&self)
        ensures callers { EachHasSection self.now.log }
        ensures own_first { EachOwnFirst self.now.log }
        ensures one_thread { NoneVoid self.now.log.entries → IsOneThread self.now.log.entries }
    {
        self.replay.facts();
    }

    /// Makes the turn whose line stands at the front of a text, and gives what stands behind the line; `None` where no turn makes a line
    /// there. In that case, and where memory is refused, the run is of no further use.
    pub(crate) fn make<'t>(
        &mut self,
        shape: &Shape,
        sections: &[Section<'a>],
        text: &'t [u8],
        line: &mut Vec<u8>,
    ) -> Result<Option<&'t [u8]>, OutOfMemory>
        requires levels { top_of shape.now ≤ 32 }
        requires few { length sections.now < 2 ^ 32 }
        requires room { length self.old.turns + 1 < 2 ^ 32 }
        requires under_way { IsUnderWay (map section_view sections.now) shape.now self.old }
        ensures { IfOk result (Makes (map section_view sections.now) shape.now self.old self.new text.now) }
    {
        self.replay.facts();
        let Some(turn) = self.next(shape, text) else {
            return Ok(None);
        };
        if !self.replay.give(turn.caller)? {
            return Ok(None);
        }
        self.turns.push(turn)?;
        line.clear();
        self.push_last(sections, turn, line)?;
        Ok(text.strip_prefix(line.as_slice()))
    }

    // The turn that the front of a text tells, where that follows the turns so far.
    fn next(&self, shape: &Shape, text: &[u8]) -> Option<Turn>
        requires { top_of shape.now ≤ 32 }
        ensures { MatchOption result
            (TellsNoTurn shape.now self.now.turns text.now)
            (HasNextTurn shape.now self.now.turns text.now) }
    {
        self.turns.next(shape, read_hold(text)?)
    }

    // Appends the line of the last turn.
    fn push_last(
        &self,
        sections: &[Section<'a>],
        turn: Turn,
        line: &mut Vec<u8>,
    ) -> Result<(), OutOfMemory>
        requires { 0 < length self.now.log.entries }
        ensures { OnOk result ((entry : Logged)
            × (slice_get self.now.log.entries (length self.now.log.entries - 1) ≡ Some entry)
            × (line.new.items ≡ line.old.items
            ++ turn_line (map section_view sections.now) (length self.now.log.entries - 1) (told_entry turn entry))) }
    {
        let journal = self.replay.journal();
        let number = journal.entries() - 1;
        let told = Line {
            turn,
            command: journal.entry(number).spelling,
            reply: journal.reply(number),
        };
        push_turn(line, sections, number, &told)?;
        Ok(())
    }

    /// Whether each caller has given all its commands, and the last turn left at the top.
    pub(crate) fn has_ended(&self, shape: &Shape) -> bool
        requires { top_of shape.now ≤ 32 }
        ensures { (sections : List Placed) → IsUnderWay sections shape.now self.now
            → (IsTrue result ↔ HaveEnded sections shape.now (holds_of self.now.turns)) }
    {
        self.replay.has_ended() && self.turns.has_ended(shape)
    }

    /// What stands behind a caller's line at the front of a text; `None` where another line stands there, or none.
    pub(crate) fn pass_caller<'t>(
        &self,
        caller: usize,
        section: &Section<'a>,
        text: &'t [u8],
        line: &mut Vec<u8>,
    ) -> Result<Option<&'t [u8]>, OutOfMemory>
        requires { slice_get self.now.log.sections caller ≡ Some section.now.bytes.now }
        ensures { IfOk result (λ passed. MatchOption passed
            ((rest : List ℕ) → text.now ≡ caller_line caller (section_view section.now) ++ rest → ⊥)
            (λ rest. text.now ≡ caller_line caller (section_view section.now) ++ rest.now)) }
    {
        line.clear();
        push_caller(line, caller, section, self.replay.journal())?;
        Ok(text.strip_prefix(line.as_slice()))
    }
}
