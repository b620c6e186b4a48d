//! The printed text of a run.
ghost use Rattle.std.specs.Prelude.{◌≡◌, ◌<◌, ◌/◌, ◌%◌, ◌++◌, IfOk, OnOk, length, map, slice_get, Some};
ghost use Rattle.keep_local.specs.States.{callers_in};
ghost use Rattle.kv_history.specs.Log.{NoneVoid, calls};
ghost use Rattle.run_texts.specs.Text.{line_front, turn_line, turns_text};
ghost use Rattle.run_texts.specs.Entries.{told_entry};
ghost use Rattle.run_texts.specs.Views.{section_view};

use crate::lines::{Line, push_behind_front, push_caller, push_front};
use crate::section::Section;
use crate::size::text_size;
use keep_local::Turn;
use kv_history::Journal;
use out_of_memory::OutOfMemory;
use std::alloc::{AllocError, Global};

/// The text of these turns: a line for each turn, with the command and the reply of the journal's entry, and then one for each
/// caller, in a buffer of its size. The journal is one of these sections, without void entries, whose callers are those of the
/// turns, in order.
pub fn text(
    alloc: Global,
    sections: &[Section<'_>],
    turns: &[Turn],
    journal: &Journal<'_>,
) -> Result<Vec<u8>, OutOfMemory>
    requires same { journal.now.sections ≡ map (λ section. section.bytes.now) sections.now }
    requires whole { NoneVoid journal.now.entries }
    requires calls { callers_in turns.now ≡ calls journal.now }
    ensures text { IfOk result (λ text. text.items ≡ turns_text (map section_view sections.now) turns.now) }
{
    journal.facts();
    let mut out = Vec::with_capacity(alloc, text_size(sections, turns, journal))?;
    let mut front = Vec::new(alloc);
    for number in 0..journal.entries() {
        set_front(&mut front, number)?;
        let turn = turns[number as usize];
        push_entry(&mut out, &front, sections, turn, number, journal)?;
    }
    for (caller, section) in sections.iter().enumerate() {
        push_caller(&mut out, caller, section, journal)?;
    }
    Ok(out)
}

// Makes a text the front of the line with this number; ten lines that follow each other have the same.
#[tactic(auto)]
fn set_front(front: &mut Vec<u8>, number: u32) -> Result<(), AllocError>
    requires { 0 < number % 10 → front.old.items ≡ line_front (number / 10) }
    ensures { OnOk result (front.new.items ≡ line_front (number / 10)) }
{
    if number.is_multiple_of(10) {
        front.clear();
        push_front(front, number / 10)?;
    }
    Ok(())
}

// Appends the line of a turn, for which the entry with this number stands in the journal, and whose front is given.
fn push_entry(
    out: &mut Vec<u8>,
    front: &[u8],
    sections: &[Section<'_>],
    turn: Turn,
    number: u32,
    journal: &Journal<'_>,
) -> Result<(), AllocError>
    requires there { number < length journal.now.entries }
    requires front { front.now ≡ line_front (number / 10) }
    ensures { OnOk result ((entry : _) × (slice_get journal.now.entries number ≡ Some entry)
        × (out.new.items ≡ out.old.items ++ turn_line (map section_view sections.now) number (told_entry turn entry))) }
{
    push_behind_front(
        out,
        front,
        sections,
        number,
        &Line {
            turn,
            command: journal.entry(number).spelling,
            reply: journal.reply(number),
        },
    )
}
