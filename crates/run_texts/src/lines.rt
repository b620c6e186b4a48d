//! The lines of a printed run.
ghost use Rattle.std.specs.Prelude.{◌≡◌, ◌+◌, ◌/◌, ◌<◌, ◌++◌, ◌∷◌, [], OnOk, Some, codes, decimal, map, slice_get};
ghost use Rattle.run_texts.specs.Text.{labelled, level_numbers, line_front, line_behind, turn_line, caller_line, pu_of};
ghost use Rattle.run_texts.specs.Views.{section_view, line_view};

use crate::escape::push_ended;
use crate::section::Section;
use byte_text::push_decimal;
use keep_local::Turn;
use kv_history::Journal;
use std::alloc::AllocError;

/// A turn, with its command and its reply.
#[derive(Clone, Copy)]
pub struct Line<'a> {
    /// How the caller found and left the lock.
    pub turn: Turn,
    /// The bytes of the command.
    pub command: &'a [u8],
    /// The bytes of its reply.
    pub reply: &'a [u8],
}

/// Appends the line of a turn, which has this number. The one error is that memory was refused; some of the line may be appended then.
pub fn push_turn(
    out: &mut Vec<u8>,
    sections: &[Section<'_>],
    number: u32,
    line: &Line<'_>,
) -> Result<(), AllocError>
    ensures { OnOk result (out.new.items ≡ out.old.items ++ turn_line (map section_view sections.now) number (line_view line.now)) }
{
    push_front(out, number / 10)?;
    push_behind(out, sections, number, line)
}

/// Appends the line of a turn whose front is given.
pub(crate) fn push_behind_front(
    out: &mut Vec<u8>,
    front: &[u8],
    sections: &[Section<'_>],
    number: u32,
    line: &Line<'_>,
) -> Result<(), AllocError>
    requires { front.now ≡ line_front (number / 10) }
    ensures { OnOk result (out.new.items ≡ out.old.items ++ turn_line (map section_view sections.now) number (line_view line.now)) }
{
    out.extend_from_slice(front)?;
    push_behind(out, sections, number, line)
}

/// Appends what stands in front of the last digit in the lines of ten turns, whose numbers have these tens.
#[tactic(auto, unfolding(crate::specs::Text::line_front))]
pub(crate) fn push_front(out: &mut Vec<u8>, tens: u32) -> Result<(), AllocError>
    ensures { OnOk result (out.new.items ≡ out.old.items ++ line_front tens) }
{
    out.extend_from_slice(b"turn ")?;
    if tens == 0 {
        return Ok(());
    }
    push_decimal(out, u64::from(tens))
}

// Appends the line of a turn from the last digit of its number on.
#[tactic(auto, unfolding(crate::specs::Text::line_behind, crate::specs::Text::quoted))]
fn push_behind(
    out: &mut Vec<u8>,
    sections: &[Section<'_>],
    number: u32,
    line: &Line<'_>,
) -> Result<(), AllocError>
    ensures { OnOk result (out.new.items ≡ out.old.items ++ line_behind (map section_view sections.now) number (line_view line.now)) }
{
    let pu = pu_of(sections, line.turn.caller);
    push_holder(out, (number % 10) as u8, pu, line.turn)?;
    push_ended(out, line.command, b"\" \"", b"\\r\\n\" \"")?;
    push_ended(out, line.reply, b"\"\n", b"\\r\\n\"\n")
}

// Appends the last digit of a turn's number, the other numbers of its line (its caller, where that stands, and how it found and left the
// lock) and the quote in front of its command. Under a lock of one level the last numbers are all 0.
fn push_holder(out: &mut Vec<u8>, digit: u8, pu: u32, turn: Turn) -> Result<(), AllocError>
    requires { digit < 10 }
    ensures { OnOk result (out.new.items ≡ out.old.items ++ (((48 + digit) ∷ [])
        ++ (labelled ((codes " caller ", turn.caller) ∷ (codes " pu ", pu) ∷ level_numbers turn) ++ codes " \""))) }
{
    if turn.caller < 10 && pu < 10 && turn.climb == 0 && turn.tests == 0 && turn.left == 0 {
        return out.extend_from_slice(&short_holder(digit, turn.caller as u8, pu as u8));
    }
    out.extend_from_slice(&[b'0' + digit])?;
    push_labelled(out, b" caller ", u64::from(turn.caller))?;
    push_labelled(out, b" pu ", u64::from(pu))?;
    push_levels(out, turn)?;
    out.extend_from_slice(b" \"")
}

// A digit, a caller and where it stands, of one digit each, the numbers of a turn under a lock of one level, with their names, and a quote.
#[inline(always)]
fn short_holder(digit: u8, caller: u8, pu: u8) -> [u8; 40]
    requires digit { digit < 10 }
    requires caller { caller < 10 }
    requires pu { pu < 10 }
    ensures { result ≡ ((48 + digit) ∷ []) ++ (labelled ((codes " caller ", caller) ∷ (codes " pu ", pu) ∷ (codes " climb ", 0)
        ∷ (codes " tests ", 0) ∷ (codes " left ", 0) ∷ []) ++ codes " \"") }
{
    let digit = b'0' + digit;
    let caller = b'0' + caller;
    let pu = b'0' + pu;
    [
        digit, b' ', b'c', b'a', b'l', b'l', b'e', b'r', b' ', caller, b' ', b'p', b'u', b' ', pu,
        b' ', b'c', b'l', b'i', b'm', b'b', b' ', b'0', b' ', b't', b'e', b's', b't', b's', b' ',
        b'0', b' ', b'l', b'e', b'f', b't', b' ', b'0', b' ', b'"',
    ]
}

// Appends how a turn found and left the lock.
fn push_levels(out: &mut Vec<u8>, turn: Turn) -> Result<(), AllocError>
    ensures { OnOk result (out.new.items ≡ out.old.items ++ labelled (level_numbers turn)) }
{
    push_labelled(out, b" climb ", u64::from(turn.climb))?;
    push_labelled(out, b" tests ", u64::from(turn.tests))?;
    push_labelled(out, b" left ", u64::from(turn.left))
}

// The PU of a caller.
fn pu_of(sections: &[Section<'_>], caller: u32) -> u32
    ensures { result ≡ pu_of (map section_view sections.now) caller }
{
    match sections.get(caller as usize) {
        Some(section) => section.pu,
        None => 0,
    }
}

/// Appends the line of a caller: its number, its PU, how many commands its section has and how many bytes stand behind them. The journal
/// is one of the callers' sections. The one error is that memory was refused; some of the line may be appended then.
#[tactic(auto, unfolding(crate::specs::Text::caller_line))]
pub fn push_caller(
    out: &mut Vec<u8>,
    caller: usize,
    section: &Section<'_>,
    journal: &Journal<'_>,
) -> Result<(), AllocError>
    requires { slice_get journal.now.sections caller ≡ Some section.now.bytes.now }
    ensures { OnOk result (out.new.items ≡ out.old.items ++ caller_line caller (section_view section.now)) }
{
    let tally = journal.tally(caller);
    push_labelled(out, b"caller ", caller as u64)?;
    push_labelled(out, b" pu ", u64::from(section.pu))?;
    push_labelled(out, b" commands ", u64::from(tally.commands))?;
    push_labelled(out, b" rest ", tally.rest.len() as u64)?;
    out.extend_from_slice(b"\n")
}

// Appends a number behind its name.
#[inline(always)]
fn push_labelled(out: &mut Vec<u8>, label: &[u8], number: u64) -> Result<(), AllocError>
    ensures { OnOk result (out.new.items ≡ out.old.items ++ (label.now ++ decimal number)) }
{
    out.extend_from_slice(label)?;
    push_number(out, number)
}

// Appends the digits of a number. Most numbers of a line have one digit, which is appended at once.
#[tactic(auto, using(std::proofs::lemmas::Fmt::decimal_digit))]
fn push_number(out: &mut Vec<u8>, number: u64) -> Result<(), AllocError>
    ensures { OnOk result (out.new.items ≡ out.old.items ++ decimal number) }
{
    if number < 10 {
        out.extend_from_slice(&[b'0' + number as u8])
    } else {
        push_decimal(out, number)
    }
}
