//! What a line says.
ghost use Rattle.std.specs.Prelude.{◌≡◌, IfOk};
ghost use Rattle.byte_text.specs.Words.{words_left};
ghost use Rattle.mc_text.specs.Line.{without_return, words_of_line, said_by, line_of};
ghost use Rattle.mc_text.specs.View.{Answers, line_view, IsSpelled};

use crate::command::{Command, How, LineFault};
use crate::row::row_of;
use crate::rows::{next_word, read_row};
use byte_text::Words;

/// What a storage line says.
#[derive(Clone, Copy, Debug)]
pub(crate) struct Header<'a> {
    pub how: How,
    pub key: &'a [u8],
    pub flags: u32,
    pub exptime: i32,
    pub bytes: u32,
    pub unique: u64,
    pub quiet: bool,
}

/// What a line says: it announces a block, or is a command by itself.
#[derive(Clone, Copy, Debug)]
pub(crate) enum Line<'a> {
    Storage(Header<'a>),
    Whole(Command<'a>),
}

// The words of a storage line behind its name that each such line has.
#[derive(Clone, Copy, Debug)]
pub(crate) struct Fields<'a> {
    pub key: &'a [u8],
    pub flags: &'a [u8],
    pub exptime: &'a [u8],
    pub bytes: &'a [u8],
}

/// What a line says, whose `\n` is cut off in `content`; a line with a fault is a command that asks for nothing.
pub(crate) fn read_line<'a>(content: &'a [u8], spelling: &'a [u8]) -> Line<'a>
    ensures said { line_view result ≡ line_of (words_of_line content.now) }
    ensures spelled { IsSpelled spelling.now result }
{
    match read_words(Words::new(without_return(content)), spelling) {
        Ok(line) => line,
        Err(fault) => Line::Whole(Command::Bad { fault, spelling }),
    }
}

// The text without a `\r` at its end.
fn without_return(text: &[u8]) -> &[u8]
    ensures { result.now ≡ without_return text.now }
{
    match text {
        [front @ .., b'\r'] => front,
        _ => text,
    }
}

// What the words of a line say.
#[tactic(auto, unfolding(crate::specs::Line::said_by))]
fn read_words<'a>(mut words: Words<'a>, spelling: &'a [u8]) -> Result<Line<'a>, LineFault>
    ensures said { Answers line_view (said_by (words_left words.entry)) result }
    ensures spelled { IfOk result (IsSpelled spelling.now) }
{
    let name = next_word(&mut words)?;
    match row_of(name) {
        Some(row) => read_row(row, words, spelling),
        None => Err(LineFault::Unknown),
    }
}
