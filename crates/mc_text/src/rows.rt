//! What the words behind a command's name say, row by row of the table of commands.
ghost use Rattle.std.specs.Prelude.{◌≡◌, ℕ, List, [], ◌∷◌, IfOk, MatchResult};
ghost use Rattle.byte_text.specs.Words.{words_left};
ghost use Rattle.mc_text.specs.declared.command.LineFault.TheVariants.{Unknown};
ghost use Rattle.mc_text.specs.Request.{request_of, spelling_of};
ghost use Rattle.mc_text.specs.Line.{
  header_of,
  storage_of,
  cas_of,
  retrieval_of,
  delete_of,
  count_of,
  touch_of,
  flush_at,
  delayed_of,
  flush_of,
  verbosity_of,
  moment_of,
  lone_of,
  said_in,
};
ghost use Rattle.mc_text.specs.View.{Answers, fields_view, header_view, line_view, IsSpelled};

use crate::command::{Command, How, LineFault};
use crate::field::{
    read_delta, read_exptime, read_key, read_keys, read_level, read_number32, read_quiet,
    read_unique,
};
use crate::line::{Fields, Header, Line};
use crate::row::Row;
use byte_text::Words;

/// What the words behind a name say.
#[tactic(auto, unfolding(crate::specs::Line::said_in))]
pub(crate) fn read_row<'a>(
    row: Row,
    words: Words<'a>,
    spelling: &'a [u8],
) -> Result<Line<'a>, LineFault>
    ensures said { Answers line_view (said_in row (words_left words.entry)) result }
    ensures spelled { IfOk result (IsSpelled spelling.now) }
{
    match row {
        Row::Storage(how) => read_storage(how, words),
        Row::Cas => read_cas(words),
        Row::Retrieval { uniques } => read_retrieval(uniques, words, spelling),
        Row::Delete => read_delete(words, spelling),
        Row::Count { up } => read_count(up, words, spelling),
        Row::Touch => read_touch(words, spelling),
        Row::Flush => read_flush(words, spelling),
        Row::Version => read_lone(Command::Version { spelling }, words),
        Row::Verbosity => read_verbosity(words, spelling),
        Row::Moment => read_moment(words, spelling),
        Row::Quit => read_lone(Command::Quit { spelling }, words),
    }
}

/// The next word of a line that has to have one.
pub(crate) fn next_word<'a>(words: &mut Words<'a>) -> Result<&'a [u8], LineFault>
    ensures { MatchResult result
        (λ word. words_left words.old ≡ word.now ∷ words_left words.new)
        (λ fault. (fault ≡ Unknown) × (words_left words.old ≡ [])) }
{
    words.next().ok_or(LineFault::Unknown)
}

// key flags exptime bytes [noreply]
#[tactic(auto, unfolding(crate::specs::Line::storage_of))]
fn read_storage<'a>(how: How, mut words: Words<'a>) -> Result<Line<'a>, LineFault>
    ensures said { Answers line_view (storage_of how (words_left words.entry)) result }
    ensures spelled { (spelling : List ℕ) → IfOk result (IsSpelled spelling) }
{
    let key = next_word(&mut words)?;
    let flags = next_word(&mut words)?;
    let exptime = next_word(&mut words)?;
    let bytes = next_word(&mut words)?;
    let quiet = read_quiet(words)?;
    let fields = Fields {
        key,
        flags,
        exptime,
        bytes,
    };
    let header = read_header(how, fields, quiet)?;
    Ok(Line::Storage(header))
}

// key flags exptime bytes unique [noreply]
#[tactic(auto, unfolding(crate::specs::Line::cas_of))]
fn read_cas<'a>(mut words: Words<'a>) -> Result<Line<'a>, LineFault>
    ensures said { Answers line_view (cas_of (words_left words.entry)) result }
    ensures spelled { (spelling : List ℕ) → IfOk result (IsSpelled spelling) }
{
    let key = next_word(&mut words)?;
    let flags = next_word(&mut words)?;
    let exptime = next_word(&mut words)?;
    let bytes = next_word(&mut words)?;
    let unique = next_word(&mut words)?;
    let quiet = read_quiet(words)?;
    let fields = Fields {
        key,
        flags,
        exptime,
        bytes,
    };
    let header = read_header(How::Cas, fields, quiet)?;
    let unique = read_unique(unique)?;
    Ok(Line::Storage(Header { unique, ..header }))
}

// What the words say that each storage line has.
#[tactic(auto, unfolding(crate::specs::Line::header_of))]
fn read_header<'a>(how: How, fields: Fields<'a>, quiet: bool) -> Result<Header<'a>, LineFault>
    ensures { Answers header_view (header_of how (fields_view fields.entry) quiet) result }
{
    let key = read_key(fields.key)?;
    let flags = read_number32(fields.flags)?;
    let exptime = read_exptime(fields.exptime)?;
    let bytes = read_number32(fields.bytes)?;
    Ok(Header {
        how,
        key,
        flags,
        exptime,
        bytes,
        unique: 0,
        quiet,
    })
}

// One or more keys.
#[tactic(auto, unfolding(crate::specs::Line::retrieval_of))]
fn read_retrieval<'a>(
    uniques: bool,
    words: Words<'a>,
    spelling: &'a [u8],
) -> Result<Line<'a>, LineFault>
    ensures said { Answers line_view (retrieval_of uniques (words_left words.entry)) result }
    ensures spelled { IfOk result (IsSpelled spelling.now) }
{
    let keys = read_keys(words)?;
    Ok(Line::Whole(Command::Get {
        uniques,
        keys,
        spelling,
    }))
}

// key [noreply]
#[tactic(auto, unfolding(crate::specs::Line::delete_of))]
fn read_delete<'a>(mut words: Words<'a>, spelling: &'a [u8]) -> Result<Line<'a>, LineFault>
    ensures said { Answers line_view (delete_of (words_left words.entry)) result }
    ensures spelled { IfOk result (IsSpelled spelling.now) }
{
    let key = next_word(&mut words)?;
    let quiet = read_quiet(words)?;
    let key = read_key(key)?;
    Ok(Line::Whole(Command::Delete {
        key,
        quiet,
        spelling,
    }))
}

// key delta [noreply]
#[tactic(auto, unfolding(crate::specs::Line::count_of))]
fn read_count<'a>(up: bool, mut words: Words<'a>, spelling: &'a [u8]) -> Result<Line<'a>, LineFault>
    ensures said { Answers line_view (count_of up (words_left words.entry)) result }
    ensures spelled { IfOk result (IsSpelled spelling.now) }
{
    let key = next_word(&mut words)?;
    let delta = next_word(&mut words)?;
    let quiet = read_quiet(words)?;
    let key = read_key(key)?;
    let delta = read_delta(delta)?;
    Ok(Line::Whole(Command::Count {
        up,
        key,
        delta,
        quiet,
        spelling,
    }))
}

// key exptime [noreply]
#[tactic(auto, unfolding(crate::specs::Line::touch_of))]
fn read_touch<'a>(mut words: Words<'a>, spelling: &'a [u8]) -> Result<Line<'a>, LineFault>
    ensures said { Answers line_view (touch_of (words_left words.entry)) result }
    ensures spelled { IfOk result (IsSpelled spelling.now) }
{
    let key = next_word(&mut words)?;
    let exptime = next_word(&mut words)?;
    let quiet = read_quiet(words)?;
    let key = read_key(key)?;
    let exptime = read_exptime(exptime)?;
    Ok(Line::Whole(Command::Touch {
        key,
        exptime,
        quiet,
        spelling,
    }))
}

// [0] [noreply]
#[tactic(auto, unfolding(crate::specs::Line::flush_of))]
fn read_flush<'a>(words: Words<'a>, spelling: &'a [u8]) -> Result<Line<'a>, LineFault>
    ensures said { Answers line_view (flush_of (words_left words.entry)) result }
    ensures spelled { IfOk result (IsSpelled spelling.now) }
{
    match read_quiet(words) {
        Ok(quiet) => Ok(Line::Whole(Command::Flush { quiet, spelling })),
        Err(_) => read_delayed(words, spelling),
    }
}

// `0`, and maybe `noreply`.
#[tactic(auto, unfolding(crate::specs::Line::delayed_of))]
fn read_delayed<'a>(mut words: Words<'a>, spelling: &'a [u8]) -> Result<Line<'a>, LineFault>
    ensures said { Answers line_view (delayed_of (words_left words.entry)) result }
    ensures spelled { IfOk result (IsSpelled spelling.now) }
{
    let delay = next_word(&mut words)?;
    let quiet = read_quiet(words)?;
    read_delay(delay, quiet, spelling)
}

// A delay of `flush_all`: 0 alone.
#[tactic(auto, unfolding(crate::specs::Line::flush_at))]
fn read_delay<'a>(delay: &[u8], quiet: bool, spelling: &'a [u8]) -> Result<Line<'a>, LineFault>
    ensures said { Answers line_view (flush_at delay.now quiet) result }
    ensures spelled { IfOk result (IsSpelled spelling.now) }
{
    if delay == b"0".as_slice() {
        Ok(Line::Whole(Command::Flush { quiet, spelling }))
    } else {
        Err(LineFault::Format)
    }
}

// level [noreply]
#[tactic(auto, unfolding(crate::specs::Line::verbosity_of))]
fn read_verbosity<'a>(mut words: Words<'a>, spelling: &'a [u8]) -> Result<Line<'a>, LineFault>
    ensures said { Answers line_view (verbosity_of (words_left words.entry)) result }
    ensures spelled { IfOk result (IsSpelled spelling.now) }
{
    let level = next_word(&mut words)?;
    let quiet = read_quiet(words)?;
    read_level(level)?;
    Ok(Line::Whole(Command::Verbosity { quiet, spelling }))
}

// moment [noreply]
#[tactic(auto, unfolding(crate::specs::Line::moment_of))]
fn read_moment<'a>(mut words: Words<'a>, spelling: &'a [u8]) -> Result<Line<'a>, LineFault>
    ensures said { Answers line_view (moment_of (words_left words.entry)) result }
    ensures spelled { IfOk result (IsSpelled spelling.now) }
{
    let moment = next_word(&mut words)?;
    let quiet = read_quiet(words)?;
    let moment = read_number32(moment)?;
    Ok(Line::Whole(Command::Moment {
        moment,
        quiet,
        spelling,
    }))
}

// Nothing behind the name.
#[tactic(auto, unfolding(crate::specs::Line::lone_of))]
fn read_lone<'a>(command: Command<'a>, mut words: Words<'a>) -> Result<Line<'a>, LineFault>
    ensures said { Answers line_view (lone_of (request_of command.entry) (words_left words.entry)) result }
    ensures spelled { IfOk result (IsSpelled (spelling_of command.entry)) }
{
    if words.next().is_none() {
        Ok(Line::Whole(command))
    } else {
        Err(LineFault::Unknown)
    }
}
