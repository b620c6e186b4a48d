//! The rows of the table of commands.
ghost use Rattle.std.specs.Prelude.{◌≡◌};
ghost use Rattle.std.specs.Str.{bytes_eq};
ghost use Rattle.mc_text.specs.Line.{row_of};

use crate::command::How;

/// The rows of the table of commands, by what stands behind the command's name.
#[derive(Clone, Copy, Debug, PartialEq, Eq)]
pub enum Row {
    /// `key flags exptime bytes [noreply]`
    Storage(How),
    /// `key flags exptime bytes unique [noreply]`
    Cas,
    /// One or more keys.
    Retrieval {
        /// Whether the items' uniques are given too.
        uniques: bool,
    },
    /// `key [noreply]`
    Delete,
    /// `key delta [noreply]`
    Count {
        /// Whether it is counted up.
        up: bool,
    },
    /// `key exptime [noreply]`
    Touch,
    /// `[0] [noreply]`
    Flush,
    /// Nothing.
    Version,
    /// `level [noreply]`
    Verbosity,
    /// `moment [noreply]`
    Moment,
    /// Nothing.
    Quit,
}

/// The row that the first word of a line names.
#[tactic(auto, unfolding(crate::specs::Line::row_of))]
pub(crate) fn row_of(name: &[u8]) -> Option<Row>
    ensures { result ≡ row_of name.now }
{
    if is_named(name, b"get") {
        Some(Row::Retrieval { uniques: false })
    } else if is_named(name, b"gets") {
        Some(Row::Retrieval { uniques: true })
    } else if is_named(name, b"set") {
        Some(Row::Storage(How::Set))
    } else if is_named(name, b"add") {
        Some(Row::Storage(How::Add))
    } else if is_named(name, b"replace") {
        Some(Row::Storage(How::Replace))
    } else if is_named(name, b"append") {
        Some(Row::Storage(How::Append))
    } else if is_named(name, b"prepend") {
        Some(Row::Storage(How::Prepend))
    } else if is_named(name, b"cas") {
        Some(Row::Cas)
    } else if is_named(name, b"delete") {
        Some(Row::Delete)
    } else if is_named(name, b"incr") {
        Some(Row::Count { up: true })
    } else if is_named(name, b"decr") {
        Some(Row::Count { up: false })
    } else if is_named(name, b"touch") {
        Some(Row::Touch)
    } else if is_named(name, b"flush_all") {
        Some(Row::Flush)
    } else if is_named(name, b"version") {
        Some(Row::Version)
    } else if is_named(name, b"verbosity") {
        Some(Row::Verbosity)
    } else if is_named(name, b"moment") {
        Some(Row::Moment)
    } else if is_named(name, b"quit") {
        Some(Row::Quit)
    } else {
        None
    }
}

// Whether a name is this word. The word is a constant of a few bytes, so they are compared one by one, with no loop in what is compiled.
#[inline(always)]
fn is_named(name: &[u8], word: &[u8]) -> bool
    ensures { result ≡ bytes_eq name.now word.now }
{
    if name.len() != word.len() {
        return false;
    }
    for (place, byte) in word.iter().enumerate() {
        if name[place] != *byte {
            return false;
        }
    }
    true
}
