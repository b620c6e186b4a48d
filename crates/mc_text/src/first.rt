//! The command at the front of a text.
ghost use Rattle.std.specs.Prelude.{◌≡◌, ◌+◌, ◌≤◌, length, true, Contains, IfSome, MatchOption, option_map};
ghost use Rattle.byte_text.specs.Cuts.{IsCutAt};
ghost use Rattle.mc_text.specs.Request.{view, request_of, spelling_of};
ghost use Rattle.mc_text.specs.View.{header_view};
ghost use Rattle.mc_text.specs.Reading.{line_end, stored, first_command};
ghost use Rattle.mc_text.specs.Lone.{IsLoneLetter, Passes};

use crate::command::{Command, LineFault};
use crate::line::{Header, Line, read_line};
use memchr::memchr;

// The greatest number of bytes of a value.
const VALUE_LIMIT: usize = 1_048_576;

/// The whole command with which a text begins; `None` where it begins with none.
#[tactic(auto, using(crate::proofs::Steps::steps))]
pub(crate) fn first_command(text: &[u8]) -> Option<Command<'_>>
    ensures { option_map view result ≡ first_command text.now }
{
    let (content, behind) = cut_line(text)?;
    let line_length = content.len() + 1;
    match read_line(content, &text[..line_length]) {
        Line::Whole(command) => Some(command),
        Line::Storage(header) => {
            let (block, tail) = behind.split_at_checked(header.bytes as usize)?;
            let (ended, more) = line_end(tail)?;
            let spelling = &text[..line_length + block.len() + more];
            Some(stored(header, block, ended, spelling))
        }
    }
}

/// What stands behind the first line of a text, where its first letter tells that it is a command by itself, and not `quit`.
pub(crate) fn pass_line(text: &[u8]) -> Option<&[u8]>
    ensures { IfSome result (λ behind. Passes text.now behind.now) }
{
    if !is_lone(*text.first()?) {
        return None;
    }
    let (_, behind) = cut_line(text)?;
    Some(behind)
}

// The line at the front of a text without its `\n`, and what stands behind that; `None` where the text has no `\n`.
fn cut_line(text: &[u8]) -> Option<(&[u8], &[u8])>
    ensures { MatchOption result (¬ Contains text.now 10) (λ parts. IsCutAt 10 text.now parts.0.now parts.1.now) }
{
    let place = memchr(b'\n', text)?;
    Some((&text[..place], &text[place + 1..]))
}

// Whether no name of a storage command, nor `quit`, begins with this letter, and it is one of a name.
fn is_lone(letter: u8) -> bool
    ensures { result ≡ true → IsLoneLetter letter }
{
    matches!(letter, b'd' | b'f' | b'g' | b'i' | b'm' | b't' | b'v')
}

// How many bytes behind a block through the next `\n`, and whether they are `\r\n`; none where less than two bytes or no `\n`
// stand there.
#[tactic(auto, using(crate::proofs::Blocks::ends))]
fn line_end(tail: &[u8]) -> Option<(bool, usize)>
    ensures value { result ≡ line_end tail.now }
    ensures bound { IfSome result (λ end. end.1 ≤ length tail.now) }
{
    if tail.len() < 2 {
        None
    } else if tail.starts_with(b"\r\n") {
        Some((true, 2))
    } else {
        let (other, _) = cut_line(tail)?;
        Some((false, other.len() + 1))
    }
}

// What a storage line asks for, by its block and whether `\r\n` follows that.
fn stored<'a>(header: Header<'a>, block: &'a [u8], ended: bool, spelling: &'a [u8]) -> Command<'a>
    ensures request { request_of result ≡ stored (header_view header.entry) block.now ended }
    ensures spelled { spelling_of result ≡ spelling.now }
{
    if header.bytes as usize > VALUE_LIMIT {
        return Command::Bad {
            fault: LineFault::TooLarge,
            spelling,
        };
    }
    if !ended {
        return Command::Bad {
            fault: LineFault::Chunk,
            spelling,
        };
    }
    Command::Store {
        how: header.how,
        key: header.key,
        flags: header.flags,
        exptime: header.exptime,
        unique: header.unique,
        block,
        quiet: header.quiet,
        spelling,
    }
}
