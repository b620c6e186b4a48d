//! How many bytes the printed text of a run has, so that its buffer is made once, of that size. These numbers are hints: they are
//! exact where each caller has given all its commands, and where one were too small, the buffer would grow.
ghost use Rattle.std.specs.Prelude.{◌≡◌, ◌<◌, length, map};

use crate::section::Section;
use keep_local::Turn;
use kv_history::Journal;

// The bytes of a turn's line beside the digits of its numbers and its texts: its six names, a space and quotes for each text, and
// its end.
const TURN_BYTES: usize = 44;

// Those of a caller's line: its four names and its end.
const CALLER_BYTES: usize = 28;

/// How many bytes the text of these turns has.
pub(crate) fn text_size(sections: &[Section<'_>], turns: &[Turn], journal: &Journal<'_>) -> usize
    requires { journal.now.sections ≡ map (λ section. section.bytes.now) sections.now }
{
    let mut size = counting_size(journal.entries())
        .wrapping_add(levels_size(turns))
        .wrapping_add(escaped_size(journal.replies()));
    for (caller, section) in sections.iter().enumerate() {
        size = size.wrapping_add(caller_size(caller, section, journal));
    }
    size
}

// How many digits the numbers below a count have, one behind the other: one each, and one more from each power of ten on.
fn counting_size(count: u32) -> usize {
    let count = count as usize;
    let mut size = count;
    for power in POWERS {
        size = size.wrapping_add(count.saturating_sub(power));
    }
    size
}

const POWERS: [usize; 9] = [
    10,
    100,
    1_000,
    10_000,
    100_000,
    1_000_000,
    10_000_000,
    100_000_000,
    1_000_000_000,
];

// How many digits the numbers of turns have that tell how they found and left the lock.
fn levels_size(turns: &[Turn]) -> usize {
    let mut size = turns.len().wrapping_mul(3);
    for turn in turns {
        // Where no number has a bit above the lowest three, each has one digit, as under a lock of one level.
        if (turn.climb | turn.tests | turn.left) > 7 {
            size = size.wrapping_add(more_digits(turn));
        }
    }
    size
}

// How many digits these numbers of a turn have beyond one each.
fn more_digits(turn: &Turn) -> usize {
    digits(u64::from(turn.climb))
        .wrapping_add(digits(u64::from(turn.tests)))
        .wrapping_add(digits(u64::from(turn.left)))
        .wrapping_sub(3)
}

// How many bytes the line of a caller has, and those of its turns, but for their replies and the numbers of their own.
fn caller_size(caller: usize, section: &Section<'_>, journal: &Journal<'_>) -> usize
    requires { caller < length journal.now.sections }
{
    let tally = journal.tally(caller);
    let place = digits(caller as u64).wrapping_add(digits(u64::from(section.pu)));
    let turns = (tally.commands as usize).wrapping_mul(TURN_BYTES.wrapping_add(place));
    let spelled = section.bytes.len().saturating_sub(tally.rest.len());
    CALLER_BYTES
        .wrapping_add(place)
        .wrapping_add(digits(u64::from(tally.commands)))
        .wrapping_add(digits(tally.rest.len() as u64))
        .wrapping_add(turns)
        .wrapping_add(escaped_size(&section.bytes[..spelled]))
}

// How many digits a number has. Most have one.
fn digits(number: u64) -> usize {
    if number < 10 {
        return 1;
    }
    match number.checked_ilog10() {
        Some(power) => power as usize + 1,
        None => 1,
    }
}

// How many bytes a text has between quotes.
fn escaped_size(text: &[u8]) -> usize {
    let mut size = text.len();
    for piece in text.chunks(PIECE) {
        size = size.wrapping_add(usize::from(more_in(piece)));
    }
    size
}

// So few bytes at a time that eight bits have what they take beyond one each: many bytes are then counted together.
const PIECE: usize = 64;

// How many bytes a piece of a text takes between quotes beyond one each: three for each byte without a sign of its own, but one for a line
// end's, and one for a sign with a backslash.
fn more_in(piece: &[u8]) -> u8 {
    let mut more: u8 = 0;
    for byte in piece {
        let hidden = u8::from(byte.wrapping_sub(b' ') > b'~' - b' ');
        let line_end = u8::from(*byte == b'\r') + u8::from(*byte == b'\n');
        let sign = u8::from(*byte == b'"') + u8::from(*byte == b'\\');
        more = more
            .wrapping_add(3 * hidden + sign)
            .wrapping_sub(2 * line_end);
    }
    more
}
