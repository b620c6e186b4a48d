//! Examples from outside the definitions: memcached's answers where they lie in the profile, and the profile's own.
ghost use Rattle.std.specs.Prelude.{◌≡◌, ◌+◌, ◌<◌, ◌^◌, ◌∷◌, [], length, IfOk};
ghost use Rattle.mc_text.specs.Reading.{commands_of};
ghost use Rattle.kv_history.specs.Answer.{replies_of};
ghost use Rattle.kv_history.specs.Log.{commands, replies};

use kv_history::{Journal, Store};
use mc_text::Commands;
use out_of_memory::OutOfMemory;
use std::alloc::Global;
use std::process::Abort;
use std::test::Fail;
use std::thread::join;

mod drills;
mod lines;
mod moments;
mod protocol;

/// A section and its replies.
pub(crate) type Answered = (&'static [u8], &'static [u8]);

/// Bytes by their parts: some bytes, and a byte as often as a number says.
pub(crate) type Parts = &'static [(&'static [u8], u8, usize)];

const STORING: &[Answered] = &[
    (
        b"set k 1 0 1\r\na\r\ngets k\r\nset k 2 0 2\r\nbc\r\ngets k\r\n",
        b"STORED\r\nVALUE k 1 1 1\r\na\r\nEND\r\nSTORED\r\nVALUE k 2 2 2\r\nbc\r\nEND\r\n",
    ),
    (
        b"add k 1 0 1\r\na\r\nadd k 2 0 1\r\nb\r\ngets k\r\n",
        b"STORED\r\nNOT_STORED\r\nVALUE k 1 1 1\r\na\r\nEND\r\n",
    ),
    (
        b"replace k 1 0 1\r\na\r\nget k\r\nset k 1 0 1\r\na\r\nreplace k 2 0 2\r\nbc\r\ngets k\r\n",
        b"NOT_STORED\r\nEND\r\nSTORED\r\nSTORED\r\nVALUE k 2 2 2\r\nbc\r\nEND\r\n",
    ),
    (
        b"append k 9 0 1\r\na\r\nget k\r\nset k 7 0 1\r\na\r\nappend k 9 0 2\r\nbc\r\ngets k\r\n",
        b"NOT_STORED\r\nEND\r\nSTORED\r\nSTORED\r\nVALUE k 7 3 2\r\nabc\r\nEND\r\n",
    ),
    (
        b"prepend k 9 0 1\r\na\r\nget k\r\nset k 7 0 1\r\na\r\nprepend k 9 0 2\r\nbc\r\ngets k\r\n",
        b"NOT_STORED\r\nEND\r\nSTORED\r\nSTORED\r\nVALUE k 7 3 2\r\nbca\r\nEND\r\n",
    ),
    (
        b"set k 7 0 0\r\n\r\nappend k 0 0 0\r\n\r\nprepend k 0 0 1\r\nx\r\nappend k 0 0 1\r\ny\r\ngets k\r\n",
        b"STORED\r\nSTORED\r\nSTORED\r\nSTORED\r\nVALUE k 7 2 4\r\nxy\r\nEND\r\n",
    ),
    (
        b"cas k 0 0 1 1\r\na\r\nget k\r\nset k 3 0 1\r\na\r\ncas k 4 0 1 2\r\nb\r\ngets k\r\n",
        b"NOT_FOUND\r\nEND\r\nSTORED\r\nEXISTS\r\nVALUE k 3 1 1\r\na\r\nEND\r\n",
    ),
    (
        b"set k 3 0 1\r\na\r\ncas k 4 0 2 1\r\nbc\r\ngets k\r\ncas k 5 0 1 1\r\nd\r\ngets k\r\n",
        b"STORED\r\nSTORED\r\nVALUE k 4 2 2\r\nbc\r\nEND\r\nEXISTS\r\nVALUE k 4 2 2\r\nbc\r\nEND\r\n",
    ),
    (
        b"set a 1 0 1\r\nx\r\nset b 2 0 1\r\ny\r\nset c 3 0 1\r\nz\r\ndelete a\r\ndelete a\r\ngets c a b d c\r\n",
        b"STORED\r\nSTORED\r\nSTORED\r\nDELETED\r\nNOT_FOUND\r\nVALUE c 3 1 3\r\nz\r\nVALUE b 2 1 2\r\ny\r\n\
          VALUE c 3 1 3\r\nz\r\nEND\r\n",
    ),
];

const COUNTING: &[Answered] = &[
    (
        b"incr n 1\r\ndecr n 1\r\nget n\r\n",
        b"NOT_FOUND\r\nNOT_FOUND\r\nEND\r\n",
    ),
    (
        b"set n 5 0 20\r\n18446744073709551615\r\nincr n 1\r\ngets n\r\n",
        b"STORED\r\n0\r\nVALUE n 5 1 2\r\n0\r\nEND\r\n",
    ),
    (
        b"set n 0 0 1\r\n2\r\nincr n 18446744073709551615\r\nincr n 18446744073709551614\r\n",
        b"STORED\r\n1\r\n18446744073709551615\r\n",
    ),
    (
        b"set n 6 0 2\r\n10\r\ndecr n 1\r\ngets n\r\ndecr n 9\r\ndecr n 1\r\ngets n\r\n",
        b"STORED\r\n9\r\nVALUE n 6 1 2\r\n9\r\nEND\r\n0\r\n0\r\nVALUE n 6 1 4\r\n0\r\nEND\r\n",
    ),
    (
        b"set n 0 0 3\r\n007\r\nincr n 0\r\nget n\r\nset n 0 0 20\r\n00000000000000000001\r\nincr n 1\r\nget n\r\n",
        b"STORED\r\n7\r\nVALUE n 0 1\r\n7\r\nEND\r\nSTORED\r\n2\r\nVALUE n 0 1\r\n2\r\nEND\r\n",
    ),
    (
        b"set n 0 0 21\r\n000000000000000000001\r\nincr n 1\r\ndecr n 1\r\ngets n\r\n",
        b"STORED\r\nCLIENT_ERROR cannot increment or decrement non-numeric value\r\n\
          CLIENT_ERROR cannot increment or decrement non-numeric value\r\nVALUE n 0 21 1\r\n\
          000000000000000000001\r\nEND\r\n",
    ),
    (
        b"set n 0 0 20\r\n18446744073709551616\r\nincr n 1\r\nset n 0 0 0\r\n\r\ndecr n 1\r\n",
        b"STORED\r\nCLIENT_ERROR cannot increment or decrement non-numeric value\r\nSTORED\r\n\
          CLIENT_ERROR cannot increment or decrement non-numeric value\r\n",
    ),
    (
        b"set n 0 0 2\r\n+1\r\nincr n 1\r\nset n 0 0 2\r\n1 \r\nincr n 1\r\nset n 0 0 2\r\n1a\r\ndecr n 1\r\n",
        b"STORED\r\nCLIENT_ERROR cannot increment or decrement non-numeric value\r\nSTORED\r\n\
          CLIENT_ERROR cannot increment or decrement non-numeric value\r\nSTORED\r\n\
          CLIENT_ERROR cannot increment or decrement non-numeric value\r\n",
    ),
];

const NEGATIVE: &[Answered] = &[
    (
        b"set k 0 0 1\r\na\r\nset k 0 -1 1\r\nb\r\nget k\r\nset k 0 0 1\r\nc\r\ngets k\r\n",
        b"STORED\r\nSTORED\r\nEND\r\nSTORED\r\nVALUE k 0 1 3\r\nc\r\nEND\r\n",
    ),
    (
        b"add k 0 -2147483648 1\r\na\r\nget k\r\nadd k 0 2147483647 1\r\nb\r\nreplace k 0 -1 1\r\nc\r\nget k\r\n",
        b"STORED\r\nEND\r\nSTORED\r\nSTORED\r\nEND\r\n",
    ),
    (
        b"set k 0 -0 1\r\na\r\ncas k 0 -1 1 1\r\nb\r\nget k\r\nset k 0 0 1\r\nc\r\ngets k\r\n",
        b"STORED\r\nSTORED\r\nEND\r\nSTORED\r\nVALUE k 0 1 3\r\nc\r\nEND\r\n",
    ),
    (
        b"set k 0 0 1\r\n1\r\nappend k 0 -1 1\r\n2\r\nprepend k 0 -1 1\r\n3\r\nget k\r\n",
        b"STORED\r\nSTORED\r\nSTORED\r\nVALUE k 0 3\r\n312\r\nEND\r\n",
    ),
    (
        b"touch k 5\r\nset k 1 0 1\r\na\r\ntouch k 0\r\ntouch k 5\r\ngets k\r\ntouch k -1\r\nget k\r\ntouch k 0\r\n",
        b"NOT_FOUND\r\nSTORED\r\nTOUCHED\r\nTOUCHED\r\nVALUE k 1 1 1\r\na\r\nEND\r\nTOUCHED\r\nEND\r\nNOT_FOUND\r\n",
    ),
    (
        b"set a 0 0 1\r\nx\r\nset b 0 0 1\r\ny\r\nflush_all\r\nget a b\r\nset a 0 0 1\r\nz\r\ngets a\r\n\
          flush_all 0\r\ngets a\r\n",
        b"STORED\r\nSTORED\r\nOK\r\nEND\r\nSTORED\r\nVALUE a 0 1 3\r\nz\r\nEND\r\nOK\r\nEND\r\n",
    ),
];

const QUIET: &[Answered] = &[
    (
        b"set k 1 0 1 noreply\r\n1\r\nadd k 1 0 1 noreply\r\n2\r\nreplace k 2 0 1 noreply\r\n3\r\n\
          append k 0 0 1 noreply\r\n4\r\nprepend k 0 0 1 noreply\r\n5\r\ncas k 3 0 1 9 noreply\r\n6\r\n\
          incr k 2 noreply\r\ndecr k 1 noreply\r\ntouch k 5 noreply\r\nverbosity 1 noreply\r\ngets k\r\n",
        b"VALUE k 2 3 6\r\n535\r\nEND\r\n",
    ),
    (
        b"set k 0 0 1 noreply\r\n1\r\ndelete k noreply\r\nget k\r\nset k 0 0 1 noreply\r\n1\r\n\
          flush_all noreply\r\nget k\r\nflush_all 0 noreply\r\n",
        b"END\r\nEND\r\n",
    ),
    (
        b"version\r\nverbosity 1\r\nget k\r\nquit\r\nget k\r\n",
        b"VERSION clof 1\r\nOK\r\nEND\r\n",
    ),
    (
        b"frob\r\nset k x 0 1 noreply\r\nincr k x noreply\r\nset k 0 0 1 noreply\r\nxy\r\nincr k -1\r\nget k\r\n",
        b"ERROR\r\nCLIENT_ERROR bad command line format\r\nCLIENT_ERROR invalid numeric delta argument\r\n\
          CLIENT_ERROR bad data chunk\r\nCLIENT_ERROR invalid numeric delta argument\r\nEND\r\n",
    ),
    (
        b"set k 0 0 1\r\nxy\r\nget k\r\n",
        b"CLIENT_ERROR bad data chunk\r\nEND\r\n",
    ),
];

// Lines of any length.
const LONG_LINES: &[(Parts, Parts)] = &[(
    &[
        (b"set", b' ', 3_000),
        (b"k 0 0 1\r\na\r\ntouch k", b' ', 70_000),
        (b"0\r\nget k", b' ', 5_000),
        (b"\r\n", b' ', 0),
    ],
    &[(b"STORED\r\nTOUCHED\r\nVALUE k 0 1\r\na\r\nEND\r\n", b' ', 0)],
)];

// A value of nearly, just or more than 1,048,576 bytes, to which a byte is appended and one prepended.
const LIMITS: &[(Parts, Parts)] = &[
    (
        &[
            (b"set k 5 0 1048575\r\n", b'x', 1_048_575),
            (
                b"\r\nappend k 0 0 1\r\ny\r\nprepend k 0 0 1\r\nz\r\ngets k\r\n",
                b' ',
                0,
            ),
        ],
        &[
            (
                b"STORED\r\nSTORED\r\nSERVER_ERROR object too large for cache\r\nVALUE k 5 1048576 2\r\n",
                b'x',
                1_048_575,
            ),
            (b"y\r\nEND\r\n", b' ', 0),
        ],
    ),
    (
        &[
            (b"set k 5 0 1048576\r\n", b'x', 1_048_576),
            (
                b"\r\nappend k 0 0 1\r\ny\r\nprepend k 0 0 1\r\nz\r\ngets k\r\n",
                b' ',
                0,
            ),
        ],
        &[
            (
                b"STORED\r\nSERVER_ERROR object too large for cache\r\nSERVER_ERROR object too large for cache\r\n\
                  VALUE k 5 1048576 1\r\n",
                b'x',
                1_048_576,
            ),
            (b"\r\nEND\r\n", b' ', 0),
        ],
    ),
    (
        &[
            (b"set k 5 0 1048577\r\n", b'x', 1_048_577),
            (
                b"\r\nappend k 0 0 1\r\ny\r\nprepend k 0 0 1\r\nz\r\ngets k\r\n",
                b' ',
                0,
            ),
        ],
        &[(
            b"SERVER_ERROR object too large for cache\r\nNOT_STORED\r\nNOT_STORED\r\nEND\r\n",
            b' ',
            0,
        )],
    ),
];

const TOO_LARGE: &[(Parts, Parts)] = &[(
    &[
        (
            b"set k 1 0 1\r\na\r\nset k 2 0 1048577\r\n",
            b'x',
            1_048_577,
        ),
        (b"\r\ngets k\r\n", b' ', 0),
    ],
    &[(
        b"STORED\r\nSERVER_ERROR object too large for cache\r\nVALUE k 1 1 1\r\na\r\nEND\r\n",
        b' ',
        0,
    )],
)];

// A journal of one caller that has applied all commands of its section.
fn applied<'a>(alloc: Global, section: &'a [u8]) -> Result<Journal<'a>, OutOfMemory>
    requires { length section.now < 2 ^ 32 }
    ensures section { IfOk result (λ journal. journal.sections ≡ section.now ∷ []) }
    ensures commands { IfOk result (λ journal. commands journal.entries ≡ commands_of section.now) }
    ensures replies { IfOk result (λ journal. replies journal.entries ≡ replies_of (commands_of section.now)) }
{
    let mut journal = Journal::reserve(alloc, &[section])?;
    let mut commands = Commands::new(section);
    while let Some(command) = commands.next() {
        journal.apply(0, command)?;
    }
    journal.facts();
    Ok(journal)
}

// Whether a journal of one caller has these replies, once it has applied all commands of its section.
fn is_answered(alloc: Global, section: &[u8], wanted: &[u8]) -> Result<bool, OutOfMemory> {
    if section.len() >= 16_777_216 {
        return Ok(false);
    }
    let journal = applied(alloc, section)?;
    Ok(journal.replies() == wanted)
}

pub(crate) fn expect_answers(
    rt: &impl Abort,
    alloc: Global,
    rows: &[Answered],
) -> Result<(), Fail> {
    let mut row = 0_usize;
    for (section, wanted) in rows {
        let answered = is_answered(alloc, section, wanted)?;
        assert!(rt; answered, "at row {row}");
        row = row.saturating_add(1);
    }
    Ok(())
}

fn join_parts(alloc: Global, bytes: &mut Vec<u8>, parts: Parts) -> Result<(), OutOfMemory> {
    for (front, byte, count) in parts {
        bytes.extend_from_slice(front)?;
        bytes.extend_from_slice(&vec![in alloc; *byte; *count]?)?;
    }
    Ok(())
}

pub(crate) fn joined(alloc: Global, parts: Parts) -> Result<Vec<u8>, OutOfMemory> {
    let mut bytes = Vec::new(alloc);
    join_parts(alloc, &mut bytes, parts)?;
    Ok(bytes)
}

fn expect_answer(rt: &impl Abort, alloc: Global, section: &[u8], wanted: &[u8]) {
    let answered = is_answered(alloc, section, wanted).expect(rt, "memory");
    assert!(rt; answered, "at {} bytes", section.len());
}

fn expect_long_answers(rt: &impl Abort, alloc: Global, rows: &[(Parts, Parts)]) {
    for (section, wanted) in rows {
        let section = joined(alloc, section).expect(rt, "memory");
        let wanted = joined(alloc, wanted).expect(rt, "memory");
        expect_answer(rt, alloc, &section, &wanted);
    }
}

#[test]
fn stores_by_what_the_key_has(rt: HostRuntime) -> Result<(), Fail> {
    expect_answers(&rt, rt.alloc(), STORING)
}

#[test]
fn counts_within_64_bits(rt: HostRuntime) -> Result<(), Fail> {
    expect_answers(&rt, rt.alloc(), COUNTING)
}

#[test]
fn lets_items_expire_at_once_where_the_time_is_negative(rt: HostRuntime) -> Result<(), Fail> {
    expect_answers(&rt, rt.alloc(), NEGATIVE)
}

#[test]
fn leaves_out_the_replies_of_quiet_commands_alone(rt: HostRuntime) -> Result<(), Fail> {
    expect_answers(&rt, rt.alloc(), QUIET)
}

fn expect_journal(rt: &impl Abort, journal: &Journal)
    requires { 0 < length journal.now.sections }
{
    assert_eq!(rt; journal.entries(), 7);
    assert!(rt; journal.whole());
    let tally = journal.tally(0);
    assert!(rt; tally.commands == 7 && tally.rest == b"get n".as_slice());
    let wanted = b"STORED\r\n0\r\n0\r\nEXISTS\r\nSTORED\r\nVALUE n 0 1 4\r\n7\r\nEND\r\n";
    assert!(rt; journal.replies() == wanted.as_slice());
    let entry = journal.entry(3);
    assert!(rt; entry.caller == 0 && !entry.void);
    assert!(rt; entry.spelling == b"cas n 0 0 1 1\r\n7\r\n".as_slice());
    assert!(rt; journal.reply(0) == b"STORED\r\n".as_slice());
    assert_eq!(rt;
        journal.reply(5),
        b"VALUE n 0 1 4\r\n7\r\nEND\r\n".as_slice()
    );
    assert!(rt; journal.reply(6).is_empty());
    assert!(rt; journal.store().block(b"n") == Some(b"8".as_slice()));
    assert!(rt; journal.store().block(b"b").is_none());
}

#[test]
fn keeps_a_journal(rt: HostRuntime) -> Result<(), Fail> {
    let section =
        b"set n 0 0 20\r\n18446744073709551615\r\nincr n 1\r\ndecr n 5\r\ncas n 0 0 1 1\r\n7\r\n\
        cas n 0 0 1 3\r\n7\r\ngets n\r\nset n 0 0 1 noreply\r\n8\r\nget n";
    let journal = applied(rt.alloc(), section)?;
    expect_journal(&rt, &journal);
    Ok(())
}

#[test]
fn keeps_the_limit_of_a_value(rt: HostRuntime) {
    expect_long_answers(&rt, rt.alloc(), LIMITS);
}

#[test]
fn keeps_an_item_whose_new_value_is_too_large(rt: HostRuntime) {
    expect_long_answers(&rt, rt.alloc(), TOO_LARGE);
}

#[test]
fn reads_lines_of_any_length(rt: HostRuntime) {
    expect_long_answers(&rt, rt.alloc(), LONG_LINES);
}

// Adds a first item, then so many others, and what became of the first.
fn add_many(alloc: Global, section: &mut Vec<u8>, count: u32) -> Result<(), Fail> {
    section.extend_from_slice(b"set k 5 0 1\r\na\r\n")?;
    for number in 0..count {
        let line = format!(in alloc; "set k{number} 0 0 8 noreply\r\nabcdefgh\r\n")?;
        section.extend_from_slice(line.as_bytes())?;
    }
    section.extend_from_slice(b"gets k\r\n")?;
    Ok(())
}

#[test]
fn keeps_an_item_that_nobody_removes(rt: HostRuntime) -> Result<(), Fail> {
    let alloc = rt.alloc();
    let mut section = Vec::new(alloc);
    add_many(alloc, &mut section, 5_000)?;
    let wanted = b"STORED\r\nVALUE k 5 1 1\r\na\r\nEND\r\n";
    expect_answer(&rt, alloc, &section, wanted);
    Ok(())
}

#[test]
fn goes_to_a_thread_and_back(rt: HostRuntime) -> Result<(), Fail> {
    let journal = applied(rt.alloc(), b"set k 0 0 1\r\na\r\n")?;
    let (journal, ()) = join(&rt, move || journal, || ());
    assert!(rt; journal.store().block(b"k") == Some(b"a".as_slice()));
    Ok(())
}

fn every_byte() -> [u8; 256] {
    let mut block = [0; 256];
    for byte in 0..=255u8 {
        block[byte as usize] = byte;
    }
    block
}

fn storing(alloc: Global, block: &[u8]) -> Result<Vec<u8>, OutOfMemory> {
    let mut section = Vec::from_slice(alloc, b"set k 0 0 256\r\n")?;
    section.extend_from_slice(block)?;
    section.extend_from_slice(b"\r\n")?;
    Ok(section)
}

fn expect_block(rt: &impl Abort, alloc: Global, section: &[u8], block: &[u8]) {
    assert!(rt; section.len() < 1_000);
    let journal = applied(alloc, section).expect(rt, "memory");
    assert!(rt; journal.store().block(b"k") == Some(block));
}

#[test]
fn keeps_every_byte_of_a_value(rt: HostRuntime) -> Result<(), Fail> {
    let alloc = rt.alloc();
    let block = every_byte();
    let section = storing(alloc, &block)?;
    expect_block(&rt, alloc, &section, &block);
    Ok(())
}

#[test]
fn a_new_store_is_empty(rt: HostRuntime) {
    let store = Store::new(rt.alloc());
    assert!(rt; store.block(b"k").is_none());
}

// A journal of two callers, each of which has applied the first command of its section, at turn 0 and 1.
fn both_applied<'a>(
    rt: &impl Abort,
    alloc: Global,
    writer: &'a [u8],
    reader: &'a [u8],
) -> Result<Journal<'a>, OutOfMemory>
    requires { length writer.now + length reader.now < 2 ^ 32 }
{
    let mut journal = Journal::reserve(alloc, &[writer, reader])?;
    assert!(rt; journal.entries() == 0);
    let Some(written) = Commands::new(writer).next() else {
        panic!(rt; "no command to write");
    };
    let first = journal.apply(0, written)?;
    let Some(read) = Commands::new(reader).next() else {
        panic!(rt; "no command to read");
    };
    let second = journal.apply(1, read)?;
    assert!(rt; first.turn == 0 && second.turn == 1);
    Ok(journal)
}

fn expect_second_reply(rt: &impl Abort, journal: &Journal) {
    assert_eq!(rt; journal.entries(), 2);
    assert_eq!(rt; journal.entry(1).caller, 1);
    assert_eq!(rt; journal.reply(1), b"VALUE k 0 1\r\na\r\nEND\r\n".as_slice());
}

#[test]
fn answers_two_callers_from_one_store(rt: HostRuntime) -> Result<(), Fail> {
    let journal = both_applied(&rt, rt.alloc(), b"set k 0 0 1\r\na\r\n", b"get k\r\n")?;
    expect_second_reply(&rt, &journal);
    Ok(())
}
