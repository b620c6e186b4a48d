//! Examples from outside the definitions, by memcached's protocol.txt and this project's profile.
use crate::tests::protocol::First::{Bad, Good, Nothing};
use crate::tests::{Parts, joined};
use mc_text::LineFault::{Chunk, Format, TooLarge};
use mc_text::{Command, Commands, LineFault, Tally, count};
use std::process::Abort;
use std::test::Fail;

/// What a text begins with.
#[derive(Clone, Copy, Debug, PartialEq, Eq)]
pub(crate) enum First {
    /// No whole command.
    Nothing,
    /// A command without a fault.
    Good,
    /// A command with a fault.
    Bad(LineFault),
}

// What texts begin with, and how many bytes that has.
const BEGINNINGS: &[(&[u8], First, usize)] = &[
    (b"set k 0 0 1\r\nx\n\nget a\r\n", Bad(Chunk), 15),
    (b"set k 0 0 3\r\nx\n\nget a\r\n", Bad(Chunk), 23),
];

// Blocks that have not come to their end.
const WAITING: &[(&[u8], First, usize)] = &[
    (b"set k 0 0 1\r\nxyz", Nothing, 0),
    (b"set k 0 0 3\r\nx\r\n", Nothing, 0),
    (b"set k 0 0 1048577\r\nx\r\n", Nothing, 0),
    (b"set k 0 0 2147483646\r\nx\r\n", Nothing, 0),
    (b"set k 0 0 2147483648\r\nx\r\n", Nothing, 0),
    (b"set k 0 0 4294967295\r\nx\r\n", Nothing, 0),
];

// Commands with keys of 250 and 251 bytes, and with values of the most bytes and of one more.
const LIMITS: &[(Parts, First)] = &[
    (&[(b"get ", b'k', 250), (b"\r\n", b' ', 0)], Good),
    (&[(b"get ", b'k', 251), (b"\r\n", b' ', 0)], Bad(Format)),
    (&[(b"gets a ", b'k', 250), (b" b\r\n", b' ', 0)], Good),
    (
        &[(b"gets a ", b'k', 251), (b" b\r\n", b' ', 0)],
        Bad(Format),
    ),
    (&[(b"delete ", b'k', 250), (b" noreply\r\n", b' ', 0)], Good),
    (
        &[(b"delete ", b'k', 251), (b" noreply\r\n", b' ', 0)],
        Bad(Format),
    ),
    (&[(b"incr ", b'k', 250), (b" 1\r\n", b' ', 0)], Good),
    (&[(b"incr ", b'k', 251), (b" 1\r\n", b' ', 0)], Bad(Format)),
    (&[(b"touch ", b'k', 250), (b" 1\r\n", b' ', 0)], Good),
    (&[(b"touch ", b'k', 251), (b" 1\r\n", b' ', 0)], Bad(Format)),
    (
        &[
            (b"set k 0 0 1048576\r\n", b'x', 1_048_576),
            (b"\r\n", b' ', 0),
        ],
        Good,
    ),
    (
        &[
            (b"set k 0 0 1048577\r\n", b'x', 1_048_577),
            (b"\r\n", b' ', 0),
        ],
        Bad(TooLarge),
    ),
];

// What a text begins with, and how many bytes that has.
fn beginning(text: &[u8]) -> (First, usize) {
    match Commands::new(text).next() {
        None => (Nothing, 0),
        Some(Command::Bad { fault, spelling }) => (Bad(fault), spelling.len()),
        Some(command) => (Good, command.spelling().len()),
    }
}

// Whether a text begins with no command wherever it is cut short.
fn waits_where_cut(text: &[u8]) -> bool {
    for end in 0..text.len() {
        if beginning(&text[..end]) != (Nothing, 0) {
            return false;
        }
    }
    true
}

/// Each text is one command, which is this; and where it is cut short, it begins with none.
pub(crate) fn agree(rt: &impl Abort, cases: &[(&[u8], First)]) {
    for (text, want) in cases {
        assert_eq!(rt; beginning(text), (*want, text.len()));
        assert!(rt; waits_where_cut(text));
    }
}

fn expect_beginnings(rt: &impl Abort, rows: &[(&[u8], First, usize)]) {
    for (text, want, length) in rows {
        assert_eq!(rt; beginning(text), (*want, *length));
    }
}

#[test]
fn waits_for_all_bytes_of_a_block(rt: HostRuntime) {
    expect_beginnings(&rt, WAITING);
}

#[test]
fn a_torn_block_ends_with_its_next_line(rt: HostRuntime) {
    expect_beginnings(&rt, BEGINNINGS);
    assert_eq!(rt; count(b"set k 0 0 1\r\nxy\r\nget k\r\n"), 2);
}

#[test]
fn no_command_stands_behind_quit(rt: HostRuntime) {
    let section = b"get a\r\nquit\r\nget b\r\nquit\r\n";
    let rest = b"get b\r\nquit\r\n".as_slice();
    let tally = Tally::new(section);
    assert!(rt; count(section) == 2 && tally.commands == 2 && tally.rest == rest);
    let mut commands = Commands::new(section);
    assert!(rt; commands.next().is_some() && commands.next().is_some());
    assert!(rt; commands.next().is_none() && commands.next().is_none());
    assert!(rt; commands.rest() == rest);
}

// `cas k 007 -0 8 9 noreply` and its block of eight bytes.
fn check_store(rt: &impl Abort, command: Option<Command>) -> Result<(), Fail> {
    let Some(
        Command::Store {
            key,
            flags,
            exptime,
            unique,
            block,
            quiet,
            spelling,
            ..
        },
    ) = command
    else {
        return Err("a storage command".into());
    };
    assert!(rt; key == b"k".as_slice() && block == b"\r\n\0\"\\\xff\r\n".as_slice());
    assert!(rt; flags == 7 && exptime == 0 && unique == 9 && quiet);
    assert_eq!(rt; spelling.len(), 36);
    Ok(())
}

// `gets a b a`.
fn check_get(rt: &impl Abort, command: Option<Command>) -> Result<(), Fail> {
    let Some(
        Command::Get {
            uniques,
            mut keys,
            spelling,
        },
    ) = command
    else {
        return Err("a retrieval command".into());
    };
    assert!(rt; uniques && spelling == b"gets a b a\r\n".as_slice());
    for name in [b"a", b"b", b"a"] {
        let key = keys.next().ok_or("a key")?;
        assert!(rt; key == name.as_slice());
    }
    assert!(rt; keys.next().is_none());
    Ok(())
}

#[test]
fn gives_the_parts_of_commands(rt: HostRuntime) -> Result<(), Fail> {
    let mut commands = Commands::new(
        b"cas k 007 -0 8 9 noreply\r\n\r\n\0\"\\\xff\r\n\r\ngets a b a\r\nincr n 5\r\nmoment 4294967295 noreply\r\nset",
    );
    check_store(&rt, commands.next())?;
    check_get(&rt, commands.next())?;
    assert!(rt;
        matches!(
            commands.next(),
            Some(Command::Count {
                up: true,
                delta: 5,
                ..
            })
        )
    );
    assert!(rt;
        matches!(
            commands.next(),
            Some(Command::Moment {
                moment: 4_294_967_295,
                quiet: true,
                ..
            })
        )
    );
    assert!(rt; commands.next().is_none() && commands.rest() == b"set".as_slice());
    Ok(())
}

#[test]
fn keeps_the_limits_of_keys_and_values(rt: HostRuntime) {
    for (parts, want) in LIMITS {
        let text = joined(rt.alloc(), parts).expect(&rt, "memory");
        expect_beginnings(&rt, &[(&text, *want, text.len())]);
    }
}
