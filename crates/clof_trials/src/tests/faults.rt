//! Streams that fail.
use super::{Ending, WELL, has_ended, has_text, words_of};
use clof_tool::Status::{ReadFault, Usage, WriteFault};
use clof_tool::{top, top_in_memory};
use edge_io::{Failed, MemSink, MemSource, Source, SureSink, SureSource};
use std::alloc::Global;
use std::process::Abort;
use std::sync::Wait;
use std::test::Fail;
use std::thread::Threads;

// Streams in memory: how many bytes the source gives a call, and the output takes while it has room. Each fails at the calls that are
// listed.
#[derive(Clone, Copy)]
struct Streams<'a> {
    given: usize,
    reads: &'a [u32],
    room: usize,
    taken: usize,
    writes: &'a [u32],
    lines: &'a [u32],
}

const SURE: Streams<'static> = Streams {
    given: 1_000,
    reads: &[],
    room: 1_000,
    taken: 1_000,
    writes: &[],
    lines: &[],
};

// Eight bytes a call are given, and ten are taken.
const BY_BITS: Streams<'static> = Streams {
    given: 8,
    taken: 10,
    ..SURE
};

// Checks how the program ends over these streams, and what the output has then.
fn ends_over<R: Threads + Wait + Sync + Abort>(
    rt: &R,
    alloc: Global,
    (line, input): (&str, &str),
    streams: Streams<'_>,
    ending: Ending<'_>,
    printed: &str,
) -> Result<(), Fail> {
    let words = words_of(alloc, line)?;
    let bytes = input.as_bytes().to_vec(alloc)?;
    let mut source = MemSource::new(bytes, streams.given.max(1), streams.reads.to_vec(alloc)?);
    let writes = streams.writes.to_vec(alloc)?;
    let mut out = MemSink::new(alloc, streams.room, streams.taken.max(1), writes)?;
    let mut err = MemSink::new(alloc, 100, 100, streams.lines.to_vec(alloc)?)?;
    let status = top(rt, alloc, &words, &mut source, &mut out, &mut err);
    has_ended(rt, line, status, err.bytes(), ending);
    has_text(rt, line, out.bytes(), printed);
    Ok(())
}

// A command line, its input and streams, how the call ends, and what the output has then.
type Failing = (
    &'static str,
    &'static str,
    Streams<'static>,
    Ending<'static>,
    &'static str,
);

fn fails_each<R: Threads + Wait + Sync + Abort>(
    rt: &R,
    alloc: Global,
    rows: &[Failing],
) -> Result<(), Fail> {
    for row in rows {
        let (line, input, streams, ending, printed) = *row;
        ends_over(rt, alloc, (line, input), streams, ending, printed)?;
    }
    Ok(())
}

// Checks that nothing is written where this read fails.
fn fails_at<R: Threads + Wait + Sync + Abort>(
    rt: &R,
    alloc: Global,
    call: (&str, &str),
    read: u32,
) -> Result<(), Fail> {
    let streams = Streams {
        reads: &[read],
        ..BY_BITS
    };
    let ending = (Some(ReadFault), 5, "clof: read fault\n");
    ends_over(rt, alloc, call, streams, ending, "")
}

const SECTION: &str = "worker * 23\nset a 5 0 1\r\nx\r\nget a\r\n\n";

#[test]
fn reads_fail_at_each_call(rt: HostRuntime) -> Result<(), Fail> {
    for read in 0..6 {
        fails_at(&rt, rt.alloc(), ("run", SECTION), read)?;
    }
    Ok(())
}

#[test]
fn a_read_fails(rt: HostRuntime) -> Result<(), Fail> {
    for read in 0..3 {
        fails_at(&rt, rt.alloc(), ("check", "input 3\nabc\nturn "), read)?;
    }
    Ok(())
}

// A fault of the source comes before what is wrong with its lines.
#[test]
fn a_read_of_select_fails(rt: HostRuntime) -> Result<(), Fail> {
    let lines = "0\n".repeat(rt.alloc(), 16_385)?;
    fails_at(&rt, rt.alloc(), ("select PU:1", &lines), 1)
}

const FAULTS: &[Failing] = &[
    (
        "run",
        SECTION,
        Streams {
            given: 8,
            reads: &[1],
            ..SURE
        },
        (Some(ReadFault), 5, "clof: read fault\n"),
        "",
    ),
    (
        "run",
        SECTION,
        Streams {
            given: 8,
            taken: 5,
            writes: &[1],
            ..SURE
        },
        (Some(WriteFault { written: 5 }), 6, "clof: write fault 5\n"),
        "turn ",
    ),
    (
        "run",
        SECTION,
        Streams {
            room: 12,
            taken: 100,
            ..SURE
        },
        (
            Some(WriteFault { written: 12 }),
            6,
            "clof: write fault 12\n",
        ),
        "turn 0 calle",
    ),
];

#[test]
fn tells_faults_of_the_source_and_the_output(rt: HostRuntime) -> Result<(), Fail> {
    fails_each(&rt, rt.alloc(), FAULTS)
}

// The set is written in pieces of five bytes, of which the second fails.
const SET: &[Failing] = &[(
    "set 0x1",
    "",
    Streams {
        room: 100,
        taken: 5,
        writes: &[1],
        ..SURE
    },
    (Some(WriteFault { written: 5 }), 6, "clof: write fault 5\n"),
    "0x000",
)];

#[test]
fn leaves_what_was_written_of_a_set(rt: HostRuntime) -> Result<(), Fail> {
    fails_each(&rt, rt.alloc(), SET)
}

// Writes that fail, and an output that is full: its room, the calls that fail, how many bytes were written, and which they are.
const WRITES: &[(usize, &[u32], usize, &str, &str)] = &[
    (100, &[0], 0, "", "clof: write fault 0\n"),
    (100, &[1], 10, "caller 0 p", "clof: write fault 10\n"),
    (
        100,
        &[2],
        20,
        "caller 0 pu 0 comman",
        "clof: write fault 20\n",
    ),
    (
        100,
        &[3],
        30,
        "caller 0 pu 0 commands 0 rest ",
        "clof: write fault 30\n",
    ),
    (12, &[], 12, "caller 0 pu ", "clof: write fault 12\n"),
];

#[test]
fn writes_fail_at_each_call(rt: HostRuntime) -> Result<(), Fail> {
    let call = ("run", "worker * 5\nget a\n");
    for row in WRITES {
        let (room, writes, written, printed, told) = *row;
        let streams = Streams {
            room,
            writes,
            ..BY_BITS
        };
        let ending = (Some(WriteFault { written }), 6, told);
        ends_over(&rt, rt.alloc(), call, streams, ending, printed)?;
    }
    Ok(())
}

// Standard error may fail: the call ends as it would.
const UNTOLD: &[Failing] = &[(
    "frob",
    "",
    Streams {
        lines: &[0],
        ..SURE
    },
    (Some(Usage), 2, ""),
    "",
)];

#[test]
fn ends_as_well_where_standard_error_fails(rt: HostRuntime) -> Result<(), Fail> {
    fails_each(&rt, rt.alloc(), UNTOLD)
}

// The line goes out in one write: a standard error that fails from its second call on has all of it, and one that fails at its first has
// nothing. The call ends as it would.
const LINES: &[Failing] = &[
    (
        "topo 'PU:2(indexes=0,1,2)'",
        "",
        Streams {
            lines: &[0],
            ..SURE
        },
        (None, 3, ""),
        "",
    ),
    (
        "topo 'PU:2(indexes=0,1,2)'",
        "",
        Streams {
            lines: &[1],
            ..SURE
        },
        (None, 3, "clof: build IndexCount 3 2\n"),
        "",
    ),
];

#[test]
fn ends_as_well_where_the_line_fails(rt: HostRuntime) -> Result<(), Fail> {
    fails_each(&rt, rt.alloc(), LINES)
}

// Nothing is read behind a fault: the source goes on with its next call, which is listed too, and then its next byte.
#[test]
fn reads_no_further_than_a_fault(rt: HostRuntime) -> Result<(), Fail> {
    let alloc = rt.alloc();
    let words = words_of(alloc, "run")?;
    let input = b"worker * 7\nget a\r\n\n".to_vec(alloc)?;
    let mut source = MemSource::new(input, 8, [1, 2].to_vec(alloc)?);
    let mut out = SureSink::new(alloc, 100)?;
    let mut err = SureSink::new(alloc, 100)?;
    let status = top(&rt, alloc, &words, &mut source, &mut out, &mut err);
    let ending = (Some(ReadFault), 5, "clof: read fault\n");
    has_ended(&rt, "run", status, err.bytes(), ending);
    gives_next(&rt, &mut source);
    Ok(())
}

fn gives_next(rt: &impl Abort, source: &mut MemSource) {
    let mut next = [0; 4];
    assert_eq!(rt; source.read(&mut next), Err(Failed));
    assert_eq!(rt; source.read(&mut next), Ok(4));
    assert_eq!(rt; next, [b' ', b'7', b'\n', b'g']);
}

// Bytes in memory have no faults: a text that just fits is written whole.
#[test]
fn writes_all_into_memory(rt: HostRuntime) -> Result<(), Fail> {
    let alloc = rt.alloc();
    let words = words_of(alloc, "set 0x1")?;
    let mut source = SureSource::new(Vec::new(alloc));
    let mut out = SureSink::new(alloc, 17)?;
    let mut err = SureSink::new(alloc, 100)?;
    let status = top_in_memory(&rt, alloc, &words, &mut source, &mut out, &mut err);
    has_ended(&rt, "set 0x1", status, err.bytes(), WELL);
    has_text(&rt, "set 0x1", out.bytes(), "0x00000001\n0\n0x1\n");
    Ok(())
}
