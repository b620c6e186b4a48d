//! Scripts of reads and writes over sources and sinks in memory, and the adapters over std's.
ghost use Rattle.std.specs.Prelude.{◌≤◌};

use super::{expect_equal, expect_words};
use edge_io::{
    Failed, MemSink, MemSource, ReadAllFault, Sink, Source, StdSink, StdSource, Stopped, SureSink,
    SureSource, read_all, write_all,
};
use std::alloc::Global;
use std::io::{Error, ErrorKind, Read, Write};
use std::process::Abort;

fn source(rt: &impl Abort, alloc: Global, bytes: &[u8], piece: usize, failing: &[u32]) -> MemSource
    requires { 1 ≤ piece }
{
    let bytes = bytes.to_vec(alloc).expect(rt, "memory");
    let failing = failing.to_vec(alloc).expect(rt, "memory");
    MemSource::new(bytes, piece, failing)
}

// All is read up to a limit.
fn expect_all(
    rt: &impl Abort,
    alloc: Global,
    source: &mut impl Source,
    limit: u8,
    wanted: Result<&[u8], ReadAllFault>,
) {
    match read_all(alloc, source, usize::from(limit)) {
        Ok(bytes) => expect_equal(rt, "all bytes", Ok(bytes.as_slice()), wanted),
        Err(fault) => expect_equal(rt, "a fault", Err(fault), wanted),
    }
}

// The bytes of a source that gives three a call, the calls that fail, the limit, and what is read.
const WHOLE: &[(&[u8], &[u32], u8, Result<&[u8], ReadAllFault>)] = &[
    (b"abcdefgh", &[], 8, Ok(b"abcdefgh")),
    (b"", &[], 0, Ok(b"")),
    (b"abcdefgh", &[], 7, Err(ReadAllFault::TooLong)),
    (b"abcdefgh", &[2], 100, Err(ReadAllFault::Fault)),
    (b"abcdefgh", &[5], 100, Ok(b"abcdefgh")),
];

#[test]
fn reads_to_the_end_or_says_why_not(rt: HostRuntime) {
    for (bytes, failing, limit, wanted) in WHOLE {
        let mut source = source(&rt, rt.alloc(), bytes, 3, failing);
        expect_all(&rt, rt.alloc(), &mut source, *limit, *wanted);
    }
}

#[test]
fn a_sure_source_is_read_to_its_end(rt: HostRuntime) {
    let bytes = b"abc".to_vec(rt.alloc()).expect(&rt, "memory");
    expect_all(&rt, rt.alloc(), &mut SureSource::new(bytes), 3, Ok(b"abc"));
}

// How many bytes are asked for, at most four; how many are given; and the buffer behind that, with `.` for what stays.
type Asked<'a> = (usize, Result<usize, Failed>, &'a str);

fn expect_reads(rt: &impl Abort, source: &mut impl Source, script: &[Asked]) {
    for (size, given, wanted) in script {
        let mut buf = [b'.'; 4];
        assert!(rt; *size <= 4);
        let found = source.read(&mut buf[..*size]);
        expect_equal(rt, wanted, found, *given);
        expect_equal(rt, wanted, buf.as_slice(), wanted.as_bytes());
    }
}

const PIECES: &[Asked] = &[
    (4, Ok(2), "ab.."),
    (4, Err(Failed), "...."),
    (1, Ok(1), "c..."),
    (4, Ok(2), "de.."),
    (4, Ok(0), "...."),
];

#[test]
fn a_source_gives_pieces_and_fails_as_listed(rt: HostRuntime) {
    let mut source = source(&rt, rt.alloc(), b"abcde", 2, &[1]);
    expect_reads(&rt, &mut source, PIECES);
}

const BEHIND_A_FAULT: &[Asked] = &[(4, Err(Failed), "...."), (4, Ok(3), "def.")];

// Nothing is read behind a fault: the source goes on with its next call and its next byte.
#[test]
fn reads_no_further_than_a_fault(rt: HostRuntime) {
    let mut source = source(&rt, rt.alloc(), b"abcdefgh", 3, &[1, 2]);
    let fault = Err(ReadAllFault::Fault);
    expect_all(&rt, rt.alloc(), &mut source, 100, fault);
    expect_reads(&rt, &mut source, BEHIND_A_FAULT);
}

// The room of a sink, how much it takes a call, the calls that fail, what writing answers, and what the sink holds then.
type Written<'a> = (usize, usize, &'a [u32], Result<(), Stopped>, &'a [u8]);

fn expect_written(rt: &impl Abort, alloc: Global, bytes: &[u8], row: &Written) {
    let (room, piece, failing, wanted, held) = row;
    assert!(rt; 1 <= *piece);
    let failing = failing.to_vec(alloc).expect(rt, "memory");
    let mut sink = MemSink::new(alloc, *room, *piece, failing).expect(rt, "memory");
    expect_equal(rt, "writing", write_all(&mut sink, bytes), *wanted);
    expect_equal(rt, "the sink", sink.bytes(), held);
}

const WRITTEN: &[Written] = &[
    (5, 2, &[], Ok(()), b"abcde"),
    (4, 3, &[], Err(Stopped { written: 4 }), b"abcd"),
    (9, 2, &[1], Err(Stopped { written: 2 }), b"ab"),
];

#[test]
fn writes_all_or_stops_behind_a_prefix(rt: HostRuntime) {
    for row in WRITTEN {
        expect_written(&rt, rt.alloc(), b"abcde", row);
    }
}

#[test]
fn a_sure_sink_takes_what_fits(rt: HostRuntime) {
    let mut sink = SureSink::new(rt.alloc(), 3).expect(&rt, "memory");
    expect_equal(&rt, "what fits", write_all(&mut sink, b"abc"), Ok(()));
    expect_equal(&rt, "what doesn't", sink.write(b"d"), Ok(0));
    expect_equal(&rt, "the sink", sink.bytes(), b"abc");
}

// Each write is handed all that is still to be written, so a sink that takes as much as fits has it after one call.
#[test]
fn writes_all_that_fits_in_one_call(rt: HostRuntime) {
    let bytes = b"x".repeat(rt.alloc(), 100_000).expect(&rt, "memory");
    let row = (100_000, 100_000, [1].as_slice(), Ok(()), bytes.as_slice());
    expect_written(&rt, rt.alloc(), &bytes, &row);
}

#[test]
fn adapters_pass_bytes_on(rt: HostRuntime) {
    let mut source = StdSource::new(b"hello".as_slice());
    expect_all(&rt, rt.alloc(), &mut source, 10, Ok(b"hello"));
    let mut kept = Vec::new(rt.alloc());
    let written = write_all(&mut StdSink::new(&mut kept), b"hello");
    expect_equal(&rt, "writing", written, Ok(()));
    expect_equal(&rt, "the sink", kept.as_slice(), b"hello");
}

// A stream of one byte whose first calls fail, with the given kinds.
#[derive(Drop)]
struct Halting<'a> {
    kinds: &'a [ErrorKind],
    written: Option<u8>,
}

// The next failure of a list, if there is one.
fn next_failure(kinds: &mut &[ErrorKind]) -> std::io::Result<()> {
    match kinds.split_first() {
        Some((kind, later)) => {
            *kinds = later;
            Err(Error::from(*kind))
        }
        None => Ok(()),
    }
}

impl<'a> Read for Halting<'a> {
    fn read(&mut self, buf: &mut [u8]) -> std::io::Result<usize> {
        next_failure(&mut self.kinds)?;
        match buf.first_mut() {
            Some(byte) => {
                *byte = b'x';
                Ok(1)
            }
            None => Ok(0),
        }
    }
}

impl<'a> Write for Halting<'a> {
    fn write(&mut self, buf: &[u8]) -> std::io::Result<usize> {
        next_failure(&mut self.kinds)?;
        self.written = buf.first().copied();
        Ok(buf.len().min(1))
    }

    fn flush(&mut self) -> std::io::Result<()> {
        Ok(())
    }
}

fn stream_of(kinds: &[ErrorKind]) -> Halting<'_> {
    Halting {
        kinds,
        written: None,
    }
}

#[test]
fn adapters_make_an_interrupted_call_again(rt: HostRuntime) {
    let kinds = [ErrorKind::Interrupted; 1_000];
    let mut source = StdSource::new(stream_of(&kinds));
    expect_reads(&rt, &mut source, &[(2, Ok(1), "x...")]);
    let mut stream = stream_of(&kinds);
    let written = StdSink::new(&mut stream).write(b"yz");
    expect_equal(&rt, "writing", written, Ok(1));
    expect_equal(&rt, "the stream", stream.written, Some(b'y'));
}

const BROKEN: &[ErrorKind] = &[ErrorKind::Interrupted, ErrorKind::BrokenPipe];

const AFTER_BROKEN: &[Asked] = &[(1, Err(Failed), "...."), (1, Ok(1), "x...")];

#[test]
fn adapters_tell_of_another_failure(rt: HostRuntime) {
    expect_reads(&rt, &mut StdSource::new(stream_of(BROKEN)), AFTER_BROKEN);
    let mut sink = StdSink::new(stream_of(BROKEN));
    expect_equal(&rt, "a failure", sink.write(b"y"), Err(Failed));
    expect_equal(&rt, "what follows", sink.write(b"y"), Ok(1));
}

// Each fault has its words.
#[test]
fn tells_each_fault(rt: HostRuntime) {
    let alloc = rt.alloc();
    expect_words(&rt, alloc, &ReadAllFault::Fault, "a read failed");
    expect_words(
        &rt,
        alloc,
        &ReadAllFault::TooLong,
        "more bytes than the limit",
    );
    expect_words(&rt, alloc, &ReadAllFault::OutOfMemory, "out of memory");
    expect_words(&rt, alloc, &Failed, "the read or the write failed");
    let stopped = Stopped { written: 12 };
    expect_words(&rt, alloc, &stopped, "the writing stopped behind 12 bytes");
}
