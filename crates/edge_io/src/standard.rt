//! The adapters over std's readers and writers. They tell no content themselves: nothing proves what a real stream holds.
//! Where the reader or the writer inside tells it, as those in memory do, each call passes it on as it is.
ghost use Rattle.std.specs.Prelude.{◌≡◌, ◌≤◌, ◌<◌, length, take, IfOk, OnOk, OnErr};
ghost use Rattle.std.specs.Io.KnownBytes.{ReadConsumes, WriteAppends};
ghost use Rattle.edge_io.specs.Counts.{Rose, RisesBy};
ghost use Rattle.edge_io.specs.Contents.{Loses, IsAtEnd, Gains, FallsBy, IsSpent};
ghost use Rattle.edge_io.specs.Standard.{reader_of, reader_left, reader_given, reader_faults, writer_of, writer_held, writer_room};
ghost use Rattle.edge_io.specs.Standard.{writer_faults, writer_stalls};

use crate::{Failed, Sink, Source};
use std::io::{ErrorKind, Read, Write};

// How often an interrupted call is made again before it counts as failed.
const TRIES: u32 = 1_000_000;

/// A source over any reader. It tells no content and counts what it gave and how many reads failed.
#[derive(Drop)]
pub struct StdSource<I> {
    reader: I,
    given: u64,
    faults: u64,
}

impl<I: Read> StdSource<I> {
    /// A source over a reader that has given nothing yet.
    pub fn new(reader: I) -> StdSource<I>
        ensures reader { reader_of result ≡ reader }
        ensures given { reader_given result ≡ 0 }
        ensures faults { reader_faults result ≡ 0 }
    {
        StdSource {
            reader,
            given: 0,
            faults: 0,
        }
    }
}

impl<I: Read> Source for StdSource<I> {
    ghost left = { reader_left };

    ghost given = { reader_given };

    ghost faults = { reader_faults };

    /// Passes on what the reader gives: the bytes that it loses stand at the front of `buf`, the end is its end, and
    /// where the answer is `Failed` it has lost none.
    fn read(&mut self, buf: &mut [u8]) -> Result<usize, Failed>
        ensures bound { IfOk result (λ count. count ≤ length buf.new) }
        ensures bytes { IfOk result (λ count. Loses (reader_left self.old) (reader_left self.new) (take count buf.new)) }
        ensures given { IfOk result (λ count. RisesBy count (reader_given self.old) (reader_given self.new)) }
        ensures end { IfOk result (λ count. count ≡ 0 → 0 < length buf.old → IsAtEnd (reader_left self.old)) }
        ensures calm { OnOk result (reader_faults self.new ≡ reader_faults self.old) }
        ensures failed { OnErr result (Rose (reader_faults self.old) (reader_faults self.new)) }
        ensures left_stays { OnErr result (reader_left self.new ≡ reader_left self.old) }
        ensures given_stays { OnErr result (reader_given self.new ≡ reader_given self.old) }
        ensures never_falls { reader_faults self.old ≤ reader_faults self.new }

        ensures passed_on { ReadConsumes (I.remaining (reader_of self.old)) (I.remaining (reader_of self.new)) result buf.new }
    {
        for _ in 0..TRIES {
            match self.reader.read(buf) {
                Ok(count) => {
                    self.given = self.given.saturating_add(count as u64);
                    return Ok(count);
                }
                Err(error) if error.kind() == ErrorKind::Interrupted => {}
                Err(_) => break,
            }
        }
        self.faults = self.faults.saturating_add(1);
        Err(Failed)
    }
}

/// A sink over any writer. It tells no content and counts the writes that failed and those that took nothing.
#[derive(Drop)]
pub struct StdSink<O> {
    writer: O,
    faults: u64,
    stalls: u64,
}

impl<O: Write> StdSink<O> {
    /// A sink over a writer that has taken nothing yet.
    pub fn new(writer: O) -> StdSink<O>
        ensures writer { writer_of result ≡ writer }
        ensures faults { writer_faults result ≡ 0 }
        ensures stalls { writer_stalls result ≡ 0 }
    {
        StdSink {
            writer,
            faults: 0,
            stalls: 0,
        }
    }
}

impl<O: Write> Sink for StdSink<O> {
    ghost held = { writer_held };

    ghost room = { writer_room };

    ghost faults = { writer_faults };

    ghost stalls = { writer_stalls };

    /// Passes on what the writer takes: it gains the first bytes of the piece, as many as the answer says, and where
    /// the answer is `Failed` it has gained none.
    fn write(&mut self, piece: &[u8]) -> Result<usize, Failed>
        ensures bound { IfOk result (λ count. count ≤ length piece.now) }
        ensures held { IfOk result (λ count. Gains (writer_held self.old) (writer_held self.new) (take count piece.now)) }
        ensures room { IfOk result (λ count. FallsBy count (writer_room self.old) (writer_room self.new)) }
        ensures stalled { IfOk result (λ count. count ≡ 0 → 0 < length piece.now → Rose (writer_stalls self.old) (writer_stalls self.new)) }
        ensures full { IfOk result (λ count. count ≡ 0 → 0 < length piece.now → IsSpent (writer_room self.new)) }
        ensures moved { IfOk result (λ count. 0 < count → writer_stalls self.new ≡ writer_stalls self.old) }
        ensures nothing { length piece.now ≡ 0 → writer_stalls self.new ≡ writer_stalls self.old }
        ensures calm { IfOk result (λ _. writer_faults self.new ≡ writer_faults self.old) }
        ensures failed { OnErr result (Rose (writer_faults self.old) (writer_faults self.new)) }
        ensures stalls_stay { OnErr result (writer_stalls self.new ≡ writer_stalls self.old) }
        ensures held_stays { OnErr result (writer_held self.new ≡ writer_held self.old) }
        ensures room_stays { OnErr result (writer_room self.new ≡ writer_room self.old) }
        ensures faults_never_fall { writer_faults self.old ≤ writer_faults self.new }
        ensures stalls_never_fall { writer_stalls self.old ≤ writer_stalls self.new }

        ensures passed_on { WriteAppends (O.contents (writer_of self.old)) (O.contents (writer_of self.new)) result piece.now }
    {
        for _ in 0..TRIES {
            match self.writer.write(piece) {
                Ok(count) => {
                    if count == 0 && !piece.is_empty() {
                        self.stalls = self.stalls.saturating_add(1);
                    }
                    return Ok(count);
                }
                Err(error) if error.kind() == ErrorKind::Interrupted => {}
                Err(_) => break,
            }
        }
        self.faults = self.faults.saturating_add(1);
        Err(Failed)
    }
}
