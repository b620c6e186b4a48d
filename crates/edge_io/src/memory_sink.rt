//! Sinks in memory.
ghost use Rattle.std.specs.Prelude.{◌≡◌, ◌≤◌, ◌<◌, ◌+◌, ◌-◌, ◌++◌, length, take, min, vec_len, vec_capacity, Contains, IfOk, OnOk, OnErr};
ghost use Rattle.std.specs.Prelude.{[], Some};
ghost use Rattle.edge_io.specs.Counts.{Rose};
ghost use Rattle.edge_io.specs.Contents.{Gains, FallsBy, IsSpent};
ghost use Rattle.edge_io.specs.InMemory.{Tray, SureTray, one_more};

use crate::memory_source::is_listed;
use crate::{Failed, OutOfMemory, Sink};
use std::alloc::Global;
use std::marker::Model;

/// A sink in memory with a fixed room that takes pieces and fails at the calls that a list names.
#[derive(Drop)]
pub struct MemSink {
    bytes: Vec<u8>,
    room: usize,
    piece: usize,
    failing: Vec<u32>,
    calls: u64,
    faults: u64,
    stalls: u64,
}

impl Model for MemSink {
    ghost Value = { Tray };

    ghost view = { λ sink. record {
      held = sink.bytes.items;
      room = sink.room;
      piece = sink.piece;
      failing = sink.failing.items;
      calls = sink.calls;
      faults = sink.faults;
      stalls = sink.stalls;
    } };

    ghost invariant = { λ sink. (vec_len sink.bytes + sink.room ≤ vec_capacity sink.bytes) × (1 ≤ sink.piece) };
}

impl MemSink {
    /// A sink with room for `room` bytes, which it takes now, that takes at most `piece` bytes a call, which is at
    /// least 1, and fails at the calls whose numbers, counted from 0, are in `failing`.
    pub fn new(
        alloc: Global,
        room: usize,
        piece: usize,
        failing: Vec<u32>,
    ) -> Result<MemSink, OutOfMemory>
        requires { 1 ≤ piece }
        ensures { IfOk result (λ sink.
            sink ≡ record { held = []; room = room; piece = piece; failing = failing.items; calls = 0; faults = 0; stalls = 0 }) }
    {
        Ok(MemSink {
            bytes: Vec::with_capacity(alloc, room)?,
            room,
            piece,
            failing,
            calls: 0,
            faults: 0,
            stalls: 0,
        })
    }

    /// The bytes that the sink holds.
    pub fn bytes(&self) -> &[u8]
        ensures { result.now ≡ self.now.held }
    {
        &self.bytes
    }
}

impl Sink for MemSink {
    ghost held = { λ sink. Some sink.held };

    ghost room = { λ sink. Some sink.room };

    ghost faults = { λ sink. sink.faults };

    ghost stalls = { λ sink. sink.stalls };

    /// Takes at most `piece` bytes, and none when it is full; `Failed` exactly at the calls of the list, which it
    /// counts.
    fn write(&mut self, piece: &[u8]) -> Result<usize, Failed>
        ensures bound { IfOk result (λ count. count ≤ length piece.now) }
        ensures held { IfOk result (λ count. Gains (Some self.old.held) (Some self.new.held) (take count piece.now)) }
        ensures room { IfOk result (λ count. FallsBy count (Some self.old.room) (Some self.new.room)) }
        ensures stalled { IfOk result (λ count. count ≡ 0 → 0 < length piece.now → Rose self.old.stalls self.new.stalls) }
        ensures full { IfOk result (λ count. count ≡ 0 → 0 < length piece.now → IsSpent (Some self.new.room)) }
        ensures moved { IfOk result (λ count. 0 < count → self.new.stalls ≡ self.old.stalls) }
        ensures nothing { length piece.now ≡ 0 → self.new.stalls ≡ self.old.stalls }
        ensures calm { IfOk result (λ _. self.new.faults ≡ self.old.faults) }
        ensures failed { OnErr result (Rose self.old.faults self.new.faults) }
        ensures stalls_stay { OnErr result (self.new.stalls ≡ self.old.stalls) }
        ensures held_stays { OnErr result (Some self.new.held ≡ Some self.old.held) }
        ensures room_stays { OnErr result (Some self.new.room ≡ Some self.old.room) }
        ensures faults_never_fall { self.old.faults ≤ self.new.faults }
        ensures stalls_never_fall { self.old.stalls ≤ self.new.stalls }

        ensures as_much_as_fits { IfOk result (λ count. count ≡ min self.old.piece (min (length piece.now) self.old.room)) }
        ensures fails_as_listed { OnErr result (Contains self.old.failing self.old.calls) }
        ensures takes_else { OnOk result (Contains self.old.failing self.old.calls → ⊥) }
        ensures counts_calls { self.new.calls ≡ one_more self.old.calls }
        ensures same_piece { self.new.piece ≡ self.old.piece }
        ensures same_list { self.new.failing ≡ self.old.failing }
    {
        let call = self.calls;
        self.calls = call.saturating_add(1);
        if is_listed(&self.failing, call) {
            self.faults = self.faults.saturating_add(1);
            return Err(Failed);
        }
        let count = take_front(&mut self.bytes, &mut self.room, piece, self.piece);
        if count == 0 && !piece.is_empty() {
            self.stalls = self.stalls.saturating_add(1);
        }
        Ok(count)
    }
}

// Appends the front of a piece to the bytes, as much as the room and `most` allow, and answers how much.
fn take_front(bytes: &mut Vec<u8>, room: &mut usize, piece: &[u8], most: usize) -> usize
    requires { vec_len bytes.old + room.old ≤ vec_capacity bytes.old }
    ensures count { result ≡ min most (min (length piece.now) room.old) }
    ensures held { bytes.new.items ≡ bytes.old.items ++ take result piece.now }
    ensures room { room.old ≡ result + room.new }
    ensures roomy { vec_len bytes.new + room.new ≤ vec_capacity bytes.new }
{
    let count = most.min(piece.len().min(*room));
    bytes.extend_from_slice(&piece[..count]).unwrap();
    *room -= count;
    count
}

/// A sink in memory with a fixed room that never fails.
#[derive(Drop)]
pub struct SureSink {
    bytes: Vec<u8>,
    room: usize,
    stalls: u64,
}

impl Model for SureSink {
    ghost Value = { SureTray };

    ghost view = { λ sink. record { held = sink.bytes.items; room = sink.room; stalls = sink.stalls } };

    ghost invariant = { λ sink. vec_len sink.bytes + sink.room ≤ vec_capacity sink.bytes };
}

impl SureSink {
    /// A sink with room for `room` bytes, which it takes now.
    pub fn new(alloc: Global, room: usize) -> Result<SureSink, OutOfMemory>
        ensures { IfOk result (λ sink. sink ≡ record { held = []; room = room; stalls = 0 }) }
    {
        Ok(SureSink {
            bytes: Vec::with_capacity(alloc, room)?,
            room,
            stalls: 0,
        })
    }

    /// The bytes that the sink holds.
    pub fn bytes(&self) -> &[u8]
        ensures { result.now ≡ self.now.held }
    {
        &self.bytes
    }
}

impl Sink for SureSink {
    ghost held = { λ sink. Some sink.held };

    ghost room = { λ sink. Some sink.room };

    ghost faults = { λ _. 0 };

    ghost stalls = { λ sink. sink.stalls };

    fn write(&mut self, piece: &[u8]) -> Result<usize, Failed> {
        let count = take_front(&mut self.bytes, &mut self.room, piece, usize::MAX);
        if count == 0 && !piece.is_empty() {
            self.stalls = self.stalls.saturating_add(1);
        }
        Ok(count)
    }
}
