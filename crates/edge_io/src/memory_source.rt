//! Sources over bytes in memory.
ghost use Rattle.std.specs.Prelude.{◌≡◌, ◌≤◌, ◌<◌, ◌↔◌, ◌+◌, ◌-◌, ◌++◌, IsTrue, length, take, drop, min, Contains, IfOk, OnOk, OnErr, []};
ghost use Rattle.std.specs.Prelude.{Some};
ghost use Rattle.edge_io.specs.Counts.{Rose, RisesBy};
ghost use Rattle.edge_io.specs.Contents.{Loses, IsAtEnd};
ghost use Rattle.edge_io.specs.InMemory.{Feed, SureFeed, one_more};

use crate::{Failed, Source};
use std::marker::Model;

/// A source that gives bytes in memory in pieces and fails at the calls that a list names.
#[derive(Drop)]
pub struct MemSource {
    bytes: Vec<u8>,
    at: usize,
    piece: usize,
    failing: Vec<u32>,
    calls: u64,
    faults: u64,
}

impl Model for MemSource {
    ghost Value = { Feed };

    ghost view = { λ source. record {
      left = drop source.at source.bytes.items;
      given = source.at;
      piece = source.piece;
      failing = source.failing.items;
      calls = source.calls;
      faults = source.faults;
    } };

    ghost invariant = { λ source. (source.at ≤ length source.bytes.items) × (1 ≤ source.piece) };
}

impl MemSource {
    /// A source of these bytes that gives at most `piece` of them a call, which is at least 1, and fails at the
    /// calls whose numbers, counted from 0, are in `failing`.
    pub fn new(bytes: Vec<u8>, piece: usize, failing: Vec<u32>) -> MemSource
        requires { 1 ≤ piece }
        ensures { result ≡ record { left = bytes.items; given = 0; piece = piece; failing = failing.items; calls = 0; faults = 0 } }
    {
        MemSource {
            bytes,
            at: 0,
            piece,
            failing,
            calls: 0,
            faults: 0,
        }
    }
}

// Copies the bytes from a place on into the front of a buffer, as many as both have and at most `most`, and answers
// how many.
fn give(bytes: &[u8], at: usize, buf: &mut [u8], most: usize) -> usize
    requires { at ≤ length bytes.now }
    ensures count { result ≡ min most (min (length bytes.now - at) (length buf.old)) }
    ensures copied { drop at bytes.now ≡ take result buf.new ++ drop (at + result) bytes.now }
    ensures same_length { length buf.new ≡ length buf.old }
{
    let left = &bytes[at..];
    let count = most.min(left.len().min(buf.len()));
    buf[..count].copy_from_slice(&left[..count]);
    count
}

impl Source for MemSource {
    ghost left = { λ source. Some source.left };

    ghost given = { λ source. source.given };

    ghost faults = { λ source. source.faults };

    /// Gives at most `piece` bytes; `Failed` exactly at the calls of the list, which it counts.
    fn read(&mut self, buf: &mut [u8]) -> Result<usize, Failed>
        ensures bound { IfOk result (λ count. count ≤ length buf.new) }
        ensures bytes { IfOk result (λ count. Loses (Some self.old.left) (Some self.new.left) (take count buf.new)) }
        ensures given { IfOk result (λ count. RisesBy count self.old.given self.new.given) }
        ensures end { IfOk result (λ count. count ≡ 0 → 0 < length buf.old → IsAtEnd (Some self.old.left)) }
        ensures calm { OnOk result (self.new.faults ≡ self.old.faults) }
        ensures failed { OnErr result (Rose self.old.faults self.new.faults) }
        ensures left_stays { OnErr result (Some self.new.left ≡ Some self.old.left) }
        ensures given_stays { OnErr result (self.new.given ≡ self.old.given) }
        ensures never_falls { self.old.faults ≤ self.new.faults }

        ensures as_much_as_fits { IfOk result (λ count. count ≡ min self.old.piece (min (length self.old.left) (length buf.old))) }
        ensures fails_as_listed { OnErr result (Contains self.old.failing self.old.calls) }
        ensures gives_else { OnOk result (Contains self.old.failing self.old.calls → ⊥) }
        ensures counts_calls { self.new.calls ≡ one_more self.old.calls }
        ensures same_piece { self.new.piece ≡ self.old.piece }
        ensures same_list { self.new.failing ≡ self.old.failing }
    {
        let call = self.calls;
        self.calls = call.saturating_add(1);
        if is_listed(&self.failing, call) {
            self.faults = self.faults.saturating_add(1);
            return Err(Failed);
        }
        let count = give(&self.bytes, self.at, buf, self.piece);
        self.at += count;
        Ok(count)
    }
}

// Whether a list has the number.
pub(crate) fn is_listed(numbers: &[u32], number: u64) -> bool
    ensures { IsTrue result ↔ Contains numbers.now number }
{
    numbers.iter().any(|listed| u64::from(*listed) == number)
}

/// A source of bytes in memory that never fails.
#[derive(Drop)]
pub struct SureSource {
    bytes: Vec<u8>,
    at: usize,
}

impl Model for SureSource {
    ghost Value = { SureFeed };

    ghost view = { λ source. record { left = drop source.at source.bytes.items; given = source.at } };

    ghost invariant = { λ source. source.at ≤ length source.bytes.items };
}

impl SureSource {
    /// A source of these bytes.
    pub fn new(bytes: Vec<u8>) -> SureSource
        ensures { result ≡ record { left = bytes.items; given = 0 } }
    {
        SureSource { bytes, at: 0 }
    }
}

impl Source for SureSource {
    ghost left = { λ source. Some source.left };

    ghost given = { λ source. source.given };

    ghost faults = { λ _. 0 };

    fn read(&mut self, buf: &mut [u8]) -> Result<usize, Failed> {
        let count = give(&self.bytes, self.at, buf, usize::MAX);
        self.at += count;
        Ok(count)
    }
}
