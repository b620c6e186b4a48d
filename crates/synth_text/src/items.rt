//! Cutting a text into items.
ghost use Rattle.std.specs.Prelude.{◌≡◌, ◌≢◌, ◌↔◌, ℕ, ◌+◌, ◌<◌, ◌≤◌, true, false, length, slice_index, IsTrue, IfOk, MatchOption};
ghost use Rattle.byte_text.specs.Classes.{is_white};
ghost use Rattle.synth_text.specs.Items.{IsGap, IsInside, EndsLevel, IsLevelItem, IsMemoryItem, IsItem, AreItems};

use byte_text::is_white;
use std::alloc::{AllocError, Global};

/// Where an item of a text lies, and whether it is a memory item.
#[derive(Clone, Copy, Debug)]
pub struct Item {
    /// The offset of its first byte.
    pub start: usize,
    /// The offset behind its last byte.
    pub end: usize,
    /// Whether it begins with `[`.
    pub is_memory: bool,
}

/// The items of a text, in order.
pub fn items(alloc: Global, text: &[u8]) -> Result<Vec<Item>, AllocError>
    ensures { IfOk result (λ items. AreItems text.now 0 items.items) }
{
    let mut items = Vec::new(alloc);
    let mut from = 0;
    while let Some(item) = next_item(text, from) {
        items.push(item)?;
        from = item.end;
    }
    Ok(items)
}

// The first item from a place on.
fn next_item(text: &[u8], from: usize) -> Option<Item>
    requires { from ≤ length text.now }
    ensures { MatchOption result (IsGap text.now from (length text.now))
        (λ item. (from ≤ item.start) × IsGap text.now from item.start × IsItem text.now item) }
{
    let start = gap_end(text, from);
    if start == text.len() {
        return None;
    }
    let is_memory = text[start] == b'[';
    let end = if is_memory {
        memory_end(text, start)
    } else {
        level_end(text, start)
    };
    Some(Item {
        start,
        end,
        is_memory,
    })
}

// The first place from one on that has no white space.
fn gap_end(text: &[u8], from: usize) -> usize
    requires { from ≤ length text.now }
    ensures after { from ≤ result }
    ensures within { result ≤ length text.now }
    ensures white { IsGap text.now from result }
    ensures ended { result < length text.now → is_white (slice_index text.now result) ≡ false }
{
    for place in from..text.len() {
        if !is_white(text[place]) {
            return place;
        }
    }
    text.len()
}

// Where the memory item that begins at a place ends.
fn memory_end(text: &[u8], start: usize) -> usize
    requires { start < length text.now }
    ensures long { start < result }
    ensures within { result ≤ length text.now }
    ensures item { IsMemoryItem text.now start result }
{
    for place in start + 1..text.len() {
        if text[place] == b']' {
            return place + 1;
        }
    }
    text.len()
}

// Where the level item that begins at a place ends.
fn level_end(text: &[u8], start: usize) -> usize
    requires within { start < length text.now }
    requires first { is_white (slice_index text.now start) ≡ false }
    requires level { slice_index text.now start ≢ 91 }
    ensures long { start < result }
    ensures within { result ≤ length text.now }
    ensures item { IsLevelItem text.now start result }
{
    let mut inside = false;
    for place in start..text.len() {
        let byte = text[place];
        if !inside && (is_white(byte) || byte == b'[') {
            return place;
        }
        inside = inside_after(inside, byte);
    }
    text.len()
}

// Whether the place behind a byte is inside parentheses, where `inside` says so of the place before it.
fn inside_after(inside: bool, byte: u8) -> bool
    ensures opened { byte ≡ 40 → result ≡ true }
    ensures closed { byte ≡ 41 → result ≡ false }
    ensures same { byte ≢ 40 → byte ≢ 41 → result ≡ inside }
{
    match byte {
        b'(' => true,
        b')' => false,
        _ => inside,
    }
}
