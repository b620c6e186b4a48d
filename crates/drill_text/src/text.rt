//! What a drill prints at its end.
ghost use Rattle.std.specs.Prelude.{◌≡◌, ◌<◌, ◌++◌, codes, IfOk, OnOk};
ghost use Rattle.std.specs.List.{flat_map};
ghost use Rattle.kv_history.specs.Log.{NoneVoid};
ghost use Rattle.drill_text.specs.Drill.{below, drill_sections, drill_text, heading, key_name, keys, HaveGivenAll};
ghost use Rattle.drill_text.specs.Sums.{HoldsSums, line_in};

use crate::setup::KEYS;
use byte_text::push_decimal;
use kv_history::{Journal, Store};
use mc_text::one_reading;
use out_of_memory::OutOfMemory;
use std::alloc::{AllocError, Global};

// Room for the text: a first line of at most 43 bytes, and for each key a line of at most 24.
const ROOM: usize = 43 + 8 * 24;

/// The text of a drill, from the journal of its sections in which each caller has given all its commands, and none is void.
/// In whatever order the callers gave them, it is the text of the drill's plain sums.
pub fn summary(alloc: Global, drill: u32, journal: &Journal<'_>) -> Result<Vec<u8>, OutOfMemory>
    requires sections { journal.now.sections ≡ drill_sections drill }
    requires given { HaveGivenAll journal.now }
    requires whole { NoneVoid journal.now.entries }
    ensures text { IfOk result (λ text. text.items ≡ drill_text drill) }
{
    one_reading();
    journal.facts();
    told(alloc, drill, journal.store())
}

// The text of a drill, from the store that it leaves.
fn told(alloc: Global, drill: u32, store: &Store) -> Result<Vec<u8>, OutOfMemory>
    requires { HoldsSums drill store.now }
    ensures { IfOk result (λ text. text.items ≡ drill_text drill) }
{
    let mut text = Vec::with_capacity(alloc, ROOM)?;
    push_heading(&mut text, drill)?;
    push_keys(&mut text, store)?;
    Ok(text)
}

// Appends the first line of a drill's text.
fn push_heading(text: &mut Vec<u8>, drill: u32) -> Result<(), AllocError>
    ensures { OnOk result (text.new.items ≡ text.old.items ++ heading drill) }
{
    text.extend_from_slice(b"drill ")?;
    push_decimal(text, u64::from(drill))?;
    text.extend_from_slice(b" callers 64 commands 20512\n")
}

// Appends the lines of the keys, with what the store has there.
fn push_keys(text: &mut Vec<u8>, store: &Store) -> Result<(), AllocError>
    ensures { OnOk result (text.new.items ≡ text.old.items ++ flat_map (line_in store.now) (below keys)) }
{
    for key in 0..KEYS {
        push_key(text, store, key)?;
    }
    Ok(())
}

// Appends the line of a key, with what the store has there.
#[tactic(auto, unfolding(crate::specs::Sums::line_in))]
fn push_key(text: &mut Vec<u8>, store: &Store, key: u32) -> Result<(), AllocError>
    requires { key < 8 }
    ensures { OnOk result (text.new.items ≡ text.old.items ++ line_in store.now key) }
{
    let name = name(key);
    let value = store.block(&name).unwrap_or(b"");
    push_line(text, &name, value)
}

// The name of a key.
#[tactic(auto, using(std::proofs::lemmas::Fmt::decimal_digit))]
fn name(key: u32) -> [u8; 2]
    requires { key < 8 }
    ensures { result ≡ key_name key }
{
    [b'k', b'0' + key as u8]
}

// Appends a line with a name and a value.
fn push_line(text: &mut Vec<u8>, name: &[u8], value: &[u8]) -> Result<(), AllocError>
    ensures { OnOk result (text.new.items ≡ text.old.items ++ (name.now ++ (codes " " ++ (value.now ++ codes "\n")))) }
{
    text.extend_from_slice(name)?;
    text.extend_from_slice(b" ")?;
    text.extend_from_slice(value)?;
    text.extend_from_slice(b"\n")
}
