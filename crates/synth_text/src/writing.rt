//! Writing the canonical text.
ghost use Rattle.std.specs.Prelude.{◌≡◌, ◌++◌, ◌∷◌, ℕ, List, map, decimal, OnOk, IfOk};
ghost use Rattle.std.specs.List.{join_with_byte};
ghost use Rattle.synth_text.specs.Canonical.{
  loop_text,
  size_texts,
  indexes_texts,
  in_parentheses,
  level_text,
  memory_text,
  joined_before,
  joined_behind,
  item_texts,
  canonical,
  indexes_text,
};

use crate::description::{Description, Indexes, Level, Loop, Memory};
use crate::kind::Kind;
use byte_text::push_decimal;
use out_of_memory::OutOfMemory;
use std::alloc::{AllocError, Global};

/// The canonical text of a description.
#[tactic(auto, unfolding(crate::specs::Canonical::canonical))]
pub fn write(alloc: Global, description: &Description) -> Result<Vec<u8>, OutOfMemory>
    ensures { IfOk result (λ text. text.items ≡ canonical description.now) }
{
    let mut out = Vec::new(alloc);
    push_items(&mut out, description.levels.as_slice(), &description.memory)?;
    Ok(out)
}

// Appends the items, with one space between them.
fn push_items(
    out: &mut Vec<u8>,
    levels: &[Level],
    memory: &Option<Memory>,
) -> Result<(), AllocError>
    ensures { OnOk result (out.new.items ≡ out.old.items ++ join_with_byte 32 (item_texts levels.now memory.now)) }
{
    match memory {
        None => push_joined(out, b' ', levels),
        Some(memory) => {
            let (above, below) = levels.split_at((memory.above as usize).min(levels.len()));
            push_above(out, above)?;
            push_memory(out, memory)?;
            push_below(out, below)
        }
    }
}

// Appends the levels above the memory, with a space behind each.
fn push_above(out: &mut Vec<u8>, levels: &[Level]) -> Result<(), AllocError>
    ensures { OnOk result (out.new.items ≡ out.old.items ++ joined_before 32 (map level_text levels.now)) }
{
    if levels.is_empty() {
        return Ok(());
    }
    push_joined(out, b' ', levels)?;
    out.push(b' ')?;
    Ok(())
}

// Appends the levels below the memory, with a space in front of each.
fn push_below(out: &mut Vec<u8>, levels: &[Level]) -> Result<(), AllocError>
    ensures { OnOk result (out.new.items ≡ out.old.items ++ joined_behind 32 (map level_text levels.now)) }
{
    if levels.is_empty() {
        return Ok(());
    }
    out.push(b' ')?;
    push_joined(out, b' ', levels)
}

// What has a text of its own.
trait Written {
    ghost text: { Self → List ℕ };

    fn push(&self, out: &mut Vec<u8>) -> Result<(), AllocError>
        ensures { OnOk result (out.new.items ≡ out.old.items ++ text self.now) };
}

impl Written for u32 {
    ghost text = { λ number. decimal number };

    fn push(&self, out: &mut Vec<u8>) -> Result<(), AllocError> {
        push_decimal(out, u64::from(*self))
    }
}

impl Written for Loop {
    ghost text = { loop_text };

    fn push(&self, out: &mut Vec<u8>) -> Result<(), AllocError> {
        push_decimal(out, u64::from(self.step))?;
        out.push(b'*')?;
        push_decimal(out, u64::from(self.count))
    }
}

impl Written for Level {
    ghost text = { level_text };

    fn push(&self, out: &mut Vec<u8>) -> Result<(), AllocError> {
        out.extend_from_slice(self.kind.long_name())?;
        out.push(b':')?;
        push_decimal(out, u64::from(self.arity))?;
        push_attributes(out, b"size", self.size, &self.indexes)
    }
}

// Appends the texts of all, with a byte between them.
fn push_joined<W: Written>(out: &mut Vec<u8>, separator: u8, items: &[W]) -> Result<(), AllocError>
    ensures { OnOk result (out.new.items ≡ out.old.items ++ join_with_byte separator (map W.text items.now)) }
{
    for (place, item) in items.iter().enumerate() {
        if place > 0 {
            out.push(separator)?;
        }
        item.push(out)?;
    }
    Ok(())
}

// Appends a memory item.
fn push_memory(out: &mut Vec<u8>, memory: &Memory) -> Result<(), AllocError>
    ensures { OnOk result (out.new.items ≡ out.old.items ++ memory_text memory.now) }
{
    out.push(b'[')?;
    out.extend_from_slice(Kind::NumaNode.long_name())?;
    push_attributes(out, b"memory", memory.size, &memory.indexes)?;
    out.push(b']')?;
    Ok(())
}

// Appends the attributes that are given, in parentheses.
fn push_attributes(
    out: &mut Vec<u8>,
    key: &[u8],
    size: Option<u64>,
    indexes: &Indexes,
) -> Result<(), AllocError>
    ensures { OnOk result (out.new.items ≡ out.old.items ++ in_parentheses (size_texts key.now size ++ indexes_texts indexes.now)) }
{
    let is_indexed = !matches!(indexes, Indexes::Ordered);
    if size.is_none() && !is_indexed {
        return Ok(());
    }
    out.push(b'(')?;
    if let Some(size) = size {
        out.extend_from_slice(key)?;
        out.push(b'=')?;
        push_decimal(out, size)?;
        if is_indexed {
            out.push(b' ')?;
        }
    }
    push_indexes(out, indexes)?;
    out.push(b')')?;
    Ok(())
}

// Appends `indexes=` and the list or the loops, where they are given.
fn push_indexes(out: &mut Vec<u8>, indexes: &Indexes) -> Result<(), AllocError>
    ensures { OnOk result (out.new.items ≡ out.old.items ++ indexes_text indexes.now) }
{
    match indexes {
        Indexes::Ordered => Ok(()),
        Indexes::List(numbers) => {
            out.extend_from_slice(b"indexes=")?;
            push_joined(out, b',', numbers.as_slice())
        }
        Indexes::Loops(loops) => {
            out.extend_from_slice(b"indexes=")?;
            push_joined(out, b':', loops.as_slice())
        }
    }
}
