//! Reading a text.
ghost use Rattle.std.specs.Prelude.{◌≡◌, ◌<◌, ◌≤◌, length, Ok, Err, IfOk, IfErr};
ghost use Rattle.out_of_memory.specs.Memory.{UnlessMemory};
ghost use Rattle.synth_text.specs.declared.description.Description.{Description as Described};
ghost use Rattle.synth_text.specs.declared.fault.SynthFault.{SynthFault as Fault};
ghost use Rattle.synth_text.specs.Items.{AreItems};
ghost use Rattle.synth_text.specs.Flaws.{Gives, GivesAs};
ghost use Rattle.synth_text.specs.Parts.{untyped_kind};
ghost use Rattle.synth_text.specs.Descriptions.{level_items, part_of, placed_part, parts_of, meaning, Describes};
ghost use Rattle.synth_text.specs.Faults.{SynthRefused};
ghost use Rattle.synth_text.specs.Sound.{IsSound};

use crate::description::Description;
use crate::fault::{Flaw, SynthFault, SynthRule, Unread};
use crate::items::{Item, items};
use crate::kind::Kind;
use crate::parts::{Part, Placed, read_level, read_memory};
use crate::rules::described;
use std::alloc::Global;

/// Reads a synthetic description. Unless memory runs out it gives what the text describes, or the first rule that it
/// breaks; for each text exactly one of the two applies.
pub fn read(alloc: Global, text: &[u8]) -> Result<Description, SynthFault>
    // What is read is described by the text, and keeps what every description keeps.
    ensures described { IfOk result (λ described. Describes text.now described) }
    ensures sound { IfOk result IsSound }
    // A fault is the first broken rule.
    ensures refused { IfErr result (λ fault. UnlessMemory SynthFault.OutOfMemory fault (SynthRefused text.now fault)) }
    // What the text describes is read, and what refuses it is answered, unless memory runs out.
    ensures every_description { (described : Described) → Describes text.now described
        → UnlessMemory (Err SynthFault.OutOfMemory) result (result ≡ Ok described) }
    ensures every_refusal { (fault : Fault) → SynthRefused text.now fault
        → UnlessMemory (Err SynthFault.OutOfMemory) result (result ≡ Err fault) }
{
    let items = items(alloc, text)?;
    match read_items(alloc, text, &items) {
        Ok(description) => Ok(description),
        Err(Unread::Fault(rule)) => Err(rule.fault()),
        Err(Unread::OutOfMemory) => Err(SynthFault::OutOfMemory),
    }
}

// Reads the items of a text.
fn read_items(alloc: Global, text: &[u8], items: &[Item]) -> Result<Description, Unread<SynthRule>>
    requires { AreItems text.now 0 items.now }
    ensures { Gives result (meaning text.now items.now) }
{
    let parts = read_parts(alloc, text, items)?;
    described(alloc, parts)
}

// What each item says.
fn read_parts(alloc: Global, text: &[u8], items: &[Item]) -> Result<Vec<Placed>, Unread<SynthRule>>
    requires { AreItems text.now 0 items.now }
    ensures { GivesAs (λ parts. parts.items) result (parts_of text.now items.now) }
{
    let mut behind = level_items(items);
    let mut parts = Vec::new(alloc);
    for item in items {
        behind -= usize::from(!item.is_memory);
        parts.push(read_placed(alloc, text, *item, behind)?)?;
    }
    Ok(parts)
}

// How many level items there are.
fn level_items(items: &[Item]) -> usize
    ensures { result ≡ level_items items.now }
{
    let mut count = 0;
    for item in items {
        count += usize::from(!item.is_memory);
    }
    count
}

// What one item says, with its place.
fn read_placed(
    alloc: Global,
    text: &[u8],
    item: Item,
    behind: usize,
) -> Result<Placed, Unread<SynthRule>>
    requires long { item.start < item.end }
    requires within { item.end ≤ length text.now }
    ensures { Gives result (placed_part text.now item behind) }
{
    match read_part(alloc, &text[item.start..item.end], item.is_memory, behind) {
        Ok(part) => Ok(Placed {
            at: item.start,
            part,
        }),
        Err(Unread::Fault(flaw)) => Err(Unread::Fault(flaw.at(item.start))),
        Err(Unread::OutOfMemory) => Err(Unread::OutOfMemory),
    }
}

// What one item says that has so many level items behind it.
fn read_part(
    alloc: Global,
    text: &[u8],
    is_memory: bool,
    behind: usize,
) -> Result<Part, Unread<Flaw>>
    requires { 0 < length text.now }
    ensures { Gives result (part_of text.now is_memory behind) }
{
    if is_memory {
        read_memory(alloc, text)
    } else {
        read_level(alloc, untyped_kind(behind), text)
    }
}

// The kind of a level without a name that has so many level items behind it.
fn untyped_kind(behind: usize) -> Kind
    ensures { result ≡ untyped_kind behind }
{
    match behind {
        0 => Kind::Pu,
        1 => Kind::Core,
        _ => Kind::Group,
    }
}
