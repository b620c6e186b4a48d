//! The rules on all items of a text together.
ghost use Rattle.std.specs.Prelude.{◌≡◌, ◌≤◌, [], length, IfOk};
ghost use Rattle.std.specs.List.{AllByRecursion, list_any};
ghost use Rattle.synth_text.specs.Flaws.{Gives};
ghost use Rattle.synth_text.specs.Limits.{level_limit};
ghost use Rattle.synth_text.specs.Rules.{
  levels_of,
  description_of,
  has_nodes,
  is_again,
  is_kind_again,
  any_of_kind,
  has_kind,
  first_again,
  from_last,
  wrong_end,
  broken,
  unless_broken,
  broken_items,
  found_by,
};

use crate::counts::is_large;
use crate::description::{Description, Level, Memory};
use crate::fault::{SynthRule, Unread};
use crate::kind::Kind;
use crate::parts::{Nodes, Part, Placed};
use sequence::Sequence;
use std::alloc::{AllocError, Global};

// How many levels a description may have.
const LEVEL_LIMIT: usize = 16;

/// What the items describe, where no rule is broken.
pub fn described(alloc: Global, parts: Vec<Placed>) -> Result<Description, Unread<SynthRule>>
    requires { AllByRecursion (λ level. 1 ≤ level.arity) (levels_of parts.items) }
    ensures { Gives result (unless_broken (broken parts.items) (description_of parts.items)) }
{
    check_items(&parts)?;
    let description = describe(alloc, parts)?;
    if is_large(&description) {
        return Err(Unread::Fault(SynthRule::TooManyObjects));
    }
    Ok(description)
}

// The first broken rule on the items themselves.
fn check_items(parts: &[Placed]) -> Result<(), SynthRule>
    ensures { found_by result ≡ broken_items parts.now }
{
    let levels = count_levels(parts);
    if levels == 0 {
        return Err(SynthRule::Empty);
    }
    if let Some(at) = first_again(parts) {
        return Err(SynthRule::RepeatedType { at });
    }
    if let Some(at) = wrong_end(from_last_level(parts)) {
        return Err(SynthRule::LastNotPu { at });
    }
    if levels > LEVEL_LIMIT {
        return Err(SynthRule::TooManyLevels);
    }
    Ok(())
}

// How many levels the items give.
#[tactic(auto, using(crate::proofs::RuleLaws::length_cons_option))]
fn count_levels(parts: &[Placed]) -> usize
    ensures { result ≡ length (levels_of parts.now) }
{
    let mut count = 0;
    for item in parts {
        count += usize::from(item.part.level.is_some());
    }
    count
}

// Where the first item begins that repeats a kind or attaches a second memory.
fn first_again(parts: &[Placed]) -> Option<usize>
    ensures { result ≡ first_again [] parts.now }
{
    for (place, item) in parts.iter().enumerate() {
        if is_again(&parts[..place], item) {
            return Some(item.at);
        }
    }
    None
}

// Whether an item repeats a kind, or attaches a second memory.
fn is_again(before: &[Placed], item: &Placed) -> bool
    ensures { result ≡ is_again before.now item.now }
{
    if item.part.nodes.is_some() && have_nodes(before) {
        return true;
    }
    is_kind_again(before, &item.part.level)
}

// Whether one of the items has nodes of memory.
fn have_nodes(items: &[Placed]) -> bool
    ensures { result ≡ list_any has_nodes items.now }
{
    items.iter().any(|item| item.part.nodes.is_some())
}

// Whether a level is of a kind other than Group that a level before it has.
fn is_kind_again(before: &[Placed], level: &Option<Level>) -> bool
    ensures { result ≡ is_kind_again before.now level.now }
{
    match level {
        None => false,
        Some(level) => !level.kind.is_same(Kind::Group) && are_any_of_kind(before, level.kind),
    }
}

// Whether one of the items gives a level of this kind.
fn are_any_of_kind(items: &[Placed], kind: Kind) -> bool
    ensures { result ≡ any_of_kind kind items.now }
{
    items.iter().any(|item| has_kind(&item.part.level, kind))
}

// Whether there is a level, of this kind.
fn has_kind(level: &Option<Level>, kind: Kind) -> bool
    ensures { result ≡ has_kind kind level.now }
{
    match level {
        None => false,
        Some(level) => level.kind.is_same(kind),
    }
}

// The items from the last level item on.
fn from_last_level(parts: &[Placed]) -> &[Placed]
    ensures { result.now ≡ from_last parts.now }
{
    let mut last = 0;
    for (place, item) in parts.iter().enumerate() {
        if item.part.level.is_some() {
            last = place;
        }
    }
    &parts[last..]
}

// Where the last level item begins if it isn't of PUs, else the memory item behind it.
fn wrong_end(parts: &[Placed]) -> Option<usize>
    ensures { result ≡ wrong_end parts.now }
{
    match parts {
        [] => None,
        [last, ..] if !has_kind(&last.part.level, Kind::Pu) => Some(last.at),
        [_] => None,
        [_, behind, ..] => Some(behind.at),
    }
}

// What the items describe.
fn describe(alloc: Global, parts: Vec<Placed>) -> Result<Description, AllocError>
    requires { length (levels_of parts.items) ≤ level_limit }
    ensures { IfOk result (λ description. description ≡ description_of parts.items) }
{
    let mut levels = Vec::new(alloc);
    let mut memory = None;
    for item in parts {
        let Placed {
            at: _,
            part: Part { level, nodes },
        } = item;
        if let Some(level) = level {
            levels.push(level)?;
        }
        if let Some(nodes) = nodes {
            if memory.is_none() {
                memory = Some(memory_of(levels.len() as u32, nodes));
            }
        }
    }
    Ok(Description {
        levels: Sequence::from_vec(levels),
        memory,
    })
}

// Memory behind so many levels.
fn memory_of(above: u32, nodes: Nodes) -> Memory
    ensures { result ≡ record { above = above; size = nodes.size; indexes = nodes.indexes } }
{
    let Nodes { size, indexes } = nodes;
    Memory {
        above,
        size,
        indexes,
    }
}
