//! Reading one item.
ghost use Rattle.std.specs.Prelude.{◌≡◌, ◌<◌, length};
ghost use Rattle.synth_text.specs.Names.{name_of};
ghost use Rattle.synth_text.specs.Flaws.{Gives, seen};
ghost use Rattle.byte_text.specs.Views.{text_at};
ghost use Rattle.synth_text.specs.Parts.{
  level_name,
  with_arity,
  head_of,
  level_part,
  level_of,
  node_name,
  opened,
  memory_part,
  memory_in_brackets,
  memory_of,
};

use crate::attributes::{Attributes, read_attributes};
use crate::description::{Indexes, Level};
use crate::fault::{Flaw, Unread};
use crate::kind::Kind;
use crate::name::{Name, read_name};
use byte_text::{Class, are_all, first_piece, number_in, split_front};
use std::alloc::Global;

/// What one item says: a level, nodes of memory at its objects, or both.
#[derive(Debug, Drop)]
pub struct Part {
    /// The level, of a level item.
    pub level: Option<Level>,
    /// The nodes of memory, of a memory item and of a level `numa:k`.
    pub nodes: Option<Nodes>,
}

/// What an item says, and where it begins.
#[derive(Debug, Drop)]
pub struct Placed {
    /// The offset at which the item begins.
    pub at: usize,
    /// What it says.
    pub part: Part,
}

/// What is said of nodes of memory.
#[derive(Debug, Drop)]
pub struct Nodes {
    /// The size of each in bytes.
    pub size: Option<u64>,
    /// Their physical numbers.
    pub indexes: Indexes,
}

/// Reads a level item. `untyped` is the kind of a level without a name in its place.
#[tactic(auto, unfolding(crate::specs::Parts::level_of))]
pub fn read_level(alloc: Global, untyped: Kind, text: &[u8]) -> Result<Part, Unread<Flaw>>
    ensures { Gives result (level_of untyped text.now) }
{
    let (head, behind) = first_piece(text, Class::Byte(b'('));
    let (kind, arity) = read_head(untyped, head)?;
    let attributes = read_attributes(alloc, kind, behind)?;
    Ok(level_part(kind, arity, attributes))
}

// The kind and the arity that a level's head gives.
#[tactic(auto, unfolding(crate::specs::Parts::head_of))]
fn read_head(untyped: Kind, head: &[u8]) -> Result<(Kind, u32), Flaw>
    ensures { result ≡ head_of untyped head.now }
{
    match first_piece(head, Class::Byte(b':')) {
        (arity, None) => with_arity(untyped, arity),
        (name, Some(arity)) => with_arity(level_kind(name)?, arity),
    }
}

// A kind with the arity that a text gives.
fn with_arity(kind: Kind, text: &[u8]) -> Result<(Kind, u32), Flaw>
    ensures { result ≡ with_arity kind text.now }
{
    match number_in(1, u64::from(u32::MAX), text) {
        Some(arity) => Ok((kind, arity as u32)),
        None => Err(Flaw::Arity),
    }
}

// The kind that a level's name gives.
fn level_kind(name: &[u8]) -> Result<Kind, Flaw>
    ensures { result ≡ level_name (name_of name.now) }
{
    match read_name(name) {
        None | Some(Name::Kind(Kind::Machine)) => Err(Flaw::Name),
        Some(Name::Kind(kind)) => Ok(kind),
        Some(Name::Group(_)) => Ok(Kind::Group),
    }
}

// A level, or for the kind NUMANode a Group level with nodes of memory.
fn level_part(kind: Kind, arity: u32, attributes: Attributes) -> Part
    ensures { result ≡ level_part kind arity attributes }
{
    let Attributes {
        size,
        memory,
        indexes,
    } = attributes;
    match kind {
        Kind::NumaNode => Part {
            level: Some(Level {
                kind: Kind::Group,
                arity,
                size: None,
                indexes: Indexes::Ordered,
            }),
            nodes: Some(Nodes {
                size: memory,
                indexes,
            }),
        },
        kind => Part {
            level: Some(Level {
                kind,
                arity,
                size,
                indexes,
            }),
            nodes: None,
        },
    }
}

/// Reads a memory item, with its brackets.
#[tactic(auto, unfolding(crate::specs::Parts::memory_of))]
pub fn read_memory(alloc: Global, text: &[u8]) -> Result<Part, Unread<Flaw>>
    requires { 0 < length text.now }
    ensures { Gives result (memory_of text.now) }
{
    match first_piece(&text[1..], Class::Byte(b']')) {
        (_, None) => Err(Unread::Fault(Flaw::Name)),
        (inner, Some(_)) => read_brackets(alloc, inner),
    }
}

// Reads what stands in brackets.
#[tactic(auto, unfolding(crate::specs::Parts::memory_in_brackets))]
fn read_brackets(alloc: Global, text: &[u8]) -> Result<Part, Unread<Flaw>>
    ensures { Gives result (memory_in_brackets text.now) }
{
    let (_, text) = split_front(text, Class::White);
    let (name, behind) = split_front(text, Class::Alphanumeric);
    let kind = node_kind(name)?;
    let given = opened(behind)?;
    let attributes = read_attributes(alloc, kind, given)?;
    Ok(memory_part(attributes))
}

// The kind NUMANode, where a name is one of its names.
fn node_kind(name: &[u8]) -> Result<Kind, Flaw>
    ensures { result ≡ node_name (name_of name.now) }
{
    match read_name(name) {
        Some(Name::Kind(Kind::NumaNode)) => Ok(Kind::NumaNode),
        _ => Err(Flaw::Name),
    }
}

// Nodes of memory with their attributes.
fn memory_part(attributes: Attributes) -> Part
    ensures { result ≡ memory_part attributes }
{
    let Attributes {
        size: _,
        memory,
        indexes,
    } = attributes;
    Part {
        level: None,
        nodes: Some(Nodes {
            size: memory,
            indexes,
        }),
    }
}

// What stands behind the `(` that follows a name, if one does; else there is at most white space.
fn opened(text: &[u8]) -> Result<Option<&[u8]>, Flaw>
    ensures { seen text_at result ≡ opened text.now }
{
    if are_all(text, Class::White) {
        return Ok(None);
    }
    match text {
        [b'(', behind @ ..] => Ok(Some(behind)),
        _ => Err(Flaw::Attribute),
    }
}
