//! Attributes of an item.
ghost use Rattle.std.specs.Prelude.{◌≡◌, ◌==◌, ◌&&◌, ℕ, false, true, List, Result};
ghost use Rattle.synth_text.specs.Flaws.{Gives, seen};
ghost use Rattle.synth_text.specs.Attributes.{key_of, takes, has, is_empty, no_attributes, entry_in, flaw_in_value, flaw_in_word};
ghost use Rattle.synth_text.specs.Attributes.{AreSaidBy, Adds, attributes_in, enclosed, attributes_of};
ghost use Rattle.byte_text.specs.Views.{text_at};

use crate::description::Indexes;
use crate::fault::{Flaw, Unread};
use crate::index_text::read_indexes;
use crate::kind::Kind;
use crate::size::read_size;
use byte_text::{Class, are_all, cut, first_piece};
use std::alloc::Global;

/// The attributes of an item, as far as they are given.
#[derive(Debug, Drop)]
pub struct Attributes {
    /// The value of `size`.
    pub size: Option<u64>,
    /// The value of `memory`.
    pub memory: Option<u64>,
    /// The value of `indexes`; `Ordered` where it isn't given.
    pub indexes: Indexes,
}

/// A key of an attribute.
#[derive(Clone, Copy, Debug, PartialEq, Eq)]
pub enum Key {
    /// `size`, the size of each cache.
    Size,
    /// `memory`, the size of each node.
    Memory,
    /// `indexes`, the physical numbers.
    Indexes,
}

/// Reads the attributes of a kind's item behind their `(`; none where there are no parentheses.
pub fn read_attributes(
    alloc: Global,
    kind: Kind,
    text: Option<&[u8]>,
) -> Result<Attributes, Unread<Flaw>>
    ensures { Gives result (attributes_of kind (text_at text.entry)) }
{
    match text {
        None => Ok(Attributes::none()),
        Some(text) => read_words(alloc, kind, enclosed(text)?),
    }
}

// What stands up to the first `)`, which has at most white space behind it.
#[tactic(auto, unfolding(crate::specs::Attributes::enclosed))]
fn enclosed(text: &[u8]) -> Result<&[u8], Flaw>
    ensures { seen (λ inner. inner.now) result ≡ enclosed text.now }
{
    match cut(text, Class::Byte(b')')) {
        Some((inner, behind)) if are_all(behind, Class::White) => Ok(inner),
        _ => Err(Flaw::Attribute),
    }
}

// The attributes that stand in parentheses.
fn read_words(alloc: Global, kind: Kind, text: &[u8]) -> Result<Attributes, Unread<Flaw>>
    ensures { Gives result (attributes_in kind text.now) }
{
    let (word, mut rest) = first_piece(text, Class::White);
    let mut attributes = with_word(alloc, kind, Attributes::none(), word)?;
    while let Some(text) = rest {
        let (word, behind) = first_piece(text, Class::White);
        rest = behind;
        attributes = with_next(alloc, kind, attributes, word, behind.is_some())?;
    }
    Ok(attributes)
}

// The attributes with a word behind the first. An empty one with more behind it lies in a gap of several white bytes.
fn with_next(
    alloc: Global,
    kind: Kind,
    attributes: Attributes,
    word: &[u8],
    is_more: bool,
) -> Result<Attributes, Unread<Flaw>>
    ensures gap { (is_empty word.now && is_more) ≡ true → result ≡ Ok attributes }
    ensures word { (is_empty word.now && is_more) ≡ false → (before : List (List ℕ)) → AreSaidBy attributes before
        → Adds before word.now (flaw_in_word kind before (entry_in word.now)) result }
{
    if word.is_empty() && is_more {
        return Ok(attributes);
    }
    with_word(alloc, kind, attributes, word)
}

// The attributes with one more word behind others.
#[tactic(auto, unfolding(crate::specs::Attributes::entry_in))]
fn with_word(
    alloc: Global,
    kind: Kind,
    attributes: Attributes,
    word: &[u8],
) -> Result<Attributes, Unread<Flaw>>
    ensures { (before : List (List ℕ)) → AreSaidBy attributes before
        → Adds before word.now (flaw_in_word kind before (entry_in word.now)) result }
{
    let (key, value) = cut(word, Class::Byte(b'=')).ok_or(Flaw::Attribute)?;
    let key = read_key(key).ok_or(Flaw::Attribute)?;
    if takes(kind, key) && !attributes.has(key) {
        attributes.with_value(alloc, key, value)
    } else {
        Err(Unread::Fault(Flaw::Attribute))
    }
}

// The key that a word is.
#[tactic(auto, unfolding(crate::specs::Attributes::key_of))]
fn read_key(word: &[u8]) -> Option<Key>
    ensures { result ≡ key_of word.now }
{
    if word == b"size".as_slice() {
        Some(Key::Size)
    } else if word == b"memory".as_slice() {
        Some(Key::Memory)
    } else if word == b"indexes".as_slice() {
        Some(Key::Indexes)
    } else {
        None
    }
}

// Whether items of a kind have a key.
fn takes(kind: Kind, key: Key) -> bool
    ensures { result ≡ takes kind key }
{
    match key {
        Key::Size => kind.is_cache(),
        Key::Memory => matches!(kind, Kind::NumaNode),
        Key::Indexes => matches!(kind, Kind::Pu | Kind::NumaNode),
    }
}

impl Attributes {
    // No attribute.
    fn none() -> Attributes
        ensures { result ≡ no_attributes }
    {
        Attributes {
            size: None,
            memory: None,
            indexes: Indexes::Ordered,
        }
    }

    // Whether a key is given.
    fn has(&self, key: Key) -> bool
        ensures { result ≡ has self.now key }
    {
        match key {
            Key::Size => self.size.is_some(),
            Key::Memory => self.memory.is_some(),
            Key::Indexes => !matches!(self.indexes, Indexes::Ordered),
        }
    }

    // The attributes with the value of a key, which a word has behind others that lack it.
    fn with_value(
        mut self,
        alloc: Global,
        key: Key,
        value: &[u8],
    ) -> Result<Attributes, Unread<Flaw>>
        ensures { (before : List (List ℕ)) → (word : List ℕ) → AreSaidBy self before → entry_in word ≡ Some (key, value.now)
            → has self key ≡ false → Adds before word (flaw_in_value key value.now) result }
    {
        match key {
            Key::Size => {
                self.size = Some(read_size(value).ok_or(Flaw::Attribute)?);
                Ok(self)
            }
            Key::Memory => {
                self.memory = Some(read_size(value).ok_or(Flaw::Attribute)?);
                Ok(self)
            }
            Key::Indexes => {
                self.indexes = read_indexes(alloc, value)?;
                Ok(self)
            }
        }
    }
}
