//! What the store keeps of an item.
ghost use Rattle.std.specs.Prelude.{◌≡◌, ◌++◌, IfOk, OnErr, OnOk};
ghost use Rattle.kv_history.specs.Answer.{counted, number_of};

use crate::expiry::Expiry;
use byte_text::number_up_to;
use itoa::Buffer;
use std::alloc::{AllocError, Global};

// The greatest number of digits of a number that can be counted.
const DIGIT_LIMIT: usize = 20;

/// An item.
#[derive(Drop)]
pub(crate) struct Item {
    pub flags: u32,
    pub expiry: Expiry,
    pub unique: u64,
    pub block: Vec<u8>,
}

/// A change of an item, which expires when it did.
#[derive(Clone, Copy)]
pub(crate) enum Edit<'a> {
    /// Other flags and another block.
    Whole { flags: u32, block: &'a [u8] },
    /// More bytes beside the block.
    Join(Side, &'a [u8]),
}

/// What becomes of the number that a key's item holds.
#[derive(Clone, Copy)]
pub(crate) enum Counting {
    /// There is no item.
    Absent,
    /// The item holds no number.
    NotNumber,
    /// The number that the item holds now.
    Number(u64),
}

/// Where bytes are joined to a block.
#[derive(Clone, Copy)]
pub(crate) enum Side {
    Front,
    Back,
}

impl Item {
    ghost use Rattle.kv_history.specs.Views.{plain_item};
    ghost use Rattle.kv_history.specs.Edits.{edited, counting_item, counted_item};

    /// An item with these flags, this expiry, a copy of this block and this unique, or want of memory.
    pub fn new(
        alloc: Global,
        flags: u32,
        expiry: Expiry,
        block: &[u8],
        unique: u64,
    ) -> Result<Item, AllocError>
        ensures { IfOk result (λ item. plain_item item
            ≡ record { flags = flags; expiry = expiry; block = block.now; unique = unique }) }
    {
        Ok(Item {
            flags,
            expiry,
            unique,
            block: block.to_vec(alloc)?,
        })
    }

    /// Changes the item, which gets another unique. Without memory the item stays.
    pub fn edit(&mut self, edit: Edit<'_>, unique: u64) -> Result<(), AllocError>
        ensures ok { OnOk result (plain_item self.new ≡ edited edit.entry unique (plain_item self.old)) }
        ensures err { OnErr result (plain_item self.new ≡ plain_item self.old) }
    {
        match edit {
            Edit::Whole { flags, block } => {
                overwrite(&mut self.block, block)?;
                self.flags = flags;
            }
            Edit::Join(Side::Back, piece) => self.block.extend_from_slice(piece)?,
            Edit::Join(Side::Front, piece) => put_in_front(&mut self.block, piece)?,
        }
        self.unique = unique;
        Ok(())
    }

    /// Counts the number that the item holds up or down; the item gets another unique. It stays where it holds no number, and
    /// without memory.
    pub fn count(&mut self, up: bool, delta: u64, next_unique: u64) -> Result<Counting, AllocError>
        ensures number { IfOk result (λ counting. counting ≡ counting_item up delta (plain_item self.old)) }
        ensures ok { OnOk result (plain_item self.new ≡ counted_item up delta next_unique (plain_item self.old)) }
        ensures err { OnErr result (plain_item self.new ≡ plain_item self.old) }
    {
        let Some(number) = number_of(&self.block) else {
            return Ok(Counting::NotNumber);
        };
        let number = counted(up, number, delta);
        let mut buffer = Buffer::new();
        overwrite(&mut self.block, buffer.format(number).as_bytes())?;
        self.unique = next_unique;
        Ok(Counting::Number(number))
    }
}

// The number that a block is.
fn number_of(block: &[u8]) -> Option<u64>
    ensures { result ≡ number_of block.now }
{
    if block.len() <= DIGIT_LIMIT {
        number_up_to(u64::MAX, block)
    } else {
        None
    }
}

// A number counted up, round at 2^64, or down, to 0 at least.
fn counted(up: bool, number: u64, delta: u64) -> u64
    ensures { result ≡ counted up number delta }
{
    if up {
        number.wrapping_add(delta)
    } else {
        number.saturating_sub(delta)
    }
}

// Puts other bytes in the place of a text's, in its room where they fit there. As many bytes are put over the old ones. Without memory
// the text stays.
fn overwrite(text: &mut Vec<u8>, bytes: &[u8]) -> Result<(), AllocError>
    ensures ok { OnOk result (text.new.items ≡ bytes.now) }
    ensures err { OnErr result (text.new.items ≡ text.old.items) }
{
    if text.len() == bytes.len() {
        text.copy_from_slice(bytes);
        return Ok(());
    }
    text.reserve(bytes.len().saturating_sub(text.len()))?;
    text.clear();
    text.extend_from_slice(bytes)
}

// Puts bytes in front of a text's. Without memory the text stays.
fn put_in_front(text: &mut Vec<u8>, bytes: &[u8]) -> Result<(), AllocError>
    ensures ok { OnOk result (text.new.items ≡ bytes.now ++ text.old.items) }
    ensures err { OnErr result (text.new.items ≡ text.old.items) }
{
    text.extend_from_slice(bytes)?;
    text.rotate_right(bytes.len());
    Ok(())
}
