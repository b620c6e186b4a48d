//! Replies, written.
ghost use Rattle.std.specs.Prelude.{◌≡◌, ℕ, List, ◌++◌, codes, OnErr, OnOk};
ghost use Rattle.std.specs.List.{flat_map};
ghost use Rattle.kv_history.specs.Answer.{written_item, line_end};
ghost use Rattle.kv_history.specs.Views.{plain_item};

use crate::item::Item;
use byte_text::push_decimal;
use out_of_memory::OutOfMemory;

/// Appends an item to a reply, with its unique or without. Without memory only a part of it is appended.
#[tactic(auto, unfolding(crate::specs::Answer::written_item))]
pub(crate) fn append_item(
    reply: &mut Vec<u8>,
    uniques: bool,
    key: &[u8],
    item: &Item,
) -> Result<(), OutOfMemory>
    ensures ok { OnOk result (reply.new.items ≡ reply.old.items ++ written_item uniques key.now (plain_item item.now)) }
    ensures err { OnErr result ((part : List ℕ) × (reply.new.items ≡ reply.old.items ++ part)) }
{
    append(reply, &[b"VALUE ", key, b" "])?;
    push_decimal(reply, u64::from(item.flags))?;
    append(reply, &[b" "])?;
    push_decimal(reply, item.block.len() as u64)?;
    append_block(reply, uniques, item)
}

// Appends what stands behind the size of an item's block: the unique, where it is asked for, and the block. Without
// memory only a part of it is appended.
#[tactic(auto, unfolding(crate::specs::Answer::written_item))]
fn append_block(reply: &mut Vec<u8>, uniques: bool, item: &Item) -> Result<(), OutOfMemory>
    ensures ok { OnOk result (reply.new.items
        ≡ reply.old.items ++ (line_end uniques item.now.unique ++ item.now.block.items ++ codes "\r\n")) }
    ensures err { OnErr result ((part : List ℕ) × (reply.new.items ≡ reply.old.items ++ part)) }
{
    if uniques {
        append(reply, &[b" "])?;
        push_decimal(reply, item.unique)?;
    }
    append(reply, &[b"\r\n", &item.block, b"\r\n"])
}

// Appends pieces to a text, one behind the other. Without memory only a part of them is appended.
fn append(text: &mut Vec<u8>, pieces: &[&[u8]]) -> Result<(), OutOfMemory>
    ensures ok { OnOk result (text.new.items ≡ text.old.items ++ flat_map (λ piece. piece.now) pieces.now) }
    ensures err { OnErr result ((part : List ℕ) × (text.new.items ≡ text.old.items ++ part)) }
{
    for piece in pieces {
        text.extend_from_slice(piece)?;
    }
    Ok(())
}
