//! What each command makes of the store.
ghost use Rattle.std.specs.Prelude.{◌≡◌, IfOk, OnErr, OnOk};
ghost use Rattle.std.specs.FinMap as map;
ghost use Rattle.kv_history.specs.Answer.{counting, deletion, kept, moved, storage, touching};
ghost use Rattle.kv_history.specs.Edits.{joining};
ghost use Rattle.kv_history.specs.Lines.{fixed_line, written_line};
ghost use Rattle.kv_history.specs.Views.{storing_view};
ghost use Rattle.kv_history.specs.declared.reply_line.FixedLine.TheVariants.{Stored};
ghost use Rattle.mc_text.specs.declared.command.How.TheVariants.{Cas};

use crate::Store;
use crate::expiry::expiry_of;
use crate::item::{Counting, Edit, Side};
use crate::reply_line::{FixedLine, ReplyLine};
use crate::storing::Storing;
use mc_text::How;
use out_of_memory::OutOfMemory;

// The greatest number of bytes of a value.
const VALUE_LIMIT: usize = 1_048_576;

impl Store {
    /// Stores an item as a storage command asks. Without memory the store stays.
    pub(crate) fn store(&mut self, storing: &Storing<'_>) -> Result<FixedLine, OutOfMemory>
        ensures line { IfOk result (λ line. fixed_line line ≡ (storage self.old (storing_view storing.now) storing.now.how
            (map.get self.old.items storing.now.key.now)).reply) }
        ensures store { OnOk result (self.new ≡ (storage self.old (storing_view storing.now) storing.now.how
            (map.get self.old.items storing.now.key.now)).store) }
        ensures err { OnErr result (self.new ≡ self.old) }
    {
        match storing.how {
            How::Set => self.keep(storing),
            How::Add => match self.items.get(storing.key) {
                None => self.keep(storing),
                Some(_) => Ok(FixedLine::NotStored),
            },
            How::Replace => match self.items.get(storing.key) {
                None => Ok(FixedLine::NotStored),
                Some(_) => self.keep(storing),
            },
            How::Append => self.join(storing.key, Side::Back, storing.block),
            How::Prepend => self.join(storing.key, Side::Front, storing.block),
            How::Cas => self.exchange(storing),
        }
    }

    // Stores an item, or lets it expire at once, and uses the next unique up. Without memory the store stays.
    fn keep(&mut self, storing: &Storing<'_>) -> Result<FixedLine, OutOfMemory>
        ensures line { IfOk result (λ line. line ≡ Stored) }
        ensures store { OnOk result (self.new ≡ kept self.old (storing_view storing.now)) }
        ensures err { OnErr result (self.new ≡ self.old) }
    {
        let expiry = expiry_of(self.moment, storing.exptime);
        if expiry.is_due(self.moment) {
            self.items.remove(storing.key);
        } else {
            let unique = self.next_unique;
            self.items
                .put(storing.key, storing.flags, expiry, storing.block, unique)?;
        }
        self.next_unique = self.next_unique.wrapping_add(1);
        Ok(FixedLine::Stored)
    }

    // Joins bytes to the block of the item that a key has. Without memory the store stays.
    fn join(&mut self, key: &[u8], side: Side, more: &[u8]) -> Result<FixedLine, OutOfMemory>
        ensures line { IfOk result (λ line. fixed_line line
            ≡ (joining self.old key.now side more.now (map.get self.old.items key.now)).reply) }
        ensures store { OnOk result (self.new ≡ (joining self.old key.now side more.now (map.get self.old.items key.now)).store) }
        ensures err { OnErr result (self.new ≡ self.old) }
    {
        let Some(item) = self.items.get(key) else {
            return Ok(FixedLine::NotStored);
        };
        if item.block.len().saturating_add(more.len()) > VALUE_LIMIT {
            return Ok(FixedLine::TooLarge);
        }
        self.items
            .edit(key, Edit::Join(side, more), self.next_unique)?;
        self.next_unique = self.next_unique.wrapping_add(1);
        Ok(FixedLine::Stored)
    }

    // Stores an item where the one that is present has the unique that is asked for. Without memory the store stays.
    fn exchange(&mut self, storing: &Storing<'_>) -> Result<FixedLine, OutOfMemory>
        ensures line { IfOk result (λ line. fixed_line line
            ≡ (storage self.old (storing_view storing.now) Cas (map.get self.old.items storing.now.key.now)).reply) }
        ensures store { OnOk result (self.new
            ≡ (storage self.old (storing_view storing.now) Cas (map.get self.old.items storing.now.key.now)).store) }
        ensures err { OnErr result (self.new ≡ self.old) }
    {
        let Some(item) = self.items.get(storing.key) else {
            return Ok(FixedLine::NotFound);
        };
        if item.unique == storing.unique {
            self.keep(storing)
        } else {
            Ok(FixedLine::Exists)
        }
    }

    /// Removes a key's item.
    pub(crate) fn delete(&mut self, key: &[u8]) -> FixedLine
        ensures line { fixed_line result ≡ (deletion self.old key.now (map.get self.old.items key.now)).reply }
        ensures store { self.new ≡ (deletion self.old key.now (map.get self.old.items key.now)).store }
    {
        if self.items.remove(key) {
            FixedLine::Deleted
        } else {
            FixedLine::NotFound
        }
    }

    /// Counts a key's number up or down. Without memory the store stays.
    pub(crate) fn count(
        &mut self,
        up: bool,
        key: &[u8],
        delta: u64,
    ) -> Result<ReplyLine, OutOfMemory>
        ensures line { IfOk result (λ line. written_line line
            ≡ (counting self.old up key.now delta (map.get self.old.items key.now)).reply) }
        ensures store { OnOk result (self.new ≡ (counting self.old up key.now delta (map.get self.old.items key.now)).store) }
        ensures err { OnErr result (self.new ≡ self.old) }
    {
        match self.items.count(key, up, delta, self.next_unique)? {
            Counting::Absent => Ok(ReplyLine::Fixed(FixedLine::NotFound)),
            Counting::NotNumber => Ok(ReplyLine::Fixed(FixedLine::NotNumber)),
            Counting::Number(number) => {
                self.next_unique = self.next_unique.wrapping_add(1);
                Ok(ReplyLine::Number(number))
            }
        }
    }

    /// Lets a key's item expire at another time, which may be at once. Without memory the store stays.
    pub(crate) fn touch(&mut self, key: &[u8], exptime: i32) -> Result<FixedLine, OutOfMemory>
        ensures line { IfOk result (λ line. fixed_line line
            ≡ (touching self.old key.now exptime (map.get self.old.items key.now)).reply) }
        ensures store { OnOk result (self.new ≡ (touching self.old key.now exptime (map.get self.old.items key.now)).store) }
        ensures err { OnErr result (self.new ≡ self.old) }
    {
        if self.items.get(key).is_none() {
            return Ok(FixedLine::NotFound);
        }
        let expiry = expiry_of(self.moment, exptime);
        if expiry.is_due(self.moment) {
            self.items.remove(key);
        } else {
            self.items.touch(key, expiry)?;
        }
        Ok(FixedLine::Touched)
    }

    /// Moves the moment on and removes the items that have expired by then, unless it would go back.
    pub(crate) fn move_on(&mut self, moment: u32) -> FixedLine
        ensures line { fixed_line result ≡ (moved self.old moment).reply }
        ensures store { self.new ≡ (moved self.old moment).store }
    {
        if moment < self.moment {
            return FixedLine::Back;
        }
        self.items.expire(moment);
        self.moment = moment;
        FixedLine::Done
    }
}
