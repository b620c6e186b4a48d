//! Items by their keys.
ghost use Rattle.std.specs.Prelude.{◌≡◌, IfNone, IfOk, IfSome, OnErr, OnOk, option_map, is_some, true};
ghost use Rattle.std.specs.Option.{option_map_or};
ghost use Rattle.std.specs.FinMap as map;
ghost use Rattle.kv_history.specs.Views.{plain_item};
ghost use Rattle.kv_history.specs.Edits.{counted_in, counting_of, edited, edited_alike, found_of};

use crate::expiry::Expiry;
use crate::item::{Counting, Edit, Item};
use indexmap::IndexMap;
use out_of_memory::OutOfMemory;
use std::alloc::Global;
use std::marker::Model;

/// Items, at most one a key.
#[derive(Drop)]
pub(crate) struct Table {
    alloc: Global,
    entries: IndexMap<Vec<u8>, Item>,
}

/// What a key has, beside an expiry.
#[derive(Clone, Copy)]
pub(crate) enum Found {
    /// No item.
    Absent,
    /// An item with this expiry.
    Alike,
    /// An item with another expiry.
    Other(Expiry),
}

impl Model for Table {
    ghost use Rattle.std.specs.Prelude.{map};
    ghost use Rattle.std.specs.FinMap.{from_entries};
    ghost use Rattle.kv_history.specs.Contents.{Items, items_code};
    ghost use Rattle.kv_history.specs.Views.{keyed};

    ghost Value = { Items };

    ghost coded = { items_code };

    ghost view = { λ table. from_entries (map keyed table.entries.entries) };
}

impl Table {
    /// No items. It takes no memory, and keeps the allocator.
    pub fn new(alloc: Global) -> Table
        ensures { result ≡ map.empty }
    {
        Table {
            alloc,
            entries: IndexMap::new(alloc),
        }
    }

    /// The item of a key.
    pub fn get(&self, key: &[u8]) -> Option<&Item>
        ensures { option_map (λ item. plain_item item.now) result ≡ map.get self.now key.now }
    {
        self.entries.get(key)
    }

    /// Removes a key's item, and answers whether there was one.
    pub fn remove(&mut self, key: &[u8]) -> bool
        ensures removed { self.new ≡ map.remove self.old key.now }
        ensures found { result ≡ is_some (map.get self.old key.now) }
    {
        self.entries.swap_remove(key).is_some()
    }

    /// Removes a key's item, and answers it with its key.
    pub fn take(&mut self, key: &[u8]) -> Option<(Vec<u8>, Item)>
        ensures removed { self.new ≡ map.remove self.old key.now }
        ensures item { option_map (λ entry. plain_item entry.1) result ≡ map.get self.old key.now }
        ensures key { IfSome result (λ entry. entry.0.items ≡ key.now) }
        ensures stays { IfNone result (self.new ≡ self.old) }
    {
        self.entries.swap_remove_entry(key)
    }

    /// Removes all items.
    pub fn clear(&mut self)
        ensures { self.new ≡ map.empty }
    {
        self.entries.clear();
    }

    /// Puts an item under a key that has none. Without memory the items stay.
    pub fn insert(&mut self, key: &[u8], item: Item) -> Result<(), OutOfMemory>
        ensures ok { OnOk result (self.new ≡ map.insert self.old key.now (plain_item item)) }
        ensures err { OnErr result (self.new ≡ self.old) }
    {
        self.entries.insert(key.to_vec(self.alloc)?, item)?;
        Ok(())
    }

    /// Puts an item in the place of the one that a key has.
    pub fn replace(&mut self, key: &[u8], item: Item)
        requires { is_some (map.get self.old key.now) ≡ true }
        ensures { self.new ≡ map.insert self.old key.now (plain_item item) }
    {
        let Some(old) = self.entries.get_mut(key) else {
            return;
        };
        *old = item;
    }

    /// Lets a key's item expire at another time.
    pub fn set_expiry(&mut self, key: &[u8], expiry: Expiry)
        ensures { self.new ≡ option_map_or (λ item. map.insert self.old key.now (record item { expiry = expiry }))
            (map.get self.old key.now) self.old }
    {
        let Some(item) = self.entries.get_mut(key) else {
            return;
        };
        item.expiry = expiry;
    }

    /// Changes the item of a key where that has this expiry; the item gets another unique. It answers what the key has.
    /// Without memory the items stay.
    pub fn edit_alike(
        &mut self,
        key: &[u8],
        expiry: Expiry,
        edit: Edit<'_>,
        unique: u64,
    ) -> Result<Found, OutOfMemory>
        ensures found { IfOk result (λ found. found ≡ found_of expiry (map.get self.old key.now)) }
        ensures ok { OnOk result (self.new ≡ edited_alike self.old key.now expiry edit.entry unique (map.get self.old key.now)) }
        ensures err { OnErr result (self.new ≡ self.old) }
    {
        let Some(item) = self.entries.get_mut(key) else {
            return Ok(Found::Absent);
        };
        if !item.expiry.is_same(expiry) {
            return Ok(Found::Other(item.expiry));
        }
        item.edit(edit, unique)?;
        Ok(Found::Alike)
    }

    /// Changes the item of a key, which gets another unique, and answers whether there is one. Without memory the
    /// items stay.
    pub fn edit(&mut self, key: &[u8], edit: Edit<'_>, unique: u64) -> Result<bool, OutOfMemory>
        ensures ok { OnOk result (self.new ≡ option_map_or (λ item. map.insert self.old key.now (edited edit.entry unique item))
            (map.get self.old key.now) self.old) }
        ensures found { IfOk result (λ found. found ≡ is_some (map.get self.old key.now)) }
        ensures err { OnErr result (self.new ≡ self.old) }
    {
        let Some(item) = self.entries.get_mut(key) else {
            return Ok(false);
        };
        item.edit(edit, unique)?;
        Ok(true)
    }

    /// Counts the number that a key's item holds up or down; the item gets another unique. The items stay where there is none
    /// or it holds no number, and without memory.
    pub fn count(
        &mut self,
        key: &[u8],
        up: bool,
        delta: u64,
        unique: u64,
    ) -> Result<Counting, OutOfMemory>
        ensures number { IfOk result (λ counting. counting ≡ counting_of up delta (map.get self.old key.now)) }
        ensures ok { OnOk result (self.new ≡ counted_in self.old key.now up delta unique (map.get self.old key.now)) }
        ensures err { OnErr result (self.new ≡ self.old) }
    {
        let Some(item) = self.entries.get_mut(key) else {
            return Ok(Counting::Absent);
        };
        let counting = item.count(up, delta, unique)?;
        Ok(counting)
    }
}
