//! The items of a store.
ghost use Rattle.std.specs.Prelude.{◌≡◌, IfOk, OnErr, OnOk, option_map, is_some, None, Some};
ghost use Rattle.std.specs.Bool.{OnFalse};
ghost use Rattle.std.specs.Option.{option_map_or};
ghost use Rattle.std.specs.FinMap as map;
ghost use Rattle.kv_history.specs.Contents.{left_at};
ghost use Rattle.kv_history.specs.Edits.{counted_in, counting_of, edited};
ghost use Rattle.kv_history.specs.Views.{plain_item};

use crate::dues::Dues;
use crate::expiry::Expiry;
use crate::item::{Counting, Edit, Item};
use crate::table::{Found, Table};
use out_of_memory::OutOfMemory;
use std::alloc::Global;
use std::marker::Model;

/// Items by their keys, which are listed by when they expire. An item that never expires isn't listed.
#[derive(Drop)]
pub(crate) struct Items {
    alloc: Global,
    table: Table,
    dues: Dues,
}

impl Model for Items {
    ghost use Rattle.kv_history.specs.Contents.{Items, items_code};

    ghost Value = { Items };

    ghost coded = { items_code };

    ghost use Rattle.kv_history.specs.Dues.{Agrees};

    ghost view = { λ items. items.table };

    ghost invariant = { λ items. Agrees items.dues items.table };
}

impl Items {
    /// No items. It takes no memory, and keeps the allocator.
    pub fn new(alloc: Global) -> Items
        ensures { result ≡ map.empty }
    {
        let table = Table::new(alloc);
        let dues = Dues::new(alloc);
        Items { alloc, table, dues }
    }

    /// The item of a key.
    pub fn get(&self, key: &[u8]) -> Option<&Item>
        ensures { option_map (λ item. plain_item item.now) result ≡ map.get self.now key.now }
    {
        self.table.get(key)
    }

    /// Removes a key's item, and answers whether there was one.
    pub fn remove(&mut self, key: &[u8]) -> bool
        ensures removed { self.new ≡ map.remove self.old key.now }
        ensures found { result ≡ is_some (map.get self.old key.now) }
        ensures stays { OnFalse result (self.new ≡ self.old) }
    {
        let Some((key, item)) = self.table.take(key) else {
            return false;
        };
        self.dues.strike_expiry(key, item.expiry);
        true
    }

    /// Removes all items.
    pub fn clear(&mut self)
        ensures { self.new ≡ map.empty }
    {
        self.table.clear();
        self.dues.clear();
    }

    /// Removes the items that expire at a moment at the latest.
    pub fn expire(&mut self, moment: u32)
        ensures { self.new ≡ left_at moment self.old }
    {
        while let Some(due) = self.dues.strike_due(moment) {
            self.table.remove(&due.key);
        }
    }

    /// Puts an item under a key, in the place of the one that is there. Without memory the items stay.
    pub fn put(
        &mut self,
        key: &[u8],
        flags: u32,
        expiry: Expiry,
        block: &[u8],
        unique: u64,
    ) -> Result<(), OutOfMemory>
        ensures ok { OnOk result (self.new ≡ map.insert self.old key.now
            (record { flags = flags; expiry = expiry; block = block.now; unique = unique })) }
        ensures err { OnErr result (self.new ≡ self.old) }
    {
        match self
            .table
            .edit_alike(key, expiry, Edit::Whole { flags, block }, unique)?
        {
            Found::Alike => Ok(()),
            Found::Absent => self.put_new(
                key,
                Item::new(self.alloc, flags, expiry, block, unique)?,
            ),
            Found::Other(old) => {
                let item = Item::new(self.alloc, flags, expiry, block, unique)?;
                self.put_over(key, old, item)
            }
        }
    }

    // Puts an item under a key that has none. Without memory the items stay.
    fn put_new(&mut self, key: &[u8], item: Item) -> Result<(), OutOfMemory>
        requires { map.get self.old key.now ≡ None }
        ensures ok { OnOk result (self.new ≡ map.insert self.old key.now (plain_item item)) }
        ensures err { OnErr result (self.new ≡ self.old) }
    {
        let expiry = item.expiry;
        self.table.insert(key, item)?;
        match self.dues.relist(key, Expiry::Never, expiry) {
            Ok(()) => Ok(()),
            Err(error) => {
                self.table.remove(key);
                Err(error)
            }
        }
    }

    // Puts an item in the place of the one that a key has, which expires at another time. Without memory the items stay.
    fn put_over(&mut self, key: &[u8], old: Expiry, item: Item) -> Result<(), OutOfMemory>
        requires { option_map (λ item. item.expiry) (map.get self.old key.now) ≡ Some old }
        ensures ok { OnOk result (self.new ≡ map.insert self.old key.now (plain_item item)) }
        ensures err { OnErr result (self.new ≡ self.old) }
    {
        self.dues.relist(key, old, item.expiry)?;
        self.table.replace(key, item);
        Ok(())
    }

    /// Lets the item that a key has expire at another time. Without memory the items stay.
    pub fn touch(&mut self, key: &[u8], expiry: Expiry) -> Result<(), OutOfMemory>
        ensures ok { OnOk result (self.new ≡ option_map_or (λ item. map.insert self.old key.now (record item { expiry = expiry }))
            (map.get self.old key.now) self.old) }
        ensures err { OnErr result (self.new ≡ self.old) }
    {
        let Some(item) = self.table.get(key) else {
            return Ok(());
        };
        let old = item.expiry;
        self.dues.relist(key, old, expiry)?;
        self.table.set_expiry(key, expiry);
        Ok(())
    }

    /// Changes the item of a key, which gets another unique, and answers whether there is one. Without memory the
    /// items stay.
    pub fn edit(&mut self, key: &[u8], edit: Edit<'_>, unique: u64) -> Result<bool, OutOfMemory>
        ensures ok { OnOk result (self.new ≡ option_map_or (λ item. map.insert self.old key.now (edited edit.entry unique item))
            (map.get self.old key.now) self.old) }
        ensures found { IfOk result (λ found. found ≡ is_some (map.get self.old key.now)) }
        ensures err { OnErr result (self.new ≡ self.old) }
    {
        self.table.edit(key, edit, unique)
    }

    /// Counts the number that a key's item holds up or down; the item gets another unique. The items stay where there is none
    /// or it holds no number, and without memory.
    pub fn count(
        &mut self,
        key: &[u8],
        up: bool,
        delta: u64,
        unique: u64,
    ) -> Result<Counting, OutOfMemory>
        ensures number { IfOk result (λ counting. counting ≡ counting_of up delta (map.get self.old key.now)) }
        ensures ok { OnOk result (self.new ≡ counted_in self.old key.now up delta unique (map.get self.old key.now)) }
        ensures err { OnErr result (self.new ≡ self.old) }
    {
        self.table.count(key, up, delta, unique)
    }
}
