//! The keys of the items that expire, by the times at which they do.
ghost use Rattle.std.specs.Prelude.{◌≡◌, ◌≤◌, ◌+◌, ℕ, List, true, false, IfNone, IfSome, OnErr, OnOk};
ghost use Rattle.kv_history.specs.Dues.{AreAlike, Lists, ListsAt, ListsToo, NoneListed, Relists, due_count, is_listed};
ghost use Rattle.kv_history.specs.declared.expiry.Expiry.TheVariants.{Never};

use crate::expiry::Expiry;
use out_of_memory::OutOfMemory;
use std::alloc::Global;
use std::collections::BTreeSet;

/// A key, and when its item expires.
#[derive(PartialEq, Eq, PartialOrd, Ord, Drop)]
pub(crate) struct Due {
    pub time: u64,
    pub key: Vec<u8>,
}

/// Keys with the times at which their items expire, in the order of these.
#[derive(Drop)]
pub(crate) struct Dues {
    alloc: Global,
    order: BTreeSet<Due>,
}

impl Dues {
    /// No keys. It takes no memory, and keeps the allocator.
    pub fn new(alloc: Global) -> Dues
        ensures { NoneListed result }
    {
        Dues {
            alloc,
            order: BTreeSet::new(alloc),
        }
    }

    /// Removes all keys.
    pub fn clear(&mut self)
        ensures { NoneListed self.new }
    {
        self.order.clear();
    }

    /// Lists a key at another expiry than before. Without memory the list stays.
    pub fn relist(&mut self, key: &[u8], old: Expiry, new: Expiry) -> Result<(), OutOfMemory>
        requires { ListsAt self.old key.now old }
        ensures ok { OnOk result (Relists key.now new self.old self.new) }
        ensures err { OnErr result (AreAlike self.old self.new) }
    {
        match old {
            Expiry::Never => self.list_expiry(key, new),
            Expiry::At(_) if old.is_same(new) => Ok(()),
            Expiry::At(time) => {
                let key = key.to_vec(self.alloc)?;
                self.list_expiry(&key, new)?;
                self.strike(Due { time, key });
                Ok(())
            }
        }
    }

    // Lists a key at an expiry too. Without memory the list stays.
    fn list_expiry(&mut self, key: &[u8], expiry: Expiry) -> Result<(), OutOfMemory>
        ensures ok { OnOk result (ListsToo key.now expiry self.old self.new) }
        ensures err { OnErr result (AreAlike self.old self.new) }
    {
        match expiry {
            Expiry::Never => Ok(()),
            Expiry::At(time) => self.list(Due {
                time,
                key: key.to_vec(self.alloc)?,
            }),
        }
    }

    // Lists a key at a time too. Without memory the list stays.
    fn list(&mut self, due: Due) -> Result<(), OutOfMemory>
        ensures ok { OnOk result (Lists due.key.items due.time true self.old self.new) }
        ensures err { OnErr result (AreAlike self.old self.new) }
    {
        self.order.insert(due)?;
        Ok(())
    }

    /// Strikes a key off at an expiry.
    pub fn strike_expiry(&mut self, key: Vec<u8>, expiry: Expiry)
        requires { ListsAt self.old key.items expiry }
        ensures { Relists key.items Never self.old self.new }
    {
        match expiry {
            Expiry::Never => (),
            Expiry::At(time) => self.strike(Due { time, key }),
        }
    }

    // Strikes a key off at a time.
    fn strike(&mut self, due: Due)
        ensures { Lists due.key.items due.time false self.old self.new }
    {
        self.order.remove(&due);
    }

    /// Strikes off the key that is the first to expire, where that is due at a moment, and answers it.
    pub fn strike_due(&mut self, moment: u32) -> Option<Due>
        ensures due { IfSome result (λ due. due.time ≤ moment) }
        ensures listed { IfSome result (λ due. is_listed self.old due.time due.key.items ≡ true) }
        ensures struck { IfSome result (λ due. Lists due.key.items due.time false self.old self.new) }
        ensures fewer { IfSome result (λ due. due_count self.old ≡ due_count self.new + 1) }
        ensures none { IfNone result ((time : ℕ) (key : List ℕ) → time ≤ moment → is_listed self.new time key ≡ false) }
        ensures stays { IfNone result (AreAlike self.old self.new) }
    {
        if self.order.first()?.time > u64::from(moment) {
            return None;
        }
        self.order.pop_first()
    }
}
