//! The store.
ghost use Rattle.std.specs.Prelude.{◌≡◌, ℕ, ◌+◌, ◌≤◌, List, ◌++◌, codes, OnErr, OnOk, option_map, vec_capacity, vec_len};
ghost use Rattle.std.specs.FinMap as map;
ghost use Rattle.std.specs.List.{flat_map};
ghost use Rattle.mc_text.specs.Keys.{keys_left};
ghost use Rattle.mc_text.specs.Request.{request_of};
ghost use Rattle.kv_history.specs.Contents.{NoneExpired, empty_store};
ghost use Rattle.kv_history.specs.Lines.{HasLine};
ghost use Rattle.kv_history.specs.Answer.{reply_of, store_after, written_key};

use crate::items::Items;
use crate::replies::append_item;
use crate::reply_line::{FixedLine, LINE_ROOM, ReplyLine, tell};
use crate::storing::Storing;
use mc_text::{Command, Keys};
use out_of_memory::OutOfMemory;
use std::alloc::Global;
use std::marker::Model;

/// Items by their keys, the unique that the next item to be stored gets, and the moment, by which items expire.
#[derive(Drop)]
pub struct Store {
    pub(crate) items: Items,
    pub(crate) next_unique: u64,
    pub(crate) moment: u32,
}

impl Model for Store {
    ghost use Rattle.kv_history.specs.Contents.{Contents, contents_code};

    ghost Value = { Contents };

    ghost coded = { contents_code };

    ghost view = { λ store. record { items = store.items; next_unique = store.next_unique; moment = store.moment } };
}

impl Store {
    /// The store without items, at the moment 0. It takes no memory, and keeps the allocator for its items.
    pub fn new(alloc: Global) -> Store
        ensures empty { result ≡ empty_store }
        ensures none_expired { NoneExpired result }
    {
        Store {
            items: Items::new(alloc),
            next_unique: 1,
            moment: 0,
        }
    }

    /// Appends the reply to a command, and changes the store as the command asks. Without memory both stay.
    pub fn answer(&mut self, command: &Command<'_>, reply: &mut Vec<u8>) -> Result<(), OutOfMemory>
        ensures reply { OnOk result (reply.new.items ≡ reply.old.items ++ reply_of self.old (request_of command.now)) }
        ensures store { OnOk result (self.new ≡ store_after self.old (request_of command.now)) }
        ensures reply_stays { OnErr result (reply.new.items ≡ reply.old.items) }
        ensures store_stays { OnErr result (self.new ≡ self.old) }
        ensures none_expired { NoneExpired self.old → NoneExpired self.new }
    {
        // With this room, nothing fails once the store is changed.
        reply.reserve(LINE_ROOM)?;
        match *command {
            Command::Store {
                how,
                key,
                flags,
                exptime,
                unique,
                block,
                quiet,
                ..
            } => {
                let storing = Storing {
                    how,
                    key,
                    flags,
                    exptime,
                    unique,
                    block,
                    quiet,
                };
                let line = self.store(&storing)?;
                tell(reply, quiet, ReplyLine::Fixed(line))
            }
            Command::Get { uniques, keys, .. } => self.give(uniques, keys, reply),
            _ => self.answer_in_line(command, reply),
        }
    }

    /// The value of a key's item; `None` where the key is absent.
    pub fn block(&self, key: &[u8]) -> Option<&[u8]>
        ensures { option_map (λ block. block.now) result ≡ option_map (λ item. item.block) (map.get self.now.items key.now) }
    {
        let item = self.items.get(key)?;
        Some(&item.block)
    }

    // Appends the reply to a command whose reply is one line at most, and changes the store as the command asks. The reply
    // has room for a line.
    fn answer_in_line(
        &mut self,
        command: &Command<'_>,
        reply: &mut Vec<u8>,
    ) -> Result<(), OutOfMemory>
        requires line { HasLine (request_of command.now) }
        requires room { vec_len reply.old + 64 ≤ vec_capacity reply.old }
        ensures reply { OnOk result (reply.new.items ≡ reply.old.items ++ reply_of self.old (request_of command.now)) }
        ensures store { OnOk result (self.new ≡ store_after self.old (request_of command.now)) }
        ensures reply_stays { OnErr result (reply.new.items ≡ reply.old.items) }
        ensures store_stays { OnErr result (self.new ≡ self.old) }
    {
        match *command {
            Command::Store { .. } | Command::Get { .. } => unreachable!(),
            Command::Delete { key, quiet, .. } => {
                let line = self.delete(key);
                tell(reply, quiet, ReplyLine::Fixed(line))
            }
            Command::Count {
                up,
                key,
                delta,
                quiet,
                ..
            } => {
                let line = self.count(up, key, delta)?;
                tell(reply, quiet, line)
            }
            Command::Touch {
                key,
                exptime,
                quiet,
                ..
            } => {
                let line = self.touch(key, exptime)?;
                tell(reply, quiet, ReplyLine::Fixed(line))
            }
            Command::Flush { quiet, .. } => {
                self.items.clear();
                tell(reply, quiet, ReplyLine::Fixed(FixedLine::Done))
            }
            Command::Version { .. } => tell(reply, false, ReplyLine::Fixed(FixedLine::Version)),
            Command::Verbosity { quiet, .. } => {
                tell(reply, quiet, ReplyLine::Fixed(FixedLine::Done))
            }
            Command::Moment { moment, quiet, .. } => {
                let line = self.move_on(moment);
                tell(reply, quiet, ReplyLine::Fixed(line))
            }
            Command::Quit { .. } => Ok(()),
            Command::Bad { fault, .. } => {
                tell(reply, false, ReplyLine::Fixed(FixedLine::Fault(fault)))
            }
        }
    }

    // Appends the reply to a retrieval command. Without memory the reply stays.
    fn give(&self, uniques: bool, keys: Keys<'_>, reply: &mut Vec<u8>) -> Result<(), OutOfMemory>
        ensures ok { OnOk result (reply.new.items
            ≡ reply.old.items ++ (flat_map (written_key self.now.items uniques) (keys_left keys.entry) ++ codes "END\r\n")) }
        ensures err { OnErr result (reply.new.items ≡ reply.old.items) }
    {
        let size = reply.len();
        let given = self.give_each(uniques, keys, reply);
        if given.is_err() {
            reply.truncate(size);
        }
        given
    }

    // Appends the items of the keys that are present to a reply, and its end. Without memory only a part of it is
    // appended.
    fn give_each(
        &self,
        uniques: bool,
        mut keys: Keys<'_>,
        reply: &mut Vec<u8>,
    ) -> Result<(), OutOfMemory>
        ensures ok { OnOk result (reply.new.items
            ≡ reply.old.items ++ (flat_map (written_key self.now.items uniques) (keys_left keys.entry) ++ codes "END\r\n")) }
        ensures err { OnErr result ((part : List ℕ) × (reply.new.items ≡ reply.old.items ++ part)) }
    {
        while let Some(key) = keys.next() {
            if let Some(item) = self.items.get(key) {
                append_item(reply, uniques, key, item)?;
            }
        }
        reply.extend_from_slice(b"END\r\n")?;
        Ok(())
    }
}
