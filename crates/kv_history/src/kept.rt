//! What a journal keeps behind its pointer.
ghost use Rattle.std.specs.Prelude.{◌≡◌, ◌<◌, ◌≤◌, ◌++◌, ◌∷◌, [], is_err, length, vec_capacity, vec_len, OnErr, OnOk};
ghost use Rattle.mc_text.specs.Request.{request_of, view};
ghost use Rattle.kv_history.specs.Answer.{reply_of, store_after};
ghost use Rattle.kv_history.specs.Records.{IsNoted};

use crate::Store;
use crate::caller::Caller;
use crate::record::Record;
use mc_text::Command;
use out_of_memory::OutOfMemory;

/// The callers, the records of the entries and their replies, and the store.
#[derive(Drop)]
pub(crate) struct Kept<'a> {
    pub callers: Vec<Caller<'a>>,
    pub records: Vec<Record<'a>>,
    /// The replies of all entries, one behind the other.
    pub replies: Vec<u8>,
    pub store: Store,
}

impl<'a> Kept<'a> {
    /// Applies a command to the store, and notes it for a caller, with its reply. Without memory the store and the replies
    /// stay, and what is noted is void.
    pub(crate) fn apply(&mut self, caller: u32, command: &Command<'a>) -> Result<(), OutOfMemory>
        requires { vec_len self.old.records < vec_capacity self.old.records }
        ensures callers { self.new.callers ≡ self.old.callers }
        ensures noted { IsNoted self.old.records.items self.new.records.items caller (view command.now) (is_err result)
            (length self.new.replies.items) }
        ensures room { vec_capacity self.old.records ≤ vec_capacity self.new.records }
        ensures reply { OnOk result (self.new.replies.items
            ≡ self.old.replies.items ++ reply_of self.old.store (request_of command.now)) }
        ensures store { OnOk result (self.new.store ≡ store_after self.old.store (request_of command.now)) }
        ensures reply_stays { OnErr result (self.new.replies.items ≡ self.old.replies.items) }
        ensures store_stays { OnErr result (self.new.store ≡ self.old.store) }
    {
        let answered = self.store.answer(command, &mut self.replies);
        let record = Record {
            spelling: command.spelling(),
            end: self.replies.len(),
            caller,
            void: answered.is_err(),
        };
        put(&mut self.records, record);
        answered
    }
}

// Puts a record into room that is there, so the push succeeds.
fn put<'a>(records: &mut Vec<Record<'a>>, last: Record<'a>)
    requires { vec_len records.old < vec_capacity records.old }
    ensures items { records.new.items ≡ records.old.items ++ last.entry ∷ [] }
    ensures capacity { vec_capacity records.old ≤ vec_capacity records.new }
{
    let _ = records.push(last);
}
