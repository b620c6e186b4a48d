//! A store of items that answers memcached's commands, and the journal of the commands that callers apply to it.
#![tactic(auto)]

mod caller;
mod changes;
mod dues;
mod expiry;
mod item;
mod items;
mod journal;
mod kept;
mod payload;
mod record;
mod replies;
mod reply_line;
mod store;
mod storing;
mod table;

pub use journal::{Entry, Journal, Receipt};
pub use store::Store;
