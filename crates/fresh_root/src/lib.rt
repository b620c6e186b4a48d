//! A payload with a counted history: a word at the root of a lock counts the calls, so that each caller's token carries what its caller
//! last saw of them.
//!
//! A `Fresh` is the payload of a lock of several levels, and keeps another payload. At the start of a hold `Fresh::look` lends that payload
//! out and shows the caller's `Seen` all calls so far. Behind the call `Fresh::record` takes the payload in and gives a `Mark`, the place
//! of the call in the history. `Fresh::close` takes all tokens back.
#![tactic(auto)]

mod fresh;
mod history;
mod laws;
mod plays;
mod seen;
mod sent;
mod view;

pub use fresh::{Fresh, Mark};
pub use laws::{
    freshes_may_be_sent, histories_may_be_sent, histories_may_be_shared, marks_stand,
    no_release_while_out, tags_tell, what_was_seen_is_ordered,
};
pub use plays::{Append, Called, CopyList, FreshRule, Keep, Look};
pub use seen::Seen;
pub use view::View;
