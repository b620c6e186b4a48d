//! The record of all holds of a lock of several levels: a `Trail` of turns, the `Share`s by which callers make them, and the
//! `ClosedReceipt`s that tell of closed turns when the trail is in other hands.
//!
//! A turn is lawful where it keeps the keep-local rule of CLoF (Chehab and others, "CLoF: A Compositional Lock Framework for Multi-level
//! NUMA Systems", SOSP 2021): a level hands the lock over to its own callers while somebody is queued there, at most as often as its keep.
//! `is_lawful` is a plain and slow program that computes this.
#![tactic(auto)]

mod checker;
mod laws;
mod plays;
mod receipt;
mod receipt_plays;
mod receipt_view;
mod receipts;
mod shape;
mod share;
mod tie;
mod trail;
mod tree;
mod turn;
mod view;

pub use checker::{begins, is_lawful, level_to_leave, run_of};
pub use laws::{keeps_at_most, receipts_are_shared, turn_is_fixed};
pub use plays::{Append, Cut, Glue, Look, TieRule};
pub use receipt::ClosedReceipt;
pub use receipt_plays::{Check, ClosedTurns, CopyTurns, ReceiptRule, Record, Show};
pub use receipt_view::ReceiptView;
pub use shape::Shape;
pub use share::Share;
pub use trail::Trail;
pub use turn::Turn;
pub use view::{Tally, View};
