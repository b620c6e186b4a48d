//! What a caller has to do.
use crate::account::Account;
use mc_text::Commands;

/// A caller's part in a run: its pass, its account, the commands of its section that it hasn't given, and whether it stopped before they
/// ended, which is for want of memory.
#[derive(Drop)]
pub struct FreshJob<'a, Q> {
    pub pass: Q,
    pub account: Account,
    pub commands: Commands<'a>,
    pub stopped: bool,
}
