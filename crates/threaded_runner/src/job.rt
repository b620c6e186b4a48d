//! What a caller has to do.
use keep_local::Share;
use mc_text::Commands;

/// A caller's part in a run: its pass, its share, the commands of its section that it hasn't given, and whether it stopped before they
/// ended, which is for want of memory.
#[derive(Drop)]
pub struct Job<'a, Q> {
    pub pass: Q,
    pub share: Share,
    pub commands: Commands<'a>,
    pub stopped: bool,
}
