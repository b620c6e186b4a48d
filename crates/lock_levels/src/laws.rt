//! What may go to another thread, or be shared with one, of the passes of a plan's locks, as laws for the checker.
ghost use Rattle.std.specs.Thread.{IsSend, IsSync};
ghost use Rattle.lock_rules.specs.contracts.tokens.Pass.{the_row as the_pass_row};
ghost use Rattle.clof_compose.specs.contracts.level_tokens.LevelPass.{the_row as the_low_row};
ghost use Rattle.clof_compose.specs.contracts.top_tokens.TopPass.{the_row as the_top_row};

use crate::tiers::LowPass;
use clof_compose::TopPass;
use keep_local::receipts_are_shared;
use lock_rules::{Pass, passes_are_shared};

// What its type says may be sent.
fn is_sent<T: Send>()
    ensures { IsSend T.row }
{}

// What its type says may be shared.
fn is_shared<T: Sync>()
    ensures { IsSync T.row }
{}

/// An idle pass of a lock of more than one level may be shared between threads.
pub fn low_passes_are_shared()
    ensures { IsSync (the_low_row the_pass_row) }
{
    passes_are_shared();
    receipts_are_shared();
    is_shared::<LowPass>();
}

/// An idle pass of a top lock may be shared between threads.
pub fn top_passes_are_shared()
    ensures { IsSync (the_top_row the_pass_row) }
{
    passes_are_shared();
    receipts_are_shared();
    is_shared::<TopPass<Pass>>();
}

/// An idle pass of a lock of more than one level may go to another thread.
pub fn low_passes_may_be_sent()
    ensures { IsSend (the_low_row the_pass_row) }
{
    is_sent::<LowPass>();
}

/// An idle pass of a top lock may go to another thread.
pub fn top_passes_may_be_sent()
    ensures { IsSend (the_top_row the_pass_row) }
{
    is_sent::<TopPass<Pass>>();
}
