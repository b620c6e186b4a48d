//! Composed locks.
//!
//! What the composition of CLoF (Chehab and others, SOSP 2021) names, and where it stands here:
//!
//! | CLoF | here |
//! |---|---|
//! | `has_waiters` | `Basic::waiter`, which a release asks once a level; `Own::said` keeps the answer |
//! | `keep_local` | a yes of `waiter`, and an `Own::kept` below the level's threshold |
//! | `pass_high_lock` | the high lock's token stays in the value, as `High::Kept`, where the next holder finds it |
//! | `clear_high_lock` | the high lock is released, and its pass is in the value again, as `High::Idle` |
#![tactic(auto)]

mod cargo;
mod climb;
mod closing;
mod composed;
mod context_id;
mod level;
mod level_making;
mod level_tokens;
mod making;
mod node;
mod own;
mod own_cargo;
mod passing;
mod release;
mod report;
mod root;
mod stage;
mod token;
mod top;
mod top_tokens;
mod turns;
mod waits;

pub use composed::Composed;
pub use level::Level;
pub use level_making::{Returned, make_level};
pub use level_tokens::{LevelHeld, LevelLeave, LevelPass, LevelQueue};
pub use lock_rules::Payload;
pub use making::make_top;
pub use node::Node;
pub use own::{High, Own};
pub use report::Report;
pub use root::Root;
pub use stage::{LeaveStage, QueueStage};
pub use token::{Climbing, Descending, Resting, Standing};
pub use top::Top;
pub use top_tokens::{TopHeld, TopLeave, TopPass, TopQueue};
pub use waits::Waits;
