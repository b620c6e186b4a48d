//! The handles of callers: what a C program keeps of a caller of a Ticket, MCS, CLH or Hemlock lock.
#![tactic(auto)]

mod any;
mod boxes;
mod calls;
mod handle;
mod making;

pub use any::{AnyCaller, Kind};
pub use handle::ClofCaller;
pub use lock_callers::Call;
pub use making::{Made, make};
