//! Callers that hold a composed lock, apply the commands of their sections to the journal at its root, and keep receipts of their turns.
//!
//! These are the parts of a run as `threaded_runner` has them, over a lock whose root has a counted history beside the journal: at the
//! start of each hold the caller's token is shown the calls so far, and behind its call it gets the number of its turn. So each caller
//! comes back with the numbers of its turns, which no look into the history had to find.
#![tactic(auto)]

mod account;
mod book;
mod crew;
mod dealing;
mod finishing;
mod holding;
mod job;
mod laws;
mod lists;
mod receipts;
mod roots;
mod running;
mod waiting;

pub use account::{Account, Marks};
pub use book::FreshBook;
pub use crew::FreshCrew;
pub use finishing::{Marked, close_fresh};
pub use holding::serve_fresh;
pub use job::FreshJob;
pub use laws::{fresh_books_may_be_sent, fresh_books_may_be_shared};
pub use lists::Lists;
pub use receipts::printed_with_receipts;
pub use roots::fresh_root_of;
pub use running::{FreshPrepared, fresh_crew_of, prepare_fresh};
