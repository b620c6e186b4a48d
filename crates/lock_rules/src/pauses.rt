//! How a call that waits pauses between two of its polls.
ghost use Rattle.std.specs.Prelude.{◌≡◌, ◌-◌};

use crossbeam_utils::Backoff;

/// How many polls have a single pause behind each. A lock that goes from one running thread to the next does so within these.
const EARLY_POLLS: u32 = 100;

/// The pauses of one call. Behind the early polls they grow, and then yield the processor. `early` is how many early polls are left.
#[derive(Drop)]
pub struct Pauses {
    backoff: Backoff,
    early: u32,
}

impl Pauses {
    /// Those of a call that has not paused yet.
    pub fn new() -> Pauses
        ensures early { result.early ≡ 100 }
    {
        Pauses {
            backoff: Backoff::new(),
            early: EARLY_POLLS,
        }
    }

    /// Makes the next pause.
    pub fn pause(&mut self)
        ensures early { self.new.early ≡ self.old.early - 1 }
    {
        if self.early > 0 {
            self.early -= 1;
            self.backoff.reset();
        }
        self.backoff.snooze();
    }
}
