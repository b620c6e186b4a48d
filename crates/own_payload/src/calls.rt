//! Who has called, for proofs alone.
ghost use Rattle.std.specs.Prelude.{◌≡◌, ℕ, List, [], ◌∷◌, ◌++◌};
ghost use Rattle.std.specs.Borrow.{ftrue};

use std::marker::Model;

/// The callers of all calls so far, in order, as a list that only proofs read. It takes no bytes, and its calls do nothing when they run.
#[derive(Drop)]
pub struct Calls {
    pub ghost callers: { List ℕ },
}

impl Model for Calls {
    ghost also_owns = { λ _. ftrue };
}

// It owns nothing.
unsafe impl Send for Calls {}

unsafe impl Sync for Calls {}

impl Calls {
    /// No calls.
    pub fn new() -> Calls
        ensures { result.callers ≡ [] }
    {
        Calls {}
    }

    /// These calls, and one of this caller behind them.
    pub fn and(&self, caller: u32) -> Calls
        ensures { result.callers ≡ self.now.callers ++ caller ∷ [] }
    {
        Calls {}
    }
}
