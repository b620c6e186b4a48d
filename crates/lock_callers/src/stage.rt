//! The token of a caller.
ghost use Rattle.std.specs.Prelude.{◌≡◌};
ghost use Rattle.lock_callers.specs.Sound.{standing_of};

use crate::standing::Standing;

/// The token of a caller, by where the caller stands.
#[derive(Drop)]
pub enum Stage<P, Q, H, L> {
    Idle(P),
    Queued(Q),
    Holding(H),
    Leaving(L),
    Spent,
}

impl<P, Q, H, L> Stage<P, Q, H, L> {
    pub fn standing(&self) -> Standing
        ensures { result ≡ standing_of self.now }
    {
        match self {
            Stage::Idle(_) => Standing::Idle,
            Stage::Queued(_) => Standing::Queued,
            Stage::Holding(_) => Standing::Holding,
            Stage::Leaving(_) => Standing::Leaving,
            Stage::Spent => Standing::Spent,
        }
    }
}
