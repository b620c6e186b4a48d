//! What the tokens of a lock mean.
ghost use Rattle.std.specs.Prelude.{◌≡◌, ℕ};
ghost use Rattle.std.specs.Borrow.{Lends, sem};
ghost use Rattle.lock_rules.specs.Meanings.{Place, Waiting, Holder};

/// The token of a pass that isn't in use.
pub trait Placed: Drop {
    ghost place: { Self → Place };

    // How many entering steps it recorded.
    ghost entries: { Self → ℕ };
}

/// The token of a pass in the queue.
pub trait Queueing: Drop {
    ghost waiting: { Self → Waiting };
}

/// The token of a pass that leaves.
pub trait Departing: Drop {
    ghost waiting: { Self → Waiting };

    // What the release still owes: where the token has the lock's value in hand, it is fit, has the token's tag, and is parked only behind
    // a yes of `waiter`. It is always true of a token that has no value in hand.
    ghost rests: { Self → Type 0 };
}

/// The token of a holder, with the lock's value.
pub trait Holding<V: Drop>: Drop {
    ghost holder: { Self → Holder V };

    // The token with this value in the place of its own.
    ghost put: { Self → V → Self };

    fn value(&self) -> &V
        ensures { result.now ≡ (holder self.now).value };

    fn value_mut(&mut self) -> &mut V
        ensures* writes_back { sem 𝓛 (Lends Self.row V.row self.entry result (put self.old)) }
        ensures value { result.now ≡ (holder self.old).value }
        ensures others { (w : V) → holder (put self.old w) ≡ record (holder self.old) { value = w } };
}
