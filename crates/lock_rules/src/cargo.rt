//! What a lock asks of the value that it keeps.
ghost use Rattle.std.specs.Prelude.{◌≡◌, Bool};
ghost use Rattle.lock_rules.specs.Tag.{Tag};
ghost use Rattle.lock_rules.specs.declared.step.Answer.{Answer};

/// A value that a lock keeps.
///
/// `tag` is plain data that is the same each time the value stands at home in one lock. `fit` says whether the value may stand at home.
/// `said` is what the value keeps of an answer of `Basic::waiter`, `Open` where it keeps none.
pub trait Cargo: Drop {
    ghost tag: { Self → Tag };

    ghost fit: { Self → Type 0 };

    ghost parked: { Self → Bool };

    ghost said: { Self → Answer };

    /// Whether the value relies on somebody who waits behind its holder: it may be put back only then.
    fn parked(&self) -> bool
        ensures { result ≡ parked self.now };
}
