//! What a queue asks of its jobs.
ghost use Rattle.std.specs.Prelude.{◌≡◌, ℕ};
ghost use Rattle.lock_rules.specs.Tag.{Tag};

/// A job with a number of its own. `tag` is plain data that all jobs of one queue have in common.
pub trait Numbered: Drop {
    ghost number: { Self → ℕ };

    ghost tag: { Self → Tag };

    /// Its number.
    fn number(&self) -> u32
        ensures { result ≡ number self.now };
}
