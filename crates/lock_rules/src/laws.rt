//! What may be shared between threads, as a law. It is a function that does nothing, whose contract is the law.
ghost use Rattle.std.specs.Thread.{IsSync};
ghost use Rattle.lock_rules.specs.contracts.tokens.Pass.{the_row};

/// An idle pass may be shared between threads. A composed lock keeps such passes, and the checker finds that it may be shared once it
/// knows this.
pub fn passes_are_shared()
    ensures { IsSync the_row }
{}
