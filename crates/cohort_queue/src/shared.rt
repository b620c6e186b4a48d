//! What may be shared between threads, as a law for the checker: it finds that a queue may be shared once it knows this of its type.
ghost use Rattle.std.specs.Thread.{IsSync};

/// What its type says may be shared.
pub(crate) fn is_shared<T: Sync>()
    ensures { IsSync T.row }
{}
