//! What may go to another thread, as a law for the checker: it finds that a history may be sent once it knows this of its type.
ghost use Rattle.std.specs.Thread.{IsSend};

/// What its type says may be sent.
pub(crate) fn is_sent<T: Send>()
    ensures { IsSend T.row }
{}
