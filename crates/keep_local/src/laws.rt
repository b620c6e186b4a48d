//! Laws of lawful turns and of receipts. Each is a function that does nothing, whose contract is the law.
ghost use Rattle.std.specs.Thread.{IsSync};
ghost use Rattle.keep_local.specs.Laws.{KeepsAtMost, TurnIsFixed};
ghost use Rattle.keep_local.specs.contracts.receipt.ClosedReceipt.{the_row};

/// Between two turns that left higher than a level, and before the first such turn, at most as many turns left at this level as it keeps.
pub fn keeps_at_most()
    ensures { KeepsAtMost }
{}

/// A lawful turn is fixed by the shape, the turns before it, its caller and its tests.
pub fn turn_is_fixed()
    ensures { TurnIsFixed }
{}

/// A receipt may be shared between threads. An idle pass of a composed lock has one.
pub fn receipts_are_shared()
    ensures { IsSync the_row }
{}
