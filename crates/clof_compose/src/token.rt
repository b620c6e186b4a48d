//! What the tokens of a composed lock mean.
ghost use Rattle.std.specs.Prelude.{◌≡◌, Some};
ghost use Rattle.std.specs.Borrow.{Lends, sem};
ghost use Rattle.keep_local.specs.States.{no_receipt};
ghost use Rattle.clof_compose.specs.Meanings.{Rest, Climb, Stand, Descent};
ghost use Rattle.clof_compose.specs.Roots.{IsKept};
ghost use Rattle.clof_compose.specs.declared.root.Root.{Root as TheRoot};
ghost use Rattle.clof_compose.specs.contracts.root.Root.{the_row};

use crate::report::Report;
use crate::root::Root;
use lock_rules::Payload;

/// A pass that isn't in use.
pub trait Resting: Drop {
    ghost rest: { Self → Rest };

    /// The tests of the turn that the last release closed, 0 before the first.
    fn tests(&self) -> u32
        ensures { result ≡ (rest self.now).report.tests };

    /// What the last release told. The pass keeps the tests, and has a receipt of no turn from then on.
    fn take_report(&mut self) -> Report
        ensures report { result ≡ (rest self.old).report }
        ensures left { rest self.new ≡ record (rest self.old) { report = record (rest self.old).report { receipt = no_receipt } } };
}

/// A pass in the queue of some level.
pub trait Climbing: Drop {
    ghost climb: { Self → Climb };

    // The values of levels that it has in hand are as their holders found them.
    ghost climbs: { Self → Type 0 };

    /// The level at which it is queued.
    fn waits_at(&self) -> u32
        ensures { result ≡ (climb self.now).level };
}

/// A pass that leaves, at some level.
pub trait Descending: Drop {
    ghost descent: { Self → Descent };

    // What the release still owes: the values of levels that it has in hand may be put back.
    ghost descends: { Self → Type 0 };

    /// The level at which it leaves.
    fn leaves_at(&self) -> u32
        ensures { result ≡ (descent self.now).level };
}

/// The holder of a lock, by whom the root is reached.
pub trait Standing<P: Payload>: Drop {
    ghost stand: { Self → Stand (TheRoot P) };

    // The root is reached, and what levels keep of it is true.
    ghost stands: { Self → Type 0 };

    // The token with this root in the place of its own.
    ghost put_root: { Self → TheRoot P → Self };

    /// Lends the root. The holder still stands where what it makes of the root is of the same trail, and has no other closed turns than
    /// those from before and some that left below the lock's level.
    fn root(&mut self) -> &mut Root<P>
        requires stands { stands self.old }
        ensures* writes_back { sem 𝓛 (Lends Self.row (the_row P.row) self.entry result (put_root self.old)) }
        ensures value { (stand self.old).root ≡ Some result.now }
        ensures others { (r : TheRoot P) → stand (put_root self.old r) ≡ record (stand self.old) { root = Some r } }
        ensures stays { (r : TheRoot P) → IsKept P.calls (stand self.old).context.level result.now r → stands (put_root self.old r) };
}
