//! What a composed lock promises as a whole, as laws of its parts. Each is a function that changes nothing, whose contract is the law.
//!
//! How often in a row a level keeps its high lock is a law of the trail, `keep_local::keeps_at_most`.
#![tactic(auto)]

ghost use Rattle.std.specs.Prelude.{◌≡◌, ◌≢◌, ℕ, [], Bool};
ghost use Rattle.lock_rules.specs.declared.view.Phase.{Phase};
ghost use Rattle.level_laws.specs.Laws.{AtMostOneHolds, ContextsAreApart, KeptIsWaitedFor, HasTestsBehind};
ghost use Rattle.level_laws.specs.Cohorts.{OneCohort};
ghost use Rattle.level_laws.specs.Reach.{OneReaches, OneReachesTop};
ghost use Rattle.level_laws.specs.Uses.{OneUser, NoUserOfHome, HoldersHave};
ghost use Rattle.clof_compose.specs.Calls.{ClosesWith};
ghost use Rattle.clof_compose.specs.declared.root.Root.{Root};

use clof_compose::{Composed, Own, Payload, Report, Resting, Standing};
use keep_local::Trail;
use lock_rules::{Basic, Cargo, Held as Holds};

/// Between any two atomic steps at most one pass holds a basic lock. So the root, which is the value of the top lock, has at most one
/// holder.
pub fn at_most_one_holds<V: Cargo>()
    ensures { (holds : Phase → Bool) → AtMostOneHolds V.fit V.tag V.parked holds }
{}

/// The values of two nodes of a level over this lock never have the same context of it. So each context is used by the holder of one node
/// alone.
pub fn contexts_are_apart<
    P: Payload,
    H: Composed<P>,
    B: Basic<Own<P, H::Pass, H::Held>, Held = Holds<Own<P, H::Pass, H::Held>>>,
>(_high: &H)
    ensures { ContextsAreApart H.Pass.rest H.Held.stand B.tag (H.has _high.now) (H.level _high.now) (H.tag _high.now) }
{}

/// Between any two atomic steps, each context of this lock is in the hands of one pass of one node's basic lock at most, which holds that
/// lock: while this pass keeps the lock, while it takes or releases it, and before and after that. The context of a value at home is in no
/// pass's hands. The tokens of a level that hold a node's lock have its context in hand so.
pub fn one_user_of_a_context<
    P: Payload,
    H: Composed<P>,
    B: Basic<Own<P, H::Pass, H::Held>, Held = Holds<Own<P, H::Pass, H::Held>>>,
>(_high: &H)
    ensures user { (level : ℕ) (holds : Phase → Bool) → OneUser P.calls P.tag H.Pass.rest H.Held.stand H.Held.stands H.Queue.climb
        H.Queue.climbs H.Leave.descent H.Leave.descends B.name B.tag B.count (H.has _high.now) (H.level _high.now) (H.tag _high.now)
        level holds }
    ensures home { (level : ℕ) (holds : Phase → Bool) → NoUserOfHome P.calls P.tag H.Pass.rest H.Held.stand H.Held.stands H.Queue.climb
        H.Queue.climbs H.Leave.descent H.Leave.descends B.name B.tag B.count (H.has _high.now) (H.level _high.now) (H.tag _high.now)
        level holds }
    ensures holders { HoldersHave B.Queue B.Leave H.Pass.rest H.Held.stand H.Held.stands H.Queue.climb H.Queue.climbs H.Leave.descent
        H.Leave.descends }
{}

/// Between any two atomic steps the root is reached from one context of the top lock at most: the one whose pass holds its basic lock.
pub fn one_reaches_the_top<V: Cargo>()
    ensures { (holds : Phase → Bool) → OneReachesTop V.fit V.tag V.parked holds }
{}

/// Between any two atomic steps each context of this lock is reached from one context at most of a level over it: the one whose pass holds
/// its node's basic lock, and keeps this lock by it. So, from the top lock down, the root is reached from one context at most of each
/// level.
pub fn one_reaches_a_context<
    P: Payload,
    H: Composed<P>,
    B: Basic<Own<P, H::Pass, H::Held>, Held = Holds<Own<P, H::Pass, H::Held>>>,
>(_high: &H)
    ensures { (level : ℕ) (holds : Phase → Bool) → OneReaches P.calls P.tag H.Pass.rest H.Held.stand H.Held.stands B.name B.tag B.count
        (H.has _high.now) (H.level _high.now) (H.tag _high.now) level holds }
{}

/// Where the value of a node is at home with its high lock kept, nobody holds the node's basic lock, and somebody is queued there or, in a
/// lock that counts its waiters, has begun and not yet taken.
pub fn kept_is_waited_for<P: Payload, Pass: Resting, Held: Standing<P>>()
    ensures { (holds : Phase → Bool) → KeptIsWaitedFor P.calls P.tag Pass.rest Held.stand Held.stands holds }
{}

/// Among lawful turns, those of a stretch in which none left higher than a level, and the turn behind it, are of callers under one node of
/// this level. With `keep_local::keeps_at_most`, by which at most as many turns of such a stretch left at the level as it keeps: one cohort
/// has the high lock for at most its threshold of handovers.
pub fn one_cohort()
    ensures { OneCohort }
{}

/// What a release told is true of the trail, whatever turns others have made since: the turn behind those that were closed before the
/// release, which is the one that the release closed, has the tests that it told.
pub fn told_turn_stands<P: Payload>(trail: &mut Trail, report: &mut Report)
    requires own { report.old.receipt.name ≡ trail.old.receipts }
    requires released { report.old.receipt.tests ≢ [] }
    ensures stands { (level : ℕ) (before : Root P) → ClosesWith level report.old before
        → HasTestsBehind before.trail.closed report.old.tests trail.old.closed }
    ensures trail { trail.new ≡ trail.old }
    ensures report { report.new ≡ report.old }
{
    trail.agree_on(&mut report.receipt);
}
