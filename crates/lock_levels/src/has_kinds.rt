//! The kinds that the levels of a composed lock have.
ghost use Rattle.std.specs.Prelude.{◌+◌, ℕ, List, All};
ghost use Rattle.lock_plan.specs.declared.kind.LockKind.{LockKind as Kind};
ghost use Rattle.clof_compose.specs.Inside.{high_lock, node_locks, top_lock};
ghost use Rattle.lock_levels.specs.AnyKinds.{lock_inside};
ghost use Rattle.lock_levels.specs.Kinds.{IsOfKindAt};

use crate::any_lock::AnyLock;
use clof_compose::{Composed, Level, Own, Payload, Root, Top};
use lock_rules::Pass;

/// A composed lock whose basic locks are each of one of the four kinds.
///
/// `has_kinds` says of a lock, a list of kinds and a place in it that each basic lock of the lowest level is of the kind at this place,
/// those of the level above it of the kind at the next place, and so on up to the top.
pub trait HasKinds<P: Payload>: Composed<P> {
    ghost has_kinds: { Self → List Kind → ℕ → Type 0 };
}

impl<P: Payload> HasKinds<P> for Top<AnyLock<Root<P>>, Pass> {
    ghost has_kinds = { λ l kinds level. IsOfKindAt kinds level (lock_inside (top_lock l)) };
}

impl<P: Payload, H: HasKinds<P>> HasKinds<P>
    for Level<AnyLock<Own<P, H::Pass, H::Held>>, H, Pass, H::Pass> {
    ghost has_kinds = { λ l kinds level. All (λ b. IsOfKindAt kinds level (lock_inside b)) (node_locks l)
        × H.has_kinds (high_lock l) kinds (level + 1) };
}
