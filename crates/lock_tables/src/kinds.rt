//! A kind of step, and what a step of a kind tells.
ghost use Rattle.std.specs.Prelude.{ℕ};
ghost use Rattle.lock_tables.specs.KeptKinds.{IsKept};
ghost use Rattle.lock_tables.specs.Kinds.{Made, StepKind};

use crate::rule::Disciplined;
use atomic_table::Play;
use lock_rules::{Cargo, View};
use std::marker::PhantomData;

/// A kind of step of an algorithm. It has no values.
pub trait KindOf<D: Disciplined>: Sized {
    ghost kind: { StepKind };

    /// Each step of this kind keeps the rule of the algorithm, makes its event, and is recorded in the view of its seat.
    fn is_kept()
        ensures { IsKept D.discipline kind };
}

/// A step that finds a number.
pub struct Finding<D, K>(PhantomData<(D, K)>);

impl<V: Cargo, D: Disciplined, K: KindOf<D>> Play<Option<V>, View> for Finding<D, K> {
    ghost then = { λ _ me found me'. K.kind.tells me.0 found × Made D.discipline V.fit V.tag V.parked K.kind me found me' };
}

/// A store, which isn't told what it found.
pub struct Storing<D, K>(PhantomData<(D, K)>);

impl<V: Cargo, D: Disciplined, K: KindOf<D>> Play<Option<V>, View> for Storing<D, K> {
    ghost then = { λ _ me _ me'. (found : ℕ) × K.kind.tells me.0 found × Made D.discipline V.fit V.tag V.parked K.kind me found me' };
}
