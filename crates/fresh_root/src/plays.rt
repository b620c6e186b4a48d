//! The rule of the table of a counted history, and its four kinds of step.
ghost use Rattle.std.specs.Prelude.{ℕ};
ghost use Rattle.fresh_root.specs.Rule.{IsFresh};
ghost use Rattle.fresh_root.specs.Views.{first_view, itself, copy_of, joined, spent_view};
ghost use Rattle.fresh_root.specs.Steps.{appended, looked};

use crate::view::View;
use atomic_table::{Join, Play, Split, TableRule};
use std::marker::{Brand, PhantomData};

/// The rule of the table. Its key is the number of tokens.
pub struct FreshRule;

impl TableRule<(), View, u32> for FreshRule {
    ghost holds = { λ _. IsFresh };

    ghost first = { λ _. first_view };
}

/// The caller of a call, which proofs alone know.
pub trait Called {
    ghost caller: { ℕ };
}

impl Called for Brand {
    ghost caller = { 0 };
}

/// The addition to the count by the home seat, which appends this caller to the history.
pub struct Append<C>(PhantomData<C>);

impl<C: Called> Play<(), View> for Append<C> {
    ghost then = { appended C.caller };
}

/// The load of the count by the home seat. It tells that all lists of the home view are beginnings of the history.
pub struct Look;

impl Play<(), View> for Look {
    ghost then = { looked };
}

/// A list is copied into a new view, which isn't home.
pub struct CopyList;

impl Split<View> for CopyList {
    ghost left = { itself };

    ghost right = { copy_of };
}

/// A view keeps its own list and that of another, which is spent.
pub struct Keep;

impl Join<View> for Keep {
    ghost both = { joined };

    ghost spent = { spent_view };
}
