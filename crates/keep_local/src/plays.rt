//! The rule of the table that ties a trail and its shares, and its four kinds of step.
ghost use Rattle.keep_local.specs.Tie.{IsTied};
ghost use Rattle.keep_local.specs.Views.{first_view, without_first, first_split, joined_view, spent_view};
ghost use Rattle.keep_local.specs.Steps.{appended, looked};

use crate::view::View;
use atomic_table::{Join, Play, Split, TableRule};
use sequence::Sequence;

/// The rule of the table. Its key is the list of the callers' quotas.
pub struct TieRule;

impl TableRule<(), View, Sequence<u64>> for TieRule {
    ghost holds = { IsTied };

    ghost first = { first_view };
}

/// A seat gives its first tally to a new seat.
pub struct Cut;

impl Split<View> for Cut {
    ghost left = { without_first };

    ghost right = { first_split };
}

/// A seat takes over the tallies of another, which is spent.
pub struct Glue;

impl Join<View> for Glue {
    ghost both = { joined_view };

    ghost spent = { spent_view };
}

/// The addition of a number by the home seat, by which the caller of its first tally makes so many turns.
pub struct Append;

impl Play<(), View> for Append {
    ghost then = { appended };
}

/// The load by the home seat, which shows that its tallies are right.
pub struct Look;

impl Play<(), View> for Look {
    ghost then = { looked };
}
