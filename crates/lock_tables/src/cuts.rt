//! How the seats of a lock's table are split off and joined.
ghost use Rattle.lock_rules.specs.Views.{without_next, next_split, joined_view, spent_view};

use atomic_table::{Join, Split};
use lock_rules::View;

/// The first seat gives its next number to a new seat.
pub struct Cut;

impl Split<View> for Cut {
    ghost left = { without_next };

    ghost right = { next_split };
}

/// A seat takes over the numbers of another, which is spent.
pub struct Glue;

impl Join<View> for Glue {
    ghost both = { joined_view };

    ghost spent = { spent_view };
}
