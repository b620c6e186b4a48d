//! What tells of a closed turn when the trail is in other hands.
ghost use Rattle.std.specs.Prelude.{◌≡◌};
ghost use Rattle.keep_local.specs.States.{no_receipt};

use crate::receipt_view::ReceiptView;
use atomic_table::Badge;
use std::marker::Model;

/// A receipt of the turns that a trail had closed when it was given. It has no bytes: clauses alone see the tests of these turns, which are
/// the first of the trail's as long as the trail is there (`Trail::agree_on`).
#[derive(Drop)]
pub struct ClosedReceipt {
    pub(crate) badge: Badge<ReceiptView>,
}

impl Model for ClosedReceipt {
    ghost use Rattle.keep_local.specs.States.{ReceiptState};

    ghost Value = { ReceiptState };

    ghost use Rattle.keep_local.specs.Receipts.{receipt_state, IsReceipt};

    ghost view = { receipt_state };

    ghost invariant = { IsReceipt };
}

impl ClosedReceipt {
    /// A receipt of no turn and no trail.
    pub fn blank() -> ClosedReceipt
        ensures { result ≡ no_receipt }
    {
        ClosedReceipt {
            badge: Badge::blank(),
        }
    }
}
