//! What a release tells of the turn that it closed.
ghost use Rattle.std.specs.Prelude.{◌≡◌};
ghost use Rattle.keep_local.specs.States.{no_receipt};
ghost use Rattle.clof_compose.specs.Reports.{no_report};

use keep_local::ClosedReceipt;
use std::mem;

/// The tests of the turn that a release closed, and the trail's receipt of those of all turns up to it. A pass that has released nothing
/// yet has tests of 0, and a receipt of no turn.
#[derive(Drop)]
pub struct Report {
    pub tests: u32,
    pub receipt: ClosedReceipt,
}

impl Report {
    pub(crate) fn blank() -> Report
        ensures { result ≡ no_report }
    {
        Report {
            tests: 0,
            receipt: ClosedReceipt::blank(),
        }
    }

    // The report. The tests stay, without the receipt.
    pub(crate) fn take(&mut self) -> Report
        ensures report { result ≡ self.old }
        ensures left { self.new ≡ record self.old { receipt = no_receipt } }
    {
        Report {
            tests: self.tests,
            receipt: mem::replace(&mut self.receipt, ClosedReceipt::blank()),
        }
    }
}
