//! Laws of distributions. Each function does nothing: its contract is the law.
ghost use Rattle.distrib_rules.specs.Laws.{OrderMakesNoDifference, PairsComeToTheirExpansion, MasksAreAsMany, MasksCoverTheStart};

/// Whichever object's share is handed to its children first, pairs come to their expansion, and some order brings them there.
pub fn order_makes_no_difference()
    ensures same { OrderMakesNoDifference }
    ensures reached { PairsComeToTheirExpansion }
{}

/// The masks are as many as were asked for.
pub fn masks_are_as_many()
    ensures { MasksAreAsMany }
{}

/// The masks together have exactly the PUs of the machine.
pub fn masks_cover_the_start()
    ensures { MasksCoverTheStart }
{}
