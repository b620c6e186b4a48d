//! Laws of the definitions: each function has an empty body, and its contract is the law.
ghost use Rattle.run_check.specs.Laws.{OneApplies, OneIsFirst, RunIsWhole};

/// A printed text has one verdict: it is that of a run exactly where no line is broken, and else one line is the first broken one.
pub fn one_verdict()
    ensures either { RunIsWhole }
    ensures line { OneIsFirst }
    ensures some { OneApplies }
{}
