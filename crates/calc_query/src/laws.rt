//! Laws of what is asked and answered. Each function does nothing: its contract is the law.
ghost use Rattle.calc_query.specs.Laws.{LargestMakeUpWholeObjects, NoTermsSelectNothing, PathsAreChains};

/// No term selects nothing.
pub fn no_terms_select_nothing()
    ensures { NoTermsSelectNothing }
{}

/// Each path of a hierarchical answer is a chain: each object lies inside the one before, and has a PU of the set.
pub fn paths_are_chains()
    ensures { PathsAreChains }
{}

/// The largest objects are disjoint, and make up all objects that the set has all PUs of.
pub fn largest_make_up_whole_objects()
    ensures { LargestMakeUpWholeObjects }
{}
