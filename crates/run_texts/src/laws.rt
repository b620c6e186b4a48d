//! A law of the definitions: its function has an empty body, and its contract is the law.
ghost use Rattle.run_texts.specs.Laws.{OneHistory};

/// The printed text of a run tells who held the lock, in order, and at which levels others waited.
pub fn one_history()
    ensures { OneHistory }
{}
