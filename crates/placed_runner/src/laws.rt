//! Laws of the definitions: each function has an empty body, and its contract is the law.
ghost use Rattle.placed_runner.specs.Laws.{OneApplies, OneReading, OneRefusal, NotBoth};

/// To each input applies exactly one of the two: it is some sections, of which one list fits, or it is refused, in one way.
pub fn one_answer()
    ensures sections { OneReading }
    ensures refusal { OneRefusal }
    ensures either { NotBoth }
    ensures some { OneApplies }
{}
