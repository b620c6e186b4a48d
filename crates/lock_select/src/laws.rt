//! Laws of ideal turns and of traces. Each function does nothing: its contract is the law.
ghost use Rattle.lock_select.specs.Laws.{
  IdealTurnsAreLawful,
  LevelsMakeAShape,
  OneTrace,
  OneRefusal,
  NotBoth,
};

/// The ideal turns of the callers of a shape are lawful: they keep the keep-local rule.
pub fn ideal_turns_are_lawful()
    ensures { IdealTurnsAreLawful }
{}

/// A list of levels of a topology makes the shape of a lock, whose callers are the PUs.
pub fn levels_make_a_shape()
    ensures { LevelsMakeAShape }
{}

/// At most one trace fits some bytes, at most one refusal does, and not both.
pub fn one_answer()
    ensures trace { OneTrace }
    ensures refusal { OneRefusal }
    ensures either { NotBoth }
{}
