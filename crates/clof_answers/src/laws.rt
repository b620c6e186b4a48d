//! Laws of the definitions: each function has an empty body, and its contract is the law.
ghost use Rattle.clof_answers.specs.Laws.{NotBoth, OneApplies, OneHistory, OneRefusal};
ghost use Rattle.clof_answers.specs.Laws.{OneCheckRefusal, OneText, TextOrRefusal, YesWhereRun};

/// What `run` printed for a description and an input tells one list of holds. Each input is some sections or is refused, and not
/// both, and at most one refusal fits it.
pub fn one_run()
    ensures history { OneHistory }
    ensures refusal { OneRefusal }
    ensures either { NotBoth }
    ensures some { OneApplies }
{}

/// What `check` prints for a description and some bytes is one text, and it is `yes` exactly where `run` with the same words may print the
/// printed text that the bytes hold, for the input in front of it. Else the bytes have at most one refusal, and not both.
pub fn one_check()
    ensures text { OneText }
    ensures yes { YesWhereRun }
    ensures refusal { OneCheckRefusal }
    ensures either { TextOrRefusal }
{}
