//! Laws of the definitions: each function has an empty body, and its contract is the law.
ghost use Rattle.mc_text.specs.Laws.{AtMostOneCommand, EachSectionIsRead, OneReading};

/// At most one whole command, of one length, begins a text.
pub fn at_most_one_command()
    ensures { AtMostOneCommand }
{}

/// Exactly one list of commands and one rest fit each section.
pub fn one_reading()
    ensures exists { EachSectionIsRead }
    ensures only { OneReading }
{}
