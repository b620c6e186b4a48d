//! Laws of words: each is the contract of a function that does nothing.
ghost use Rattle.word_laws.specs.Laws.{CommandsAreSingle, OptionsTakeValues, PlainWordsStandInOrder, ValuesStandBehindEquals};
ghost use Rattle.word_laws.specs.Laws.{WordsBehindDashesGoInTurn, WordsBehindDashesJoinPlain, WordsBehindDashesStandInOrder};

/// The laws below hold of the program's commands, and of each of their options that takes a value.
pub fn commands_are_single()
    ensures commands { CommandsAreSingle }
    ensures options { OptionsTakeValues }
{}

/// Words that don't begin with `-` are the positionals of the command, in order, and none is left over.
pub fn plain_words_stand_in_order()
    ensures { PlainWordsStandInOrder }
{}

/// A value behind `=` gives the same as one that is the next word: `--sep=T` the same as `--sep T`, where T doesn't begin with `-`.
pub fn values_stand_behind_equals()
    ensures { ValuesStandBehindEquals }
{}

/// Behind the first `--` every word is a positional, whatever it begins with.
pub fn words_behind_dashes_are_positionals()
    ensures turn { WordsBehindDashesGoInTurn }
    ensures order { WordsBehindDashesStandInOrder }
    ensures plain { WordsBehindDashesJoinPlain }
{}
