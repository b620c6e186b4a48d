//! What plain words, a value behind `=` and the word `--` come to, as laws over `clap`'s definitions: for the commands of
//! `command_words`, and for each other command by a table in which no use of an argument takes two words.
#![tactic(auto)]

mod laws;

pub use laws::{
    commands_are_single, plain_words_stand_in_order, values_stand_behind_equals,
    words_behind_dashes_are_positionals,
};
