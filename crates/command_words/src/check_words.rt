//! The words of `check`.
ghost use Rattle.std.specs.Prelude.{◌≡◌, None, Some, map, string_bytes, IfOk, IfErr, option_map};
ghost use Rattle.out_of_memory.specs.Memory.{UnlessMemory};
ghost use Rattle.clap.specs.Words.{found_of, rows_of};
ghost use Rattle.command_words.specs.Commands.{rule_of};
ghost use Rattle.command_words.specs.Plain.{plain};
ghost use Rattle.command_words.specs.CheckWords.{check_rules, check_of, check_asked};

use crate::asked::{Asked, Checking};
use crate::command::{Argument, is_short, matches, value_or};
use crate::fault::WordsFault;
use clap::ArgMatches;
use std::alloc::Global;

/// What the words of `check` ask for.
pub(crate) fn read_check<'a>(alloc: Global, words: &'a [String]) -> Result<Asked<'a>, WordsFault>
    ensures asked { IfOk result (λ asked. check_asked (map string_bytes words.entry.now) ≡ Some (plain asked)) }
    ensures refused { IfErr result (λ fault. UnlessMemory WordsFault.OutOfMemory fault
        ((fault ≡ WordsFault.Usage) × (check_asked (map string_bytes words.entry.now) ≡ None))) }
{
    match matches(alloc, "check", arguments(), words) {
        Ok(matches) => match asked_of(&matches) {
            Some(asked) => Ok(asked),
            None => Err(WordsFault::Usage),
        },
        Err(fault) => Err(fault),
    }
}

// The command's options, and then the words behind them.
fn arguments() -> &'static [Argument]
    ensures { map rule_of result.now ≡ check_rules }
{
    &[
        Argument::Valued("levels", None),
        Argument::Valued("keep", None),
        Argument::Optional("DESCRIPTION"),
    ]
}

// What the matches ask for: a run as `run` makes it where nothing else is given.
fn asked_of<'a>(matches: &ArgMatches<'a>) -> Option<Asked<'a>>
    ensures { option_map plain result ≡ check_of (rows_of (found_of matches.now)) }
{
    let levels = value_or(matches, "levels", b"machine");
    let keep = value_or(matches, "keep", b"128");
    if !is_short(levels) || !is_short(keep) {
        return None;
    }
    Some(Asked::Check(Checking {
        levels,
        keep,
        description: value_or(matches, "DESCRIPTION", b"PU:1"),
    }))
}
