//! The words of `select`.
ghost use Rattle.std.specs.Prelude.{◌≡◌, None, Some, map, string_bytes, IfOk, IfErr, option_map};
ghost use Rattle.out_of_memory.specs.Memory.{UnlessMemory};
ghost use Rattle.clap.specs.Words.{found_of, rows_of};
ghost use Rattle.command_words.specs.Commands.{rule_of};
ghost use Rattle.command_words.specs.Plain.{plain};
ghost use Rattle.command_words.specs.SelectWords.{select_rules, select_of, select_asked};

use crate::asked::{Asked, Selection};
use crate::command::{Argument, matches, value};
use crate::fault::WordsFault;
use clap::ArgMatches;
use std::alloc::Global;

/// What the words of `select` ask for.
pub(crate) fn read_select<'a>(alloc: Global, words: &'a [String]) -> Result<Asked<'a>, WordsFault>
    ensures asked { IfOk result (λ asked. select_asked (map string_bytes words.entry.now) ≡ Some (plain asked)) }
    ensures refused { IfErr result (λ fault. UnlessMemory WordsFault.OutOfMemory fault
        ((fault ≡ WordsFault.Usage) × (select_asked (map string_bytes words.entry.now) ≡ None))) }
{
    match matches(alloc, "select", arguments(), words) {
        Ok(matches) => match asked_of(&matches) {
            Some(asked) => Ok(asked),
            None => Err(WordsFault::Usage),
        },
        Err(fault) => Err(fault),
    }
}

// The command's options, and then the words behind them.
fn arguments() -> &'static [Argument]
    ensures { map rule_of result.now ≡ select_rules }
{
    &[
        Argument::Valued("weights", None),
        Argument::Valued("keep", None),
        Argument::Word("DESCRIPTION"),
    ]
}

// What the matches ask for.
fn asked_of<'a>(matches: &ArgMatches<'a>) -> Option<Asked<'a>>
    ensures { option_map plain result ≡ select_of (rows_of (found_of matches.now)) }
{
    let description = value(matches, "DESCRIPTION")?;
    let keep = match value(matches, "keep") {
        Some(keep) => keep,
        None => b"128",
    };
    Some(Asked::Select(Selection {
        weights: value(matches, "weights"),
        keep,
        description,
    }))
}
