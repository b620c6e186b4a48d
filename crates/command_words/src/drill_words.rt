//! The words of `drill`.
ghost use Rattle.std.specs.Prelude.{◌≡◌, None, Some, map, string_bytes, IfOk, IfErr, option_map};
ghost use Rattle.out_of_memory.specs.Memory.{UnlessMemory};
ghost use Rattle.clap.specs.Words.{found_of, rows_of};
ghost use Rattle.command_words.specs.Commands.{rule_of};
ghost use Rattle.command_words.specs.Plain.{plain};
ghost use Rattle.command_words.specs.DrillWords.{drill_rules, drill_of, drill_asked};

use crate::asked::Asked;
use crate::command::{Argument, matches, value};
use crate::fault::WordsFault;
use byte_text::number32;
use clap::ArgMatches;
use std::alloc::Global;

/// What the words of `drill` ask for.
pub(crate) fn read_drill<'a>(alloc: Global, words: &'a [String]) -> Result<Asked<'a>, WordsFault>
    ensures asked { IfOk result (λ asked. drill_asked (map string_bytes words.entry.now) ≡ Some (plain asked)) }
    ensures refused { IfErr result (λ fault. UnlessMemory WordsFault.OutOfMemory fault
        ((fault ≡ WordsFault.Usage) × (drill_asked (map string_bytes words.entry.now) ≡ None))) }
{
    match matches(alloc, "drill", arguments(), words) {
        Ok(matches) => match asked_of(&matches) {
            Some(asked) => Ok(asked),
            None => Err(WordsFault::Usage),
        },
        Err(fault) => Err(fault),
    }
}

// The one word behind the command's name.
fn arguments() -> &'static [Argument]
    ensures { map rule_of result.now ≡ drill_rules }
{
    &[Argument::Word("N")]
}

// What the matches ask for.
fn asked_of<'a>(matches: &ArgMatches<'a>) -> Option<Asked<'a>>
    ensures { option_map plain result ≡ drill_of (rows_of (found_of matches.now)) }
{
    let number = number32(value(matches, "N")?)?;
    Some(Asked::Drill(number))
}
