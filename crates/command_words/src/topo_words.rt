//! The words of `topo`.
ghost use Rattle.std.specs.Prelude.{◌≡◌, None, Some, map, string_bytes, IfOk, IfErr, option_map};
ghost use Rattle.out_of_memory.specs.Memory.{UnlessMemory};
ghost use Rattle.clap.specs.Words.{found_of, rows_of};
ghost use Rattle.command_words.specs.Commands.{rule_of};
ghost use Rattle.command_words.specs.Plain.{plain};
ghost use Rattle.command_words.specs.TopoWords.{topo_rules, topo_of, topo_asked};

use crate::asked::Asked;
use crate::command::{Argument, is_given, matches, value};
use crate::fault::WordsFault;
use clap::ArgMatches;
use std::alloc::Global;

/// What the words of `topo` ask for.
pub(crate) fn read_topo<'a>(alloc: Global, words: &'a [String]) -> Result<Asked<'a>, WordsFault>
    ensures asked { IfOk result (λ asked. topo_asked (map string_bytes words.entry.now) ≡ Some (plain asked)) }
    ensures refused { IfErr result (λ fault. UnlessMemory WordsFault.OutOfMemory fault
        ((fault ≡ WordsFault.Usage) × (topo_asked (map string_bytes words.entry.now) ≡ None))) }
{
    match matches(alloc, "topo", arguments(), words) {
        Ok(matches) => match asked_of(&matches) {
            Some(asked) => Ok(asked),
            None => Err(WordsFault::Usage),
        },
        Err(fault) => Err(fault),
    }
}

// The command's options, and then the words behind them.
fn arguments() -> &'static [Argument]
    ensures { map rule_of result.now ≡ topo_rules }
{
    &[
        Argument::Flag("export", None),
        Argument::Word("DESCRIPTION"),
    ]
}

// What the matches ask for.
fn asked_of<'a>(matches: &ArgMatches<'a>) -> Option<Asked<'a>>
    ensures { option_map plain result ≡ topo_of (rows_of (found_of matches.now)) }
{
    let text = value(matches, "DESCRIPTION")?;
    let export = is_given(matches, "export");
    Some(Asked::Topo { export, text })
}
