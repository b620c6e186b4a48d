//! The words of `distrib`.
ghost use Rattle.std.specs.Prelude.{◌≡◌, Some, None, map, string_bytes, IfOk, IfErr, option_map};
ghost use Rattle.out_of_memory.specs.Memory.{UnlessMemory};
ghost use Rattle.clap.specs.Words.{found_of, rows_of};
ghost use Rattle.command_words.specs.Commands.{rule_of};
ghost use Rattle.command_words.specs.Plain.{plain, plain_text, plain_depths, plain_distribution};
ghost use Rattle.command_words.specs.DistribWords.{distrib_rules, depths_of, distribution_of, distrib_asked};

use crate::asked::{Asked, Depths, Distribution};
use crate::command::{Argument, is_given, matches, value};
use crate::fault::WordsFault;
use byte_text::number32;
use clap::ArgMatches;
use std::alloc::Global;

/// What the words of `distrib` ask for.
pub(crate) fn read_distrib<'a>(alloc: Global, words: &'a [String]) -> Result<Asked<'a>, WordsFault>
    ensures asked { IfOk result (λ asked. distrib_asked (map string_bytes words.entry.now) ≡ Some (plain asked)) }
    ensures refused { IfErr result (λ fault. UnlessMemory WordsFault.OutOfMemory fault
        ((fault ≡ WordsFault.Usage) × (distrib_asked (map string_bytes words.entry.now) ≡ None))) }
{
    match matches(alloc, "distrib", arguments(), words) {
        Ok(matches) => match distribution_of(&matches) {
            Some(asked) => Ok(Asked::Distrib(asked)),
            None => Err(WordsFault::Usage),
        },
        Err(fault) => Err(fault),
    }
}

// The command's options, and then the words behind them.
fn arguments() -> &'static [Argument]
    ensures { map rule_of result.now ≡ distrib_rules }
{
    &[
        Argument::Valued("from", None),
        Argument::Valued("to", None),
        Argument::Valued("at", None),
        Argument::Flag("single", None),
        Argument::Flag("reverse", None),
        Argument::Flag("taskset", None),
        Argument::Word("N"),
        Argument::Word("DESCRIPTION"),
    ]
}

// What the matches ask for.
#[tactic(auto, unfolding(crate::specs::DistribWords::distribution_of))]
fn distribution_of<'a>(matches: &ArgMatches<'a>) -> Option<Distribution<'a>>
    ensures { option_map plain_distribution result ≡ distribution_of (rows_of (found_of matches.now)) }
{
    let masks = number32(value(matches, "N")?)?;
    let depths = start_and_end(
        value(matches, "from"),
        value(matches, "to"),
        value(matches, "at"),
    )?;
    let description = value(matches, "DESCRIPTION")?;
    Some(Distribution {
        masks,
        depths,
        single: is_given(matches, "single"),
        reverse: is_given(matches, "reverse"),
        taskset: is_given(matches, "taskset"),
        description,
    })
}

// Where a distribution starts and ends.
fn start_and_end<'a>(
    from: Option<&'a [u8]>,
    to: Option<&'a [u8]>,
    at: Option<&'a [u8]>,
) -> Option<Depths<'a>>
    ensures { option_map plain_depths result
        ≡ depths_of (plain_text from.entry) (plain_text to.entry) (plain_text at.entry) }
{
    match (from, to, at) {
        (_, _, None) => Some(Depths::Between { from, to }),
        (None, None, Some(name)) => Some(Depths::At(name)),
        _ => None,
    }
}
