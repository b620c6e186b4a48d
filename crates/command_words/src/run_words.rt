//! The words of `run`.
ghost use Rattle.std.specs.Prelude.{◌≡◌, ◌^◌, true, nat_lt, length, None, Some, map, string_bytes, IfOk, IfErr, option_map};
ghost use Rattle.out_of_memory.specs.Memory.{UnlessMemory};
ghost use Rattle.std.specs.Option.{option_map_or};
ghost use Rattle.clap.specs.Words.{found_of, rows_of};
ghost use Rattle.command_words.specs.Commands.{rule_of};
ghost use Rattle.command_words.specs.Plain.{plain, plain_sharing};
ghost use Rattle.command_words.specs.RunWords.{run_rules, run_of, run_asked, sharing_of};

use crate::asked::{Asked, Running, Sharing};
use crate::command::{Argument, is_given, is_short, matches, value, value_or};
use crate::fault::WordsFault;
use byte_text::number_in;
use clap::ArgMatches;
use std::alloc::Global;

/// What the words of `run` ask for.
pub(crate) fn read_run<'a>(alloc: Global, words: &'a [String]) -> Result<Asked<'a>, WordsFault>
    ensures asked { IfOk result (λ asked. run_asked (map string_bytes words.entry.now) ≡ Some (plain asked)) }
    ensures refused { IfErr result (λ fault. UnlessMemory WordsFault.OutOfMemory fault
        ((fault ≡ WordsFault.Usage) × (run_asked (map string_bytes words.entry.now) ≡ None))) }
{
    match matches(alloc, "run", arguments(), words) {
        Ok(matches) => match asked_of(&matches) {
            Some(asked) => Ok(asked),
            None => Err(WordsFault::Usage),
        },
        Err(fault) => Err(fault),
    }
}

// The command's options, and then the words behind them.
fn arguments() -> &'static [Argument]
    ensures { map rule_of result.now ≡ run_rules }
{
    &[
        Argument::Valued("levels", None),
        Argument::Valued("locks", None),
        Argument::Valued("keep", None),
        Argument::Flag("walk", None),
        Argument::Valued("threads", None),
        Argument::Valued("quantum", None),
        Argument::Flag("receipts", None),
        Argument::Optional("DESCRIPTION"),
    ]
}

// What the matches ask for: a run under a lock over the whole machine and on the topology of one PU, where nothing else is given.
fn asked_of<'a>(matches: &ArgMatches<'a>) -> Option<Asked<'a>>
    ensures { option_map plain result ≡ run_of (rows_of (found_of matches.now)) }
{
    let levels = value_or(matches, "levels", b"machine");
    let locks = value(matches, "locks");
    let keep = value_or(matches, "keep", b"128");
    if !is_short(levels) || !is_short_where_given(locks) || !is_short(keep) {
        return None;
    }
    let walk = is_given(matches, "walk");
    let sharing = sharing_of(matches)?;
    let receipts = is_given(matches, "receipts");
    if receipts && (walk || sharing.is_some()) {
        return None;
    }
    Some(Asked::Run(Running {
        levels,
        locks,
        keep,
        walk,
        sharing,
        receipts,
        description: value_or(matches, "DESCRIPTION", b"PU:1"),
    }))
}

// How the callers share threads, where a number of threads is given. It isn't given with a walk, and no quantum without it.
fn sharing_of(matches: &ArgMatches<'_>) -> Option<Option<Sharing>>
    ensures { option_map (option_map plain_sharing) result ≡ sharing_of (rows_of (found_of matches.now)) }
{
    let Some(threads) = value(matches, "threads") else {
        return if value(matches, "quantum").is_some() {
            None
        } else {
            Some(None)
        };
    };
    if is_given(matches, "walk") {
        return None;
    }
    let threads = number_in(1, 256, threads)? as u32;
    let quantum = number_in(1, 65_535, value_or(matches, "quantum", b"1"))? as u32;
    Some(Some(Sharing { threads, quantum }))
}

// Whether a text has fewer than 2^32 bytes, where there is one.
fn is_short_where_given(text: Option<&[u8]>) -> bool
    ensures { result ≡ option_map_or (λ given. nat_lt (length given.now) (2 ^ 32)) text.entry true }
{
    match text {
        Some(text) => is_short(text),
        None => true,
    }
}
