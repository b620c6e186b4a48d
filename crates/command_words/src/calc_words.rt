//! The words of `calc`.
ghost use Rattle.std.specs.Prelude.{◌≡◌, Some, None, map, string_bytes, IfOk, IfErr, option_map};
ghost use Rattle.out_of_memory.specs.Memory.{UnlessMemory};
ghost use Rattle.clap.specs.Words.{found_of, rows_of};
ghost use Rattle.command_words.specs.Commands.{rule_of, taken_by};
ghost use Rattle.command_words.specs.Plain.{plain, plain_text, plain_question, plain_calculation};
ghost use Rattle.command_words.specs.CalcWords.{calc_rules, question_of, question_in, physical_of, numbered, calculation_of, calc_asked};

use crate::asked::{Asked, CalcQuestion, Calculation};
use crate::command::{Argument, is_given, matches, value, values};
use crate::fault::WordsFault;
use clap::ArgMatches;
use std::alloc::Global;

/// What the words of `calc` ask for.
pub(crate) fn read_calc<'a>(alloc: Global, words: &'a [String]) -> Result<Asked<'a>, WordsFault>
    ensures asked { IfOk result (λ asked. calc_asked (map string_bytes words.entry.now) ≡ Some (plain asked)) }
    ensures refused { IfErr result (λ fault. UnlessMemory WordsFault.OutOfMemory fault
        ((fault ≡ WordsFault.Usage) × (calc_asked (map string_bytes words.entry.now) ≡ None))) }
{
    match matches(alloc, "calc", arguments(), words) {
        Ok(matches) => match calculation_of(alloc, &matches) {
            Ok(asked) => Ok(Asked::Calc(asked)),
            Err(fault) => Err(fault),
        },
        Err(fault) => Err(fault),
    }
}

// The command's options, and then the words behind them.
fn arguments() -> &'static [Argument]
    ensures { map rule_of result.now ≡ calc_rules }
{
    &[
        Argument::Valued("intersect", Some('I')),
        Argument::Valued("number-of", Some('N')),
        Argument::Valued("hierarchical", Some('H')),
        Argument::Flag("largest", None),
        Argument::Flag("single", None),
        Argument::Flag("physical", Some('p')),
        Argument::Flag("logical", Some('l')),
        Argument::Flag("taskset", None),
        Argument::Valued("sep", None),
        Argument::Word("DESCRIPTION"),
        Argument::Words("LOCATION"),
    ]
}

// What the matches ask for.
#[tactic(auto, unfolding(crate::specs::CalcWords::calculation_of))]
fn calculation_of<'a>(
    alloc: Global,
    matches: &ArgMatches<'a>,
) -> Result<Calculation<'a>, WordsFault>
    ensures asked { IfOk result (λ asked. calculation_of (rows_of (found_of matches.now)) ≡ Some (plain_calculation asked)) }
    ensures refused { IfErr result (λ fault. UnlessMemory WordsFault.OutOfMemory fault
        ((fault ≡ WordsFault.Usage) × (calculation_of (rows_of (found_of matches.now)) ≡ None))) }
{
    let question = question(matches).ok_or(WordsFault::Usage)?;
    let physical = is_physical(is_given(matches, "physical"), is_given(matches, "logical")).ok_or(
        WordsFault::Usage,
    )?;
    let description = value(matches, "DESCRIPTION").ok_or(WordsFault::Usage)?;
    let locations = values(alloc, matches, "LOCATION")?;
    if locations.len() > 4_294_967_295 {
        return Err(WordsFault::Usage);
    }
    Ok(Calculation {
        question,
        physical,
        single: is_given(matches, "single"),
        taskset: is_given(matches, "taskset"),
        separator: value(matches, "sep"),
        description,
        locations,
    })
}

// What is asked of the set.
fn question<'a>(matches: &ArgMatches<'a>) -> Option<CalcQuestion<'a>>
    ensures { option_map plain_question result ≡ question_in (rows_of (found_of matches.now)) }
{
    question_of(
        value(matches, "intersect"),
        value(matches, "number-of"),
        value(matches, "hierarchical"),
        is_given(matches, "largest"),
    )
}

// What is asked of the set, by the options that are given for it.
fn question_of<'a>(
    intersect: Option<&'a [u8]>,
    number_of: Option<&'a [u8]>,
    hierarchical: Option<&'a [u8]>,
    largest: bool,
) -> Option<CalcQuestion<'a>>
    ensures { option_map plain_question result
        ≡ question_of (plain_text intersect.entry) (plain_text number_of.entry) (plain_text hierarchical.entry) largest }
{
    match (intersect, number_of, hierarchical, largest) {
        (None, None, None, false) => Some(CalcQuestion::Set),
        (Some(name), None, None, false) => Some(CalcQuestion::Intersect(name)),
        (None, Some(name), None, false) => Some(CalcQuestion::NumberOf(name)),
        (None, None, Some(names), false) => Some(CalcQuestion::Hierarchical(names)),
        (None, None, None, true) => Some(CalcQuestion::Largest),
        _ => None,
    }
}

// Whether numbers are physical; `None` where both numberings are asked for.
fn is_physical(physical: bool, logical: bool) -> Option<bool>
    ensures { result ≡ physical_of physical logical }
{
    if physical && logical {
        None
    } else {
        Some(physical)
    }
}
