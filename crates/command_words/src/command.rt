//! A command's words, read by clap.
ghost use Rattle.std.specs.Prelude.{◌≡◌, ◌≢◌, ◌⊎◌, ◌^◌, [], false, true, nat_lt, length, map, string_bytes, None, Some, IfOk, IfErr};
ghost use Rattle.std.specs.Prelude.{option_map, unwrap_or};
ghost use Rattle.out_of_memory.specs.Memory.{UnlessMemory};
ghost use Rattle.clap.specs.Words.{app_of, first_of, found_of, is_simple_and_free, rows_of, rule_of as clap_rule};
ghost use Rattle.command_words.specs.Commands.{command_of, rule_of, with_short, matched, is_given, taken_by};

use crate::fault::WordsFault;
use clap::error::ErrorKind;
use clap::{Arg, ArgAction, ArgMatches, Command};
use std::alloc::{AllocError, Global};

/// An argument of a command, by its name.
#[derive(Clone, Copy)]
pub(crate) enum Argument {
    /// An option with a value; beside its long name it may have a short one.
    Valued(&'static str, Option<char>),
    /// An option without a value.
    Flag(&'static str, Option<char>),
    /// A word that isn't an option's, and that has to be there.
    Word(&'static str),
    /// A word that isn't an option's, and that may be absent.
    Optional(&'static str),
    /// Any number of words that aren't options'.
    Words(&'static str),
}

/// What the words give to the arguments of a command, of which the first is the command's name. Usage: the command
/// doesn't take them.
pub(crate) fn matches<'a>(
    alloc: Global,
    name: &'a str,
    arguments: &[Argument],
    words: &'a [String],
) -> Result<ArgMatches<'a>, WordsFault>
    requires { is_simple_and_free (command_of name.now (map rule_of arguments.now)) ≡ true }
    ensures read { IfOk result (λ matches.
        matched (command_of name.entry.now (map rule_of arguments.now)) (map string_bytes words.entry.now)
        ≡ Some (rows_of (found_of matches))) }
    ensures refused { IfErr result (λ fault. UnlessMemory WordsFault.OutOfMemory fault ((fault ≡ WordsFault.Usage)
        × (matched (command_of name.entry.now (map rule_of arguments.now)) (map string_bytes words.entry.now) ≡ None))) }
{
    let command = match command(alloc, name, arguments) {
        Ok(command) => command,
        Err(AllocError) => return Err(WordsFault::OutOfMemory),
    };
    match command.try_get_matches_from(words) {
        Ok(matches) => Ok(matches),
        Err(error) => Err(refusal(error.kind())),
    }
}

// The command with these arguments.
fn command<'a>(
    alloc: Global,
    name: &'a str,
    arguments: &[Argument],
) -> Result<Command<'a>, AllocError>
    ensures { IfOk result (λ command. app_of command ≡ command_of name.entry.now (map rule_of arguments.now)) }
{
    let mut command = Command::new(alloc, name);
    for argument in arguments {
        command = command.arg(argument_of(alloc, *argument))?;
    }
    Ok(command)
}

// An argument as clap has it.
fn argument_of<'a>(alloc: Global, argument: Argument) -> Arg<'a>
    ensures rule { clap_rule result ≡ rule_of argument }
    ensures own { result.global ≡ false }
{
    match argument {
        Argument::Valued(name, short) => with_short(Arg::new(alloc, name).long(name), short),
        Argument::Flag(name, short) => {
            let flag = Arg::new(alloc, name).long(name).action(ArgAction::SetTrue);
            with_short(flag, short)
        }
        Argument::Word(name) => Arg::new(alloc, name).required(true),
        Argument::Optional(name) => Arg::new(alloc, name),
        Argument::Words(name) => Arg::new(alloc, name).action(ArgAction::Append),
    }
}

// An argument with its short name, where it has one.
fn with_short<'a>(argument: Arg<'a>, short: Option<char>) -> Arg<'a>
    ensures rule { clap_rule result ≡ with_short short (clap_rule argument.entry) }
    ensures own { result.global ≡ argument.entry.global }
{
    match short {
        Some(short) => argument.short(short),
        None => argument,
    }
}

// The cause of a refusal: want of memory, or the words.
fn refusal(kind: ErrorKind) -> WordsFault
    ensures { ((kind ≡ ErrorKind.OutOfMemory) × (result ≡ WordsFault.OutOfMemory))
        ⊎ ((kind ≢ ErrorKind.OutOfMemory) × (result ≡ WordsFault.Usage)) }
{
    match kind {
        ErrorKind::OutOfMemory => WordsFault::OutOfMemory,
        _ => WordsFault::Usage,
    }
}

/// Whether an option without a value was given.
pub(crate) fn is_given(matches: &ArgMatches<'_>, name: &str) -> bool
    ensures { result ≡ is_given name.now (rows_of (found_of matches.now)) }
{
    match value(matches, name) {
        Some(text) => text == b"true".as_slice(),
        None => false,
    }
}

/// The value of an option, or of a word that isn't an option's.
pub(crate) fn value<'a>(matches: &ArgMatches<'a>, name: &str) -> Option<&'a [u8]>
    ensures { option_map (λ text. text.now) result ≡ first_of name.now (rows_of (found_of matches.now)) }
{
    match matches.get_str(name) {
        Some(text) => Some(text.as_bytes()),
        None => None,
    }
}

/// The value of an argument, or another text where it has none.
pub(crate) fn value_or<'a>(matches: &ArgMatches<'a>, name: &str, other: &'static [u8]) -> &'a [u8]
    ensures { result.now ≡ unwrap_or (first_of name.now (rows_of (found_of matches.now))) other.now }
{
    match value(matches, name) {
        Some(text) => text,
        None => other,
    }
}

/// Whether a text has fewer than 2^32 bytes.
pub(crate) fn is_short(text: &[u8]) -> bool
    ensures { result ≡ nat_lt (length text.now) (2 ^ 32) }
{
    text.len() < 4_294_967_296
}

/// The words that an argument took.
pub(crate) fn values<'a>(
    alloc: Global,
    matches: &ArgMatches<'a>,
    name: &str,
) -> Result<Vec<&'a [u8]>, AllocError>
    ensures { IfOk result (λ texts. map (λ text. text.now) texts.items ≡ taken_by name.now (rows_of (found_of matches.now))) }
{
    match matches.get_raw(name) {
        Some(words) => texts(alloc, words),
        None => Ok(Vec::new(alloc)),
    }
}

// Words as texts of bytes.
fn texts<'a>(alloc: Global, words: &[&'a str]) -> Result<Vec<&'a [u8]>, AllocError>
    ensures { IfOk result (λ texts. map (λ text. text.now) texts.items ≡ map (λ word. word.now) words.entry.now) }
{
    let mut texts = Vec::with_capacity(alloc, words.len())?;
    for word in words {
        texts.push(word.as_bytes())?;
    }
    Ok(texts)
}
