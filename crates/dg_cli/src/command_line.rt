//! The command line: what its words ask for, and what the program says of them.
ghost use Rattle.std.specs.Prelude.{◌≡◌, ◌≢◌, ◌⊎◌, IfErr, IfOk, map, string_bytes};
ghost use Rattle.clap.specs.Words.{IsAmong, fault_of, kind_of};
ghost use Rattle.dg_cli.specs.Asks.{Asks};
ghost use Rattle.dg_cli.specs.Commands.{dollar};
ghost use Rattle.dg_cli.specs.Refusals.{AskNothing, IsArgsFault};
ghost use Rattle.dg_cli.specs.Faults.{CallsNoHelp, IsErrorText, HasErrorKind};

use crate::commands::{SUBCOMMANDS, program_command};
use crate::help_texts::NO_HELP;
use crate::reading::{Refusal, invocation_in};
use clap::Command;
use clap::error::ErrorKind;
use dg_invocation::{ArgsFault, Invocation};
use std::alloc::{AllocError, Global};
use std::rt::Env;
use std::{env, io};

/// The words of the process's own command line, the program's name first.
///
/// Refused with `NotText` if one of them is no text, and with `OutOfMemory`.
pub fn words_of<R: Env + AllocGlobal>(rt: &R) -> Result<Vec<String>, ArgsFault> {
    match env::args(rt) {
        Ok(words) => match words.collect(rt.alloc()) {
            Ok(words) => Ok(words),
            Err(_) => Err(ArgsFault::OutOfMemory),
        },
        Err(error) if error.kind() == io::ErrorKind::OutOfMemory => Err(ArgsFault::OutOfMemory),
        Err(_) => Err(ArgsFault::NotText),
    }
}

/// What the words of a command line ask for, as `dollar --help` describes them; the first of them is the program's name.
///
/// Refused with `CommandLine` if they ask for nothing, with all that is said of them, and with `OutOfMemory`.
pub fn invocation_of<'a>(alloc: Global, words: &'a [String]) -> Result<Invocation<'a>, ArgsFault>
    ensures asked { IfOk result (Asks (map string_bytes words.entry.now)) }
    ensures refused { IfErr result (IsArgsFault (map string_bytes words.entry.now)) }
{
    match invocation_of_words(alloc, words) {
        Ok(asked) => Ok(asked),
        Err(error) => help_or_error(alloc, words, &error),
    }
}

/// The answer to words that ask for no command: a text for the standard output after a call for help, else a fault.
fn help_or_error<'a>(
    alloc: Global,
    words: &[String],
    error: &clap::Error,
) -> Result<Invocation<'a>, ArgsFault>
    ensures { IsErrorText (kind_of error.now) result }
{
    if error.kind() == ErrorKind::OutOfMemory {
        return Err(ArgsFault::OutOfMemory);
    }
    let Ok(text) = text_of_error(alloc, words, error) else {
        return Err(ArgsFault::OutOfMemory);
    };
    if error.use_stderr() {
        Err(ArgsFault::CommandLine(text))
    } else {
        Ok(Invocation::Text(text))
    }
}

/// The library's text. Who writes `help`, which is no command, is told what to write.
fn text_of_error(
    alloc: Global,
    words: &[String],
    error: &clap::Error,
) -> Result<String, AllocError> {
    match words.get(1) {
        Some(word) if word.as_str() == "help" => format!(in alloc; "{NO_HELP}"),
        _ => format!(in alloc; "{error}"),
    }
}

/// What the words ask for.
fn invocation_of_words<'a>(
    alloc: Global,
    words: &'a [String],
) -> Result<Invocation<'a>, clap::Error>
    ensures asked { IfOk result (Asks (map string_bytes words.entry.now)) }
    ensures refused { IfErr result (λ error. HasErrorKind (map string_bytes words.entry.now) (kind_of error)) }
{
    let matches = program_command(alloc)?.try_get_matches_from(words)?;
    match invocation_in(alloc, &matches) {
        Ok(asked) => Ok(asked),
        Err(refusal) => Err(clap_error_of(alloc, matches.subcommand_name(), refusal)?),
    }
}

/// The error of a refusal, for the arguments of that command if it names one.
fn clap_error_of(
    alloc: Global,
    name: Option<&str>,
    refusal: Refusal<'_>,
) -> Result<clap::Error, AllocError>
    ensures { IfOk result (λ error.
        (refusal.entry ≡ Refusal.Memory → kind_of error ≡ ErrorKind.OutOfMemory)
        × CallsNoHelp (kind_of error)) }
{
    if let Refusal::Memory = refusal {
        return Ok(clap::Error::from(AllocError));
    }
    let text = format!(in alloc; "{refusal}")?;
    let kind = clap_kind_for(&refusal);
    clap_error(alloc, name.unwrap_or(""), kind, text.as_str())
}

/// The library's kind of such an error.
fn clap_kind_for(refusal: &Refusal<'_>) -> ErrorKind
    ensures { CallsNoHelp result }
{
    match refusal {
        Refusal::Memory => ErrorKind::OutOfMemory,
        Refusal::Command => ErrorKind::MissingSubcommand,
        Refusal::Lines => ErrorKind::MissingRequiredArgument,
        Refusal::Both | Refusal::OrderedNumbers => ErrorKind::ArgumentConflict,
        Refusal::Number(..) => ErrorKind::ValueValidation,
    }
}

/// The error of that kind and text, with the usage of the command of that name; any other name stands for the whole program.
fn clap_error(
    alloc: Global,
    name: &str,
    kind: ErrorKind,
    text: &str,
) -> Result<clap::Error, AllocError>
    ensures { IfOk result (λ error. kind_of error ≡ kind) }
{
    let mut command = command_for_usage(alloc, name)?;
    command.error(kind, text)
}

/// The command of that name, as its usage shows it; any other name stands for the whole program.
fn command_for_usage<'a>(alloc: Global, name: &str) -> Result<Command<'a>, AllocError> {
    for subcommand in SUBCOMMANDS {
        if subcommand.name() == name {
            return subcommand.to_clap(alloc)?.bin_name(subcommand.usage());
        }
    }
    program_command(alloc)
}
