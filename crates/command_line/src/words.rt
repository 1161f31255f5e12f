//! The words of a command line.
ghost use Rattle.std.specs.Prelude.{◌≡◌, Err, IfErr, IfOk, IsSomeAnd, List, Some, ℕ, false, map, option_map};
ghost use Rattle.std.specs.Prelude.{string_bytes, true};
ghost use Rattle.clap.specs.Words.{app_of, found_of, rows_of, subcommand_rows_of};
ghost use Rattle.command_line.specs.Commands.{HaveNoMistake, command_of, program_app};
ghost use Rattle.command_line.specs.Entries.{HasEntries};
ghost use Rattle.command_line.specs.Meanings.{IsRefusalOf, asks_of_refusals, name_asked, refusal_asked};
ghost use Rattle.refusals.specs.declared.refusal.Refusal.{Refusal};
ghost use Rattle.refusals.specs.Table.{texts_of};
ghost use Rattle.command_line.specs.Options.{AreOptions, AreTaken, IsMatchesStop, IsOptionStop};

use crate::build::command;
use crate::entries::{misfit_of, names_standard_input_twice};
use crate::named::named_options;
use crate::options::{OptionStop, Options};
use crate::values::read_values;
use clap::{ArgMatches, Command};
use refusals::{Refusal, refusal_named};
use std::alloc::Global;

/// What `clap` reads of the words.
fn read<'a>(command: Command<'a>, words: &'a [String]) -> Result<ArgMatches<'a>, OptionStop>
    requires { app_of command ≡ program_app }
    ensures ok { IfOk result (AreTaken (map string_bytes words.entry.now)) }
    ensures err { IfErr result (λ stop. IsOptionStop stop (map string_bytes words.entry.now)) }
{
    Ok(command.try_get_matches_from(words)?)
}

/// The options of the command with this name and these entries.
fn entry_options(alloc: Global, name: &str, entries: &ArgMatches<'_>) -> Result<Options, OptionStop>
    requires { HasEntries (name.now, rows_of (found_of entries.now)) }
    ensures ok { IfOk result (λ o. AreOptions o (Some (name.now, rows_of (found_of entries.now)))) }
    ensures err { IfErr result (λ stop. IsMatchesStop stop (Some (name.now, rows_of (found_of entries.now)))) }
{
    if names_standard_input_twice(entries) {
        return Err(OptionStop::StandardInputTwice);
    }
    if let Some(misfit) = misfit_of(entries) {
        return Err(OptionStop::Misfit(misfit));
    }
    let values = read_values(entries)?;
    Ok(named_options(alloc, name, entries, &values)?)
}

/// The options of the command that was read.
fn command_options(alloc: Global, matches: &ArgMatches<'_>) -> Result<Options, OptionStop>
    requires { IsSomeAnd (subcommand_rows_of matches.now) HasEntries }
    ensures ok { IfOk result (λ o. AreOptions o (subcommand_rows_of matches.now)) }
    ensures err { IfErr result (λ stop. IsMatchesStop stop (subcommand_rows_of matches.now)) }
{
    match matches.subcommand() {
        Some((name, entries)) => entry_options(alloc, name, entries),
        None => unreachable!(),
    }
}

/// Whether the words ask what refusals mean.
fn asks_of_refusals(words: &[String]) -> bool
    ensures { result ≡ asks_of_refusals (map string_bytes words.now) }
{
    match words {
        [first, second] => first.as_str() == "help" && second.as_str() == "refusals",
        _ => false,
    }
}

/// The name of which the words ask what it means.
fn name_asked(words: &[String]) -> Option<&str>
    ensures { option_map (λ name. name.now) result ≡ name_asked (map string_bytes words.now) }
{
    match words {
        [first, name] => {
            if first.as_str() == "help" {
                Some(name.as_str())
            } else {
                None
            }
        }
        [first, second, name] => {
            if first.as_str() == "help" && second.as_str() == "refusals" {
                Some(name.as_str())
            } else {
                None
            }
        }
        _ => None,
    }
}

/// The refusal of which the words ask what it means.
fn refusal_asked(words: &[String]) -> Option<Refusal<&'static str>>
    ensures { option_map texts_of result ≡ refusal_asked (map string_bytes words.now) }
{
    match name_asked(words) {
        Some(name) => refusal_named(name),
        None => None,
    }
}

/// The options of the command that `clap` reads of the words.
fn read_options(alloc: Global, words: &[String]) -> Result<Options, OptionStop>
    ensures ok { IfOk result (λ o. AreOptions o (command_of (map string_bytes words.now))) }
    ensures err { IfErr result (λ stop. IsOptionStop stop (map string_bytes words.now)) }
    ensures taken { IfOk result (λ _. HaveNoMistake (map string_bytes words.now)) }
{
    let matches = read(command(alloc)?, words)?;
    command_options(alloc, &matches)
}

/// The options that the words ask for. They come without the program's name.
pub fn options(alloc: Global, words: &[String]) -> Result<Options, OptionStop>
    ensures ok { IfOk result (λ o. AreOptions o (command_of (map string_bytes words.now))) }
    ensures err { IfErr result (λ stop. IsOptionStop stop (map string_bytes words.now)) }
    ensures taken { IfOk result (λ _. HaveNoMistake (map string_bytes words.now)) }
    ensures meanings { asks_of_refusals (map string_bytes words.now) ≡ true → result ≡ Err OptionStop.RefusalMeanings }
    ensures meaning { (refusal : Refusal (List ℕ)) → asks_of_refusals (map string_bytes words.now) ≡ false
        → refusal_asked (map string_bytes words.now) ≡ Some refusal → IsRefusalOf refusal result }
{
    if asks_of_refusals(words) {
        return Err(OptionStop::RefusalMeanings);
    }
    if let Some(refusal) = refusal_asked(words) {
        return Err(OptionStop::RefusalMeaning(refusal));
    }
    read_options(alloc, words)
}
