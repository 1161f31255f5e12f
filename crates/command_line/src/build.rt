//! The command line, as `clap` reads and explains it.
ghost use Rattle.std.specs.Prelude.{◌≡◌, IfOk, Some, false, fold, map, true};
ghost use Rattle.clap.specs.Words.{app_of, rule_of};
ghost use Rattle.clap.specs.declared.builder.ArgAction.TheVariants.{Set};
ghost use Rattle.clap.specs.declared.builder.value_parser.ValueParser.TheVariants.{Unsigned};
ghost use Rattle.command_line.specs.Help.{has_right_help, help_of};
ghost use Rattle.command_line.specs.Commands.{Builds, bare_app, command_app, program_app, row_of, rule_by};
ghost use Rattle.command_line.specs.Commands.{with_command};

use crate::pages::page_of;
use crate::table::{ArgumentRow, CommandRow, Takes, asking, counting, explaining, running};
use clap::{Arg, ArgAction, Command};
use common::VERSION_LINE;
use std::alloc::{AllocError, Global};

/// The version of the program.
fn version() -> &'static str {
    match VERSION_LINE.trim_end().split_once(' ') {
        Some((_name, version)) => version,
        None => VERSION_LINE,
    }
}

/// An option with this name, whose value is a text.
fn text_option<'a>(arg: Arg<'a>, name: &'a str, value: &'a str) -> Arg<'a>
    ensures rule { rule_of result ≡ record (rule_of arg.entry) {
      long = Some name.now;
      value_names = 1;
      action = Some Set;
    } }
    ensures help { help_of result ≡ help_of arg.entry }
    ensures local { result.global ≡ arg.entry.global }
{
    arg.long(name).value_name(value).action(ArgAction::Set)
}

/// An option with this name, whose value is a number of 64 bits.
fn number_option<'a>(arg: Arg<'a>, name: &'a str, value: &'a str) -> Arg<'a>
    ensures rule { rule_of result ≡ record (rule_of arg.entry) {
      long = Some name.now;
      value_names = 1;
      parser = Some (Unsigned 0 18446744073709551615);
    } }
    ensures help { help_of result ≡ help_of arg.entry }
    ensures local { result.global ≡ arg.entry.global }
{
    arg.long(name)
        .value_name(value)
        .value_parser(clap::value_parser!(u64))
}

/// An argument or an option.
fn arg<'a>(alloc: Global, row: &ArgumentRow) -> Arg<'a>
    ensures rule { rule_of result ≡ rule_by row.now.takes row.now.name.now }
    ensures help { help_of result ≡ Some row.now.help.now }
    ensures local { result.global ≡ false }
{
    let arg = Arg::new(alloc, row.name).help(row.help);
    match row.takes {
        Takes::Place => arg.required(true).action(ArgAction::Set),
        Takes::MaybePlaces => arg.action(ArgAction::Append),
        Takes::Places => arg.required(true).action(ArgAction::Append),
        Takes::Text => text_option(arg, row.name, row.value),
        Takes::Shown => text_option(arg, "show", row.value),
        Takes::Number => number_option(arg, row.name, row.value),
        Takes::Most => number_option(arg, "all", row.value),
        Takes::Size => number_option(arg, row.name, row.value).required(true),
        Takes::Nothing => arg.long(row.name).action(ArgAction::SetTrue),
    }
}

/// A command, with its arguments and options.
fn command_of<'a>(alloc: Global, row: &CommandRow) -> Result<Command<'a>, AllocError>
    ensures { Builds result (command_app (row_of row.now)) }
{
    let page = page_of(row.name);
    let mut command = Command::new(alloc, row.name)
        .about(page.about)
        .long_about(page.more)
        .after_help(page.statuses);
    for argument in row.arguments {
        command = command.arg(arg(alloc, argument))?;
    }
    Ok(command)
}

/// The program without a command.
fn bare<'a>(alloc: Global) -> Result<Command<'a>, AllocError>
    ensures { Builds result bare_app }
{
    let page = page_of("tsotest");
    let command = Command::new(alloc, "tsotest").bin_name("tsotest")?;
    Ok(
        command
            .no_binary_name(true)
            .version(version())
            .about(page.about)
            .after_help(page.statuses)
            .subcommand_required(true),
    )
}

/// A program with these commands as well.
fn with_rows<'a>(
    alloc: Global,
    program: Command<'a>,
    rows: &[CommandRow],
) -> Result<Command<'a>, AllocError>
    requires { has_right_help rows.now ≡ true }
    ensures { IfOk result (λ c. app_of c ≡ fold with_command (app_of program.entry) (map row_of rows.now)) }
{
    let mut longer = program;
    for row in rows {
        match command_of(alloc, row) {
            Ok(command) => longer = longer.subcommand(command)?,
            Err(refused) => {
                drop(longer);
                return Err(refused);
            }
        }
    }
    Ok(longer)
}

/// The command line of the program, of whose words the first is not the program's name.
pub fn command<'a>(alloc: Global) -> Result<Command<'a>, AllocError>
    ensures { IfOk result (λ c. app_of c ≡ program_app) }
{
    let program = bare(alloc)?;
    let program = with_rows(alloc, program, running())?;
    let program = with_rows(alloc, program, explaining())?;
    let program = with_rows(alloc, program, counting())?;
    with_rows(alloc, program, asking())
}
