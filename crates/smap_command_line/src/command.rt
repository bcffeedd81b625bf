//! The command line for `clap`, from the rows of options.
ghost use Rattle.std.specs.Prelude.{◌≡◌, IfOk, false};
ghost use Rattle.clap.specs.Words.{app_of, rule_of};
ghost use Rattle.clap.specs.declared.builder.command.Command.TheViews.{out-Command as fields_of};
ghost use Rattle.smap_command_line.specs.Line as line;
ghost use Rattle.smap_command_line.specs.Rows.{row_view, rows_view};

use crate::rows::{OptionRow, is_flag};
use crate::version::NUMBER;
use clap::{Arg, ArgAction, Command};
use std::alloc::{AllocError, Global};

/// An option with its names alone.
fn named<'a>(alloc: Global, row: &OptionRow) -> Arg<'a>
    ensures rule { rule_of result ≡ line.named (row_view row.now) }
    ensures local { result.global ≡ false }
{
    let arg = Arg::new(alloc, row.name);
    let arg = if row.long { arg.long(row.name) } else { arg };
    match row.short {
        Some(letter) => arg.short(letter),
        None => arg,
    }
}

/// An option.
fn option<'a>(alloc: Global, row: &OptionRow) -> Arg<'a>
    ensures rule { rule_of result ≡ line.rule_for (row_view row.now) }
    ensures local { result.global ≡ false }
{
    let arg = named(alloc, row);
    if is_flag(row) {
        arg.action(ArgAction::SetTrue)
    } else if row.repeats {
        arg.value_name(row.value_name).action(ArgAction::Append)
    } else {
        arg.value_name(row.value_name)
    }
}

/// All words that are no options.
fn argument_list<'a>(alloc: Global) -> Arg<'a>
    ensures rule { rule_of result ≡ line.argument_rule }
    ensures local { result.global ≡ false }
{
    Arg::new(alloc, "argument").action(ArgAction::Append)
}

/// The program, with no options but `--help` and `--version`.
fn alone<'a>(alloc: Global, name: &'static str, usage: &'static str) -> Command<'a>
    ensures shape { app_of result ≡ line.alone name.now }
    ensures local { (fields_of result).has_globals ≡ false }
{
    Command::new(alloc, name)
        .version(NUMBER)
        .override_usage(usage)
        .args_override_self(true)
}

/// The command with one more option.
fn with_option<'a>(
    alloc: Global,
    command: Command<'a>,
    row: &OptionRow,
) -> Result<Command<'a>, AllocError>
    requires { (fields_of command).has_globals ≡ false }
    ensures shape { IfOk result (λ c. app_of c ≡ line.with_option (app_of command.entry) (row_view row.now)) }
    ensures local { IfOk result (λ c. (fields_of c).has_globals ≡ false) }
{
    command.arg(option(alloc, row))
}

/// The command line of a program with these options.
pub(crate) fn command_of<'a>(
    alloc: Global,
    name: &'static str,
    usage: &'static str,
    rows: &[OptionRow],
) -> Result<Command<'a>, AllocError>
    ensures shape { IfOk result (λ c. app_of c ≡ line.line_of name.now (rows_view rows.now)) }
    ensures local { IfOk result (λ c. (fields_of c).has_globals ≡ false) }
{
    let mut command = alone(alloc, name, usage);
    for i in 0..rows.len() {
        command = with_option(alloc, command, &rows[i])?;
    }
    command.arg(argument_list(alloc))
}
