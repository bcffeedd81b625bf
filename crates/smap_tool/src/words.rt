//! Arguments of a command line: the kinds of arguments that commands take, their values in what `clap` has
//! matched, and its errors. Which arguments it accepts is defined by its own specification.
ghost use Rattle.std.specs.Prelude.{◌≡◌, IfOk, IfSome, IsSome, false, option_map};
ghost use Rattle.clap.specs.Words.{app_of, first_of, found_of, kind_of, rows_of, rule_of, shape_of};
ghost use Rattle.clap.specs.Words.{with_rule, with_subcommand};
ghost use Rattle.clap.specs.declared.builder.command.Command.TheViews.{out-Command as fields_of};
ghost use Rattle.smap_tool.specs.Words as line;
ghost use Rattle.smap_tool.specs.Words.{HasFlag, HasNumber, IsGivenAs, IsRefusalOf, position_parser};

use clap::error::ErrorKind;
use clap::{Arg, ArgAction, ArgMatches, Command, Error};
use smap_vlq::MAX_POSITION;
use std::alloc::{AllocError, Global};

/// Why there is no task.
#[derive(Drop)]
pub enum WordsFault {
    /// The arguments are wrong, or ask for help. The error prints itself, and knows its exit code: 2, or 0
    /// for help.
    Words(Error),
    /// Out of memory.
    Memory,
}

/// A command that takes BASE.
pub(crate) fn on_base<'a>(
    alloc: Global,
    name: &'a str,
    about: &'a str,
) -> Result<Command<'a>, AllocError>
    ensures shape { IfOk result (λ c. app_of c ≡ line.on_base name.now) }
    ensures local { IfOk result (λ c. (fields_of c).has_globals ≡ false) }
{
    let base = Arg::new(alloc, "BASE")
        .required(true)
        .help("URL of the map, against which its sources are resolved");
    Command::new(alloc, name).about(about).arg(base)
}

/// A flag without a value.
fn flag<'a>(alloc: Global, name: &'a str, help: &'a str) -> Arg<'a>
    ensures rule { rule_of result ≡ line.flag name.now }
    ensures local { result.global ≡ false }
{
    Arg::new(alloc, name)
        .long(name)
        .action(ArgAction::SetTrue)
        .help(help)
}

/// The command with one more flag.
pub(crate) fn with_flag<'a>(
    alloc: Global,
    command: Command<'a>,
    name: &'a str,
    help: &'a str,
) -> Result<Command<'a>, AllocError>
    requires { (fields_of command).has_globals ≡ false }
    ensures shape { IfOk result (λ c. app_of c ≡ with_rule (app_of command.entry) (line.flag name.now)) }
    ensures local { IfOk result (λ c. (fields_of c).has_globals ≡ false) }
{
    command.arg(flag(alloc, name, help))
}

/// A required line or column.
pub(crate) fn position_argument<'a>(alloc: Global, name: &'a str, help: &'a str) -> Arg<'a>
    ensures rule { rule_of result ≡ line.position_argument name.now }
    ensures local { result.global ≡ false }
{
    Arg::new(alloc, name)
        .required(true)
        .value_parser(clap::value_parser!(u32).range(0..=MAX_POSITION as i64))
        .help(help)
}

/// The command with one more subcommand.
pub(crate) fn with<'a>(command: Command<'a>, sub: Command<'a>) -> Result<Command<'a>, AllocError>
    requires command { (fields_of command).has_globals ≡ false }
    requires sub { (fields_of sub).has_globals ≡ false }
    ensures shape { IfOk result (λ c.
        app_of c ≡ with_subcommand (app_of command.entry) (shape_of sub.entry)) }
    ensures local { IfOk result (λ c. (fields_of c).has_globals ≡ false) }
{
    command.subcommand(sub)
}

/// The value of an argument.
pub(crate) fn text_in<'a>(matches: &ArgMatches<'a>, id: &str) -> Option<&'a str>
    ensures { option_map (λ s. s.now) result ≡ first_of id.now (rows_of (found_of matches.now)) }
{
    matches.get_str(id)
}

/// The value of an argument that is a line or a column.
pub(crate) fn position_in<'a>(matches: &ArgMatches<'a>, id: &str) -> Option<u32>
    ensures value { IfSome result (HasNumber (rows_of (found_of matches.now)) id.now) }
    ensures found { IsGivenAs position_parser (rows_of (found_of matches.now)) id.now → IsSome result }
{
    matches.get_one::<u32>(id)
}

/// Whether a flag is set.
pub(crate) fn is_set<'a>(matches: &ArgMatches<'a>, id: &str) -> bool
    ensures { HasFlag (rows_of (found_of matches.now)) id.now result }
{
    matches.get_one::<bool>(id).unwrap_or(false)
}

/// What is answered for an error of `clap`.
pub(crate) fn refusal(error: Error) -> WordsFault
    ensures { IsRefusalOf (kind_of error) result }
{
    if error.kind() == ErrorKind::OutOfMemory {
        WordsFault::Memory
    } else {
        WordsFault::Words(error)
    }
}
