//! What a command line is, before its arguments are looked at: a request for help or the version, or options
//! whose values are what they have to be.
ghost use Rattle.std.specs.Prelude.{◌≡◌, IfErr, IfOk, map, true};
ghost use Rattle.clap.specs.Words.{is_simple_and_free, kind_of};
ghost use Rattle.smap_command_line.specs.Line.{line_of};
ghost use Rattle.smap_command_line.specs.Lookups.{rows_in};
ghost use Rattle.smap_command_line.specs.Rows.{rows_view};
ghost use Rattle.smap_command_line.specs.Reading.{Answers, IsChecked, IsOptionFault, IsRead};

use crate::command::command_of;
use crate::fault::OptionFault;
use crate::lookups::Options;
use crate::rows::OptionRow;
use crate::values::first_bad;
use clap::Error;
use clap::error::ErrorKind;
use std::alloc::Global;

/// What a command line is.
pub(crate) enum Read<'a> {
    /// `--help`
    Help,
    /// `--version`
    Version,
    /// These options, with arguments.
    Words(Options<'a>),
}

/// What is answered for an error of `clap`.
fn answer_to<'a>(error: Error) -> Result<Read<'a>, OptionFault<'a>>
    ensures { Answers (kind_of error) result }
{
    match error.kind() {
        ErrorKind::DisplayHelp => Ok(Read::Help),
        ErrorKind::DisplayVersion => Ok(Read::Version),
        ErrorKind::OutOfMemory => Err(OptionFault::Memory),
        _ => Err(OptionFault::Refused(error)),
    }
}

/// Refuses the first value that isn't what its option takes.
fn checked<'a>(options: Options<'a>, rows: &[OptionRow]) -> Result<Read<'a>, OptionFault<'a>>
    ensures { IsChecked (rows_view rows.now) (rows_in options.entry) result }
{
    match first_bad(&options, rows) {
        Some((option, word)) => Err(OptionFault::Value { option, word }),
        None => Ok(Read::Words(options)),
    }
}

/// Reads a command line of the program with this name and these options. The usage is what an error of
/// `clap` shows.
pub(crate) fn read_words<'a>(
    alloc: Global,
    name: &'static str,
    usage: &'static str,
    rows: &[OptionRow],
    words: &'a [&'a str],
) -> Result<Read<'a>, OptionFault<'a>>
    requires { is_simple_and_free (line_of name.now (rows_view rows.now)) ≡ true }
    ensures read { IfOk result (IsRead (line_of name.now (rows_view rows.now)) (rows_view rows.now)
        (map (λ w. w.now) words.now)) }
    ensures fault { IfErr result (IsOptionFault (line_of name.now (rows_view rows.now)) (rows_view rows.now)
        (map (λ w. w.now) words.now)) }
{
    let command = command_of(alloc, name, usage, rows)?;
    match command.try_get_matches_from(words) {
        Ok(matches) => checked(Options { matches }, rows),
        Err(error) => answer_to(error),
    }
}
