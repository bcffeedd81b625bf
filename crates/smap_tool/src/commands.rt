//! The commands of `smap`: the command line, the task that it names, and the run of a task. What a single
//! command is, its arguments and its run, stands in a file of its own.
ghost use Rattle.std.specs.Prelude.{◌-◌, ◌^◌, ◌<◌, ◌≡◌, IfErr, IfOk, IfSome, IsSome, IsSomeAnd, OnOk, []};
ghost use Rattle.std.specs.Prelude.{false, map, true};
ghost use Rattle.clap.specs.Words.{app_of, fault_of, found_of, rows_of, subcommand_of, subcommand_rows_of};
ghost use Rattle.clap.specs.Words.{takes};
ghost use Rattle.clap.specs.declared.builder.command.Command.TheViews.{out-Command as fields_of};
ghost use Rattle.smap_io.specs.Calls.{MakesAtMost, StopsInTime};
ghost use Rattle.smap_io.specs.Device.{device_failures, has_ended, is_over};
ghost use Rattle.smap_io.specs.Streams.{streams};
ghost use Rattle.smap_tool.specs.Commands as line;
ghost use Rattle.smap_tool.specs.Commands.{IsCommand, IsInRange, IsTaskOf, RunsTask, TaskGiven, most_reads};
ghost use Rattle.smap_tool.specs.Words.{IsRefusalBy};
ghost use Rattle.smap_tool.specs.declared.words.WordsFault.TheVariants as fault;

use crate::outcome::{Outcome, RunFault};
use crate::words::{WordsFault, is_set, position_in, refusal, text_in, with};
use clap::{ArgMatches, Command};
use smap_io::Device;
use smap_trace::MatchMode;
use std::alloc::{AllocError, Global};
use std::io::{Read, Write};

mod check;
mod compose;
mod flatten;
mod lookup;
mod respell;
mod scripts;
mod tidy;
mod translate;

use check::check_command;
pub use check::run_check;
use compose::compose_command;
pub use compose::{ComposeOptions, run_compose};
use flatten::flatten_command;
pub use flatten::run_flatten;
use lookup::lookup_command;
pub use lookup::run_lookup;
use respell::respell_command;
pub use respell::run_respell;
pub use scripts::run_scripts;
use scripts::scripts_command;
pub use tidy::run_tidy;
use tidy::tidy_command;
use translate::{run_translate_asked, translate_command};
pub use translate::{run_translate, run_translate_by};

/// What a command line asks for: a command with its values.
#[derive(Clone, Copy, Debug, PartialEq, Eq)]
pub enum Task<'a> {
    /// `respell`: re-encode a bare `mappings` string, sorted and as short as possible.
    Respell,
    /// `check BASE`: validate a map, and print a summary or its first error.
    Check {
        /// The URL of the map, against which its sources are resolved. It isn't parsed yet.
        base: &'a str,
    },
    /// `tidy [--relative] BASE`: write a map in canonical form.
    Tidy {
        /// The URL of the map, against which its sources are resolved. It isn't parsed yet.
        base: &'a str,
        /// Whether source URLs are written relative to the base, where that round-trips.
        relative: bool,
    },
    /// `flatten BASE`: write a map as one flat map, with sources and names as listed.
    Flatten {
        /// The URL of the map, against which its sources are resolved. It isn't parsed yet.
        base: &'a str,
    },
    /// `lookup BASE LINE COLUMN`: find the original position of a generated position.
    Lookup {
        /// The URL of the map, against which its sources are resolved. It isn't parsed yet.
        base: &'a str,
        /// The generated line, from 0 to 2,147,483,647.
        line: u32,
        /// The generated column, from 0 to 2,147,483,647.
        column: u32,
    },
    /// `translate [--anywhere] [--ignore-query] [--hide-ignored] [--names]`: translate a stack trace to
    /// source positions.
    Translate {
        /// How positions are found in a line.
        mode: MatchMode,
        /// Whether frames in ignored sources are left out.
        hide: bool,
        /// Whether frames get the names of functions.
        names: bool,
    },
    /// `scripts`: list the scripts that a stack trace names.
    Scripts,
    /// `compose [--relative] [--thin] [--used]`: write one map for a chain of maps.
    Compose {
        /// How it is written.
        options: ComposeOptions,
    },
}

/// The end of the help: the programs over files, which have command lines of their own.
const TOOLS: &str = "\
Over files, each with a --help of its own:
  smap trace   Translate the stack traces of a log (smap-trace)
  smap maps    Check, tidy, flatten, lint or repair maps (smap-maps)
  smap lint    Say why the maps of a build don't work (smap-maps lint)
  smap repair  Mend maps that are refused for small faults (smap-maps repair)
  smap view    Make a page of a map (smap-view)";

/// The program, without its commands.
fn alone<'a>(alloc: Global) -> Command<'a>
    ensures shape { app_of result ≡ line.smap_alone }
    ensures local { (fields_of result).has_globals ≡ false }
{
    Command::new(alloc, "smap")
        .about(
            "Validate and normalize source maps, and translate stack traces, read from standard input",
        )
        .version("0.3.0-dev (commit unknown)")
        .after_help(TOOLS)
        .subcommand_required(true)
        .disable_help_subcommand(true)
}

/// The command line of the program.
fn command<'a>(alloc: Global) -> Result<Command<'a>, AllocError>
    ensures shape { IfOk result (λ c. app_of c ≡ line.smap) }
    ensures local { IfOk result (λ c. (fields_of c).has_globals ≡ false) }
{
    let command = with(alone(alloc), respell_command(alloc))?;
    let command = with(command, check_command(alloc)?)?;
    let command = with(command, tidy_command(alloc)?)?;
    let command = with(command, flatten_command(alloc)?)?;
    let command = with(command, lookup_command(alloc)?)?;
    let command = with(command, translate_command(alloc)?)?;
    let command = with(command, scripts_command(alloc))?;
    with(command, compose_command(alloc)?)
}

/// The task of the command with this name and these matches.
fn task_named<'a>(name: &str, inner: &ArgMatches<'a>) -> Option<Task<'a>>
    ensures task { IfSome result (IsTaskOf (name.now, rows_of (found_of inner.now))) }
    ensures found { IsCommand (name.now, rows_of (found_of inner.now)) → IsSome result }
{
    match name {
        "respell" => Some(Task::Respell),
        "check" => Some(Task::Check {
            base: text_in(inner, "BASE")?,
        }),
        "tidy" => Some(Task::Tidy {
            base: text_in(inner, "BASE")?,
            relative: is_set(inner, "relative"),
        }),
        "flatten" => Some(Task::Flatten {
            base: text_in(inner, "BASE")?,
        }),
        "lookup" => Some(Task::Lookup {
            base: text_in(inner, "BASE")?,
            line: position_in(inner, "LINE")?,
            column: position_in(inner, "COLUMN")?,
        }),
        "translate" => Some(Task::Translate {
            mode: MatchMode {
                anywhere: is_set(inner, "anywhere"),
                ignore_query: is_set(inner, "ignore-query"),
            },
            hide: is_set(inner, "hide-ignored"),
            names: is_set(inner, "names"),
        }),
        "scripts" => Some(Task::Scripts),
        "compose" => Some(Task::Compose {
            options: ComposeOptions {
                relative: is_set(inner, "relative"),
                thin: is_set(inner, "thin"),
                used: is_set(inner, "used"),
            },
        }),
        _ => None,
    }
}

fn task_in<'a>(matches: &ArgMatches<'a>) -> Option<Task<'a>>
    ensures task { IfSome result (TaskGiven (subcommand_rows_of matches.now)) }
    ensures found { IsSomeAnd (subcommand_rows_of matches.now) IsCommand → IsSome result }
{
    let (name, inner) = matches.subcommand()?;
    task_named(name, inner)
}

/// Parses a command line. The first argument is the name of the program, and isn't looked at.
///
/// # Errors
///
/// `WordsFault::Words` with `clap`'s error where the arguments are wrong or ask for help, and
/// `WordsFault::Memory` where memory runs out.
///
/// # Examples
///
/// ```
/// let task = task_of(alloc, &["smap", "tidy", "--relative", "http://h/m/out.js.map"])?;
/// // Task::Tidy { base: "http://h/m/out.js.map", relative: true }
/// ```
pub fn task_of<'a>(alloc: Global, words: &'a [&'a str]) -> Result<Task<'a>, WordsFault>
    ensures task { IfOk result (TaskGiven (subcommand_of line.smap (map (λ w. w.now) words.now))) }
    ensures range { IfOk result IsInRange }
    ensures accepted { OnOk result (fault_of line.smap (map (λ w. w.now) words.now) ≡ []) }
    ensures refused { IfErr result (IsRefusalBy (fault_of line.smap (map (λ w. w.now) words.now))) }
    ensures takes { takes line.smap (map (λ w. w.now) words.now) ≡ true
        → IfErr result (λ e. e ≡ fault.Memory) }
{
    let Ok(command) = command(alloc) else {
        return Err(WordsFault::Memory);
    };
    match command.try_get_matches_from(words) {
        Ok(matches) => match task_in(&matches) {
            Some(task) => Ok(task),
            // What `clap` matched is one of the commands, with its values.
            None => unreachable!(),
        },
        Err(error) => Err(refusal(error)),
    }
}

/// Runs the task of a command line: reads the input of its command, writes the output, and flushes once at
/// the end. It answers `Done`, or `Refused` where the output is the one line of the input's first fault.
///
/// The reader's end must not have been seen yet, and fewer than 2^64 - 1 calls of either device may have
/// failed. That holds for each run below too.
///
/// # Errors
///
/// `TooLong` where the input has more than 268,435,456 bytes, `Read` and `Write` where a call of the reader
/// or the writer failed, and `Memory`. What was written is then a prefix of the output.
///
/// # Examples
///
/// ```
/// let task = task_of(alloc, &["smap", "check", "http://h/m/out.js.map"])?;
/// let answer = run(alloc, task, &mut reader, &mut writer);
/// let code = status(&answer);
/// ```
pub fn run<R: Read, W: Write>(
    alloc: Global,
    task: Task<'_>,
    reader: &mut Device<R>,
    writer: &mut Device<W>,
) -> Result<Outcome, RunFault>
    requires reader { device_failures reader.old < 2 ^ 64 - 1 }
    requires writer { device_failures writer.old < 2 ^ 64 - 1 }
    requires not_ended { has_ended reader.old ≡ false }

    // The output is that of the task's command with the task's values.
    ensures answers { RunsTask task.entry
        (streams R.remaining reader.old reader.new W.contents writer.old writer.new) result }

    // At most as many reads are made as the command allows.
    ensures calls { MakesAtMost (most_reads task.entry) reader.old reader.new }

    // No read comes after the end or a failure. The output is flushed once, and no write comes after that or
    // after a failure.
    ensures reads_in_time { StopsInTime reader.old reader.new }
    ensures writes_in_time { StopsInTime writer.old writer.new }
    ensures flushed { OnOk result (is_over writer.new ≡ true) }
{
    match task {
        Task::Respell => run_respell(alloc, reader, writer),
        Task::Check { base } => run_check(alloc, base, reader, writer),
        Task::Tidy { base, relative } => run_tidy(alloc, base, relative, reader, writer),
        Task::Flatten { base } => run_flatten(alloc, base, reader, writer),
        Task::Lookup { base, line, column } => run_lookup(
            alloc, base, line, column, reader, writer,
        ),
        Task::Translate { mode, hide, names } => run_translate_asked(
            alloc, mode, hide, names, reader, writer,
        ),
        Task::Scripts => run_scripts(alloc, reader, writer),
        Task::Compose { options } => run_compose(alloc, options, reader, writer),
    }
}
