//! What a command line asks for.
ghost use Rattle.std.specs.Prelude.{◌≡◌, IfErr, IfOk, OnOk, Some, drop, length, map, nat_lt, true};
ghost use Rattle.smap_command_line.specs.Lookups.{rows_in};
ghost use Rattle.smap_command_line.specs.Maps as spec;
ghost use Rattle.smap_command_line.specs.Maps.{Asks, Fails, IsAsked, IsCommandFault, IsFault, IsPathFault};
ghost use Rattle.smap_command_line.specs.Maps.{IsOptionsFault};

use super::clashes::{Clash, clash_of, foreign_option};
use super::table::OPTIONS;
use crate::fault::OptionFault;
use crate::lookups::Options;
use crate::pairs::{Pair, pairs_of};
use crate::reading::{Read, read_words};
use crate::rows::{MapsCommand, OptionRow};
use std::alloc::{AllocError, Global};

/// What an error of `clap` shows of how the program is called.
const USAGE: &str = "smap-maps COMMAND [OPTION]... PATH...";

/// What becomes of a map that would change.
#[derive(Clone, Copy, PartialEq, Eq)]
pub enum Rewrite {
    /// It is named, or has a line of JSON, and stays as it is.
    Tell {
        /// `--json`.
        json: bool,
    },
    /// `--diff`: it is shown what would change.
    Diff,
    /// `--write`: it is rewritten.
    Write {
        /// `--drop`: also if it loses a member.
        drop: bool,
        /// `--json`.
        json: bool,
    },
}

/// The values of a command line.
#[derive(Drop)]
pub struct MapsWords<'a> {
    pub command: MapsCommand,
    /// The options, by their names in [`OPTIONS`]. The command has all that are given.
    pub options: Options<'a>,
    /// `--rule`, in the order of the words: names with one of [`LEVELS`](crate::LEVELS) each.
    pub rules: Vec<Pair<'a>>,
    /// The paths of files and folders, in the order of the words; there is one at least.
    pub paths: Vec<&'a str>,
}

/// What a command line asks for.
#[derive(Drop)]
pub enum Asked<'a> {
    /// `--help`: [`HELP`](super::HELP) is to be printed.
    Help,
    /// `--version`: [`VERSION`](crate::VERSION) is to be printed.
    Version,
    /// Maps are to be looked at.
    Maps(MapsWords<'a>),
}

/// What is wrong with a command line: the first of all faults. Those of options by themselves come first,
/// then those of the command, of its options, and that there is no path.
#[derive(Drop)]
pub enum WordFault<'a> {
    /// An option or its value is wrong.
    Options(OptionFault<'a>),
    /// There is no command.
    Nothing,
    /// This is no command.
    NoCommand(&'a str),
    /// The command doesn't have this option.
    Foreign(MapsCommand, OptionRow),
    /// Options don't go together.
    Clashing(Clash),
    /// The command has no path.
    NoPath(MapsCommand),
}

impl<'a> From<OptionFault<'a>> for WordFault<'a> {
    ghost use Rattle.std.specs.Prelude.{◌≡◌};
    ghost use Rattle.smap_command_line.specs.declared.maps.words.WordFault.TheVariants as faults;

    ghost from_gives = { λ fault e. e ≡ faults.Options fault };

    fn from(fault: OptionFault<'a>) -> Self {
        WordFault::Options(fault)
    }
}

impl From<AllocError> for WordFault<'_> {
    ghost use Rattle.std.specs.Prelude.{◌≡◌};
    ghost use Rattle.smap_command_line.specs.declared.fault.OptionFault.TheVariants as options;
    ghost use Rattle.smap_command_line.specs.declared.maps.words.WordFault.TheVariants as faults;

    ghost from_gives = { λ _ e. e ≡ faults.Options options.Memory };

    fn from(_error: AllocError) -> Self {
        WordFault::Options(OptionFault::Memory)
    }
}

impl MapsWords<'_> {
    /// Unless `--absolute`: source URLs are written relative to the map's, where that round-trips.
    pub fn relative(&self) -> bool
        ensures { result ≡ spec.relative self.now }
    {
        !self.options.has("absolute")
    }

    /// What becomes of maps that would change.
    pub fn rewrite(&self) -> Rewrite
        ensures { result ≡ spec.rewrite self.now }
    {
        let json = self.options.has("json");
        if self.options.has("write") {
            let drop = self.options.has("drop");
            Rewrite::Write { drop, json }
        } else if self.options.has("diff") {
            Rewrite::Diff
        } else {
            Rewrite::Tell { json }
        }
    }
}

/// The command with this name.
fn command_in(name: &str) -> Option<MapsCommand>
    ensures { result ≡ spec.command_named name.now }
{
    match name {
        "check" => Some(MapsCommand::Check),
        "tidy" => Some(MapsCommand::Tidy),
        "flatten" => Some(MapsCommand::Flatten),
        "lint" => Some(MapsCommand::Lint),
        "repair" => Some(MapsCommand::Repair),
        "compose" => Some(MapsCommand::Compose),
        "extract" => Some(MapsCommand::Extract),
        "comment" => Some(MapsCommand::Comment),
        "inline" => Some(MapsCommand::Inline),
        "outline" => Some(MapsCommand::Outline),
        "contents" => Some(MapsCommand::Contents),
        "rename" => Some(MapsCommand::Rename),
        "debug-id" => Some(MapsCommand::DebugId),
        "diff" => Some(MapsCommand::Diff),
        _ => None,
    }
}

/// The command that the first argument names.
fn first_command<'a>(texts: &[&'a str]) -> Result<MapsCommand, WordFault<'a>>
    ensures value { IfOk result (λ k. spec.command_asked (map (λ s. s.now) texts.now) ≡ Some k) }
    ensures fault { IfErr result (IsCommandFault (map (λ s. s.now) texts.now)) }
{
    let [name, ..] = texts else {
        return Err(WordFault::Nothing);
    };
    match command_in(*name) {
        Some(command) => Ok(command),
        None => Err(WordFault::NoCommand(*name)),
    }
}

/// Refuses options that the command doesn't have or that don't go together.
fn check_options<'a>(options: &Options<'_>, command: MapsCommand) -> Result<(), WordFault<'a>>
    ensures { IsOptionsFault (rows_in options.now) command result }
{
    if let Some(row) = foreign_option(options, command, &OPTIONS) {
        return Err(WordFault::Foreign(command, row));
    }
    match clash_of(options, command) {
        Some(clash) => Err(WordFault::Clashing(clash)),
        None => Ok(()),
    }
}

/// The paths: what is behind the command.
fn paths_in<'a>(
    alloc: Global,
    texts: &[&'a str],
    command: MapsCommand,
) -> Result<Vec<&'a str>, WordFault<'a>>
    ensures paths { IfOk result (λ paths. map (λ s. s.now) paths.items
        ≡ drop 1 (map (λ s. s.now) texts.now)) }
    ensures some { OnOk result (nat_lt 1 (length texts.now) ≡ true) }
    ensures fault { IfErr result (IsPathFault texts.now command) }
{
    if texts.len() < 2 {
        return Err(WordFault::NoPath(command));
    }
    Ok(Vec::from_slice(alloc, &texts[1..])?)
}

/// The command, and the paths with it.
fn command_with_paths<'a>(
    alloc: Global,
    options: &Options<'a>,
) -> Result<(MapsCommand, Vec<&'a str>), WordFault<'a>>
    ensures value { IfOk result (λ r. spec.HasCommand (rows_in options.now) r.0 r.1) }
    ensures fault { IfErr result (Fails (rows_in options.now)) }
{
    let texts = options.texts(alloc, "argument")?;
    let command = first_command(&texts)?;
    check_options(options, command)?;
    let paths = paths_in(alloc, &texts, command)?;
    Ok((command, paths))
}

/// What is asked for by these options, and the arguments with them.
fn request_in<'a>(alloc: Global, options: Options<'a>) -> Result<MapsWords<'a>, WordFault<'a>>
    ensures value { IfOk result (Asks (rows_in options.entry)) }
    ensures fault { IfErr result (Fails (rows_in options.entry)) }
{
    let (command, paths) = command_with_paths(alloc, &options)?;
    let rules = pairs_of(alloc, &options, "rule")?;
    Ok(MapsWords {
        command,
        options,
        rules,
        paths,
    })
}

/// Reads a command line. The first word is the name of the program, and isn't looked at.
///
/// Options may stand anywhere before `--`, also before the command; behind it all words are arguments. Of an
/// option that is given twice the last use counts, but for `--rule`.
///
/// # Errors
///
/// The first that is wrong with the words, and `OptionFault::Memory` where memory runs out.
///
/// # Examples
///
/// ```
/// let asked = maps_words(alloc, &["smap-maps", "tidy", "--write", "dist"])?;
/// // Asked::Maps(words), with words.command at MapsCommand::Tidy, words.rewrite() at
/// // Rewrite::Write { drop: false, json: false }, and words.paths at ["dist"]
/// ```
pub fn maps_words<'a>(alloc: Global, words: &'a [&'a str]) -> Result<Asked<'a>, WordFault<'a>>
    ensures asked { IfOk result (IsAsked (map (λ w. w.now) words.now)) }
    ensures fault { IfErr result (IsFault (map (λ w. w.now) words.now)) }
{
    match read_words(alloc, "smap-maps", USAGE, &OPTIONS, words)? {
        Read::Help => Ok(Asked::Help),
        Read::Version => Ok(Asked::Version),
        Read::Words(options) => Ok(Asked::Maps(request_in(alloc, options)?)),
    }
}
