//! What a command line asks for.
ghost use Rattle.std.specs.Prelude.{◌≡◌, ◌==◌, ◌&&◌, not, true, IfErr, IfOk, OnOk, codes, length, map};
ghost use Rattle.std.specs.List.{list_all};
ghost use Rattle.smap_command_line.specs.Arguments as spec;
ghost use Rattle.smap_command_line.specs.Lookups.{rows_in};
ghost use Rattle.smap_command_line.specs.Trace.{Asks, Fails, HasArguments, IsAsked, IsFault, IsFaultAmong};
ghost use Rattle.smap_command_line.specs.Trace.{IsFaultAt, asks_nothing};

use super::arguments::{Argument, ArgumentFault, argument_in};
use super::table::OPTIONS;
use crate::fault::OptionFault;
use crate::lookups::Options;
use crate::pairs::{Pair, pairs_of};
use crate::reading::{Read, read_words};
use std::alloc::{AllocError, AllocFailed, Global};

/// What an error of `clap` shows of how the program is called.
const USAGE: &str = "smap-trace [OPTION]... URL=FILE|URL/=FOLDER/|FOLDER|MAP|LOG|POSITION...";

/// The values of a command line.
#[derive(Drop)]
pub struct TraceWords<'a> {
    /// The options, by their names in [`OPTIONS`].
    pub options: Options<'a>,
    /// `--source-prefix`, in the order of the words: at the start of a source's URL the key becomes the text.
    pub prefixes: Vec<Pair<'a>>,
    /// The arguments, in the order of the words. There is one at least, unless `--list` is given.
    pub arguments: Vec<Argument<'a>>,
}

/// What a command line asks for.
#[derive(Drop)]
pub enum Asked<'a> {
    /// `--help`: [`HELP`](super::HELP) is to be printed.
    Help,
    /// `--version`: [`VERSION`](crate::VERSION) is to be printed.
    Version,
    /// A log is to be translated, or its scripts are to be listed.
    Trace(TraceWords<'a>),
}

/// What is wrong with a command line: the first of all faults. Those of the options come first, then those
/// of the arguments, and that there are none.
#[derive(Drop)]
pub enum WordFault<'a> {
    /// An option or its value is wrong.
    Options(OptionFault<'a>),
    /// An argument is wrong.
    Argument {
        /// Its place among the arguments, counted from 0.
        place: usize,
        /// The argument.
        word: &'a str,
        /// What is wrong with it.
        why: ArgumentFault,
    },
    /// There is no argument, and `--list` isn't asked for.
    Nothing,
}

impl<'a> From<OptionFault<'a>> for WordFault<'a> {
    ghost use Rattle.std.specs.Prelude.{◌≡◌};
    ghost use Rattle.smap_command_line.specs.declared.trace.words.WordFault.TheVariants as faults;

    ghost from_gives = { λ fault e. e ≡ faults.Options fault };

    fn from(fault: OptionFault<'a>) -> Self {
        WordFault::Options(fault)
    }
}

impl From<AllocError> for WordFault<'_> {
    ghost use Rattle.std.specs.Prelude.{◌≡◌};
    ghost use Rattle.smap_command_line.specs.declared.fault.OptionFault.TheVariants as options;
    ghost use Rattle.smap_command_line.specs.declared.trace.words.WordFault.TheVariants as faults;

    ghost from_gives = { λ _ e. e ≡ faults.Options options.Memory };

    fn from(_error: AllocError) -> Self {
        WordFault::Options(OptionFault::Memory)
    }
}

impl<T: Drop> From<AllocFailed<T>> for WordFault<'_> {
    ghost use Rattle.std.specs.Prelude.{◌≡◌};
    ghost use Rattle.smap_command_line.specs.declared.fault.OptionFault.TheVariants as options;
    ghost use Rattle.smap_command_line.specs.declared.trace.words.WordFault.TheVariants as faults;

    ghost from_gives = { λ _ e. e ≡ faults.Options options.Memory };

    fn from(_failed: AllocFailed<T>) -> Self {
        WordFault::Options(OptionFault::Memory)
    }
}

/// What the argument at this place is.
fn argument_at(place: usize, word: &str) -> Result<Argument<'_>, WordFault<'_>>
    ensures passes { OnOk result (spec.is_argument word.now ≡ true) }
    ensures value { IfOk result (λ a. spec.argument_view a ≡ spec.argument_meant word.now) }
    ensures fault { IfErr result (IsFaultAt place word.now) }
{
    match argument_in(word) {
        Ok(argument) => Ok(argument),
        Err(why) => Err(WordFault::Argument { place, word, why }),
    }
}

/// What each argument is.
fn arguments_in<'a>(alloc: Global, texts: &[&'a str]) -> Result<Vec<Argument<'a>>, WordFault<'a>>
    ensures value { IfOk result (λ arguments. map spec.argument_view arguments.items
        ≡ map spec.argument_meant (map (λ s. s.now) texts.now)) }
    ensures passes { OnOk result (list_all spec.is_argument (map (λ s. s.now) texts.now) ≡ true) }
    ensures fault { IfErr result (IsFaultAmong (map (λ s. s.now) texts.now)) }
{
    let mut arguments = Vec::new(alloc);
    for i in 0..texts.len() {
        arguments.push(argument_at(i, texts[i])?)?;
    }
    Ok(arguments)
}

/// The arguments. There has to be one, unless the list of scripts is asked for.
fn arguments_of<'a>(
    alloc: Global,
    options: &Options<'a>,
) -> Result<Vec<Argument<'a>>, WordFault<'a>>
    ensures value { IfOk result (HasArguments (rows_in options.now)) }
    ensures fault { IfErr result (Fails (rows_in options.now)) }
{
    let texts = options.texts(alloc, "argument")?;
    if texts.is_empty() && !options.has("list") {
        return Err(WordFault::Nothing);
    }
    arguments_in(alloc, &texts)
}

/// What is asked for by these options, and the arguments with them.
fn request_in<'a>(alloc: Global, options: Options<'a>) -> Result<TraceWords<'a>, WordFault<'a>>
    ensures value { IfOk result (Asks (rows_in options.entry)) }
    ensures fault { IfErr result (Fails (rows_in options.entry)) }
{
    let arguments = arguments_of(alloc, &options)?;
    let prefixes = pairs_of(alloc, &options, "source-prefix")?;
    Ok(TraceWords {
        options,
        prefixes,
        arguments,
    })
}

/// Reads a command line. The first word is the name of the program, and isn't looked at.
///
/// Options may stand anywhere before `--`, behind which all words are arguments. Of an option that is given
/// twice the last use counts, but for `--source-prefix`.
///
/// # Errors
///
/// The first that is wrong with the words, and `OptionFault::Memory` where memory runs out.
///
/// # Examples
///
/// ```
/// let asked = trace_words(alloc, &["smap-trace", "--context", "2", "https://example.org/=dist/"])?;
/// // Asked::Trace(words), with words.options.number("context") at Some(2) and words.arguments at
/// // [Argument::Place("https://example.org/=dist/")]
/// ```
pub fn trace_words<'a>(alloc: Global, words: &'a [&'a str]) -> Result<Asked<'a>, WordFault<'a>>
    ensures asked { IfOk result (IsAsked (map (λ w. w.now) words.now)) }
    ensures fault { IfErr result (IsFault (map (λ w. w.now) words.now)) }
{
    match read_words(alloc, "smap-trace", USAGE, &OPTIONS, words)? {
        Read::Help => Ok(Asked::Help),
        Read::Version => Ok(Asked::Version),
        Read::Words(options) => Ok(Asked::Trace(request_in(alloc, options)?)),
    }
}
