//! What a command line asks for.
ghost use Rattle.std.specs.Prelude.{◌≡◌, IfErr, IfOk, map, option_map};
ghost use Rattle.smap_command_line.specs.Lookups.{rows_in};
ghost use Rattle.smap_command_line.specs.View as spec;
ghost use Rattle.smap_command_line.specs.View.{Asks, Fails, IsArgumentFault, IsArguments, IsAsked, IsFault};

use super::table::OPTIONS;
use crate::fault::OptionFault;
use crate::lookups::Options;
use crate::reading::{Read, read_words};
use std::alloc::{AllocError, Global};

/// What an error of `clap` shows of how the program is called.
const USAGE: &str = "smap-view [OPTION]... MAP|SCRIPT|FOLDER [SCRIPT]";

/// How the sizes of sources are written.
#[derive(Clone, Copy, PartialEq, Eq)]
pub enum SizesForm {
    /// Columns for a reader.
    Table,
    /// Tab-separated values.
    Tsv,
    Json,
}

/// The values of a command line.
#[derive(Drop)]
pub struct ViewWords<'a> {
    /// The options, by their names in [`OPTIONS`].
    pub options: Options<'a>,
    /// The first argument: a map, a script or a folder.
    pub file: &'a str,
    /// The second one: the script of the map.
    pub script: Option<&'a str>,
}

/// What a command line asks for.
#[derive(Drop)]
pub enum Asked<'a> {
    /// `--help`: [`HELP`](super::HELP) is to be printed.
    Help,
    /// `--version`: [`VERSION`](crate::VERSION) is to be printed.
    Version,
    /// A map is to be looked at.
    View(ViewWords<'a>),
}

/// What is wrong with a command line: the first of all faults. Those of the options come first.
#[derive(Drop)]
pub enum WordFault<'a> {
    /// An option or its value is wrong.
    Options(OptionFault<'a>),
    /// There is no argument.
    Nothing,
    /// This is the third argument.
    Excess(&'a str),
}

impl<'a> From<OptionFault<'a>> for WordFault<'a> {
    ghost use Rattle.std.specs.Prelude.{◌≡◌};
    ghost use Rattle.smap_command_line.specs.declared.view.words.WordFault.TheVariants as faults;

    ghost from_gives = { λ fault e. e ≡ faults.Options fault };

    fn from(fault: OptionFault<'a>) -> Self {
        WordFault::Options(fault)
    }
}

impl From<AllocError> for WordFault<'_> {
    ghost use Rattle.std.specs.Prelude.{◌≡◌};
    ghost use Rattle.smap_command_line.specs.declared.fault.OptionFault.TheVariants as options;
    ghost use Rattle.smap_command_line.specs.declared.view.words.WordFault.TheVariants as faults;

    ghost from_gives = { λ _ e. e ≡ faults.Options options.Memory };

    fn from(_error: AllocError) -> Self {
        WordFault::Options(OptionFault::Memory)
    }
}

/// The form with this name.
fn sizes_named(name: &str) -> Option<SizesForm>
    ensures { result ≡ spec.sizes_named name.now }
{
    match name {
        "table" => Some(SizesForm::Table),
        "tsv" => Some(SizesForm::Tsv),
        "json" => Some(SizesForm::Json),
        _ => None,
    }
}

impl ViewWords<'_> {
    /// `--sizes`: sizes are written in place of a page, in this form.
    pub fn sizes(&self) -> Option<SizesForm>
        ensures { result ≡ spec.sizes self.now }
    {
        sizes_named(self.options.text("sizes")?)
    }
}

/// The arguments: a map, a script or a folder, and the script of a map.
fn arguments_in<'a>(texts: &[&'a str]) -> Result<(&'a str, Option<&'a str>), WordFault<'a>>
    ensures value { IfOk result (λ r. IsArguments (map (λ s. s.now) texts.now) r.0.now
        (option_map (λ s. s.now) r.1)) }
    ensures fault { IfErr result (IsArgumentFault (map (λ s. s.now) texts.now)) }
{
    match texts {
        [] => Err(WordFault::Nothing),
        [file] => Ok((*file, None)),
        [file, script] => Ok((*file, Some(*script))),
        [_, _, word, ..] => Err(WordFault::Excess(*word)),
    }
}

/// What is asked for by these options, and the arguments with them.
fn request_in<'a>(alloc: Global, options: Options<'a>) -> Result<ViewWords<'a>, WordFault<'a>>
    ensures value { IfOk result (Asks (rows_in options.entry)) }
    ensures fault { IfErr result (Fails (rows_in options.entry)) }
{
    let texts = options.texts(alloc, "argument")?;
    let (file, script) = arguments_in(&texts)?;
    Ok(ViewWords {
        options,
        file,
        script,
    })
}

/// Reads a command line. The first word is the name of the program, and isn't looked at.
///
/// Options may stand anywhere before `--`; behind it all words are arguments. Of an option that is given
/// twice the last use counts.
///
/// # Errors
///
/// The first that is wrong with the words, and `OptionFault::Memory` where memory runs out.
///
/// # Examples
///
/// ```
/// let asked = view_words(alloc, &["smap-view", "-o", "page.html", "out.js"])?;
/// // Asked::View(words), with words.options.text("output") at Some("page.html") and words.file at "out.js"
/// ```
pub fn view_words<'a>(alloc: Global, words: &'a [&'a str]) -> Result<Asked<'a>, WordFault<'a>>
    ensures asked { IfOk result (IsAsked (map (λ w. w.now) words.now)) }
    ensures fault { IfErr result (IsFault (map (λ w. w.now) words.now)) }
{
    match read_words(alloc, "smap-view", USAGE, &OPTIONS, words)? {
        Read::Help => Ok(Asked::Help),
        Read::Version => Ok(Asked::Version),
        Read::Words(options) => Ok(Asked::View(request_in(alloc, options)?)),
    }
}
