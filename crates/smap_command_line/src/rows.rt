//! What a program's options are: a row for each, from which come the command line for `clap`, the help, the
//! manual page and what shells complete.
ghost use Rattle.std.specs.Prelude.{◌≡◌};
ghost use Rattle.smap_command_line.specs.Rows as spec;

use std::alloc::AllocError;

/// A command of `smap-maps`.
#[derive(Clone, Copy, PartialEq, Eq)]
pub enum MapsCommand {
    Check,
    Tidy,
    Flatten,
    Lint,
    Repair,
    Compose,
    Extract,
    Comment,
    Inline,
    Outline,
    Contents,
    Rename,
    DebugId,
    Diff,
}

/// Commands of `smap-maps`.
#[derive(Clone, Copy)]
pub struct Commands {
    pub check: bool,
    pub tidy: bool,
    pub flatten: bool,
    pub lint: bool,
    pub repair: bool,
    pub compose: bool,
    pub extract: bool,
    pub comment: bool,
    pub inline: bool,
    pub outline: bool,
    pub contents: bool,
    pub rename: bool,
    pub debug_id: bool,
    pub diff: bool,
}

/// What the value of an option has to be.
#[derive(Clone, Copy)]
pub enum Value {
    /// There is none: the option is a flag.
    Flag,
    /// Any text.
    Text,
    /// The name of a file: any text but an empty one.
    File,
    /// A whole number from 0 up to this one, in decimal digits, which a `+` may precede.
    Number(u64),
    /// One of [`FORMATS`].
    Format,
    /// One of [`SIZES`].
    Sizes,
    /// `KEY=TEXT`, with something before the first `=`.
    Pair,
    /// `KEY=LEVEL`, with something before the first `=` and one of [`LEVELS`] behind it.
    Level,
}

/// The forms of the findings of `smap-maps lint`, and of what `diff` writes, which has some of them and the
/// last one.
pub const FORMATS: [&str; 7] = [
    "text", "gnu", "github", "sarif", "junit", "json", "markdown",
];

/// How much a rule of `smap-maps lint` may count.
pub const LEVELS: [&str; 4] = ["off", "note", "warning", "error"];

/// The forms of the sizes of `smap-view`.
pub const SIZES: [&str; 3] = ["table", "tsv", "json"];

/// An option, with texts of this type. (A contract can name a constant with a `&'static str` in it only if
/// that is a type's argument.)
#[derive(Copy)]
pub struct OptionOf<T> {
    /// The name by which it is looked up.
    pub name: T,
    /// Whether it may be given as `--name`.
    pub long: bool,
    /// The letter by which it may be given.
    pub short: Option<char>,
    /// What its value has to be.
    pub value: Value,
    /// What the help calls its value; empty for a flag.
    pub value_name: T,
    /// What a message says is expected of its value; empty where any text is.
    pub expected: T,
    /// Whether all its uses count, in place of the last alone.
    pub repeats: bool,
    /// The commands of `smap-maps` that have it.
    pub commands: Commands,
    /// What it is for, in a sentence without its full stop.
    pub help: T,
    /// What else the manual page says of it.
    pub details: T,
}

// By hand: the derived one would copy field by field, which takes long to prove.
impl<T: Copy> Clone for OptionOf<T> {
    fn clone(&self) -> Result<Self, AllocError> {
        Ok(*self)
    }
}

/// An option of a program.
pub type OptionRow = OptionOf<&'static str>;

/// No command.
pub(crate) const NO_COMMANDS: Commands = Commands {
    check: false,
    tidy: false,
    flatten: false,
    lint: false,
    repair: false,
    compose: false,
    extract: false,
    comment: false,
    inline: false,
    outline: false,
    contents: false,
    rename: false,
    debug_id: false,
    diff: false,
};

/// All commands.
pub(crate) const ALL_COMMANDS: Commands = Commands {
    check: true,
    tidy: true,
    flatten: true,
    lint: true,
    repair: true,
    compose: true,
    extract: true,
    comment: true,
    inline: true,
    outline: true,
    contents: true,
    rename: true,
    debug_id: true,
    diff: true,
};

/// What most flags have in common.
pub(crate) const FLAG: OptionRow = OptionOf {
    name: "",
    long: true,
    short: None,
    value: Value::Flag,
    value_name: "",
    expected: "",
    repeats: false,
    commands: NO_COMMANDS,
    help: "",
    details: "",
};

/// How many bytes the URLs of a map's sources may take, which all programs ask for.
pub(crate) const URL_BYTES: OptionRow = OptionOf {
    name: "url-bytes",
    value: Value::Number(18_446_744_073_709_551_615),
    value_name: "N",
    expected: "a number of bytes",
    help: "Refuse a map if the URLs of its sources take more than N bytes (default 67108864)",
    details: "A long sourceRoot goes before each source, so a small map may have URLs of gigabytes.",
    ..FLAG
};

/// Whether an option has no value.
pub(crate) fn is_flag(row: &OptionRow) -> bool
    ensures { result ≡ spec.is_flag (spec.row_view row.now) }
{
    matches!(row.value, Value::Flag)
}

impl Commands {
    /// Whether this is one of them.
    pub fn has(self, command: MapsCommand) -> bool
        ensures { result ≡ spec.is_command_of self command }
    {
        match command {
            MapsCommand::Check => self.check,
            MapsCommand::Tidy => self.tidy,
            MapsCommand::Flatten => self.flatten,
            MapsCommand::Lint => self.lint,
            MapsCommand::Repair => self.repair,
            MapsCommand::Compose => self.compose,
            MapsCommand::Extract => self.extract,
            MapsCommand::Comment => self.comment,
            MapsCommand::Inline => self.inline,
            MapsCommand::Outline => self.outline,
            MapsCommand::Contents => self.contents,
            MapsCommand::Rename => self.rename,
            MapsCommand::DebugId => self.debug_id,
            MapsCommand::Diff => self.diff,
        }
    }
}
