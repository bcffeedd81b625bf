//! Options that a command doesn't have, and those that don't go together.
ghost use Rattle.std.specs.Prelude.{◌≡◌, option_map};
ghost use Rattle.std.specs.Option.{option_or};
ghost use Rattle.smap_command_line.specs.Clashes as spec;
ghost use Rattle.smap_command_line.specs.Lookups.{rows_in};
ghost use Rattle.smap_command_line.specs.Rows.{row_view, rows_view};

use crate::lookups::Options;
use crate::rows::{MapsCommand, OptionRow, is_flag};

/// Options that don't go together, or that a command can't do without.
#[derive(Clone, Copy, PartialEq, Eq)]
pub enum Clash {
    /// `--write` and `--diff` exclude each other.
    WriteDiff,
    /// `--relative` and `--absolute` exclude each other.
    RelativeAbsolute,
    /// `--json` and `--diff` exclude each other.
    JsonDiff,
    /// `--drop` is given without `--write`.
    DropAlone,
    /// `--set` and `--remove` exclude each other.
    SetRemove,
    /// `extract` has no `--output`.
    NoOutput,
    /// `comment` has neither `--set` nor `--remove`.
    NoComment,
    /// `--add` and `--drop` exclude each other.
    AddDrop,
    /// `contents` has neither `--add` nor `--drop`.
    NoContents,
    /// `--source-prefix` and `--strip-common` exclude each other.
    PrefixStrip,
    /// `rename` has neither `--source-prefix` nor `--strip-common`.
    NoRename,
    /// `diff` has another number of paths than two.
    NotTwo,
    /// `--format` is none of those of `diff`.
    DiffFormat,
    /// `--format` is none of those of `lint`.
    LintFormat,
}

/// Whether an option is given.
fn is_given(options: &Options<'_>, row: &OptionRow) -> bool
    ensures { result ≡ spec.is_given (rows_in options.now) (row_view row.now) }
{
    if is_flag(row) {
        options.has(row.name)
    } else {
        options.text(row.name).is_some()
    }
}

/// Whether an option is given that the command doesn't have.
fn is_foreign(options: &Options<'_>, command: MapsCommand, row: &OptionRow) -> bool
    ensures { result ≡ spec.is_foreign (rows_in options.now) command (row_view row.now) }
{
    !row.commands.has(command) && is_given(options, row)
}

/// The first option that is given and that the command doesn't have.
pub(crate) fn foreign_option(
    options: &Options<'_>,
    command: MapsCommand,
    rows: &[OptionRow],
) -> Option<OptionRow>
    ensures { option_map row_view result
        ≡ spec.foreign_option (rows_in options.now) command (rows_view rows.now) }
{
    for i in 0..rows.len() {
        if is_foreign(options, command, &rows[i]) {
            return Some(rows[i]);
        }
    }
    None
}

/// Whether an option with a value is given.
fn has_value(options: &Options<'_>, name: &str) -> bool
    ensures { result ≡ spec.has_value name.now (rows_in options.now) }
{
    options.text(name).is_some()
}

/// Which flags exclude each other.
fn excluded_flags(options: &Options<'_>) -> Option<Clash>
    ensures { result ≡ spec.excluded_flags (rows_in options.now) }
{
    if options.has("diff") && options.has("write") {
        Some(Clash::WriteDiff)
    } else if options.has("relative") && options.has("absolute") {
        Some(Clash::RelativeAbsolute)
    } else if options.has("json") && options.has("diff") {
        Some(Clash::JsonDiff)
    } else {
        None
    }
}

/// Which ways to change scripts and maps exclude each other.
fn excluded_ways(options: &Options<'_>) -> Option<Clash>
    ensures { result ≡ spec.excluded_ways (rows_in options.now) }
{
    if has_value(options, "set") && options.has("remove") {
        Some(Clash::SetRemove)
    } else if options.has("add") && options.has("drop") {
        Some(Clash::AddDrop)
    } else if has_value(options, "source-prefix") && options.has("strip-common") {
        Some(Clash::PrefixStrip)
    } else {
        None
    }
}

/// This, unless the test holds.
fn unless(test: bool, clash: Clash) -> Option<Clash>
    ensures { result ≡ spec.unless test clash }
{
    if test { None } else { Some(clash) }
}

/// Whether reports are to have this form.
fn has_format(options: &Options<'_>, name: &str) -> bool
    ensures { result ≡ spec.has_format name.now (rows_in options.now) }
{
    match options.text("format") {
        Some(text) => text == name,
        None => false,
    }
}

/// Whether there are a command and two paths.
fn has_two(options: &Options<'_>) -> bool
    ensures { result ≡ spec.has_two (rows_in options.now) }
{
    match options.uses("argument") {
        Some(texts) => texts.len() == 3,
        None => false,
    }
}

/// What `diff` can't do without, or can't have.
fn lacking_diff(options: &Options<'_>) -> Option<Clash>
    ensures { result ≡ spec.lacking_diff (rows_in options.now) }
{
    if !has_two(options) {
        Some(Clash::NotTwo)
    } else if !has_value(options, "format")
        || has_format(options, "text")
        || has_format(options, "json")
        || has_format(options, "markdown")
    {
        None
    } else {
        Some(Clash::DiffFormat)
    }
}

/// What the command can't do without, or can't have.
fn lacking(options: &Options<'_>, command: MapsCommand) -> Option<Clash>
    ensures { result ≡ spec.lacking (rows_in options.now) command }
{
    match command {
        MapsCommand::Tidy | MapsCommand::Flatten | MapsCommand::Compose => {
            let is_fine = !options.has("drop") || options.has("write");
            unless(is_fine, Clash::DropAlone)
        }
        MapsCommand::Contents => {
            let is_said = options.has("add") || options.has("drop");
            unless(is_said, Clash::NoContents)
        }
        MapsCommand::Rename => {
            let is_said = has_value(options, "source-prefix") || options.has("strip-common");
            unless(is_said, Clash::NoRename)
        }
        MapsCommand::Extract => unless(has_value(options, "output"), Clash::NoOutput),
        MapsCommand::Comment => {
            let is_said = has_value(options, "set") || options.has("remove");
            unless(is_said, Clash::NoComment)
        }
        MapsCommand::Diff => lacking_diff(options),
        MapsCommand::Lint => unless(!has_format(options, "markdown"), Clash::LintFormat),
        _ => None,
    }
}

/// This clash, or else the other.
fn first(one: Option<Clash>, other: Option<Clash>) -> Option<Clash>
    ensures { result ≡ option_or one other }
{
    match one {
        Some(clash) => Some(clash),
        None => other,
    }
}

/// Which options don't go together, or which the command can't do without.
pub(crate) fn clash_of(options: &Options<'_>, command: MapsCommand) -> Option<Clash>
    ensures { result ≡ spec.clash (rows_in options.now) command }
{
    let excluded = first(excluded_flags(options), excluded_ways(options));
    first(excluded, lacking(options, command))
}
