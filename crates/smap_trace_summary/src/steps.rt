//! The words of an explanation, step by step.
ghost use Rattle.std.specs.Prelude.{◌≡◌, ◌++◌, ◌∷◌, [], OnOk};
ghost use Rattle.smap_system.specs.Printing.{printable as printed};

use crate::agreeing::{Agreement, Cause, cause_of};
use crate::spots::Spot;
use smap_link::normal_form;
use smap_logs::add_context;
use smap_map_choice::{Found, Place};
use smap_map_files::{Followed, Loaded, MapFault, ScriptRead, Wanted, fault_words, may_name_map};
use smap_mappings::is_within;
use smap_record::{OriginalView, TokenView};
use smap_system::printable;
use std::alloc::{AllocError, Global};

/// So many files are named at most.
const MOST_FILES: usize = 5;

/// What stands before the words of a step, or of a further line of one.
const FURTHER: &str = "         ";

/// Adds a line: what it is about, and words, as a terminal may have them.
pub(crate) fn add_step(steps: &mut Vec<u8>, label: &str, words: &str) -> Result<(), AllocError>
    ensures { OnOk result (steps.new.items ≡ steps.old.items ++ label.now ++ printed words.now ++ 10 ∷ []) }
{
    let words = printable(*steps.allocator(), words.as_bytes())?;
    steps.extend_from_slice(label.as_bytes())?;
    steps.extend_from_slice(words.as_bytes())?;
    steps.extend_from_slice(b"\n")
}

/// Whether a shell takes a byte of a word for itself alone.
fn is_plain(byte: u8) -> bool {
    byte.is_ascii_alphanumeric() || byte >= 128 || b"-._/:@%+,=".contains(&byte)
}

/// A text as a word of a shell's command.
pub(crate) fn shell_word(alloc: Global, text: &[u8]) -> Result<String, AllocError> {
    let text = printable(alloc, text)?;
    if text.as_bytes().iter().all(|byte| is_plain(*byte)) {
        return Ok(text);
    }
    let mut word = String::from_str(alloc, "'")?;
    for c in text.chars() {
        if c == '\'' {
            word.push_str("'\\''")?;
        } else {
            word.push(c)?;
        }
    }
    word.push('\'')?;
    Ok(word)
}

/// Adds the position that is explained, and the name of its script as it is and in its normal form.
pub(crate) fn add_names(
    alloc: Global,
    spot: Spot<'_>,
    steps: &mut Vec<u8>,
) -> Result<(), AllocError> {
    let (line, column) = (spot.line, spot.column);
    let place = format!(in alloc; "line {line}, column {column}")?;
    add_step(steps, "asked:   ", place.as_str())?;
    let name = printable(alloc, spot.name)?;
    add_step(steps, "name:    ", name.as_str())?;
    let form = printable(alloc, &normal_form(alloc, spot.name)?)?;
    add_step(steps, "form:    ", form.as_str())
}

/// The name of the file with this number of those that go by the ends of their names, as it is printed.
fn file_text(alloc: Global, wanted: &Wanted<'_>, file: usize) -> Result<String, AllocError> {
    match wanted.files.get(file) {
        Some(file) => printable(alloc, file),
        None => Ok(String::new(alloc)),
    }
}

/// How much a file agrees, in words.
fn agreeing_words(
    alloc: Global,
    wanted: &Wanted<'_>,
    agreeing: Agreement,
) -> Result<String, AllocError> {
    let file = file_text(alloc, wanted, agreeing.file)?;
    let (file, count) = (file.as_str(), agreeing.segments);
    if count == 1 {
        return format!(in alloc; "{file} agrees in the last segment");
    }
    format!(in alloc; "{file} agrees in {count} segments")
}

/// Adds the files that agree with the end of the name, if one may.
pub(crate) fn add_files(
    alloc: Global,
    wanted: &Wanted<'_>,
    all: &[Agreement],
    steps: &mut Vec<u8>,
) -> Result<(), AllocError> {
    if wanted.files.is_empty() {
        return Ok(());
    }
    if all.is_empty() {
        return add_step(steps, "files:   ", "none agrees with the end of the name");
    }
    for (number, agreeing) in all.iter().take(MOST_FILES).enumerate() {
        let words = agreeing_words(alloc, wanted, *agreeing)?;
        let label = if number == 0 { "files:   " } else { FURTHER };
        add_step(steps, label, words.as_str())?;
    }
    let more = all.len().saturating_sub(MOST_FILES);
    if more > 0 {
        let words = format!(in alloc; "and {more} more")?;
        add_step(steps, FURTHER, words.as_str())?;
    }
    Ok(())
}

fn cause_words(cause: Cause) -> &'static str {
    match cause {
        Cause::Most => "which agrees in most segments",
        Cause::OfEqual => {
            "which counts of those that agree in as many: the nearest, a map before a script, one of copies"
        }
        Cause::OfFewer => "since the scripts that agree in more have no map",
    }
}

/// What a name has, in words.
pub(crate) fn choice_words(
    alloc: Global,
    wanted: &Wanted<'_>,
    all: &[Agreement],
    found: Found,
) -> Result<String, AllocError> {
    match found {
        Found::Given(i) => match wanted.places.get(i) {
            Some(place) => given_words(alloc, place),
            None => Ok(String::new(alloc)),
        },
        Found::ByEnd(i) => {
            let file = file_text(alloc, wanted, i)?;
            let (file, cause) = (file.as_str(), cause_words(cause_of(all, i)));
            format!(in alloc; "{file}, {cause}")
        }
        Found::Unclear(i, j) => {
            let (first, second) = (file_text(alloc, wanted, i)?, file_text(alloc, wanted, j)?);
            let (first, second) = (first.as_str(), second.as_str());
            format!(in alloc; "none, since {first} and {second} agree equally")
        }
        Found::Missing => String::from_str(alloc, "none"),
    }
}

fn given_words(alloc: Global, place: &Place) -> Result<String, AllocError> {
    let (file, script) = (
        printable(alloc, &place.file)?,
        printable(alloc, &place.script)?,
    );
    let (file, script) = (file.as_str(), script.as_str());
    format!(in alloc; "{file}, which is given for {script}")
}

/// What the script with this name says of its map, in words.
fn followed_words(
    alloc: Global,
    file: &str,
    followed: &Option<Followed>,
) -> Result<String, AllocError> {
    match followed {
        None => format!(in alloc; "{file} isn't there, or can't be read"),
        Some(Followed::Nothing) => format!(in alloc; "{file} names no map"),
        Some(Followed::Inline(_)) => format!(in alloc; "{file} holds its map"),
        Some(Followed::File(place)) => {
            let named = printable(alloc, &place.file)?;
            let named = named.as_str();
            format!(in alloc; "{file} names {named}")
        }
        Some(Followed::Wrong(what)) => {
            let what = what.as_str();
            format!(in alloc; "{file} {what}")
        }
    }
}

/// Adds what the script says of its map, if it may be one that names its map.
pub(crate) fn add_script(
    alloc: Global,
    read: &ScriptRead,
    steps: &mut Vec<u8>,
) -> Result<(), AllocError> {
    if !may_name_map(&read.file) {
        return Ok(());
    }
    let file = printable(alloc, &read.file)?;
    let words = followed_words(alloc, file.as_str(), &read.followed)?;
    add_step(steps, "script:  ", words.as_str())
}

/// Why a map is refused whose mended text is read, in words, and the command that mends its file.
fn mended_words(alloc: Global, place: &Place, fault: &MapFault) -> Result<String, AllocError> {
    let words = fault_words(alloc, place, fault)?;
    let words = words.as_str();
    if may_name_map(&place.file) {
        return format!(in alloc; "{words}; its mended text is read");
    }
    let file = shell_word(alloc, &place.file)?;
    let file = file.as_str();
    format!(in alloc;
        "{words}; its mended text is read (smap-maps repair --write {file} mends the file)"
    )
}

/// What became of the map in a file, in words.
fn loaded_words(alloc: Global, place: &Place, loaded: &Loaded) -> Result<String, AllocError> {
    let file = printable(alloc, &place.file)?;
    let file = file.as_str();
    match loaded {
        Loaded::Map(_) => {
            let base = printable(alloc, &place.base)?;
            let base = base.as_str();
            format!(in alloc; "{file} is read, with the URL {base}")
        }
        Loaded::Mended(_, fault) => {
            let words = mended_words(alloc, place, fault)?;
            let words = words.as_str();
            format!(in alloc; "{file} is refused: {words}")
        }
        Loaded::Broken(fault) => {
            let words = fault_words(alloc, place, fault)?;
            let words = words.as_str();
            format!(in alloc; "{file} is refused: {words}")
        }
    }
}

/// Adds which map is opened, or why it is refused.
pub(crate) fn add_loaded(
    alloc: Global,
    place: &Place,
    loaded: &Loaded,
    steps: &mut Vec<u8>,
) -> Result<(), AllocError> {
    let words = loaded_words(alloc, place, loaded)?;
    add_step(steps, "map:     ", words.as_str())
}

/// Where the lines of a script end at a position, in words.
fn end_words(alloc: Global, widths: &[usize], spot: Spot<'_>) -> Result<String, AllocError> {
    let (count, line) = (widths.len(), spot.line);
    let Some(width) = widths.get((line as usize).saturating_sub(1)) else {
        return format!(in alloc; "the script ends on line {count}, before the position");
    };
    let last = (*width).saturating_add(1);
    let before = if is_past(widths, spot) {
        ", before the position"
    } else {
        ""
    };
    format!(in alloc; "line {line} of the script ends at column {last}{before}")
}

/// Whether a position is past the end of a script, or of its line.
pub(crate) fn is_past(widths: &[usize], spot: Spot<'_>) -> bool {
    !is_within(
        widths,
        spot.line.saturating_sub(1),
        spot.column.saturating_sub(1),
    )
}

/// Adds where the script ends, if its map ends there.
pub(crate) fn add_end(
    alloc: Global,
    ends: &Option<Vec<usize>>,
    spot: Spot<'_>,
    steps: &mut Vec<u8>,
) -> Result<(), AllocError> {
    let Some(widths) = ends else {
        return Ok(());
    };
    let words = end_words(alloc, widths, spot)?;
    add_step(steps, "lines:   ", words.as_str())
}

/// The mapping of a position, in words.
fn mapping_words(
    alloc: Global,
    spot: Spot<'_>,
    token: Option<TokenView<'_>>,
) -> Result<String, AllocError> {
    let (line, column) = (spot.line, spot.column);
    let (row, place) = (line.saturating_sub(1), column.saturating_sub(1));
    let Some(token) = token else {
        return format!(in alloc;
            "none on line {line} up to column {column}, which the map counts as {row}:{place}"
        );
    };
    let (from_row, from) = (token.line, token.column);
    let (from_line, from_column) = (u64::from(from_row) + 1, u64::from(from) + 1);
    format!(in alloc;
        "line {from_line}, column {from_column}: the map counts {from_row}:{from}, for {row}:{place}"
    )
}

/// Adds the mapping of a position.
pub(crate) fn add_mapping(
    alloc: Global,
    spot: Spot<'_>,
    token: Option<TokenView<'_>>,
    steps: &mut Vec<u8>,
) -> Result<(), AllocError> {
    let words = mapping_words(alloc, spot, token)?;
    add_step(steps, "mapping: ", words.as_str())
}

/// The original of a position, in words.
fn source_words(alloc: Global, original: &OriginalView<'_>) -> Result<String, AllocError> {
    let (row, place) = (original.line, original.column);
    let (line, column) = (u64::from(row) + 1, u64::from(place) + 1);
    let url = printable(
        alloc,
        original
            .source
            .url
            .unwrap_or("one without a URL")
            .as_bytes(),
    )?;
    let url = url.as_str();
    let ignored = if original.source.ignored {
        ", in the ignore list"
    } else {
        ""
    };
    format!(in alloc; "{url}, line {line}, column {column}{ignored}")
}

/// Adds the original of a position, and its line in the source's text.
pub(crate) fn add_source(
    alloc: Global,
    original: &OriginalView<'_>,
    steps: &mut Vec<u8>,
) -> Result<(), AllocError> {
    let words = source_words(alloc, original)?;
    add_step(steps, "source:  ", words.as_str())?;
    let Some(content) = original.source.content else {
        return add_step(steps, FURTHER, "its text isn't in the map");
    };
    let (line, column) = (
        original.line.saturating_add(1),
        original.column.saturating_add(1),
    );
    let before = steps.len();
    add_context(content, line, column, 0, steps)?;
    if steps.len() == before {
        return add_step(steps, FURTHER, "its text in the map has no such line");
    }
    Ok(())
}
