//! `--explain`: why a position becomes that of a source, or stays. What is said is asked of what finds and
//! opens maps for a log, and of what translates its lines.
use crate::agreeing::{Agreement, agreeing};
use crate::spots::{Question, Sighting, Spot, sighted};
use crate::steps::{
    add_end, add_files, add_loaded, add_mapping, add_names, add_script, add_source, add_step,
    choice_words, is_past, shell_word,
};
use smap_chains::{Followed, follow};
use smap_frames::push_position;
use smap_logs::with_prefix;
use smap_map_choice::Found;
use smap_map_files::{How, Loaded, Subject, Wanted, loaded_of, script_read};
use smap_map_finder::Finder;
use smap_record::{OriginalView, SourceMap};
use smap_system::{Disk, Host, Stop, printable};
use smap_trace::{Scripts, line_positions, lookup};
use std::alloc::{AllocError, Global};
use std::sync::Arc;

/// Why a position stays.
#[derive(Clone, Copy, PartialEq, Eq)]
enum Stay {
    NoPosition,
    NoFile,
    /// Files agree with the end of its name, which may not go by that.
    NotByEnd,
    Unclear,
    NotUtf8,
    LeftOut,
    Refused,
    PastEnd,
    NoMapping,
    NoOriginal,
    NoUrl,
}

/// What a position becomes.
#[derive(Drop)]
enum Ending {
    Found(Vec<u8>),
    Stays(Stay),
}

/// An explanation.
#[derive(Drop)]
pub struct Explained {
    pub text: Vec<u8>,
    /// Whether the position becomes that of a source.
    pub is_found: bool,
}

/// Maps are opened without a word.
const QUIET: How = How {
    skip: false,
    verbose: false,
};

fn reason(stay: Stay) -> &'static str {
    match stay {
        Stay::NoPosition =>
            "there is no script with a line and a column, as https://example.org/app.js:1:20",
        Stay::NoFile => "no map is given for this script",
        Stay::NotByEnd => {
            "a name that is neither a URL nor a path goes by its end in frames alone, and never with a colon"
        }
        Stay::Unclear => "it isn't clear which map the script has",
        Stay::NotUtf8 => "the name of the script isn't UTF-8",
        Stay::LeftOut => "the script has no map that can be had",
        Stay::Refused => "the map is refused",
        Stay::PastEnd => "the script ends before the position: of another build?",
        Stay::NoMapping => "the map has no mapping there: of another build?",
        Stay::NoOriginal => "the mapping has no original",
        Stay::NoUrl => "the source has no URL",
    }
}

/// The text of an original, as a translated line has it; none if its source has no URL.
///
/// # Errors
///
/// `AllocError`.
pub fn original_text(
    alloc: Global,
    original: &OriginalView<'_>,
    prefixes: &[(&str, &str)],
) -> Result<Option<Vec<u8>>, AllocError> {
    let Some(url) = original.source.url else {
        return Ok(None);
    };
    let mut text = Vec::new(alloc);
    let (line, column) = (u64::from(original.line), u64::from(original.column));
    push_position(&mut text, url, line + 1, column + 1)?;
    Ok(Some(with_prefix(alloc, prefixes, &text)?))
}

/// What the translated line has for its first position, where its script has this map.
fn translated(
    alloc: Global,
    question: Question<'_>,
    name: &[u8],
    map: SourceMap,
) -> Result<Option<Vec<u8>>, AllocError> {
    let name = Vec::from_slice(alloc, name)?;
    let mut scripts = Scripts::new(alloc);
    let map = Arc::new(alloc, map)?;
    let Ok(()) = scripts.put(name, map) else {
        return Err(AllocError);
    };
    let Ok(positions) = line_positions(alloc, question.text, &scripts, question.mode) else {
        return Err(AllocError);
    };
    let Some(position) = positions.first() else {
        return Ok(None);
    };
    match &position.original {
        Some(original) => original_text(alloc, original, question.prefixes),
        None => Ok(None),
    }
}

/// Adds what a map has for a position, and answers why that stays, if it does.
fn add_lookup(
    alloc: Global,
    map: &SourceMap,
    ends: &Option<Vec<usize>>,
    spot: Spot<'_>,
    steps: &mut Vec<u8>,
) -> Result<Stay, AllocError> {
    add_end(alloc, ends, spot, steps)?;
    let (line, column) = (spot.line.saturating_sub(1), spot.column.saturating_sub(1));
    let (token, _) = lookup(map, line, column);
    add_mapping(alloc, spot, token, steps)?;
    let is_past_end = match ends {
        Some(widths) => is_past(widths, spot),
        None => false,
    };
    let Some(token) = token else {
        return Ok(if is_past_end {
            Stay::PastEnd
        } else {
            Stay::NoMapping
        });
    };
    let Some(original) = token.original else {
        return Ok(if is_past_end {
            Stay::PastEnd
        } else {
            Stay::NoOriginal
        });
    };
    add_source(alloc, &original, steps)?;
    Ok(Stay::NoUrl)
}

/// Adds what a map has for a position, and answers what that becomes.
fn add_position(
    alloc: Global,
    question: Question<'_>,
    spot: Spot<'_>,
    ends: &Option<Vec<usize>>,
    map: SourceMap,
    steps: &mut Vec<u8>,
) -> Result<Ending, AllocError> {
    let stay = add_lookup(alloc, &map, ends, spot, steps)?;
    match translated(alloc, question, spot.name, map)? {
        Some(text) => Ok(Ending::Found(text)),
        None => Ok(Ending::Stays(stay)),
    }
}

/// Adds where the sources of a map lead, and answers the map that goes there.
fn add_chain<D: Disk>(
    alloc: Global,
    disk: &D,
    subject: &Subject<'_>,
    map: SourceMap,
    steps: &mut Vec<u8>,
) -> Result<SourceMap, AllocError> {
    let Followed { map, remarks } = follow(alloc, disk, subject, map)?;
    for remark in &remarks.notes {
        add_step(steps, "chain:   ", remark.as_str())?;
    }
    for remark in &remarks.faults {
        add_step(steps, "chain:   ", remark.as_str())?;
    }
    Ok(map)
}

/// Adds how the map of a place is opened, and what that has for a position.
fn add_map<E: Eprint + AllocGlobal, D: Disk>(
    host: &Host<'_, E, D>,
    question: Question<'_>,
    spot: Spot<'_>,
    subject: &Subject<'_>,
    steps: &mut Vec<u8>,
) -> Result<Ending, Stop> {
    let alloc = host.alloc();
    let read = script_read(host, subject)?;
    add_script(alloc, &read, steps)?;
    let Some((place, loaded)) = loaded_of(host, QUIET, subject)? else {
        return Ok(Ending::Stays(Stay::LeftOut));
    };
    add_loaded(alloc, &place, &loaded, steps)?;
    match loaded {
        Loaded::Map(map) => {
            let map = add_chain(alloc, host.disk, subject, map, steps)?;
            Ok(add_position(alloc, question, spot, &read.ends, map, steps)?)
        }
        Loaded::Mended(map, _repairs) => {
            let map = add_chain(alloc, host.disk, subject, map, steps)?;
            Ok(add_position(alloc, question, spot, &read.ends, map, steps)?)
        }
        Loaded::Broken(_fault) => Ok(Ending::Stays(Stay::Refused)),
    }
}

/// Why a position stays whose name has no file.
fn without_file(found: Found, all: &[Agreement]) -> Stay {
    match found {
        Found::Unclear(_, _) => Stay::Unclear,
        Found::Missing if !all.is_empty() => Stay::NotByEnd,
        Found::Missing | Found::Given(_) | Found::ByEnd(_) => Stay::NoFile,
    }
}

/// Adds which file the name of a position has. Answers why the position stays if that is none.
fn add_choice<E: Eprint + AllocGlobal, D: Disk>(
    alloc: Global,
    finder: &Finder<'_, E, D>,
    wanted: &Wanted<'_>,
    sighting: Sighting<'_>,
    steps: &mut Vec<u8>,
) -> Result<Stay, AllocError> {
    let (name, found) = (sighting.spot.name, sighting.found);
    add_names(alloc, sighting.spot, steps)?;
    let files = finder.names_of_files()?;
    let all = agreeing(alloc, name, &files)?;
    add_files(alloc, wanted, &all, steps)?;
    let words = choice_words(alloc, wanted, &all, found)?;
    add_step(steps, "choice:  ", words.as_str())?;
    Ok(without_file(found, &all))
}

/// The command that comes next for what a place has, in words.
fn next_of(alloc: Global, subject: &Subject<'_>, stay: Stay) -> Result<Option<String>, AllocError> {
    if !matches!(
        stay,
        Stay::LeftOut | Stay::Refused | Stay::PastEnd | Stay::NoMapping
    ) {
        return Ok(None);
    }
    let command = match subject.root {
        Some(root) => {
            let folder = shell_word(alloc, root.path.as_bytes())?;
            let folder = folder.as_str();
            format!(in alloc; "smap-maps lint {folder}")?
        }
        None => {
            let file = shell_word(alloc, &subject.place.file)?;
            let file = file.as_str();
            format!(in alloc; "smap-maps check {file}")?
        }
    };
    Ok(Some(command))
}

/// The same where a name has no file.
fn next_without(
    alloc: Global,
    wanted: &Wanted<'_>,
    sighting: Sighting<'_>,
) -> Result<Option<String>, AllocError> {
    let mut argument = Vec::from_slice(alloc, sighting.spot.name)?;
    argument.push(b'=')?;
    let file = match sighting.found {
        Found::Unclear(first, _) => wanted.files.get(first),
        _ => None,
    };
    match file {
        Some(file) => argument.extend_from_slice(file)?,
        None => argument.extend_from_slice(b"FILE")?,
    }
    let argument = shell_word(alloc, &argument)?;
    let argument = argument.as_str();
    Ok(Some(format!(in alloc; "smap-trace {argument}")?))
}

/// Adds what a position becomes, and the command that comes next.
fn add_ending(
    alloc: Global,
    ending: &Ending,
    next: Option<String>,
    steps: &mut Vec<u8>,
) -> Result<(), AllocError> {
    match ending {
        Ending::Found(text) => {
            let text = printable(alloc, text)?;
            add_step(steps, "result:  ", text.as_str())?;
        }
        Ending::Stays(stay) => add_step(steps, "stays:   ", reason(*stay))?,
    }
    match next {
        Some(next) => add_step(steps, "next:    ", next.as_str()),
        None => Ok(()),
    }
}

/// Adds all steps and the end of those for what is opened.
fn add_opened<E: Eprint + AllocGlobal, D: Disk>(
    host: &Host<'_, E, D>,
    question: Question<'_>,
    spot: Spot<'_>,
    subject: &Subject<'_>,
    steps: &mut Vec<u8>,
) -> Result<bool, Stop> {
    let alloc = host.alloc();
    let ending = add_map(host, question, spot, subject, steps)?;
    let next = match &ending {
        Ending::Found(_) => None,
        Ending::Stays(stay) => next_of(alloc, subject, *stay)?,
    };
    add_ending(alloc, &ending, next, steps)?;
    Ok(matches!(ending, Ending::Found(_)))
}

/// Adds the steps of a position, and answers whether it becomes that of a source.
fn add_steps<E: Eprint + AllocGlobal, D: Disk>(
    host: &Host<'_, E, D>,
    finder: &Finder<'_, E, D>,
    wanted: &Wanted<'_>,
    question: Question<'_>,
    steps: &mut Vec<u8>,
) -> Result<bool, Stop> {
    let alloc = host.alloc();
    let Some(sighting) = sighted(alloc, finder, question)? else {
        add_ending(alloc, &Ending::Stays(Stay::NoPosition), None, steps)?;
        return Ok(false);
    };
    let stay = add_choice(alloc, finder, wanted, sighting, steps)?;
    let spot = sighting.spot;
    if std::str::from_utf8(spot.name).is_err() {
        add_ending(alloc, &Ending::Stays(Stay::NotUtf8), None, steps)?;
        return Ok(false);
    }
    if let Some(subject) = finder.subject_for(spot.name, sighting.found)? {
        return add_opened(host, question, spot, &subject, steps);
    }
    let next = next_without(alloc, wanted, sighting)?;
    add_ending(alloc, &Ending::Stays(stay), next, steps)?;
    Ok(false)
}

/// Why the first position of a line becomes that of a source, or stays, in a line for each step. It ends in
/// the position that it becomes, or in the reason, and the command that comes next.
///
/// # Errors
///
/// `Stop`.
pub fn explain<E: Eprint + AllocGlobal, D: Disk>(
    host: &Host<'_, E, D>,
    finder: &Finder<'_, E, D>,
    wanted: &Wanted<'_>,
    question: Question<'_>,
) -> Result<Explained, Stop> {
    let mut text = Vec::new(host.alloc());
    let is_found = add_steps(host, finder, wanted, question, &mut text)?;
    Ok(Explained { text, is_found })
}
