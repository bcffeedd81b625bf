//! The sources of a map that are no URLs, and how they are spelled so that they are.
use crate::decoding::string_in;
use crate::edits::Findings;
use crate::maps::MapText;
use crate::places::Place;
use crate::repair::Change;
use crate::scanning::parts;
use crate::spelling::respelled;
use serde_json::Value;
use std::alloc::{AllocError, Global};
use url::Url;

/// The string at this place of a JSON text; none if there is another value.
fn string_at(alloc: Global, text: &[u8], place: Place) -> Result<Option<String>, AllocError> {
    match str::from_utf8(place.bytes(text)) {
        Ok(quoted) => string_in(alloc, quoted),
        Err(_) => Ok(None),
    }
}

/// Adds the repair of the string at this place, if it leads to no URL.
fn add_spelling(
    findings: &mut Findings<'_>,
    base: &Url,
    section: &[usize],
    change: Change,
    place: Place,
) -> Result<(), AllocError> {
    let alloc = findings.alloc;
    let Some(string) = string_at(alloc, findings.text, place)? else {
        return Ok(());
    };
    let Some(spelled) = respelled(alloc, base, string.as_str())? else {
        return Ok(());
    };
    let after = Value::String(spelled).to_string(alloc)?;
    findings.add(section, change, place, after.as_str())
}

/// Whether some of these values is a string.
fn has_string(text: &[u8], values: &[Place]) -> bool {
    values
        .iter()
        .any(|value| value.bytes(text).starts_with(b"\""))
}

/// The root of a map's sources, unless it has none, or an empty one.
fn root_of(alloc: Global, text: &[u8], map: &MapText) -> Result<Option<Place>, AllocError> {
    match map.member(alloc, text, "sourceRoot")? {
        Some(root) if root.bytes(text) != b"\"\"".as_slice() => Ok(Some(root)),
        _ => Ok(None),
    }
}

/// Adds the repairs of the sources of a flat map. Where it has a root, that alone decides which host their
/// URLs have.
pub(crate) fn add_sources(
    findings: &mut Findings<'_>,
    base: &Url,
    map: &MapText,
) -> Result<(), AllocError> {
    let (alloc, text) = (findings.alloc, findings.text);
    let Some(sources) = map.member(alloc, text, "sources")? else {
        return Ok(());
    };
    let sources = parts(alloc, text, sources)?;
    if let Some(root) = root_of(alloc, text, map)? {
        if has_string(text, &sources) {
            add_spelling(findings, base, &map.section, Change::SourceRoot, root)?;
        }
        return Ok(());
    }
    for i in 0..sources.len() {
        add_spelling(findings, base, &map.section, Change::Source(i), sources[i])?;
    }
    Ok(())
}
