//! What differs between the maps of two builds, as it is written.
use crate::leading::Leading;
use crate::showing::count_text;
use serde_json::{Value, json};
use smap_system::printable;
use smap_view_page::{json_line, push_cell};
use std::alloc::{AllocError, Global};

/// How it is written.
#[derive(Clone, Copy, PartialEq, Eq)]
pub enum DiffForm {
    Text,
    /// A line of JSON for each map.
    Json,
    /// The rows of a table in Markdown.
    Markdown,
}

/// The form with this name, or text.
pub fn diff_form(name: Option<&str>) -> DiffForm {
    match name {
        Some("json") => DiffForm::Json,
        Some("markdown") => DiffForm::Markdown,
        _ => DiffForm::Text,
    }
}

/// What a map is in two builds.
#[derive(Clone, Copy, PartialEq, Eq)]
pub enum State {
    /// Both mean the same.
    Same,
    Different,
    /// Only the new build has it.
    New,
    /// Only the old build has it.
    Gone,
}

/// A map of two builds.
#[derive(Drop)]
pub struct MapDiff<'a> {
    pub path: &'a str,
    pub state: State,
    /// What differs, in lines.
    pub changes: Vec<String>,
    /// The positions that lead elsewhere, if both builds have it and differ.
    pub leading: Option<Leading>,
}

fn state_name(state: State) -> &'static str {
    match state {
        State::Same => "same",
        State::Different => "different",
        State::New => "new",
        State::Gone => "gone",
    }
}

/// A position as people count.
fn place_text(alloc: Global, place: (u32, u32)) -> Result<String, AllocError> {
    let (line, column) = (u64::from(place.0) + 1, u64::from(place.1) + 1);
    format!(in alloc; "{line}:{column}")
}

/// The line of positions that lead elsewhere.
fn leading_line(alloc: Global, leading: Leading) -> Result<String, AllocError> {
    let Some(first) = leading.first else {
        return String::from_str(alloc, "positions that lead elsewhere: none");
    };
    let count = count_text(alloc, leading.count)?;
    let first = place_text(alloc, first)?;
    let (count, first) = (count.as_str(), first.as_str());
    format!(in alloc; "positions that lead elsewhere: {count}, the first {first}")
}

impl MapDiff<'_> {
    /// Adds a line for the positions that lead elsewhere.
    fn add_leading(&mut self, alloc: Global) -> Result<(), AllocError> {
        if let Some(leading) = self.leading {
            self.changes.push(leading_line(alloc, leading)?)?;
        }
        Ok(())
    }
}

/// Appends a line, as a terminal may have it.
fn push_line(alloc: Global, text: &mut String, line: &str) -> Result<(), AllocError> {
    let line = printable(alloc, line.as_bytes())?;
    text.push_str(line.as_str())?;
    text.push('\n')
}

/// The line of a map that only one build has.
fn single_line(alloc: Global, map: &MapDiff<'_>) -> Result<String, AllocError> {
    let (path, state) = (map.path, state_name(map.state));
    format!(in alloc; "{path} ({state})")
}

/// Appends lines below the name of a map.
fn push_changes(alloc: Global, text: &mut String, changes: &[String]) -> Result<(), AllocError> {
    for change in changes {
        text.push_str("  ")?;
        push_line(alloc, text, change.as_str())?;
    }
    Ok(())
}

/// A map for people; nothing where both mean the same.
fn in_text(alloc: Global, map: &MapDiff<'_>) -> Result<String, AllocError> {
    let mut text = String::new(alloc);
    match map.state {
        State::Same => {}
        State::Different => {
            push_line(alloc, &mut text, map.path)?;
            push_changes(alloc, &mut text, &map.changes)?;
        }
        State::New | State::Gone => {
            let line = single_line(alloc, map)?;
            push_line(alloc, &mut text, line.as_str())?;
        }
    }
    Ok(text)
}

/// Appends a row of a table in Markdown.
fn push_row(
    alloc: Global,
    text: &mut String,
    map: &MapDiff<'_>,
    change: &str,
) -> Result<(), AllocError> {
    let state = state_name(map.state);
    let front = format!(in alloc; "| {state} ")?;
    text.push_str(front.as_str())?;
    push_cell(alloc, text, map.path)?;
    push_cell(alloc, text, change)?;
    text.push_str("|\n")
}

/// Appends a row for each line of a map.
fn push_rows(alloc: Global, text: &mut String, map: &MapDiff<'_>) -> Result<(), AllocError> {
    for change in &map.changes {
        push_row(alloc, text, map, change.as_str())?;
    }
    Ok(())
}

/// A map in rows of a table in Markdown; nothing where both mean the same.
fn in_markdown(alloc: Global, map: &MapDiff<'_>) -> Result<String, AllocError> {
    let mut text = String::new(alloc);
    match map.state {
        State::Same => {}
        State::Different => push_rows(alloc, &mut text, map)?,
        State::New | State::Gone => push_row(alloc, &mut text, map, "")?,
    }
    Ok(text)
}

fn change_values(alloc: Global, changes: &[String]) -> Result<Value, AllocError> {
    let mut values = Vec::with_capacity(alloc, changes.len())?;
    for change in changes {
        let change = String::from_str(alloc, change.as_str())?;
        values.push(Value::String(change))?;
    }
    Ok(Value::Array(values))
}

/// The first position that leads elsewhere as JSON.
fn first_value(alloc: Global, leading: Option<Leading>) -> Result<Value, AllocError> {
    match leading {
        Some(
            Leading {
                first: Some(first),
                ..
            },
        ) => Ok(Value::String(place_text(alloc, first)?)),
        _ => Ok(Value::Null),
    }
}

/// A map as a line of JSON.
fn in_json(alloc: Global, map: &MapDiff<'_>) -> Result<String, AllocError> {
    let changes = change_values(alloc, &map.changes)?;
    let first = first_value(alloc, map.leading)?;
    let elsewhere = match map.leading {
        Some(leading) => leading.count,
        None => 0,
    };
    let status = state_name(map.state);
    let value = json!(in alloc; {
        "changes": changes,
        "elsewhere": elsewhere,
        "first": first,
        "path": map.path,
        "status": status
    })?;
    json_line(alloc, &value)
}

/// What is written of a map.
///
/// # Errors
///
/// `AllocError`.
pub fn map_diff_text(
    alloc: Global,
    form: DiffForm,
    map: &mut MapDiff<'_>,
) -> Result<String, AllocError> {
    if form != DiffForm::Json {
        map.add_leading(alloc)?;
    }
    match form {
        DiffForm::Text => in_text(alloc, map),
        DiffForm::Json => in_json(alloc, map),
        DiffForm::Markdown => in_markdown(alloc, map),
    }
}
