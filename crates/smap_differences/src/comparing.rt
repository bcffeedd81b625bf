//! The members of a map before and after a rewrite.
ghost use Rattle.std.specs.Prelude.{◌≡◌, ◌++◌, IfOk, OnOk, map, option_map, string_bytes};
ghost use Rattle.serde_json.specs.View.{view};
ghost use Rattle.smap_differences.specs.Changes as spec;

use crate::entries::list_change;
use crate::showing::{byte_counts, entry_counts, line_of, size_of, text_change};
use serde_json::{Map, Value};
use std::alloc::{AllocError, Global};

/// What both have in common is no change.
const NO_MEMBER: &str = "the same members and values, written otherwise";

/// Whether the texts of a list are named.
fn names_texts(name: &str) -> bool
    ensures { result ≡ spec.is_list_of_texts name.now }
{
    matches!(name, "sources" | "names")
}

/// How an array becomes another.
fn array_change(
    alloc: Global,
    name: &str,
    before: &[Value],
    now: &[Value],
) -> Result<String, AllocError>
    ensures { IfOk result (λ t. string_bytes t
        ≡ spec.array_change name.now (map view before.now) (map view now.now)) }
{
    if names_texts(name) {
        return list_change(alloc, before, now);
    }
    let counts = entry_counts(alloc, before.len(), now.len())?;
    let counts = counts.as_str();
    format!(in alloc; "{counts}, other ones")
}

/// How a string becomes another.
fn string_change(alloc: Global, name: &str, before: &str, now: &str) -> Result<String, AllocError>
    ensures { IfOk result (λ t. string_bytes t ≡ spec.string_change name.now before.now now.now) }
{
    if name == "mappings" {
        return byte_counts(alloc, before.len(), now.len());
    }
    text_change(alloc, before, now)
}

/// How a value that isn't an array in both becomes another.
fn other_change(
    alloc: Global,
    name: &str,
    before: &Value,
    now: &Value,
) -> Result<String, AllocError>
    ensures { IfOk result
        (λ t. string_bytes t ≡ spec.other_change name.now (view before.now) (view now.now)) }
{
    match (before.as_str(), now.as_str()) {
        (Some(before), Some(now)) => string_change(alloc, name, before, now),
        _ => String::from_str(alloc, "another value"),
    }
}

/// How a value becomes another.
fn value_change(
    alloc: Global,
    name: &str,
    before: &Value,
    now: &Value,
) -> Result<String, AllocError>
    ensures { IfOk result
        (λ t. string_bytes t ≡ spec.value_change name.now (view before.now) (view now.now)) }
{
    match (before.as_array(), now.as_array()) {
        (Some(before), Some(now)) => array_change(alloc, name, before, now),
        _ => other_change(alloc, name, before, now),
    }
}

/// The members of an object.
fn object_of(tree: &Value) -> Option<&Map<String, Value>>
    ensures { option_map (λ m. m.now) result ≡ spec.object_of tree.now }
{
    match tree {
        Value::Object(members) => Some(members),
        _ => None,
    }
}

/// The value of a member.
fn member<'v>(tree: &'v Value, name: &str) -> Option<&'v Value>
    ensures { option_map (λ v. v.now) result ≡ spec.member tree.now name.now }
{
    match object_of(tree) {
        Some(members) => members.get(name),
        None => None,
    }
}

/// The line of a member that is another.
fn changed_line(
    alloc: Global,
    name: &str,
    before: &Value,
    now: &Value,
) -> Result<String, AllocError>
    ensures { IfOk result (λ t. string_bytes t ≡ spec.changed name.now before.now now.now) }
{
    let change = value_change(alloc, name, before, now)?;
    line_of(alloc, name, change.as_str())
}

/// The line of a member that only one of the maps has, with what it is.
fn single_line(alloc: Global, word: &str, name: &str, value: &Value) -> Result<String, AllocError>
    ensures { IfOk result (λ t. string_bytes t ≡ spec.single word.now name.now value.now) }
{
    let size = size_of(alloc, value)?;
    let size = size.as_str();
    let change = format!(in alloc; "{word}{size}")?;
    line_of(alloc, name, change.as_str())
}

/// Appends what becomes of a member of the map as it was, if it isn't the same.
fn push_old(
    alloc: Global,
    name: &str,
    before: &Value,
    after: &Value,
    lines: &mut Vec<String>,
) -> Result<(), AllocError>
    ensures { OnOk result (map string_bytes lines.new.items ≡ map string_bytes lines.old.items
        ++ spec.old_change name.now before.now (spec.member after.now name.now)) }
{
    match member(after, name) {
        Some(now) => {
            if now != before {
                let line = changed_line(alloc, name, before, now)?;
                lines.push(line)?;
            }
        }
        None => {
            let line = single_line(alloc, "dropped", name, before)?;
            lines.push(line)?;
        }
    }
    Ok(())
}

/// Appends the line of a member of the new map, if only that has it.
fn push_new(
    alloc: Global,
    name: &str,
    now: &Value,
    before: &Value,
    lines: &mut Vec<String>,
) -> Result<(), AllocError>
    ensures { OnOk result (map string_bytes lines.new.items ≡ map string_bytes lines.old.items
        ++ spec.new_change name.now now.now (spec.member before.now name.now)) }
{
    if member(before, name).is_none() {
        let line = single_line(alloc, "added", name, now)?;
        lines.push(line)?;
    }
    Ok(())
}

/// Appends the lines of the members of the map as it was.
fn push_old_lines(
    alloc: Global,
    before: &Value,
    after: &Value,
    lines: &mut Vec<String>,
) -> Result<(), AllocError>
    ensures { OnOk result (map string_bytes lines.new.items ≡ map string_bytes lines.old.items
        ++ spec.old_lines before.now after.now) }
{
    let Some(members) = object_of(before) else {
        return Ok(());
    };
    for (name, value) in members.iter() {
        push_old(alloc, name.as_str(), value, after, lines)?;
    }
    Ok(())
}

/// Appends the lines of the members that only the new map has.
fn push_new_lines(
    alloc: Global,
    before: &Value,
    after: &Value,
    lines: &mut Vec<String>,
) -> Result<(), AllocError>
    ensures { OnOk result (map string_bytes lines.new.items ≡ map string_bytes lines.old.items
        ++ spec.new_lines before.now after.now) }
{
    let Some(members) = object_of(after) else {
        return Ok(());
    };
    for (name, value) in members.iter() {
        push_new(alloc, name.as_str(), value, before, lines)?;
    }
    Ok(())
}

/// The lines of members, or the one line that no member is another.
fn or_none(alloc: Global, lines: &mut Vec<String>) -> Result<(), AllocError>
    ensures { OnOk result
        (map string_bytes lines.new.items ≡ spec.or_none (map string_bytes lines.old.items)) }
{
    if lines.is_empty() {
        lines.push(String::from_str(alloc, NO_MEMBER)?)?;
    }
    Ok(())
}

/// What changes of a map, a line for each member of its top level that isn't the same: first those that the
/// map has, and then those that are new, each in byte order of the names. There is one line at least.
///
/// # Errors
///
/// `AllocError`.
pub fn changes(alloc: Global, before: &Value, after: &Value) -> Result<Vec<String>, AllocError>
    ensures { IfOk result (λ lines. map string_bytes lines.items ≡ spec.lines before.now after.now) }
{
    let mut lines = Vec::new(alloc);
    push_old_lines(alloc, before, after, &mut lines)?;
    push_new_lines(alloc, before, after, &mut lines)?;
    or_none(alloc, &mut lines)?;
    Ok(lines)
}
