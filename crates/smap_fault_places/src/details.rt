//! What is wrong where a fault is, in the words after its message.
ghost use Rattle.std.specs.Prelude.{◌≡◌, IfOk, None, option_map, string_bytes};
ghost use Rattle.serde_json.specs.View.{view};
ghost use Rattle.smap_record.specs.declared.fault.Kind.TheVariants as kinds;
ghost use Rattle.smap_fault_places.specs.Faults.{path_of};
ghost use Rattle.smap_fault_places.specs.Paths.{value_at as data_at};
ghost use Rattle.smap_fault_places.specs.Details as spec;
ghost use Rattle.smap_fault_places.specs.Details.{IsDetail, IsJsonDetail, IsMemberDetail, IsValueDetail};

use crate::fault_path::{fault_path, map_path};
use crate::segment_details::segment_detail;
use crate::shown_values::shown;
use crate::starts::{Start, hint, start_of};
use crate::{Point, point_of, value_at};
use serde_json::Value;
use smap_record::{Fault, Kind, ReadError, map_tree};
use smap_shape::json_start;
use std::alloc::{AllocError, Global};

/// Whether a text ends in the middle of what begins as JSON.
fn is_cut_off(alloc: Global, text: &[u8]) -> Result<bool, AllocError> {
    let Some(start) = json_start(text) else {
        return Ok(false);
    };
    match Value::from_slice(alloc, &text[start..]) {
        Ok(_) => Ok(false),
        Err(error) if error.is_memory() => Err(AllocError),
        Err(error) => Ok(error.is_eof()),
    }
}

/// That a text ends too early, here.
fn cut_off(alloc: Global, end: Point) -> Result<String, AllocError>
    ensures { IfOk result (λ t. string_bytes t ≡ spec.cut_off end) }
{
    let Point { line, column } = end;
    format!(in alloc; " (it ends in the middle, at {line}:{column}: cut off?)")
}

/// What a text that isn't JSON is instead, if it shows that.
fn json_detail(alloc: Global, text: &[u8], fault: &Fault) -> Result<String, AllocError>
    requires { fault.now.kind ≡ kinds.Json }
    ensures { IfOk result (λ t. IsJsonDetail text.now (string_bytes t)) }
{
    let start = start_of(text);
    if start == Start::Other && is_cut_off(alloc, text)? {
        return cut_off(alloc, point_of(text, text.len()));
    }
    String::from_str(alloc, hint(fault, start))
}

/// What a member should be, of which a fault of this kind says that it is something else.
fn expected(kind: Kind) -> Option<&'static str>
    ensures { option_map (λ t. t.now) result ≡ spec.expected kind }
{
    match kind {
        Kind::Version => Some("3"),
        Kind::File | Kind::SourceRoot | Kind::Mappings => Some("a string"),
        Kind::Sections => Some("an array"),
        Kind::SectionMap => Some("an object"),
        _ => None,
    }
}

/// What a member is in place of what it should be.
fn member_detail(alloc: Global, value: Option<&Value>, expected: &str) -> Result<String, AllocError>
    ensures { IfOk result (λ t. IsMemberDetail (option_map (λ v. view v.now) value.entry) expected.now
        (string_bytes t)) }
{
    let Some(value) = value else {
        return String::from_str(alloc, " is missing");
    };
    let shown = shown(alloc, value)?;
    let shown = shown.as_str();
    format!(in alloc; " is {shown}, not {expected}")
}

/// What a list of strings, or of strings and nulls, is instead, or its first entry that is neither.
fn list_detail(alloc: Global, kind: Kind, list: &Value) -> Result<String, AllocError> {
    let Value::Array(entries) = list else {
        return member_detail(alloc, Some(list), "an array");
    };
    let has_nulls = kind != Kind::Names;
    let wrong = entries.iter().position(|entry| !entry.is_string()
        && !(has_nulls && entry.is_null()));
    let Some(index) = wrong else {
        return Ok(String::new(alloc));
    };
    let shown = shown(alloc, &entries[index])?;
    let shown = shown.as_str();
    format!(in alloc; ": entry {index} is {shown}, not a string")
}

/// Whether a value is a text that has a space where a URL has its host.
fn has_space_in_host(value: &Value) -> bool {
    let Some((_, rest)) = value.as_str().and_then(|text| text.split_once("://")) else {
        return false;
    };
    rest.bytes()
        .take_while(|b| !matches!(*b, b'/' | b'?' | b'#'))
        .any(|b| b == b' ')
}

/// A source that is no URL, and the root that stands before it, if there is one.
fn source_detail(alloc: Global, map: Option<&Value>, source: &Value) -> Result<String, AllocError> {
    let text = shown(alloc, source)?;
    let text = text.as_str();
    match map.and_then(|map| map.get("sourceRoot")) {
        Some(root) if root.as_str().is_some_and(|root| !root.is_empty()) => {
            let host = if has_space_in_host(root) {
                ", which has a space in its host"
            } else {
                ""
            };
            let root = shown(alloc, root)?;
            let root = root.as_str();
            format!(in alloc; ": {text} below {root}{host}")
        }
        _ if has_space_in_host(source) => format!(in alloc; ": {text} has a space in its host"),
        _ => format!(in alloc; ": {text}"),
    }
}

/// What is wrong with a value of this map.
fn value_detail(
    alloc: Global,
    kind: Kind,
    map: Option<&Value>,
    value: Option<&Value>,
) -> Result<String, AllocError>
    ensures { IfOk result (λ t. IsValueDetail kind (option_map (λ v. view v.now) value.entry)
        (string_bytes t)) }
{
    if let Some(expected) = expected(kind) {
        return member_detail(alloc, value, expected);
    }
    match (kind, value) {
        (Kind::SourceUrl(_) | Kind::UnstableUrl(_), Some(source)) => {
            source_detail(alloc, map, source)
        }
        (Kind::Sources | Kind::SourcesContent | Kind::Names, Some(list)) => {
            list_detail(alloc, kind, list)
        }
        _ => Ok(String::new(alloc)),
    }
}

/// What is wrong in a map with this tree.
fn tree_detail(alloc: Global, tree: &Value, fault: &Fault) -> Result<String, AllocError>
    ensures { IfOk result (λ t. fault.now.place ≡ None → IsValueDetail fault.now.kind
        (data_at (path_of (view tree.now) fault.now) (view tree.now)) (string_bytes t)) }
{
    let path = map_path(alloc, fault.section.numbers())?;
    let map = value_at(tree, path.as_slice());
    let path = fault_path(alloc, tree, fault)?;
    match (fault.place, value_at(tree, path.as_slice())) {
        (None, value) => value_detail(alloc, fault.kind, map, value),
        (Some(place), Some(Value::String(mappings))) => {
            segment_detail(alloc, fault.kind, map, mappings.as_str(), place)
        }
        (Some(_), _) => Ok(String::new(alloc)),
    }
}

/// What is wrong where a fault of the map with these bytes is, in words that follow its message; empty where
/// they would say nothing more. Of a text that isn't JSON it is what that shows at its beginning or end, of a
/// member its value, of a source its text, of an index or a position the number, and of a segment with no
/// such numbers its text. Strings are shown up to a length, as JSON writes them; what a terminal may not have
/// is still in them.
///
/// # Errors
///
/// `AllocError`.
pub fn detail(alloc: Global, text: &[u8], fault: &Fault) -> Result<String, AllocError>
    ensures { IfOk result (λ t. IsDetail text.now fault.now (string_bytes t)) }
{
    if fault.kind == Kind::Json {
        return json_detail(alloc, text, fault);
    }
    match map_tree(alloc, text) {
        Ok(tree) => tree_detail(alloc, &tree, fault),
        Err(ReadError::Memory) => Err(AllocError),
        Err(ReadError::Refused(_)) => Ok(String::new(alloc)),
    }
}
