//! A value of a map as a message shows it.
ghost use Rattle.std.specs.Prelude.{IfOk, string_bytes};
ghost use Rattle.serde_json.specs.View.{view};
ghost use Rattle.smap_fault_places.specs.Details.{IsQuoted, IsShown};

use serde_json::Value;
use std::alloc::{AllocError, Global};

/// How many bytes of a string are shown in full, and else how many characters.
const MOST_SHOWN: usize = 100;

/// The beginning of a text.
fn cut(alloc: Global, text: &str) -> Result<String, AllocError> {
    let mut shown = String::new(alloc);
    for c in text.chars().take(MOST_SHOWN) {
        shown.push(c)?;
    }
    shown.push('\u{2026}')?;
    Ok(shown)
}

/// A text as JSON writes it; the beginning of one that is long.
pub(crate) fn quoted(alloc: Global, text: &str) -> Result<String, AllocError>
    ensures { IfOk result (λ t. IsQuoted text.now (string_bytes t)) }
{
    let shown = if text.len() <= MOST_SHOWN {
        String::from_str(alloc, text)?
    } else {
        cut(alloc, text)?
    };
    Value::String(shown).to_string(alloc)
}

/// A value as JSON writes it; of an array or an object that it is one.
pub(crate) fn shown(alloc: Global, value: &Value) -> Result<String, AllocError>
    ensures { IfOk result (λ t. IsShown (view value.now) (string_bytes t)) }
{
    match value {
        Value::String(text) => quoted(alloc, text.as_str()),
        Value::Array(_) => String::from_str(alloc, "an array"),
        Value::Object(_) => String::from_str(alloc, "an object"),
        _ => value.to_string(alloc),
    }
}
