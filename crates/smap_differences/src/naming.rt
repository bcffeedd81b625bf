//! How a member's name is shown.
ghost use Rattle.std.specs.Prelude.{◌≡◌, IfOk, string_bytes};
ghost use Rattle.smap_differences.specs.Naming as spec;

use serde_json::Value;
use std::alloc::{AllocError, Global};

/// The most bytes of a name that are shown.
const MOST_SHOWN: usize = 100;

/// A text up to its last character that ends within so many bytes.
pub fn cut(text: &str, most: usize) -> &str
    ensures { result.now ≡ spec.cut text.now most }
{
    let (front, _) = text.split_at(text.floor_char_boundary(most));
    front
}

/// A text as JSON has it.
///
/// # Errors
///
/// `AllocError`.
pub fn json(alloc: Global, text: &str) -> Result<String, AllocError>
    ensures { IfOk result (λ t. string_bytes t ≡ spec.json text.now) }
{
    let value = Value::String(String::from_str(alloc, text)?);
    let json = value.to_string(alloc)?;
    Ok(json)
}

/// A text without its first byte and its last one, which are characters.
fn inside(alloc: Global, text: &str) -> Result<String, AllocError>
    ensures { IfOk result (λ t. string_bytes t ≡ spec.inside text.now) }
{
    let Some(text) = text.get(1..text.len().saturating_sub(1)) else {
        return Err(AllocError);
    };
    String::from_str(alloc, text)
}

/// A text as JSON has it, without the quotation marks.
///
/// # Errors
///
/// `AllocError`.
pub fn bare_json(alloc: Global, text: &str) -> Result<String, AllocError>
    ensures { IfOk result (λ t. string_bytes t ≡ spec.bare_json text.now) }
{
    let json = json(alloc, text)?;
    inside(alloc, json.as_str())
}

/// A member's name as JSON writes it, without its quotes, and cut behind 100 bytes, where that may be within
/// an escape.
///
/// # Errors
///
/// `AllocError`.
pub fn shown_name(alloc: Global, name: &str) -> Result<String, AllocError>
    ensures { IfOk result (λ t. string_bytes t ≡ spec.shown_name name.now) }
{
    let json = bare_json(alloc, cut(name, MOST_SHOWN))?;
    String::from_str(alloc, cut(json.as_str(), MOST_SHOWN))
}
