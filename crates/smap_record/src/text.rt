//! From bytes to a JSON tree: the prefix line is skipped, and the text after it is parsed.
ghost use Rattle.serde_json.specs.View.{view};
ghost use Rattle.smap_record.specs.declared.fault.Kind.TheVariants.{Prefix, Json};
ghost use Rattle.smap_record.specs.Faults.{or_fault};
ghost use Rattle.smap_record.specs.Reading as spec;
ghost use Rattle.smap_record.specs.Results.{Returns};

use crate::fault::{Kind, ReadError, refused};
use serde_json::Value;
use smap_shape::json_text;
use std::alloc::Global;

/// What follows the prefix line, if the bytes begin with `)]}'`, and else all bytes.
fn after_prefix(bytes: &[u8]) -> Result<&[u8], ReadError>
    ensures { Returns (λ t. t.now) result (or_fault Prefix (spec.json_text bytes.now)) }
{
    match json_text(bytes) {
        Some(text) => Ok(text),
        None => Err(refused(Kind::Prefix)),
    }
}

/// The tree of a JSON text (RFC 8259).
fn tree(alloc: Global, text: &[u8]) -> Result<Value, ReadError>
    ensures { Returns view result (or_fault Json (spec.tree_of text.now)) }
{
    match Value::from_slice(alloc, text) {
        Ok(value) => Ok(value),
        Err(error) => {
            if error.is_memory() {
                Err(ReadError::Memory)
            } else {
                Err(refused(Kind::Json))
            }
        }
    }
}

/// The JSON tree of a map's bytes, of which a first line that begins with `)]}'` is no part.
///
/// # Errors
///
/// `Refused` with `Kind::Prefix` or `Kind::Json`, and `Memory`.
pub fn map_tree(alloc: Global, bytes: &[u8]) -> Result<Value, ReadError>
    ensures { Returns view result (spec.map_tree bytes.now) }
{
    let text = after_prefix(bytes)?;
    match tree(alloc, text) {
        Ok(tree) => Ok(tree),
        Err(error) => Err(error),
    }
}
