//! The string that a JSON text is.
ghost use Rattle.std.specs.Prelude.{◌≡◌, IfOk, option_map, string_bytes};
ghost use Rattle.smap_repair.specs.Listed as spec;

use crate::hosts::same_but_hosts;
use serde_json::Value;
use std::alloc::{AllocError, Global};

/// The string that a JSON text is; none if it is something else.
pub(crate) fn string_in(alloc: Global, text: &str) -> Result<Option<String>, AllocError>
    ensures { IfOk result (λ s. option_map string_bytes s ≡ spec.string_in text.now) }
{
    match Value::from_str(alloc, text) {
        Ok(Value::String(string)) => Ok(Some(string)),
        Ok(_) => Ok(None),
        Err(error) => {
            if error.is_memory() {
                Err(AllocError)
            } else {
                Ok(None)
            }
        }
    }
}

/// Whether both are JSON strings, and the same but for percent escapes in their hosts.
pub(crate) fn is_respelled(alloc: Global, before: &str, after: &str) -> Result<bool, AllocError>
    ensures { IfOk result (λ same. same ≡ spec.is_respelled before.now after.now) }
{
    let before = string_in(alloc, before)?;
    let after = string_in(alloc, after)?;
    match (before, after) {
        (Some(before), Some(after)) => {
            same_but_hosts(alloc, before.as_bytes(), after.as_bytes())
        }
        _ => Ok(false),
    }
}
