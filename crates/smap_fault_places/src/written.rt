//! Where a value is written.
ghost use Rattle.std.specs.Prelude.{◌≡◌, ◌≤◌, Some, IfOk, IfSome};
ghost use Rattle.serde_json.specs.Data.{depth};
ghost use Rattle.serde_json.specs.Read.{read, max_depth};
ghost use Rattle.serde_json.specs.View.{view};
ghost use Rattle.smap_fault_places.specs.Written.{IsWritten};

use crate::place::place;
use crate::range::TextRange;
use crate::step::Step;
use crate::walk::value_at;
use serde_json::Value;
use std::alloc::{AllocError, Global};

/// Where in a JSON text the value at a path is written: from its first byte to its last one, with a string's
/// quotes and an array's or object's brackets. `tree` is what the text reads as. None if there is no value at
/// the path.
///
/// # Errors
///
/// `AllocError`.
pub fn value_range(
    alloc: Global,
    text: &[u8],
    tree: &Value,
    path: &[Step],
) -> Result<Option<TextRange>, AllocError>
    requires reads { read text.now ≡ Some (view tree.now) }
    requires nests { depth (view tree.now) ≤ max_depth }
    ensures { IfOk result (λ o. IfSome o (λ r. IsWritten text.now path.now r)) }
{
    if value_at(tree, path).is_none() {
        return Ok(None);
    }
    place(alloc, text, path)
}
