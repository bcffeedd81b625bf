//! The range of a fault.
ghost use Rattle.std.specs.Prelude.{◌≡◌, ◌≤◌, Some, None, IfOk, IfSome, length, is_some, true};
ghost use Rattle.serde_json.specs.Data.{depth};
ghost use Rattle.serde_json.specs.Read.{read, max_depth};
ghost use Rattle.serde_json.specs.View.{view};
ghost use Rattle.smap_record.specs.Reading.{tree_of};
ghost use Rattle.smap_fault_places.specs.Faults.{path_of};
ghost use Rattle.smap_fault_places.specs.FaultRanges.{IsPlaced, IsJsonRange, IsFaultRange, IsNoJson};

use crate::fault_path::fault_path;
use crate::json_error::error_range;
use crate::{TextRange, segment_range, there, value_range};
use serde_json::Value;
use smap_record::Fault;
use smap_shape::json_start;
use std::alloc::{AllocError, Global};

/// The range of a fault in a JSON text that has this tree.
fn range_in(
    alloc: Global,
    text: &[u8],
    tree: &Value,
    fault: &Fault,
) -> Result<Option<TextRange>, AllocError>
    requires reads { read text.now ≡ Some (view tree.now) }
    requires nests { depth (view tree.now) ≤ max_depth }
    ensures { IfOk result (λ o. IfSome o
        (IsPlaced text.now (view tree.now) (path_of (view tree.now) fault.now) fault.now.place)) }
{
    let path = fault_path(alloc, tree, fault)?;
    match fault.place {
        Some(place) => segment_range(alloc, text, tree, path.as_slice(), place),
        None => value_range(alloc, text, tree, there(tree, path.as_slice())),
    }
}

/// The range of a fault in a JSON text, or the one where it isn't JSON.
fn json_range(alloc: Global, text: &[u8], fault: &Fault) -> Result<Option<TextRange>, AllocError>
    ensures is { IfOk result (λ o. IfSome o (IsJsonRange text.now fault.now)) }
    ensures told { IfOk result (λ o. tree_of text.now ≡ None → is_some o ≡ true) }
{
    match Value::from_slice(alloc, text) {
        Ok(tree) => range_in(alloc, text, &tree, fault),
        Err(error) => {
            if error.is_memory() {
                Err(AllocError)
            } else {
                Ok(Some(error_range(text, &error)))
            }
        }
    }
}

/// Where in the text of a map the fault is that it is refused for. `text` is the whole text, with the line
/// that begins with `)]}'` if it has one.
///
/// Of a fault in a segment it is the range of the segment, within the quotes of `mappings`. Of any other it
/// is the range of the member's value, with a string's quotes: of a source whose URL is wrong its entry of
/// `sources`, of `sections` beside `mappings` the latter, of a section in the wrong order or that overlaps
/// its `offset`. Of a member that isn't there it is that of the object without it, and so it is where too
/// many sources or names are listed. Of a text that isn't JSON it is the empty range where reading stopped.
/// None where there is no line feed after `)]}'`, or where the text has no such place, as it may where the
/// fault isn't one of this text. A text that isn't JSON always has one, which is proved; that one that is
/// JSON has one for its own fault is tested.
///
/// # Errors
///
/// `AllocError`.
pub fn range_of(alloc: Global, text: &[u8], fault: &Fault) -> Result<Option<TextRange>, AllocError>
    ensures is { IfOk result (λ o. IfSome o (IsFaultRange text.now fault.now)) }
    ensures told { IfOk result (λ o. IsNoJson text.now → is_some o ≡ true) }
{
    let Some(start) = json_start(text) else {
        return Ok(None);
    };
    match json_range(alloc, &text[start..], fault)? {
        Some(range) => Ok(Some(TextRange {
            start: start + range.start,
            end: start + range.end,
        })),
        None => Ok(None),
    }
}
