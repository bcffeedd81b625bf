//! Finding the text of a value step by step. Each step is tried before the next one.
ghost use Rattle.std.specs.Prelude.{◌≡◌, ◌≤◌, ◌+◌, ℕ, Some, true, IfOk, IfSome, is_some};
ghost use Rattle.serde_json.specs.Read.{read, max_depth};
ghost use Rattle.smap_fault_places.specs.Paths.{child, value_at};
ghost use Rattle.smap_fault_places.specs.Contexts.{IsPart, IsPlace};

use crate::part::{is_blank, is_item, is_member};
use crate::passing::is_text;
use crate::range::TextRange;
use crate::scan::{child_range, root_range};
use crate::step::Step;
use std::alloc::{AllocError, Global};

/// How deep arrays and objects may nest.
const MAX_DEPTH: usize = 127;

/// Where in the text of a value is what a step leads to.
fn child_place(
    alloc: Global,
    text: &[u8],
    step: Step,
    depth: usize,
) -> Result<Option<TextRange>, AllocError>
    ensures { IfOk result (λ o. IfSome o (IsPart (depth + 1) depth (child step) text.now)) }
{
    let Some(range) = child_range(alloc, text, step)? else {
        return Ok(None);
    };
    match step {
        Step::Member(key) => {
            if is_member(alloc, text, range, key.name(), depth)? {
                Ok(Some(range))
            } else {
                Ok(None)
            }
        }
        Step::Entry(index) => {
            if is_item(alloc, text, range, index, depth)? {
                Ok(Some(range))
            } else {
                Ok(None)
            }
        }
    }
}

/// Where a text is without the white space around it.
fn root_place(alloc: Global, text: &[u8]) -> Result<Option<TextRange>, AllocError>
    ensures { IfOk result (λ o. IfSome o (IsPart max_depth max_depth Some text.now)) }
{
    let range = root_range(text);
    if !is_blank(&text[..range.start]) || !is_blank(&text[range.end..]) {
        return Ok(None);
    }
    if is_text(alloc, &text[range.start..range.end], MAX_DEPTH)? {
        Ok(Some(range))
    } else {
        Ok(None)
    }
}

/// Where in the text of a value is what some steps lead to.
fn inner_place(alloc: Global, text: &[u8], path: &[Step]) -> Result<Option<TextRange>, AllocError>
    requires { is_some (read text.now) ≡ true }
    ensures { IfOk result (λ o. IfSome o (IsPlace path.now text.now)) }
{
    let mut range = TextRange {
        start: 0,
        end: text.len(),
    };
    let mut depth = MAX_DEPTH;
    let mut rest = path;
    'steps: while let [step, after @ ..] = rest {
        if depth == 0 {
            return Ok(None);
        }
        depth -= 1;
        let inner = &text[range.start..range.end];
        let Some(part) = child_place(alloc, inner, *step, depth)? else {
            return Ok(None);
        };
        range = TextRange {
            start: range.start + part.start,
            end: range.start + part.end,
        };
        rest = after;
    }
    Ok(Some(range))
}

/// Where in a JSON text the value at a path is.
pub(crate) fn place(
    alloc: Global,
    text: &[u8],
    path: &[Step],
) -> Result<Option<TextRange>, AllocError>
    requires { is_some (read text.now) ≡ true }
    ensures { IfOk result (λ o. IfSome o (IsPlace path.now text.now)) }
{
    if path.is_empty() {
        root_place(alloc, text)
    } else {
        inner_place(alloc, text, path)
    }
}
