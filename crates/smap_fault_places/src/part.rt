//! Whether the text of a child is in a range of the text of an array or an object.
ghost use Rattle.std.specs.Prelude.{◌≡◌, ◌≤◌, ◌+◌, length, true, IfOk};
ghost use Rattle.std.specs.Bool.{OnTrue};
ghost use Rattle.std.specs.List.{list_all};
ghost use Rattle.json.specs.Word.{is_space as is_json_space, ends_word};
ghost use Rattle.serde_json.specs.Find.{get, at};
ghost use Rattle.smap_fault_places.specs.Ranges.{IsRangeOf};
ghost use Rattle.smap_fault_places.specs.Contexts.{IsAfterItem, IsAfterMember, IsPart};

use crate::passing::{is_text, items_in, members_in, opens_items, opens_member};
use crate::range::TextRange;
use crate::scan::{is_space, space_at_end};
use crate::starts::space_at_start;
use std::alloc::{AllocError, Global};

/// Whether there is only white space.
pub(crate) fn is_blank(text: &[u8]) -> bool
    ensures { result ≡ list_all is_json_space text.now }
{
    text.iter().all(|b| is_space(*b))
}

/// Whether a word ends before this text.
fn is_end(text: &[u8]) -> bool
    ensures { OnTrue result (ends_word text.now ≡ true) }
{
    match text {
        [] => true,
        [b',' | b']' | b'}' | b' ' | b'\t' | b'\n' | b'\r', ..] => true,
        _ => false,
    }
}

/// Whether the text is what is behind a member: other members, of which none has its name, and the end.
fn closes_object(alloc: Global, text: &[u8], name: &str, depth: usize) -> Result<bool, AllocError>
    ensures { IfOk result (λ it_is. OnTrue it_is (IsAfterMember depth name.now text.now)) }
{
    let len = space_at_start(text);
    if !is_end(text) || !is_blank(&text[..len]) {
        return Ok(false);
    }
    let rest = &text[len..];
    if rest.starts_with(b"}") {
        return match members_in(alloc, rest, name, depth)? {
            Some(_) => Ok(true),
            None => Ok(false),
        };
    }
    let Some(after) = rest.strip_prefix(b",") else {
        return Ok(false);
    };
    match members_in(alloc, after, name, depth)? {
        Some(some) => Ok(some),
        None => Ok(false),
    }
}

/// Whether the text is what is behind an item: other items, and the end.
fn closes_array(alloc: Global, text: &[u8], depth: usize) -> Result<bool, AllocError>
    ensures { IfOk result (λ it_is. OnTrue it_is (IsAfterItem depth text.now)) }
{
    let len = space_at_start(text);
    if !is_end(text) || !is_blank(&text[..len]) {
        return Ok(false);
    }
    let rest = &text[len..];
    if rest.starts_with(b"]") {
        return match items_in(alloc, rest, depth)? {
            Some(_) => Ok(true),
            None => Ok(false),
        };
    }
    let Some(after) = rest.strip_prefix(b",") else {
        return Ok(false);
    };
    match items_in(alloc, after, depth)? {
        Some(some) => Ok(some),
        None => Ok(false),
    }
}

/// Whether the member with this name is in a range of an object; the last one, if there are several.
pub(crate) fn is_member(
    alloc: Global,
    text: &[u8],
    range: TextRange,
    name: &str,
    depth: usize,
) -> Result<bool, AllocError>
    requires { IsRangeOf (length text.now) range }
    ensures { IfOk result (λ it_is. OnTrue it_is
        (IsPart (depth + 1) depth (get name.now) text.now range)) }
{
    let before = &text[..range.start];
    let len = before.len() - space_at_end(before);
    let Some(front) = before[..len].strip_suffix(b":") else {
        return Ok(false);
    };
    if !is_blank(&before[len..]) {
        return Ok(false);
    }
    if !is_text(alloc, &text[range.start..range.end], depth)? {
        return Ok(false);
    }
    if !opens_member(alloc, front, name, depth)? {
        return Ok(false);
    }
    closes_object(alloc, &text[range.end..], name, depth)
}

/// Whether the item with this index is in a range of an array.
pub(crate) fn is_item(
    alloc: Global,
    text: &[u8],
    range: TextRange,
    index: usize,
    depth: usize,
) -> Result<bool, AllocError>
    requires { IsRangeOf (length text.now) range }
    ensures { IfOk result (λ it_is. OnTrue it_is
        (IsPart (depth + 1) depth (at index) text.now range)) }
{
    let before = &text[..range.start];
    let len = before.len() - space_at_end(before);
    if !is_blank(&before[len..]) {
        return Ok(false);
    }
    if !is_text(alloc, &text[range.start..range.end], depth)? {
        return Ok(false);
    }
    if !closes_array(alloc, &text[range.end..], depth)? {
        return Ok(false);
    }
    if index == 0 {
        let Some(front) = before[..len].strip_suffix(b"[") else {
            return Ok(false);
        };
        return Ok(is_blank(front));
    }
    let Some(front) = before[..len].strip_suffix(b",") else {
        return Ok(false);
    };
    opens_items(alloc, front, index, depth)
}
