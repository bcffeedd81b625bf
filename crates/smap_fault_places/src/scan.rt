//! The scan for the range of a value, step by step. What it finds is tried afterwards, so nothing is promised
//! of it but that a range is one of the text.
ghost use Rattle.std.specs.Prelude.{◌≡◌, ◌≤◌, IfOk, IfSome, length};
ghost use Rattle.json.specs.Word.{is_space as is_json_space};
ghost use Rattle.smap_fault_places.specs.Ranges.{IsRangeOf};

use crate::range::{TextRange, clamped};
use crate::step::Step;
use json::{MAX_DEPTH, Reader, Scratch, Token};
use std::alloc::{AllocError, Global};

/// Whether the byte is white space (RFC 8259, section 2).
pub(crate) fn is_space(byte: u8) -> bool
    ensures { result ≡ is_json_space byte }
{
    byte == b' ' || byte == b'\t' || byte == b'\n' || byte == b'\r'
}

/// How much white space is at the end of a text.
pub(crate) fn space_at_end(text: &[u8]) -> usize
    ensures { result ≤ length text.now }
{
    text.iter().rev().take_while(|b| is_space(**b)).count()
}

/// The range of a value that begins at `start`, where the next lexeme after it and a comma begins at `next`.
fn value_before(text: &[u8], start: usize, next: usize) -> TextRange
    ensures { IsRangeOf (length text.now) result }
{
    let mut end = next.min(text.len());
    end -= space_at_end(&text[..end]);
    if text[..end].ends_with(b",") {
        end -= 1;
        end -= space_at_end(&text[..end]);
    }
    clamped(start, end, text.len())
}

/// The range of the member with this name of an object; of the last one, if there are several.
fn member_range(
    alloc: Global,
    text: &[u8],
    object: &str,
    name: &str,
) -> Result<Option<TextRange>, AllocError>
    ensures { IfOk result (λ o. IfSome o (IsRangeOf (length text.now))) }
{
    let mut scratch = Scratch::new(alloc);
    let mut reader = Reader::new(object, &mut scratch)?;
    let Some(Token::BeginObject) = reader.next() else {
        return Ok(None);
    };
    let mut found = None;
    'members: while let Ok(Some(key)) = reader.next_key() {
        let is_it = key == name;
        let start = reader.offset();
        if reader.skip_value(MAX_DEPTH).is_err() {
            return Ok(None);
        }
        if is_it {
            found = Some(value_before(text, start, reader.offset()));
        }
    }
    Ok(found)
}

/// The range of the entry with this index of an array.
fn entry_range(
    alloc: Global,
    text: &[u8],
    array: &str,
    index: usize,
) -> Result<Option<TextRange>, AllocError>
    ensures { IfOk result (λ o. IfSome o (IsRangeOf (length text.now))) }
{
    let mut scratch = Scratch::new(alloc);
    let mut reader = Reader::new(array, &mut scratch)?;
    let Some(Token::BeginArray) = reader.next() else {
        return Ok(None);
    };
    let mut left = index;
    'entries: while !reader.take_end_array() {
        let start = reader.offset();
        if reader.skip_value(MAX_DEPTH).is_err() {
            return Ok(None);
        }
        if left == 0 {
            return Ok(Some(value_before(text, start, reader.offset())));
        }
        left -= 1;
    }
    Ok(None)
}

/// The range of what a step leads to, in the text of a value.
pub(crate) fn child_range(
    alloc: Global,
    text: &[u8],
    step: Step,
) -> Result<Option<TextRange>, AllocError>
    ensures { IfOk result (λ o. IfSome o (IsRangeOf (length text.now))) }
{
    let Ok(value) = str::from_utf8(text) else {
        return Ok(None);
    };
    match step {
        Step::Member(key) => member_range(alloc, text, value, key.name()),
        Step::Entry(index) => entry_range(alloc, text, value, index),
    }
}

/// The range of a text without the white space around it.
pub(crate) fn root_range(text: &[u8]) -> TextRange
    ensures { IsRangeOf (length text.now) result }
{
    let start = text.iter().take_while(|b| is_space(**b)).count();
    clamped(start, text.len() - space_at_end(text), text.len())
}
