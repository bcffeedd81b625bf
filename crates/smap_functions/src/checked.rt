//! What a scan found, checked: nothing is said of a text whose functions cross, or aren't within it.
ghost use Rattle.std.specs.Prelude.{◌≡◌, ◌++◌, ◌<◌, ◌≤◌, ◌⊎◌, ℕ, IfNone, IfOk, IfSome, [], length, true};
ghost use Rattle.std.specs.List.{All, Contains, list_all};
ghost use Rattle.std.specs.Option.{option_to_list};
ghost use Rattle.smap_functions.specs.Words as spec;
ghost use Rattle.smap_functions.specs.Words.{IsWordAt};
ghost use Rattle.smap_functions.specs.Nested.{Pairwise};
ghost use Rattle.smap_functions.specs.Functions.{AreFunctions, AreNested, IsWithin};

use crate::found::{Function, Span};
use std::alloc::{AllocError, Global};

fn begins_word(b: u8) -> bool
    ensures { result ≡ spec.begins_word b }
{
    (96 < b && b < 123) || ((64 < b && b < 91) || (b == 95 || b == 36))
}

fn continues_word(b: u8) -> bool
    ensures { result ≡ spec.continues_word b }
{
    begins_word(b) || (47 < b && b < 58)
}

fn all_continue(text: &[u8]) -> bool
    ensures { result ≡ list_all spec.continues_word text.now }
{
    text.iter().all(|b| continues_word(*b))
}

fn is_identifier(text: &[u8]) -> bool
    ensures { result ≡ spec.is_identifier text.now }
{
    match text {
        [first, rest @ ..] => begins_word(*first) && all_continue(rest),
        [] => false,
    }
}

/// Whether a text is an identifier in ASCII, or one behind `#`.
pub(crate) fn is_word(text: &[u8]) -> bool
    ensures { result ≡ spec.is_word text.now }
{
    match text {
        [b'#', rest @ ..] => is_identifier(rest),
        _ => is_identifier(text),
    }
}

/// A name, if that is a word.
fn word(text: &[u8], name: Option<Span>) -> Option<Span>
    ensures { IfSome result (IsWordAt text.now) }
{
    let span = name?;
    if span.start < span.end && span.end <= text.len() && is_word(&text[span.start..span.end]) {
        Some(span)
    } else {
        None
    }
}

/// A function that lies in the text, with its names where they are words.
fn within(text: &[u8], found: Function) -> Option<Function>
    ensures { IfSome result (IsWithin text.now) }
{
    if found.start < found.end && found.end <= text.len() {
        Some(Function {
            start: found.start,
            end: found.end,
            name: word(text, found.name),
            owner: word(text, found.owner),
        })
    } else {
        None
    }
}

/// The functions, if all of them lie in the text.
fn all_within(
    alloc: Global,
    text: &[u8],
    found: &[Function],
) -> Result<Option<Vec<Function>>, AllocError>
    ensures { IfOk result (λ o. IfSome o (λ fs. All (IsWithin text.now) fs.items)) }
{
    let mut functions = Vec::new(alloc);
    for each in found {
        let Some(function) = within(text, *each) else {
            return Ok(None);
        };
        functions.push(function)?;
    }
    Ok(Some(functions))
}

/// Takes the ends up to this place off a list whose last is the least, and the next one, which it answers.
fn open_end(ends: &mut Vec<usize>, place: usize) -> Option<usize>
    requires { Pairwise (λ d e. e ≤ d) ends.old.items }
    ensures falling { Pairwise (λ d e. e ≤ d) (ends.new.items ++ option_to_list result) }
    ensures kept { All (λ e. (e ≤ place) ⊎ Contains (ends.new.items ++ option_to_list result) e)
        ends.old.items }
    ensures empty { IfNone result (ends.new.items ≡ []) }
{
    while let Some(end) = ends.pop() {
        if place < end {
            return Some(end);
        }
    }
    None
}

/// Whether functions are in order of their starts, and nest or are apart.
fn are_nested(alloc: Global, functions: &[Function]) -> Result<bool, AllocError>
    ensures { IfOk result (λ b. b ≡ true → AreNested functions.now) }
{
    let mut ends = Vec::new(alloc);
    let mut start = 0;
    for function in functions {
        if function.start < start {
            return Ok(false);
        }
        start = function.start;
        match open_end(&mut ends, start) {
            Some(end) if end < function.end => return Ok(false),
            Some(end) => ends.push(end)?,
            None => {}
        }
        ends.push(function.end)?;
    }
    Ok(true)
}

/// The functions that a scan found, in order of their starts; none where they aren't within the text or
/// cross.
pub(crate) fn checked(
    alloc: Global,
    text: &[u8],
    found: &[Function],
) -> Result<Option<Vec<Function>>, AllocError>
    ensures { IfOk result (λ o. IfSome o (λ fs. AreFunctions text.now fs.items)) }
{
    let Some(functions) = all_within(alloc, text, found)? else {
        return Ok(None);
    };
    if are_nested(alloc, functions.as_slice())? {
        Ok(Some(functions))
    } else {
        Ok(None)
    }
}
