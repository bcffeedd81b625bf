//! Whether the brackets of a text match, if nothing in it may hide one.
ghost use Rattle.std.specs.Prelude.{◌≡◌, IfOk, []};
ghost use Rattle.smap_functions.specs.Brackets as spec;

use std::alloc::{AllocError, Global};

fn may_hide(b: u8) -> bool
    ensures { result ≡ spec.may_hide b }
{
    b == b'"' || (b == b'#' || (b == b'\'' || (b == b'/' || (b == b'<' || b == b'`'))))
}

fn is_plain(text: &[u8]) -> bool
    ensures { result ≡ spec.is_plain text.now }
{
    text.iter().all(|b| !may_hide(*b))
}

fn is_opening(b: u8) -> bool
    ensures { result ≡ spec.is_opening b }
{
    b == b'(' || (b == b'[' || b == b'{')
}

fn is_closing(b: u8) -> bool
    ensures { result ≡ spec.is_closing b }
{
    b == b')' || (b == b']' || b == b'}')
}

/// What closes an opening bracket.
fn closing(b: u8) -> u8
    ensures { result ≡ spec.closing b }
{
    match b {
        b'(' => b')',
        b'[' => b']',
        _ => b'}',
    }
}

/// Whether each bracket closes the last one that is open, and none stays open.
fn are_closed(alloc: Global, text: &[u8]) -> Result<bool, AllocError>
    ensures { IfOk result (λ b. b ≡ spec.closes [] text.now) }
{
    let mut awaited: Vec<u8> = Vec::new(alloc);
    for byte in text {
        if is_opening(*byte) {
            awaited.push(closing(*byte))?;
        } else if is_closing(*byte) {
            match awaited.pop() {
                Some(next) if *byte == next => {}
                _ => return Ok(false),
            }
        }
    }
    Ok(awaited.is_empty())
}

/// Whether the brackets of a text match, or something may hide one: most texts have that near their start.
pub(crate) fn brackets_match(alloc: Global, text: &[u8]) -> Result<bool, AllocError>
    ensures { IfOk result (λ b. b ≡ spec.brackets_match text.now) }
{
    if is_plain(text) {
        are_closed(alloc, text)
    } else {
        Ok(true)
    }
}
