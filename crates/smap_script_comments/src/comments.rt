//! The comment by which a script names its map, set and removed.
ghost use Rattle.std.specs.Prelude.{◌≡◌, ◌+◌, ◌≤◌, [], IfOk, MatchOption, None, Some, length, true};
ghost use Rattle.std.specs.List.{list_all};
ghost use Rattle.smap_link.specs.Kinds.{link_in as named_by};
ghost use Rattle.smap_script_comments.specs.Comments as spec;
ghost use Rattle.smap_script_comments.specs.Comments.{IsFramed, IsRemoved, IsSet};

use crate::finding::{place_of, with_line};
use memchr::memmem;
use smap_link::{FileKind, file_kind, link_in};
use std::alloc::{AllocError, Global};

/// Why a comment isn't set or removed.
#[derive(Clone, Copy, Debug, PartialEq, Eq)]
pub enum CommentFault {
    /// The URL can't stand in a comment.
    Url,
    /// Where the comment begins and ends isn't found.
    Unclear,
    /// The new text would be read to name another map, or none.
    Unread,
    /// Out of memory.
    Memory,
}

impl From<AllocError> for CommentFault {
    ghost use Rattle.std.specs.Prelude.{◌≡◌};
    ghost use Rattle.smap_script_comments.specs.declared.comments.CommentFault.TheVariants as faults;

    ghost from_gives = { λ _ e. e ≡ faults.Memory };

    fn from(_error: AllocError) -> CommentFault {
        CommentFault::Memory
    }
}

/// A text in which some bytes at one place became others.
#[derive(Drop)]
pub struct Edited {
    /// Where in the old text.
    pub at: usize,
    /// How many bytes it had there.
    pub size: usize,
    /// What stands there now.
    pub made: Vec<u8>,
    /// The new text.
    pub text: Vec<u8>,
}

/// Whether a URL can stand in a comment: it isn't empty, and has neither white space, controls and quotes nor
/// the end of a comment.
pub fn is_fit(url: &[u8]) -> bool {
    let odd = |b: &u8| *b <= b' ' || *b == 0x7f || *b == b'"' || *b == b'\'' || *b == b'`';
    !url.is_empty() && !url.iter().any(odd) && memmem::find(url, b"*/").is_none()
}

/// Whether the comment is one of those that are closed.
fn is_closed(name: &[u8], old: &[u8]) -> bool
    ensures { result ≡ spec.is_closed name.now old.now }
{
    file_kind(name) == FileKind::StyleSheet || old.starts_with(b"/*")
}

fn comment_text(alloc: Global, closed: bool, url: &[u8]) -> Result<Vec<u8>, AllocError>
    ensures { IfOk result (λ text. text.items ≡ spec.comment_text closed url.now) }
{
    let (begin, end): (&[u8], &[u8]) = if closed {
        (b"/*# sourceMappingURL=", b" */")
    } else {
        (b"//# sourceMappingURL=", b"")
    };
    let mut text = Vec::from_slice(alloc, begin)?;
    text.extend_from_slice(url)?;
    text.extend_from_slice(end)?;
    Ok(text)
}

/// The line end of a text that has several lines.
fn newline_of(text: &[u8]) -> &'static [u8]
    ensures { list_all spec.is_newline result.now ≡ true }
{
    if memmem::find(text, b"\r\n").is_some() {
        b"\r\n"
    } else {
        b"\n"
    }
}

/// The line ends that go before a comment at the end of a text, and behind it.
fn frame(text: &[u8]) -> (&'static [u8], &'static [u8])
    ensures lead { list_all spec.is_newline result.0.now ≡ true }
    ensures tail { list_all spec.is_newline result.1.now ≡ true }
{
    let newline = newline_of(text);
    match text {
        [.., b'\n' | b'\r'] | [] => (b"", newline),
        _ => (newline, b""),
    }
}

/// The comment, between line ends if it is a new one at the end of the text.
pub(crate) fn framed(
    alloc: Global,
    text: &[u8],
    is_new: bool,
    comment: &[u8],
) -> Result<Vec<u8>, AllocError>
    ensures { IfOk result (λ made. IsFramed made.items comment.now) }
{
    let (lead, tail): (&[u8], &[u8]) = if is_new { frame(text) } else { (b"", b"") };
    let mut made = Vec::from_slice(alloc, lead)?;
    made.extend_from_slice(comment)?;
    made.extend_from_slice(tail)?;
    Ok(made)
}

/// The comment that comes in the place of what a text has there.
fn made_for(
    alloc: Global,
    name: &[u8],
    text: &[u8],
    old: &[u8],
    url: &[u8],
) -> Result<Vec<u8>, AllocError>
    ensures { IfOk result (λ made. IsFramed made.items
        (spec.comment_text (spec.is_closed name.now old.now) url.now)) }
{
    let comment = comment_text(alloc, is_closed(name, old), url)?;
    framed(alloc, text, old.is_empty(), &comment)
}

/// Whether a text names its map by this URL.
pub(crate) fn names(name: &[u8], text: &[u8], url: &[u8]) -> bool
    ensures { result ≡ true → named_by name.now text.now ≡ Some url.now }
{
    match link_in(name, text) {
        Some(found) => found == url,
        None => false,
    }
}

/// The text of a script or a style sheet, by its name, with this URL in the comment that names its map: in
/// place of the last such comment, or behind the text if it has none.
///
/// # Errors
///
/// `Url` if the URL can't stand in a comment, `Unclear` if the place of the comment isn't found, `Unread` if
/// the new text doesn't name this URL, and `Memory`.
pub fn set_comment(
    alloc: Global,
    name: &[u8],
    text: &[u8],
    url: &[u8],
) -> Result<Edited, CommentFault>
    ensures { IfOk result (IsSet name.now text.now url.now) }
{
    if !is_fit(url) {
        return Err(CommentFault::Url);
    }
    let place = place_of(name, text)?;
    let made = made_for(alloc, name, text, place.bytes(text), url)?;
    let new = place.replaced(alloc, text, &made)?;
    if names(name, &new, url) {
        Ok(Edited {
            at: place.at,
            size: place.size,
            made,
            text: new,
        })
    } else {
        Err(CommentFault::Unread)
    }
}

/// The text of a script or a style sheet, by its name, without the comment that names its map, and without
/// the line's end if nothing else is in the line; none if it names no map. A comment before it may then name
/// one.
///
/// # Errors
///
/// `Unclear` if the place of the comment isn't found, and `Memory`.
pub fn remove_comment(
    alloc: Global,
    name: &[u8],
    text: &[u8],
) -> Result<Option<Edited>, CommentFault>
    ensures { IfOk result (λ found.
        MatchOption found (named_by name.now text.now ≡ None) (IsRemoved name.now text.now)) }
{
    let place = place_of(name, text)?;
    if place.size == 0 {
        return Ok(None);
    }
    let place = with_line(name, text, place);
    let new = place.replaced(alloc, text, b"")?;
    Ok(Some(Edited {
        at: place.at,
        size: place.size,
        made: Vec::new(alloc),
        text: new,
    }))
}
