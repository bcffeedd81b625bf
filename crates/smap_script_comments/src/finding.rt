//! Where the comment is that names a script's map.
ghost use Rattle.std.specs.Prelude.{◌≡◌, ◌⊎◌, ◌+◌, ◌<◌, ◌≤◌, ⊤, IfOk, MatchOption, length, true};
ghost use Rattle.std.specs.List.{suffix_len};
ghost use Rattle.smap_script_comments.specs.Comments as spec;
ghost use Rattle.smap_script_comments.specs.Comments.{IsPlace};

use crate::comments::CommentFault;
use crate::places::Place;
use smap_link::link_in;

/// How many places that begin as the comment does are looked at. A text that has more behind the comment is
/// refused, so that the cost stays in proportion to its bytes.
const MOST_TRIES: usize = 64;

/// Whether a text begins as a comment that names a map does.
fn is_marked(text: &[u8]) -> bool {
    matches!(text, [b'/', b'/' | b'*', b'#' | b'@', ..])
}

/// The last place from which on the text names a map by a comment that begins there.
fn comment_start(name: &[u8], text: &[u8]) -> Option<usize>
    ensures { MatchOption result ⊤ (λ at. at < length text.now) }
{
    let mut left = MOST_TRIES;
    for i in 0..text.len() {
        let at = text.len() - 1 - i;
        if is_marked(&text[at..]) {
            if link_in(name, &text[at..]).is_some() {
                return Some(at);
            }
            left = left.checked_sub(1)?;
        }
    }
    None
}

fn begins_line_end(text: &[u8]) -> bool {
    matches!(text, [b'\n' | b'\r', ..] | [0xe2, 0x80, 0xa8 | 0xa9, ..])
}

/// How many bytes come before the first line terminator.
fn line_size(text: &[u8]) -> usize
    ensures { result ≤ length text.now }
{
    for i in 0..text.len() {
        if begins_line_end(&text[i..]) {
            return i;
        }
    }
    text.len()
}

/// How many bytes the closed comment has that this line begins with, up to the line's end if it isn't closed.
fn closed_size(line: &[u8]) -> usize
    ensures { result ≤ length line.now }
{
    for i in 3..line.len() {
        if line[i - 1] == b'*' && line[i] == b'/' {
            return i + 1;
        }
    }
    line.len()
}

/// How many bytes the comment has that this text begins with.
fn comment_size(text: &[u8]) -> usize
    ensures { result ≤ length text.now }
{
    let line = &text[..line_size(text)];
    if line.starts_with(b"/*") {
        closed_size(line)
    } else {
        line.len()
    }
}

fn is_newline(byte: u8) -> bool
    ensures { result ≡ spec.is_newline byte }
{
    byte == b'\n' || byte == b'\r'
}

fn newlines_behind(text: &[u8]) -> usize
    ensures value { result ≡ suffix_len spec.is_newline text.now }
    ensures within { result ≤ length text.now }
{
    text.iter().rev().take_while(|b| is_newline(**b)).count()
}

fn has_newline(text: &[u8]) -> bool
    ensures { result ≡ spec.has_newline text.now }
{
    text.iter().any(|b| is_newline(*b))
}

/// Whether this is a comment, and at most line ends behind it.
fn is_comment(text: &[u8]) -> bool
    ensures { result ≡ spec.is_comment text.now }
{
    (text.starts_with(b"//") || text.starts_with(b"/*"))
        && !has_newline(&text[..text.len() - newlines_behind(text)])
}

/// Whether a text has at this place the comment that names its map.
fn is_place(name: &[u8], text: &[u8], place: Place) -> bool
    requires { place.at + place.size ≤ length text.now }
    ensures { result ≡ true → IsPlace name.now text.now place.at place.size }
{
    let comment = place.bytes(text);
    is_comment(comment) && link_in(name, comment) == link_in(name, text)
}

/// Whether a URL has a quote, as what is read out of a string has.
fn has_quote(url: &[u8]) -> bool {
    url.iter().any(|b| *b == b'"' || *b == b'\'' || *b == b'`')
}

/// Where the comment is that names a text's map; at its end, and empty, if it names none.
///
/// # Errors
///
/// `Unclear` if it isn't found, or may be within a string.
pub(crate) fn place_of(name: &[u8], text: &[u8]) -> Result<Place, CommentFault>
    ensures { IfOk result (λ p. IsPlace name.now text.now p.at p.size) }
{
    let Some(url) = link_in(name, text) else {
        return Ok(Place {
            at: text.len(),
            size: 0,
        });
    };
    if has_quote(url) {
        return Err(CommentFault::Unclear);
    }
    let Some(at) = comment_start(name, text) else {
        return Err(CommentFault::Unclear);
    };
    let size = comment_size(&text[at..]);
    let place = Place { at, size };
    if is_place(name, text, place) {
        Ok(place)
    } else {
        Err(CommentFault::Unclear)
    }
}

/// The same place with the line's end, if nothing else is in the line.
fn with_line_end(text: &[u8], place: Place) -> Place
    requires { place.at + place.size ≤ length text.now }
    ensures within { result.at + result.size ≤ length text.now }
    ensures more { place.size ≤ result.size }
{
    let is_alone = place.at == 0 || is_newline(text[place.at - 1]);
    let behind = &text[place.at + place.size..];
    let more = match behind {
        _ if !is_alone => 0,
        [b'\r', b'\n', ..] => 2,
        [b'\n' | b'\r', ..] => 1,
        _ => 0,
    };
    Place {
        at: place.at,
        size: place.size + more,
    }
}

/// The place of a comment, with the line's end if nothing else is in the line.
pub(crate) fn with_line(name: &[u8], text: &[u8], place: Place) -> Place
    requires place { IsPlace name.now text.now place.at place.size }
    requires some { 0 < place.size }
    ensures place { IsPlace name.now text.now result.at result.size }
    ensures some { 0 < result.size }
{
    let line = with_line_end(text, place);
    if is_place(name, text, line) {
        line
    } else {
        place
    }
}
