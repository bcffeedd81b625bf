//! The map that a script names in its last comment.
ghost use Rattle.std.specs.Prelude.{◌≡◌, ℕ, ◌+◌, ◌-◌, ◌<◌, ◌≤◌, Bool, IsTrue, ◌↔◌, List, [], ◌∷◌, drop};
ghost use Rattle.std.specs.Prelude.{get_or, length, option_map, take};
ghost use Rattle.smap_link.specs.Comment as spec;
ghost use Rattle.smap_link.specs.CommentView.{
  IsSeparatorAt,
  StartsLastLine,
  effect_from,
  effect_in,
  place_in,
};

use crate::white::{behind_white, white_size, word_size};
use memchr::memrchr3;

/// Where in a line a place is.
#[derive(Clone, Copy)]
enum Mode {
    /// In code or white space, with so many more bytes of a white space character to pass.
    Code(usize),
    /// Behind a slash.
    Slash,
    /// Within a comment that may end in the line.
    Block,
    /// Behind the line's last comment.
    Done,
}

/// What a line says of the script's map.
#[derive(Clone, Copy)]
enum Link<'a> {
    Nothing,
    /// There is none, since the line has code.
    Missing,
    Url(&'a [u8]),
}

#[derive(Clone, Copy)]
struct Scan<'a> {
    mode: Mode,
    /// Where the comment begins.
    start: usize,
    link: Link<'a>,
}

/// A URL with nothing but white space behind it.
fn alone<'a>(text: &'a [u8]) -> Option<&'a [u8]>
    ensures { option_map (λ u. u.now) result ≡ spec.alone text.now }
{
    let size = word_size(text);
    if behind_white(&text[size..]).is_empty() {
        Some(&text[..size])
    } else {
        None
    }
}

fn named<'a>(text: &'a [u8]) -> Option<&'a [u8]>
    ensures { option_map (λ u. u.now) result ≡ spec.named text.now }
{
    if !text.starts_with(b"sourceMappingURL=") {
        return None;
    }
    alone(&text[17..])
}

fn url_in<'a>(comment: &'a [u8]) -> Option<&'a [u8]>
    ensures { option_map (λ u. u.now) result ≡ spec.url_in comment.now }
{
    match comment {
        [b'#' | b'@', rest @ ..] => named(behind_white(rest)),
        _ => None,
    }
}

/// What is said once this comment was read.
fn after_comment<'a>(comment: &'a [u8], link: Link<'a>) -> Link<'a>
    ensures { effect_in result ≡ spec.with_link (spec.url_in comment.now) (effect_in link.entry) }
{
    match url_in(comment) {
        Some(url) => Link::Url(url),
        None => link,
    }
}

/// Whether the slash at this place ends the comment that begins at `start`.
fn closes(line: &[u8], start: usize, i: usize) -> bool
    requires within { i < length line.now }
    requires started { start ≤ i }
    ensures { result ≡ spec.closes (drop start line.now) (i - start) (get_or line.now i 0) }
{
    line[i] == b'/' && (start < i && line[i - 1] == b'*')
}

/// Whether the text is empty or ends in white space.
fn ends_white(text: &[u8]) -> bool
    ensures { result ≡ spec.ends_white text.now }
{
    let size = text.len();
    size == 0
        || white_size(&text[size.saturating_sub(1)..]) == 1
        || white_size(&text[size.saturating_sub(2)..]) == 2
        || white_size(&text[size.saturating_sub(3)..]) == 3
}

/// Reads the byte at `i`, in code or white space.
fn code_step<'a>(line: &'a [u8], i: usize, left: usize, link: Link<'a>) -> (Mode, Link<'a>)
    requires { i < length line.now }
    ensures { (two : Bool) (comment : List ℕ) (n : ℕ) →
        spec.effect two (spec.Code left) (effect_in link.entry) (drop i line.now)
        ≡ spec.effect two (place_in result.0 comment n) (effect_in result.1) (drop (i + 1) line.now) }
{
    if left > 0 {
        return (Mode::Code(left - 1), link);
    }
    if line[i] == b'/' {
        return (Mode::Slash, link);
    }
    let size = white_size(&line[i..]);
    if size > 0 {
        (Mode::Code(size - 1), link)
    } else {
        (Mode::Code(0), Link::Missing)
    }
}

/// Reads the byte behind a slash.
fn slash_step<'a>(line: &'a [u8], i: usize, two: bool, link: Link<'a>) -> (Mode, Link<'a>)
    requires { i < length line.now }
    ensures { spec.effect two spec.Slash (effect_in link.entry) (drop i line.now)
        ≡ spec.effect two (place_in result.0 (drop (i + 1) line.now) 0) (effect_in result.1)
        (drop (i + 1) line.now) }
{
    match line[i] {
        b'/' if two => (Mode::Done, after_comment(&line[i + 1..], link)),
        b'/' => (Mode::Slash, Link::Missing),
        b'*' => (Mode::Block, link),
        _ => (Mode::Code(0), Link::Missing),
    }
}

/// Reads a byte within a comment that begins at `start`.
fn block_step<'a>(line: &'a [u8], i: usize, start: usize, link: Link<'a>) -> (Mode, Link<'a>)
    requires within { i < length line.now }
    requires started { start ≤ i }
    ensures { (two : Bool) →
        spec.effect two (spec.Block (drop start line.now) (i - start)) (effect_in link.entry)
        (drop i line.now)
        ≡ spec.effect two (place_in result.0 (drop start line.now) (i + 1 - start)) (effect_in result.1)
        (drop (i + 1) line.now) }
{
    if closes(line, start, i) {
        (Mode::Code(0), after_comment(&line[start..i - 1], link))
    } else {
        (Mode::Block, link)
    }
}

/// Reads one more byte of the line.
fn step<'a>(line: &'a [u8], i: usize, two: bool, scan: Scan<'a>) -> Scan<'a>
    requires within { i < length line.now }
    requires started { scan.start ≤ i }
    ensures same { effect_from two line.now i scan.entry ≡ effect_from two line.now (i + 1) result }
    ensures started { result.start ≤ i + 1 }
{
    match scan.mode {
        Mode::Code(left) => {
            let (mode, link) = code_step(line, i, left, scan.link);
            Scan {
                mode,
                start: 0,
                link,
            }
        }
        Mode::Slash => {
            let (mode, link) = slash_step(line, i, two, scan.link);
            Scan {
                mode,
                start: i + 1,
                link,
            }
        }
        Mode::Block => {
            let (mode, link) = block_step(line, i, scan.start, scan.link);
            Scan {
                mode,
                start: scan.start,
                link,
            }
        }
        Mode::Done => scan,
    }
}

/// What a line says that was read to its end.
fn at_end<'a>(line: &'a [u8], scan: Scan<'a>) -> Link<'a>
    requires { scan.start ≤ length line.now }
    ensures { (two : Bool) → effect_in result ≡ effect_from two line.now (length line.now) scan.entry }
{
    match scan.mode {
        Mode::Code(_) | Mode::Done => scan.link,
        Mode::Slash => Link::Missing,
        Mode::Block => {
            if ends_white(&line[scan.start..]) {
                scan.link
            } else {
                Link::Missing
            }
        }
    }
}

/// What a line says.
fn link_of_line<'a>(line: &'a [u8], two: bool) -> Link<'a>
    ensures { effect_in result ≡ spec.effect_of two line.now }
{
    let mut scan = Scan {
        mode: Mode::Code(0),
        start: 0,
        link: Link::Nothing,
    };
    for i in 0..line.len() {
        scan = step(line, i, two, scan);
    }
    at_end(line, scan)
}

/// Whether U+2028 or U+2029 begins at this place.
fn is_separator(text: &[u8], at: usize) -> bool
    requires { at < length text.now }
    ensures value { IsTrue result ↔ IsSeparatorAt text.now at }
    ensures within { IsTrue result → at + 3 ≤ length text.now }
{
    text.len() - at > 2
        && text[at] == 0xe2
        && text[at + 1] == 0x80
        && (text[at + 2] == 0xa8 || text[at + 2] == 0xa9)
}

/// Where the last line begins, and the size of the line terminator before it.
fn line_start(text: &[u8]) -> (usize, usize)
    ensures { StartsLastLine text.now result.0 result.1 }
{
    let mut end = text.len();
    'places: loop {
        let Some(at) = memrchr3(b'\n', b'\r', 0xe2, &text[..end]) else {
            return (0, 0);
        };
        if text[at] != 0xe2 {
            return (at + 1, 1);
        }
        if is_separator(text, at) {
            return (at + 3, 3);
        }
        end = at;
    }
}

/// What the lines of a text say. The last line is read first, and no line before the first one that says
/// something.
fn said_in<'a>(text: &'a [u8], two: bool) -> Link<'a>
    ensures { effect_in result ≡ spec.said_in two text.now }
{
    let mut end = text.len();
    'lines: loop {
        let (start, size) = line_start(&text[..end]);
        match link_of_line(&text[start..end], two) {
            Link::Nothing => {}
            Link::Missing => return Link::Missing,
            Link::Url(url) => return Link::Url(url),
        }
        if start == 0 {
            return Link::Nothing;
        }
        end = start - size;
    }
}

fn map_url_in<'a>(text: &'a [u8], two: bool) -> Option<&'a [u8]>
    ensures { option_map (λ u. u.now) result ≡ spec.map_url_in two text.now }
{
    match said_in(text, two) {
        Link::Url(url) => Some(url),
        Link::Nothing | Link::Missing => None,
    }
}

/// Whether no line of a text says anything, where `two` says whether `//` begins a comment.
pub(crate) fn is_silent(text: &[u8], two: bool) -> bool
    ensures { result ≡ spec.is_silent two text.now }
{
    match said_in(text, two) {
        Link::Nothing => true,
        Link::Missing | Link::Url(_) => false,
    }
}

/// The URL of the map that a script names in its last comment, if it names one: as it stands there, relative
/// to the script's, and not yet looked at. It may be empty.
///
/// This is the extraction without parsing of ECMA-426: `//# sourceMappingURL=URL`, also with `//@`, and `/*#
/// sourceMappingURL=URL */`. What the text has in strings, templates and regular expressions isn't told from
/// code. The text is read from its end, and no further than the last line that has more than white space and
/// comments.
pub fn map_url<'a>(text: &'a [u8]) -> Option<&'a [u8]>
    ensures { option_map (λ u. u.now) result ≡ spec.map_url text.now }
{
    map_url_in(text, true)
}

/// The same of a style sheet, in which `//` begins no comment.
pub fn css_map_url<'a>(text: &'a [u8]) -> Option<&'a [u8]>
    ensures { option_map (λ u. u.now) result ≡ spec.css_map_url text.now }
{
    map_url_in(text, false)
}
