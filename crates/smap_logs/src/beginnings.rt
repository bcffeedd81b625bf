//! Where the URL of a script may begin that ends at a given place of a line.
ghost use Rattle.std.specs.Prelude.{◌≡◌, ℕ, cond, ◌<◌, ◌≤◌, IfSome, length};
ghost use Rattle.std.specs.Option.{option_or};
ghost use Rattle.std.specs.List.{prefix_len};
ghost use Rattle.smap_logs.specs.Beginnings as spec;
ghost use Rattle.smap_logs.specs.Beginnings.{AreBefore};
ghost use Rattle.smap_logs.specs.Bytes.{is_scheme_byte as scheme_byte};

use crate::bytes::{ends_url, is_scheme_byte};
use crate::looking::holds_pair;
use smap_frames::may_begin;

/// The most bytes that a URL has.
pub(crate) const MAX_URL: usize = 1024;

fn scheme_len(text: &[u8]) -> usize
    ensures value { result ≡ prefix_len scheme_byte text.now }
    ensures within { result ≤ length text.now }
{
    for at in 0..text.len() {
        if !is_scheme_byte(text[at]) {
            return at;
        }
    }
    text.len()
}

/// Whether a text begins with a scheme, as `http://`.
fn begins_with_scheme(text: &[u8]) -> bool
    ensures { result ≡ spec.begins_with_scheme text.now }
{
    !text.is_empty()
        && text[0].is_ascii_alphabetic()
        && text[scheme_len(text)..].starts_with(b"://")
}

fn begins_with_slash(text: &[u8]) -> bool
    ensures { result ≡ spec.begins_with_slash text.now }
{
    text.starts_with(b"/") && !text.starts_with(b"//")
}

fn begins_with_drive(text: &[u8]) -> bool
    ensures { result ≡ spec.begins_with_drive text.now }
{
    if text.len() < 3 {
        return false;
    }
    text[0].is_ascii_alphabetic() && text[1] == b':' && (text[2] == b'/' || text[2] == b'\\')
}

/// Whether a text begins as the path of a file from a root does: with a slash, but not with two, or with a
/// drive.
fn begins_with_root(text: &[u8]) -> bool
    ensures { result ≡ spec.begins_with_root text.now }
{
    begins_with_slash(text) || begins_with_drive(text)
}

/// Of the places where a URL may begin: the nearest to its end, the nearest with a scheme, the nearest with a
/// root, and the farthest.
#[derive(Clone, Copy)]
pub(crate) struct Beginnings {
    pub(crate) nearest: Option<usize>,
    pub(crate) scheme: Option<usize>,
    pub(crate) root: Option<usize>,
    pub(crate) farthest: Option<usize>,
}

/// The place, if it is to count.
fn place_if(counts: bool, start: usize) -> Option<usize>
    ensures { result ≡ cond counts (Some start) None }
{
    if counts { Some(start) } else { None }
}

impl Beginnings {
    /// The beginnings where there is one more, farther than all before.
    fn with(self, start: usize, url: &[u8]) -> Beginnings
        ensures before { (end : ℕ) → start < end → AreBefore end self → AreBefore end result }
        ensures nearest { result.nearest ≡ option_or self.nearest (Some start) }
        ensures scheme { result.scheme ≡ option_or self.scheme
            (cond (spec.begins_with_scheme url.now) (Some start) None) }
        ensures root { result.root ≡ option_or self.root
            (cond (spec.begins_with_root url.now) (Some start) None) }
        ensures farthest { result.farthest ≡ Some start }
    {
        Beginnings {
            nearest: self.nearest.or(Some(start)),
            scheme: self.scheme.or(place_if(begins_with_scheme(url), start)),
            root: self.root.or(place_if(begins_with_root(url), start)),
            farthest: Some(start),
        }
    }
}

/// Whether a URL before this byte isn't taken to go on behind it.
fn parts(b: u8) -> bool
    ensures { result ≡ spec.parts b }
{
    b"\"'`(<>@".contains(&b)
}

fn is_parted(before: &[u8]) -> bool
    ensures { result ≡ spec.is_parted before.now }
{
    match before.last() {
        Some(b) => parts(*b),
        None => false,
    }
}

fn is_before(place: Option<usize>, at: usize) -> bool
    ensures { result ≡ spec.is_before place at }
{
    match place {
        Some(start) => start < at,
        None => false,
    }
}

impl Beginnings {
    /// Whether what begins here isn't within a URL, or a path from a root, that begins before it.
    fn is_apart(self, line: &[u8], at: usize) -> bool
        requires { at ≤ length line.now }
        ensures { result ≡ spec.is_apart line.now self at }
    {
        let is_within = is_before(self.scheme, at) || is_before(self.root, at);
        !is_within || is_parted(&line[..at])
    }

    /// The same beginnings before this place, the nearest of them only if it is so.
    pub(crate) fn apart(self, line: &[u8], end: usize) -> Beginnings
        requires before { AreBefore end self }
        requires end { end ≤ length line.now }
        ensures value { result ≡ spec.apart line.now self }
        ensures before { AreBefore end result }
    {
        match self.nearest {
            Some(at) if !self.is_apart(line, at) => Beginnings {
                nearest: None,
                ..self
            },
            _ => self,
        }
    }
}

/// Where a URL may begin that ends here.
pub(crate) fn beginnings_of(line: &[u8], end: usize) -> Beginnings
    requires { end ≤ length line.now }
    ensures value { result ≡ spec.beginnings line.now end }
    ensures before { AreBefore end result }
{
    let mut found = Beginnings {
        nearest: None,
        scheme: None,
        root: None,
        farthest: None,
    };
    for start in (end.saturating_sub(MAX_URL)..end).rev() {
        if ends_url(line[start]) {
            break;
        }
        if may_begin(&line[..start]) {
            found = found.with(start, &line[start..end]);
        }
    }
    found
}

/// How many bytes follow the last colon.
fn size_after_colon(text: &[u8]) -> usize
    ensures value { result ≡ spec.size_after_colon text.now }
    ensures within { result ≤ length text.now }
{
    text.iter().rev().take_while(|b| **b != b':').count()
}

/// How many bytes follow the last opening parenthesis.
fn size_after_parenthesis(text: &[u8]) -> usize
    ensures value { result ≡ spec.size_after_parenthesis text.now }
    ensures within { result ≤ length text.now }
{
    text.iter().rev().take_while(|b| **b != b'(').count()
}

/// Whether a text is one path from a root: ` /` begins another.
fn is_one_path(text: &[u8]) -> bool
    ensures { result ≡ spec.is_one_path text.now }
{
    begins_with_root(text) && !holds_pair(text, b' ', b'/')
}

/// Where the last bytes before a place begin, so many, if they are one path and ` (` precedes them.
fn path_of_size(line: &[u8], end: usize, size: usize) -> Option<usize>
    requires { end ≤ length line.now }
    ensures value { result ≡ spec.path_of_size line.now end size }
    ensures before { IfSome result (λ start. start < end) }
{
    if size == 0 || size > end || size > MAX_URL {
        return None;
    }
    let start = end - size;
    if line[..start].ends_with(b" (") && is_one_path(&line[start..end]) {
        Some(start)
    } else {
        None
    }
}

/// Where a path begins that ends here, follows ` (` and may hold spaces. One from a drive may hold
/// parentheses too, as `C:\Program Files (x86)\a.js` does.
pub(crate) fn path_start(line: &[u8], end: usize) -> Option<usize>
    requires { end ≤ length line.now }
    ensures value { result ≡ spec.path_start line.now end }
    ensures before { IfSome result (λ start. start < end) }
{
    let size = size_after_colon(&line[..end]);
    let from_slash = size_after_parenthesis(&line[end - size..end]);
    match path_of_size(line, end, from_slash) {
        Some(start) => Some(start),
        None => path_of_size(line, end, size + 2),
    }
}
