//! What stands before and behind a script's URL where a position is found anywhere in a line: the byte
//! that ends what is before it, and its line and column, perhaps behind a query.
ghost use Rattle.std.specs.Prelude.{◌≡◌, ◌<◌, ◌≤◌, IfSome, length};
ghost use Rattle.std.specs.Char.{is_ascii_digit};
ghost use Rattle.std.specs.List.{prefix_len, suffix_len};
ghost use Rattle.smap_frames.specs.Places as spec;

use crate::frames::place;

/// A line and a column behind a URL.
#[derive(Clone, Copy, PartialEq, Eq)]
pub struct Place {
    /// From 1.
    pub line: u32,
    /// From 1.
    pub column: u32,
    /// The bytes that these take with their colons, and with what is ignored before them.
    pub width: usize,
}

/// Whether a URL or a path can hold the byte before the rest of it.
fn continues(b: u8) -> bool
    ensures { result ≡ spec.continues b }
{
    b.is_ascii_alphanumeric() || b >= 128 || b"-._~%/\\:+$#?&!)]}".contains(&b)
}

/// How many parameters of a colour sequence, and semicolons between them, the text ends in.
fn parameter_count(text: &[u8]) -> usize
    ensures value { result ≡ suffix_len spec.is_parameter text.now }
    ensures within { result ≤ length text.now }
{
    text.iter()
        .rev()
        .take_while(|b| b.is_ascii_digit() || **b == b';')
        .count()
}

/// Whether the text ends in a sequence that sets a colour on a terminal.
fn ends_in_colour(text: &[u8]) -> bool
    ensures { result ≡ spec.ends_in_colour text.now }
{
    if !text.ends_with(b"m") {
        return false;
    }
    let rest = &text[..text.len() - 1];
    rest[..rest.len() - parameter_count(rest)].ends_with(b"\x1b[")
}

/// Whether a URL may begin behind this text.
pub fn may_begin(before: &[u8]) -> bool
    ensures { result ≡ spec.may_begin before.now }
{
    match before.last() {
        Some(b) => !continues(*b) || ends_in_colour(before),
        None => true,
    }
}

/// How many digits the text begins with.
fn digit_count(text: &[u8]) -> usize
    ensures value { result ≡ prefix_len is_ascii_digit text.now }
    ensures within { result ≤ length text.now }
{
    text.iter().take_while(|b| b.is_ascii_digit()).count()
}

/// A colon and a number, and how many bytes these take.
fn number_after(text: &[u8]) -> Option<(u32, usize)>
    ensures value { result ≡ spec.number_after text.now }
    ensures within { IfSome result (λ n. n.1 ≤ length text.now) }
    ensures from_one { IfSome result (λ n. 0 < n.0) }
{
    if !text.starts_with(b":") {
        return None;
    }
    let digits = &text[1..];
    let count = digit_count(digits);
    match place(&digits[..count]) {
        Some(number) => Some((number, count + 1)),
        None => None,
    }
}

/// `:L:C`.
fn line_and_column(text: &[u8]) -> Option<Place>
    ensures value { result ≡ spec.line_and_column text.now }
    ensures within { IfSome result (λ p. p.width ≤ length text.now) }
    ensures from_one { IfSome result (λ p. (0 < p.line) × (0 < p.column)) }
{
    let (line, line_len) = number_after(text)?;
    let (column, column_len) = number_after(&text[line_len..])?;
    Some(Place {
        line,
        column,
        width: line_len + column_len,
    })
}

/// Whether an ignored query or fragment can hold the byte.
fn is_query_byte(b: u8) -> bool
    ensures { result ≡ spec.is_query_byte b }
{
    b > b' ' && !b"\x7f\"'`<>\\:?#".contains(&b)
}

/// How many bytes that a query or a fragment can hold the text begins with.
fn query_byte_count(text: &[u8]) -> usize
    ensures value { result ≡ prefix_len spec.is_query_byte text.now }
    ensures within { result ≤ length text.now }
{
    text.iter().take_while(|b| is_query_byte(**b)).count()
}

/// How many bytes the mark takes with what follows it.
fn marked_len(mark: &[u8], text: &[u8]) -> usize
    requires { length mark.now ≡ 1 }
    ensures value { result ≡ spec.marked_len mark.now text.now }
    ensures within { result ≤ length text.now }
{
    if !text.starts_with(mark) {
        return 0;
    }
    query_byte_count(&text[1..]) + 1
}

/// How many bytes of a query and of a fragment that may be left out the text begins with.
pub fn query_len(text: &[u8]) -> usize
    ensures value { result ≡ spec.query_len text.now }
    ensures within { result ≤ length text.now }
{
    let query = marked_len(b"?", text);
    query + marked_len(b"#", &text[query..])
}

/// The line and the column behind a URL, and behind a query and a fragment if these are ignored.
pub fn place_after(text: &[u8], ignore_query: bool) -> Option<Place>
    ensures value { result ≡ spec.place_after ignore_query text.now }
    ensures within { IfSome result (λ p. p.width ≤ length text.now) }
    ensures from_one { IfSome result (λ p. (0 < p.line) × (0 < p.column)) }
{
    if !ignore_query {
        return line_and_column(text);
    }
    let query = query_len(text);
    let place = line_and_column(&text[query..])?;
    Some(Place {
        width: query + place.width,
        ..place
    })
}
