//! The lines of a text in UTF-8, in UTF-16 units, in which maps count columns.
ghost use Rattle.std.specs.Prelude.{◌≡◌, ◌+◌, ◌^◌, ◌<◌, ◌≤◌, ◌∷◌, IfOk, option_map};
ghost use Rattle.smap_mappings.specs.Widths as spec;

use std::alloc::{AllocError, Global};

/// How many UTF-16 units a character has that begins with this byte, or 0 where none begins.
fn units(byte: u8) -> usize
    ensures value { result ≡ spec.units byte }
    ensures most { result ≤ 2 }
{
    match byte {
        0..=127 => 1,
        128..=191 => 0,
        192..=239 => 1,
        240..=255 => 2,
    }
}

/// Whether what follows a byte begins with a line feed.
fn starts_feed(rest: &[u8]) -> bool
    ensures { result ≡ spec.starts_feed rest.now }
{
    match rest {
        [first, ..] => *first == b'\n',
        [] => false,
    }
}

/// Whether a line ends with this byte: LF, or CR without an LF behind it.
fn ends_line(byte: u8, rest: &[u8]) -> bool
    ensures { result ≡ spec.ends_line byte rest.now }
{
    byte == b'\n' || (byte == b'\r' && !starts_feed(rest))
}

/// The units of a byte that ends no line. The CR of a CR LF has none.
fn units_before(byte: u8) -> usize
    ensures value { result ≡ spec.units_before byte }
    ensures most { result ≤ 2 }
{
    if byte == b'\r' { 0 } else { units(byte) }
}

/// Takes a byte into the widths of the lines before it, and into that of its own line, which is answered.
fn widened(
    widths: &mut Vec<usize>,
    width: usize,
    byte: u8,
    rest: &[u8],
) -> Result<usize, AllocError>
    requires { width + 2 < 2 ^ 64 }
    ensures widths { IfOk result (λ next. spec.with_last widths.new.items next (spec.line_widths rest.now)
        ≡ spec.with_last widths.old.items width (spec.line_widths (byte ∷ rest.now))) }
    ensures most { IfOk result (λ next. next ≤ width + 2) }
{
    if !ends_line(byte, rest) {
        return Ok(width + units_before(byte));
    }
    widths.push(width)?;
    Ok(0)
}

/// The width of each line of a text in UTF-8, in UTF-16 units and without its end. Lines end at LF, CR LF or
/// CR; behind the last end is one more line, which may be empty.
///
/// # Errors
///
/// `AllocError`.
pub fn line_widths(alloc: Global, text: &[u8]) -> Result<Vec<usize>, AllocError>
    ensures { IfOk result (λ widths. widths.items ≡ spec.line_widths text.now) }
{
    let mut widths = Vec::new(alloc);
    let mut width = 0;
    for i in 0..text.len() {
        width = widened(&mut widths, width, text[i], &text[i + 1..])?;
    }
    widths.push(width)?;
    Ok(widths)
}

/// Whether a text whose lines are so wide has a position: its end, and that of each line, are positions too.
/// Lines and columns count from 0.
pub fn is_within(widths: &[usize], line: u32, column: u32) -> bool
    ensures { result ≡ spec.is_within widths.now line column }
{
    match widths.get(line as usize) {
        Some(width) => column as usize <= *width,
        None => false,
    }
}

/// Whether a text begins with U+2028 or U+2029.
fn starts_separator(text: &[u8]) -> bool
    ensures { result ≡ spec.starts_separator text.now }
{
    match text {
        [0xe2, 0x80, 0xa8 | 0xa9, ..] => true,
        _ => false,
    }
}

/// Whether U+2028 or U+2029 is in a text: few tools agree on whether a line ends there.
pub fn has_separator(text: &[u8]) -> bool
    ensures { result ≡ spec.has_separator text.now }
{
    for i in 0..text.len() {
        if starts_separator(&text[i..]) {
            return true;
        }
    }
    false
}

/// Whether positions of a script can be counted alike by all.
fn is_counted(text: &[u8]) -> bool
    ensures { result ≡ spec.is_counted text.now }
{
    match std::str::from_utf8(text) {
        Ok(_) => !has_separator(text),
        Err(_) => false,
    }
}

/// The widths of the lines of a script, as [`line_widths`] has them; none where its positions can't be
/// counted: it isn't UTF-8, or has U+2028 or U+2029.
///
/// # Errors
///
/// `AllocError`.
pub fn script_widths(alloc: Global, text: &[u8]) -> Result<Option<Vec<usize>>, AllocError>
    ensures { IfOk result (λ found. option_map (λ widths. widths.items) found ≡ spec.script_widths text.now) }
{
    if !is_counted(text) {
        return Ok(None);
    }
    Ok(Some(line_widths(alloc, text)?))
}
