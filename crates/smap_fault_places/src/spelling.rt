//! How a string is spelled in JSON (RFC 8259, section 7). What is found here is tried afterwards, so nothing
//! is promised of it but that it is within the string.
ghost use Rattle.std.specs.Prelude.{◌≤◌, ◌<◌, IfSome, length};

/// The code unit that four hexadecimal digits are.
fn code_unit(digits: &[u8]) -> Option<u16> {
    let digits = str::from_utf8(digits).ok()?;
    u16::from_str_radix(digits, 16).ok()
}

/// Whether a code unit of UTF-16 is the first one of a pair.
fn begins_pair(unit: u16) -> bool {
    (0xd800..0xdc00).contains(&unit)
}

/// How many bytes of UTF-8 the character is that begins with a code unit of UTF-16.
fn utf8_len(unit: u16) -> usize {
    match unit {
        0..0x80 => 1,
        0x80..0x800 => 2,
        _ if begins_pair(unit) => 4,
        _ => 3,
    }
}

/// The same as [`first_spelled`] where the rest begins with `\u`.
fn first_in_hex(spelled: &[u8]) -> Option<(usize, usize)>
    ensures { IfSome result (λ r. (0 < r.1) × (r.1 ≤ length spelled.now)) }
{
    if spelled.len() < 6 {
        return None;
    }
    let unit = code_unit(&spelled[2..6])?;
    let used = if begins_pair(unit) { 12 } else { 6 };
    if spelled.len() < used {
        None
    } else {
        Some((utf8_len(unit), used))
    }
}

/// How many bytes are spelled first in the rest of a string, and by how many.
fn first_spelled(spelled: &[u8]) -> Option<(usize, usize)>
    ensures { IfSome result (λ r. (0 < r.1) × (r.1 ≤ length spelled.now)) }
{
    if !spelled.starts_with(b"\\") {
        return if spelled.is_empty() {
            None
        } else {
            Some((1, 1))
        };
    }
    if spelled.starts_with(b"\\u") {
        first_in_hex(spelled)
    } else if spelled.len() < 2 {
        None
    } else {
        Some((1, 2))
    }
}

/// How many bytes of a string's text spell its first `len` bytes.
pub(crate) fn spelled_len(spelled: &[u8], len: usize) -> Option<usize>
    ensures { IfSome result (λ n. n ≤ length spelled.now) }
{
    let mut left = len;
    let mut at = 0;
    'units: while left > 0 {
        let (bytes, used) = first_spelled(&spelled[at..])?;
        left = left.saturating_sub(bytes);
        at += used;
    }
    Some(at)
}
