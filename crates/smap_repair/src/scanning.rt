//! Where the members of an object and the entries of an array are in a JSON text. A text that is no JSON is
//! scanned too, and what is found is then of no use: the answer of a repair is always read again.
use crate::decoding::string_in;
use crate::places::Place;
use smap_shape::json_start;
use std::alloc::{AllocError, Global};

/// Where a scan is: in how many brackets, in a string or not, right behind a backslash or not.
#[derive(Clone, Copy)]
struct State {
    depth: usize,
    quoted: bool,
    escaped: bool,
}

impl State {
    fn outside() -> State {
        State {
            depth: 0,
            quoted: false,
            escaped: false,
        }
    }

    fn in_string(self, byte: u8) -> State {
        State {
            depth: self.depth,
            quoted: self.escaped || byte != b'"',
            escaped: !self.escaped && byte == b'\\',
        }
    }

    fn after(self, byte: u8) -> State {
        if self.quoted {
            return self.in_string(byte);
        }
        let depth = match byte {
            b'{' | b'[' => self.depth.saturating_add(1),
            b'}' | b']' => self.depth.saturating_sub(1),
            _ => self.depth,
        };
        State {
            depth,
            quoted: byte == b'"',
            escaped: false,
        }
    }

    /// Whether a byte that is met here ends a part of the outermost brackets.
    fn ends_part(self, byte: u8) -> bool {
        let separates = byte == b',' || byte == b':' || byte == b'}' || byte == b']';
        self.depth == 1 && !self.quoted && separates
    }
}

fn is_white(byte: u8) -> bool {
    byte == b' ' || byte == b'\n' || byte == b'\r' || byte == b'\t'
}

fn white_ahead(text: &[u8]) -> usize {
    text.iter().take_while(|b| is_white(**b)).count()
}

fn white_behind(text: &[u8]) -> usize {
    text.iter().rev().take_while(|b| is_white(**b)).count()
}

/// The place without the white space at its ends.
fn trimmed(text: &[u8], place: Place) -> Place {
    let bytes = place.bytes(text);
    Place {
        start: place.start.saturating_add(white_ahead(bytes)),
        end: place.end.saturating_sub(white_behind(bytes)),
    }
}

/// Where the value of the whole text is, behind the prefix line if it begins with one.
pub(crate) fn document(text: &[u8]) -> Place {
    let end = text.len();
    let start = json_start(text).unwrap_or(end);
    trimmed(text, Place { start, end })
}

/// The parts of an object or array: its keys and values in turn, or its entries.
pub(crate) fn parts(alloc: Global, text: &[u8], whole: Place) -> Result<Vec<Place>, AllocError> {
    let mut found = Vec::new(alloc);
    let mut state = State::outside();
    let mut start = whole.start.saturating_add(1);
    for i in whole.start..whole.end.min(text.len()) {
        let byte = text[i];
        if state.ends_part(byte) {
            let part = trimmed(text, Place { start, end: i });
            if !part.is_empty() {
                found.push(part)?;
            }
            start = i + 1;
        }
        state = state.after(byte);
        if state.depth == 0 {
            break;
        }
    }
    Ok(found)
}

/// Whether this place has a string that is this key.
fn is_key(alloc: Global, text: &[u8], place: Place, key: &str) -> Result<bool, AllocError> {
    let Ok(quoted) = str::from_utf8(place.bytes(text)) else {
        return Ok(false);
    };
    match string_in(alloc, quoted)? {
        Some(string) => Ok(string.as_str() == key),
        None => Ok(false),
    }
}

/// Where the value of the last member with this key is, by the parts of its object; none where it is null.
pub(crate) fn member(
    alloc: Global,
    text: &[u8],
    parts: &[Place],
    key: &str,
) -> Result<Option<Place>, AllocError> {
    let mut found = None;
    for i in 1..parts.len() {
        if i % 2 == 1 && is_key(alloc, text, parts[i - 1], key)? {
            found = Some(parts[i]);
        }
    }
    Ok(found)
}

/// Whether there is a value here that is no null.
pub(crate) fn present(text: &[u8], value: Option<Place>) -> Option<Place> {
    match value {
        Some(place) if place.bytes(text) != b"null".as_slice() => Some(place),
        _ => None,
    }
}
