//! What a file that is no map shows at its beginning, and what may help then.
ghost use Rattle.std.specs.List.{prefix_len};
ghost use Rattle.std.specs.Prelude.{◌≡◌, ◌≤◌, length};
ghost use Rattle.json.specs.Word.{is_space as is_space_of_json};
ghost use Rattle.smap_fault_places.specs.Starts as spec;

use crate::scan::is_space;
use smap_record::{Fault, Kind};

/// What a file shows at its beginning that is no map.
#[derive(Clone, Copy, PartialEq, Eq)]
pub enum Start {
    /// That it is empty, but for white space.
    Empty,
    /// A byte order mark.
    Mark,
    /// That it is compressed by gzip.
    Gzip,
    /// A tag, as pages have it in HTML and XML.
    Page,
    /// None of these.
    Other,
}

/// How much white space is at the beginning of a text.
pub(crate) fn space_at_start(bytes: &[u8]) -> usize
    ensures value { result ≡ prefix_len is_space_of_json bytes.now }
    ensures within { result ≤ length bytes.now }
{
    bytes.iter().take_while(|b| is_space(**b)).count()
}

/// What the first byte of a text shows.
fn start_within(text: &[u8]) -> Start
    ensures { result ≡ spec.start_within text.now }
{
    match text {
        [] => Start::Empty,
        [byte, ..] if *byte == b'<' => Start::Page,
        _ => Start::Other,
    }
}

/// What a file with these bytes shows at its beginning.
pub fn start_of(bytes: &[u8]) -> Start
    ensures { result ≡ spec.start_of bytes.now }
{
    if bytes.starts_with(b"\xef\xbb\xbf") {
        Start::Mark
    } else if bytes.starts_with(b"\x1f\x8b") {
        Start::Gzip
    } else {
        start_within(&bytes[space_at_start(bytes)..])
    }
}

/// What may help with a map that is refused for this fault and begins so, in parentheses after a space; empty
/// unless it isn't JSON.
pub(crate) fn hint(fault: &Fault, start: Start) -> &'static str
    ensures { result.now ≡ spec.hint fault.now.kind start }
{
    match start {
        Start::Empty if fault.kind == Kind::Json => " (it is empty)",
        Start::Mark if fault.kind == Kind::Json => {
            " (it begins with a byte order mark: remove that)"
        }
        Start::Gzip if fault.kind == Kind::Json => " (it is compressed: gunzip it)",
        Start::Page if fault.kind == Kind::Json => " (it is an HTML page: the server's 404?)",
        _ => "",
    }
}
