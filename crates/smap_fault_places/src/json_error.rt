//! Where a text that isn't JSON goes wrong.
ghost use Rattle.std.specs.Prelude.{◌≡◌, ◌≤◌, length};
ghost use Rattle.smap_fault_places.specs.Ranges.{IsRangeOf};

use crate::TextRange;
use memchr::memchr;
use serde_json::Error;

/// Where a line of a text begins; lines count from 1, and end at line feeds.
fn line_start(text: &[u8], line: usize) -> usize
    ensures { result ≤ length text.now }
{
    let mut at = 0;
    for _ in 1..line {
        match memchr(b'\n', &text[at..]) {
            Some(len) => at += len + 1,
            None => return at,
        }
    }
    at
}

/// Where reading a text as JSON stopped. An error that says that the text is cut short is one at its end.
pub(crate) fn error_range(text: &[u8], error: &Error) -> TextRange
    ensures within { IsRangeOf (length text.now) result }
    ensures empty { result.start ≡ result.end }
{
    let ahead = error.column().saturating_sub(1);
    let at = line_start(text, error.line()).saturating_add(ahead);
    let at = if error.is_eof() {
        text.len()
    } else {
        at.min(text.len())
    };
    TextRange { start: at, end: at }
}
