//! Strings that go out into a buffer of the caller's.
ghost use Rattle.std.specs.Prelude.{◌≡◌, length, option_copied, option_map};
ghost use Rattle.smap_c_answers.specs.Strings.{copied, TextReported};

use crate::codes::{NONE, OK};

/// Copies as much of the text as the buffer takes, leaves the rest of the buffer, and answers how long the
/// text is.
pub fn copy_out<T: Copy>(text: &[T], out: &mut [T]) -> usize
    ensures len { result ≡ length text.now }
    ensures copied { out.new ≡ copied text.now out.old }
{
    let n = text.len().min(out.len());
    out[..n].copy_from_slice(&text[..n]);
    text.len()
}

/// Copies bytes out, where there are some.
pub fn report_bytes(text: Option<&[u8]>, out: &mut [u8], len: &mut usize) -> u32
    ensures { TextReported (option_map (λ t. t.now) text.entry) out.old out.new len.new result }
{
    match text {
        Some(text) => {
            *len = copy_out(text, out);
            OK
        }
        None => {
            *len = 0;
            NONE
        }
    }
}

/// Copies a text out, where there is one.
pub fn report_text(text: Option<&str>, out: &mut [u8], len: &mut usize) -> u32
    ensures { TextReported (option_copied text.entry) out.old out.new len.new result }
{
    match text {
        Some(text) => {
            *len = copy_out(text.as_bytes(), out);
            OK
        }
        None => {
            *len = 0;
            NONE
        }
    }
}
