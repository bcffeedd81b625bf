//! Text that is safe to print.
ghost use Rattle.std.specs.Prelude.{◌≡◌, ◌++◌, ◌^◌, ◌<◌, IfOk, OnOk, chars, string_bytes};
ghost use Rattle.std.specs.Char.{digit_char};
ghost use Rattle.smap_system.specs.Printing as spec;

use std::alloc::{AllocError, Global};

/// Whether a terminal may take a character for something else than what it shows.
fn is_unsafe(c: char) -> bool
    ensures { result ≡ spec.is_unsafe c }
{
    matches!(
        c,
        '\0'..='\u{1f}'
            | '\u{7f}'..='\u{9f}'
            | '\u{61c}'
            | '\u{200e}'..='\u{200f}'
            | '\u{2028}'..='\u{202e}'
            | '\u{2066}'..='\u{2069}'
    )
}

/// A hexadecimal digit.
fn digit(value: u32) -> char
    requires { value < 16 }
    ensures { result ≡ digit_char value }
{
    if value < 10 {
        (b'0' + value as u8) as char
    } else {
        (b'a' + (value as u8 - 10)) as char
    }
}

fn push_byte(text: &mut String, byte: u32) -> Result<(), AllocError>
    requires { byte < 256 }
    ensures { OnOk result (string_bytes text.new ≡ string_bytes text.old ++ spec.hex_byte byte) }
{
    text.push(digit(byte / 16))?;
    text.push(digit(byte % 16))
}

fn push_escaped(text: &mut String, code: u32) -> Result<(), AllocError>
    requires { code < 2 ^ 16 }
    ensures { OnOk result (string_bytes text.new ≡ string_bytes text.old ++ spec.escaped code) }
{
    text.push_str("\\u")?;
    push_byte(text, code / 256)?;
    push_byte(text, code % 256)
}

fn push_safe(text: &mut String, c: char) -> Result<(), AllocError>
    ensures { OnOk result (string_bytes text.new ≡ string_bytes text.old ++ spec.safe_char c) }
{
    if is_unsafe(c) {
        push_escaped(text, u32::from(c))
    } else {
        text.push(c)
    }
}

/// The characters of a text, each as a terminal may have it.
fn safe_text(alloc: Global, text: &str) -> Result<String, AllocError>
    ensures { IfOk result (λ t. string_bytes t ≡ spec.safe_text (chars text.now)) }
{
    let mut made = String::new(alloc);
    for c in text.chars() {
        push_safe(&mut made, c)?;
    }
    Ok(made)
}

/// A text as a terminal may have it: control characters (C0 with LF and TAB, DEL, C1), U+2028, U+2029 and the
/// characters that turn the direction of writing (U+061C, U+200E, U+200F, U+202A to U+202E, U+2066 to U+2069)
/// as `\u001b`, four small hexadecimal digits. Bytes that aren't UTF-8 become U+FFFD. All else is as it is.
///
/// # Errors
///
/// `AllocError`.
pub fn printable(alloc: Global, text: &[u8]) -> Result<String, AllocError>
    ensures { IfOk result (λ t. string_bytes t ≡ spec.printable text.now) }
{
    let text = String::from_utf8_lossy(alloc, text)?;
    safe_text(alloc, &text)
}
