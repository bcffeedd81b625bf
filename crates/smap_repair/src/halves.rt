//! Escapes of half a surrogate pair.
ghost use Rattle.std.specs.Prelude.{◌≡◌, ◌==◌, true, take};
ghost use Rattle.std.specs.List.{suffix_len};
ghost use Rattle.std.specs.Char.{is_digit, digit_value};
ghost use Rattle.smap_repair.specs.Halves as spec;

fn is_hex(byte: u8) -> bool
    ensures { result ≡ is_digit byte 16 }
{
    (byte as char).is_digit(16)
}

/// The value of a hexadecimal digit, and more than any for what is none.
fn digit(byte: u8) -> u32
    ensures { is_digit byte 16 ≡ true → result ≡ digit_value byte }
{
    match (byte as char).to_digit(16) {
        Some(value) => value,
        None => 16,
    }
}

fn is_escape_of_d(text: &[u8]) -> bool
    ensures { result ≡ spec.is_escape_of_d text.now }
{
    text.len() == 6
        && text[0] == b'\\'
        && text[1] == b'u'
        && (text[2] == b'd' || text[2] == b'D')
        && is_hex(text[3])
        && is_hex(text[4])
        && is_hex(text[5])
}

/// Whether these bytes are an escape of the first half of a pair.
pub(crate) fn is_first(text: &[u8]) -> bool
    ensures { result ≡ spec.is_first text.now }
{
    is_escape_of_d(text) && 8 <= digit(text[3]) && digit(text[3]) <= 11
}

/// Whether these bytes are an escape of the second half of a pair.
pub(crate) fn is_second(text: &[u8]) -> bool
    ensures { result ≡ spec.is_second text.now }
{
    is_escape_of_d(text) && 12 <= digit(text[3])
}

/// The first six bytes of a text, or all of a shorter one.
pub(crate) fn first_six(text: &[u8]) -> &[u8]
    ensures { result.now ≡ take 6 text.now }
{
    &text[..text.len().min(6)]
}

fn backslashes(text: &[u8]) -> usize
    ensures { result ≡ suffix_len (λ b. b == 92) text.now }
{
    text.iter().rev().take_while(|b| **b == b'\\').count()
}

/// Whether what follows a text isn't escaped by a backslash at its end.
fn is_over(text: &[u8]) -> bool
    ensures { result ≡ spec.is_over text.now }
{
    backslashes(text) % 2 == 0
}

/// Whether a text ends in an escape of the first half of a pair.
fn ends_in_first(text: &[u8]) -> bool
    ensures { result ≡ spec.ends_in_first text.now }
{
    let (before, last) = text.split_at(text.len().saturating_sub(6));
    is_first(last) && is_over(before)
}

/// Whether these bytes are an escape of half a pair whose other half isn't next to it.
pub(crate) fn is_alone(ahead: &[u8], text: &[u8], behind: &[u8]) -> bool
    ensures { result ≡ spec.is_alone ahead.now text.now behind.now }
{
    is_over(ahead)
        && ((is_first(text) && !is_second(first_six(behind)))
            || (is_second(text) && !ends_in_first(ahead)))
}
