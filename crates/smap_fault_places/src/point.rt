//! Lines and columns.
ghost use Rattle.std.specs.Prelude.{◌≡◌, ◌≤◌, length, not};
ghost use Rattle.std.specs.List.{after_last, count_by, suffix_len};
ghost use Rattle.smap_fault_places.specs.Points as spec;

/// A line and a column, both from 1. A column counts UTF-16 code units, as editors do, and as columns in
/// source maps do. Lines end at LF, at CR LF, and at CR.
#[derive(Clone, Copy, PartialEq, Eq)]
pub struct Point {
    /// The line.
    pub line: u64,
    /// The column.
    pub column: u64,
}

/// Whether a line ends behind this byte.
fn ends_line(byte: u8, after: &[u8]) -> bool
    ensures { result ≡ spec.ends_line byte after.now }
{
    byte == b'\n' || (byte == b'\r' && !after.starts_with(b"\n"))
}

/// How many lines end in a text.
fn line_ends(text: &[u8]) -> usize
    ensures value { result ≡ spec.line_ends text.now }
    ensures within { result ≤ length text.now }
{
    let mut count = 0;
    let mut rest = text;
    'bytes: while let [byte, after @ ..] = rest {
        if ends_line(*byte, after) {
            count += 1;
        }
        rest = after;
    }
    count
}

/// How many bytes of a text are behind the last line end in it.
fn last_line_len(text: &[u8]) -> usize
    ensures value { result ≡ suffix_len (λ b. not (spec.is_break b)) text.now }
    ensures within { result ≤ length text.now }
{
    text.iter()
        .rev()
        .take_while(|b| **b != b'\n' && **b != b'\r')
        .count()
}

/// What is behind the last line end of a text.
fn last_line(text: &[u8]) -> &[u8]
    ensures { result.now ≡ after_last spec.is_break text.now }
{
    &text[text.len() - last_line_len(text)..]
}

fn character_count(text: &[u8]) -> usize
    ensures value { result ≡ count_by spec.begins_character text.now }
    ensures within { result ≤ length text.now }
{
    text.iter().filter(|b| **b < 128 || **b >= 192).count()
}

fn pair_count(text: &[u8]) -> usize
    ensures value { result ≡ count_by spec.begins_pair text.now }
    ensures within { result ≤ length text.now }
{
    text.iter().filter(|b| **b >= 240).count()
}

/// The line and the column of the byte at this place of a text. A place behind the text counts as its end. It
/// takes time linear in `at`.
pub fn point_of(text: &[u8], at: usize) -> Point
    ensures { result ≡ spec.point_at text.now at }
{
    let before = &text[..at.min(text.len())];
    let line = last_line(before);
    Point {
        line: 1 + line_ends(before) as u64,
        column: 1 + character_count(line) as u64 + pair_count(line) as u64,
    }
}
