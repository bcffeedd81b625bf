//! The debug id of a script, by which services for crash reports find its map.
ghost use Rattle.std.specs.Prelude.{◌≡◌, ◌≤◌, length, option_map, option_copied};
ghost use Rattle.std.specs.Char.{is_ascii_whitespace};
ghost use Rattle.std.specs.List.{prefix_len, suffix_len};
ghost use Rattle.serde_json.specs.View.{view};
ghost use Rattle.smap_lint_rules.specs.Ids as spec;

use serde_json::Value;

/// So many lines at the end of a script may hold its debug id.
const LINES: u8 = 5;

fn white_count_at_end(text: &[u8]) -> usize
    ensures value { result ≡ suffix_len is_ascii_whitespace text.now }
    ensures within { result ≤ length text.now }
{
    text.iter()
        .rev()
        .take_while(|b| b.is_ascii_whitespace())
        .count()
}

/// A text without white space at its end.
fn trimmed<'a>(text: &'a [u8]) -> &'a [u8]
    ensures { result.now ≡ spec.trimmed text.now }
{
    &text[..text.len() - white_count_at_end(text)]
}

fn closed_size(text: &[u8]) -> usize
    ensures value { result ≡ prefix_len spec.is_closed_id text.now }
    ensures within { result ≤ length text.now }
{
    text.iter()
        .take_while(|b| !(b.is_ascii_whitespace() || **b == b'*'))
        .count()
}

/// The id that a line gives, if it is a comment with one.
fn id_in<'a>(line: &'a [u8]) -> Option<&'a [u8]>
    ensures { option_map (λ id. id.now) result ≡ spec.id_in line.now }
{
    if line.starts_with(b"//# debugId=") {
        Some(trimmed(&line[12..]))
    } else if line.starts_with(b"/*# debugId=") {
        let rest = &line[12..];
        Some(&rest[..closed_size(rest)])
    } else {
        None
    }
}

/// How many bytes the last line of a text has.
fn line_size(text: &[u8]) -> usize
    ensures value { result ≡ suffix_len spec.is_within_line text.now }
    ensures within { result ≤ length text.now }
{
    text.iter().rev().take_while(|b| **b != b'\n').count()
}

/// The last line of a text, and what is before its line feed.
fn last_line<'a>(text: &'a [u8]) -> (&'a [u8], &'a [u8])
    ensures line { result.0.now ≡ spec.last_line text.now }
    ensures before { result.1.now ≡ spec.before_last_line text.now }
{
    let start = text.len() - line_size(text);
    (&text[start..], &text[..start.saturating_sub(1)])
}

/// The last id in so many lines at the end of a text.
fn id_in_lines<'a>(text: &'a [u8], lines: u8) -> Option<&'a [u8]>
    ensures { option_map (λ id. id.now) result ≡ spec.id_in_lines lines text.now }
{
    if lines == 0 {
        return None;
    }
    let (line, before) = last_line(text);
    match id_in(line) {
        Some(id) => Some(id),
        None => id_in_lines(before, lines - 1),
    }
}

/// The debug id that a script has in its last five lines, as `//# debugId=ID` or `/*# debugId=ID */`; the
/// last one counts. Lines end at LF, and white space at the end of the script is left out.
pub fn debug_id<'a>(text: &'a [u8]) -> Option<&'a [u8]>
    ensures { option_map (λ id. id.now) result ≡ spec.debug_id text.now }
{
    id_in_lines(trimmed(text), LINES)
}

/// The member that holds the debug id of a map: `debugId`, or `debug_id` where that is absent.
pub fn id_member<'a>(tree: &'a Value) -> Option<&'a Value>
    ensures { option_map (λ v. view v.now) result ≡ spec.id_member (view tree.now) }
{
    tree.get("debugId").or(tree.get("debug_id"))
}

/// The debug id of a map, if that member is a string.
pub fn map_id<'a>(tree: &'a Value) -> Option<&'a str>
    ensures { option_copied result ≡ spec.map_id (view tree.now) }
{
    id_member(tree)?.as_str()
}

/// Whether two debug ids are one: the case of letters doesn't count.
pub fn same_id(one: &[u8], other: &[u8]) -> bool
    ensures { result ≡ spec.same_id one.now other.now }
{
    one.eq_ignore_ascii_case(other)
}
