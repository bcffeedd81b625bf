//! The frames of a stack trace. Where the position of a frame is, a row of the table of forms says; its line
//! and its column follow the last two colons.
ghost use Rattle.std.specs.Prelude.{◌≡◌, ℕ, ◌≤◌, ◌==◌, drop, length, option_map, take};
ghost use Rattle.std.specs.Prelude.{IfSome, MatchOption, decimal, map};
ghost use Rattle.std.specs.List.{prefix_len, before_last, after_last};
ghost use Rattle.std.specs.Str.Lines.{strip_carriage_return};
ghost use Rattle.smap_frames.specs.Frame.{IsFrame, IsPlace, FrameParts};
ghost use Rattle.smap_frames.specs.Reading as spec;
ghost use Rattle.smap_frames.specs.FormView.{form_in};
ghost use Rattle.smap_frames.specs.FrameView.{parts_in};

use crate::forms::{Form, forms};
use crate::parts::Frame;
use memchr::{memchr, memrchr};
use smap_mappings::MAX_POSITION;

/// The greatest line and the greatest column of a trace, which counts them from 1.
const MOST: u32 = MAX_POSITION + 1;

/// The number from 1 to [`MOST`] with this decimal form.
pub(crate) fn place(text: &[u8]) -> Option<u32>
    ensures { MatchOption result ((n : ℕ) → IsPlace n → text.now ≡ decimal n → ⊥)
        (λ n. IsPlace n × (text.now ≡ decimal n)) }
{
    if text.starts_with(b"0") {
        return None;
    }
    let mut number = 0;
    for digit in text {
        if !digit.is_ascii_digit() || number > MOST / 10 {
            return None;
        }
        number = 10 * number + u32::from(*digit - b'0');
    }
    if number == 0 || number > MOST {
        return None;
    }
    Some(number)
}

/// What is before and after the last mark, or nothing and all if there is none.
fn split_at_last<'a>(text: &'a [u8], mark: u8) -> (&'a [u8], &'a [u8])
    ensures before { result.0.now ≡ before_last (λ b. b == mark) text.now }
    ensures after { result.1.now ≡ after_last (λ b. b == mark) text.now }
{
    match memrchr(mark, text) {
        Some(at) => (&text[..at], &text[at + 1..]),
        None => (&[], text),
    }
}

/// Whether this may be a frame's URL: it isn't looked at any closer.
fn is_url(text: &[u8]) -> bool
    ensures { result ≡ spec.is_url text.now }
{
    !text.is_empty() && !text.contains(&b' ')
}

/// The frame whose position is from `start` up to `end`.
fn framed<'a>(line: &'a [u8], start: usize, end: usize) -> Option<Frame<'a>>
    requires { (start ≤ end) × (end ≤ length line.now) }
    ensures { option_map parts_in result ≡ spec.between spec.framed line.now start end }
{
    let (rest, column) = split_at_last(&line[start..end], b':');
    let (url, line_number) = split_at_last(rest, b':');
    if !is_url(url) {
        return None;
    }
    let line_place = place(line_number)?;
    let column_place = place(column)?;
    Some(Frame {
        before: &line[..start],
        url,
        line: line_place,
        column: column_place,
        after: &line[end..],
    })
}

/// The number of bytes at the end that are no spaces.
fn word_len(text: &[u8]) -> usize
    ensures value { result ≡ spec.word_len text.now }
    ensures within { result ≤ length text.now }
{
    text.iter().rev().take_while(|b| **b != b' ').count()
}

/// How many bytes of the text stand before the position, if it is one of the form.
fn lead_len(form: &Form<'_>, text: &[u8]) -> usize
    ensures { result ≡ spec.lead_len (form_in form.now) text.now }
{
    if form.mark == b' ' {
        text.len() - word_len(text) + word_len(form.opening)
    } else {
        match memchr(form.mark, text) {
            Some(at) => at + 1,
            None => text.len() + 1,
        }
    }
}

/// Whether a position of the form may stand behind this.
fn is_lead(form: &Form<'_>, lead: &[u8]) -> bool
    ensures { result ≡ spec.is_lead (form_in form.now) lead.now }
{
    lead.ends_with(form.opening) && (form.named || lead.len() <= form.opening.len())
}

/// Where in a text, which stands behind `at ` or not, the position of a frame of this form is.
fn span(form: &Form<'_>, is_at: bool, text: &[u8]) -> Option<(usize, usize)>
    ensures value { result ≡ spec.span (form_in form.now) is_at text.now }
    ensures within { IfSome result (λ p. (p.0 ≤ p.1) × (p.1 ≤ length text.now)) }
{
    if form.behind_at != is_at || !text.ends_with(form.closing) {
        return None;
    }
    let stop = text.len() - form.closing.len();
    let lead = lead_len(form, &text[..stop]);
    if lead <= stop && is_lead(form, &text[..lead]) {
        Some((lead, stop))
    } else {
        None
    }
}

/// The frame of this form whose text is from `start` up to `end`, behind `at ` or not.
fn read<'a>(
    form: &Form<'_>,
    is_at: bool,
    line: &'a [u8],
    start: usize,
    end: usize,
) -> Option<Frame<'a>>
    requires { (start ≤ end) × (end ≤ length line.now) }
    ensures { option_map parts_in result
        ≡ spec.between (spec.read (form_in form.now) is_at) line.now start end }
{
    let (lead, stop) = span(form, is_at, &line[start..end])?;
    framed(line, start + lead, start + stop)
}

/// The number of spaces at the start.
fn space_count(text: &[u8]) -> usize
    ensures value { result ≡ prefix_len spec.is_space text.now }
    ensures within { result ≤ length text.now }
{
    text.iter().take_while(|b| **b == b' ').count()
}

/// How many bytes the spaces at the start and `at ` behind them take, or 0 if there is no `at `.
fn at_len(text: &[u8]) -> usize
    ensures value { result ≡ spec.at_len text.now }
    ensures within { result ≤ length text.now }
{
    let spaces = space_count(text);
    if text[spaces..].starts_with(b"at ") {
        spaces + 3
    } else {
        0
    }
}

/// The frame of the line up to `end`, by the first form that reads one.
fn body_frame<'a>(rows: &[Form<'_>], line: &'a [u8], end: usize) -> Option<Frame<'a>>
    requires { end ≤ length line.now }
    ensures { option_map parts_in result
        ≡ spec.body_frame (map form_in rows.now) (take end line.now) (drop end line.now) }
{
    let start = at_len(&line[..end]);
    for i in 0..rows.len() {
        let found = read(&rows[i], start > 0, line, start, end);
        if found.is_some() {
            return found;
        }
    }
    None
}

/// How long the line is without the carriage return at its end.
fn body_len(line: &[u8]) -> usize
    ensures value { result ≡ length (strip_carriage_return line.now) }
    ensures within { result ≤ length line.now }
{
    let n = line.len();
    if n > 0 && line[n - 1] == b'\r' {
        n - 1
    } else {
        n
    }
}

/// The frame that a line of a stack trace is, if it is one. `docs/OUTPUT.md`, "Frames", has the grammar of
/// the forms in which engines write it.
///
/// The line is passed without its line feed; a carriage return at its end belongs to `after`. A line that
/// holds a line feed isn't a frame. It takes no memory, and time linear in the line.
///
/// # Examples
///
/// ```
/// let found = frame(b"    at f (http://h/m/out.js:1:2)");
/// // url: b"http://h/m/out.js", line: 1, column: 2, before: b"    at f (", after: b")"
/// ```
pub fn frame<'a>(line: &'a [u8]) -> Option<Frame<'a>>
    ensures is { MatchOption result ((f : FrameParts) → IsFrame line.now f → ⊥)
        (λ f. IsFrame line.now (parts_in f)) }
    ensures value { option_map parts_in result ≡ spec.frame_of line.now }
{
    if line.contains(&b'\n') {
        None
    } else {
        body_frame(&forms(), line, body_len(line))
    }
}
