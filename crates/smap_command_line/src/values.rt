//! What values of options have to be, and the first that isn't.
ghost use Rattle.std.specs.Prelude.{◌≡◌, map, option_map};
ghost use Rattle.smap_command_line.specs.Lookups.{rows_in};
ghost use Rattle.smap_command_line.specs.Rows.{row_view, rows_view};
ghost use Rattle.smap_command_line.specs.Values as spec;

use crate::lookups::Options;
use crate::rows::{FORMATS, LEVELS, OptionRow, SIZES, Value};

/// Whether a text is one of these.
fn is_among(words: &[&str], text: &str) -> bool
    ensures { result ≡ spec.is_among (λ w. w.now) words.now text.now }
{
    words.contains(&text)
}

/// Whether a text is a number up to this one.
fn is_up_to(most: u64, text: &str) -> bool
    ensures { result ≡ spec.is_up_to most text.now }
{
    match text.parse::<u64>() {
        Ok(number) => number <= most,
        Err(_) => false,
    }
}

/// What stands before the first `=` and behind it, if there is one.
pub(crate) fn parted(text: &str) -> Option<(&str, &str)>
    ensures { option_map (λ p. (p.0.now, p.1.now)) result ≡ spec.parted text.now }
{
    text.split_once('=')
}

/// Whether a value is what its option takes.
fn is_value(value: Value, text: &str) -> bool
    ensures { result ≡ spec.is_value value text.now }
{
    match value {
        Value::Flag | Value::Text => true,
        Value::File => !text.is_empty(),
        Value::Number(most) => is_up_to(most, text),
        Value::Format => is_among(&FORMATS, text),
        Value::Sizes => is_among(&SIZES, text),
        Value::Pair => match parted(text) {
            Some((key, _)) => !key.is_empty(),
            None => false,
        },
        Value::Level => match parted(text) {
            Some((key, level)) => !key.is_empty() && is_among(&LEVELS, level),
            None => false,
        },
    }
}

/// The first of these that isn't such a value.
fn bad_among<'a>(value: Value, texts: &[&'a str]) -> Option<&'a str>
    ensures { option_map (λ t. t.now) result ≡ spec.bad_among value (map (λ s. s.now) texts.now) }
{
    for i in 0..texts.len() {
        if !is_value(value, texts[i]) {
            return Some(texts[i]);
        }
    }
    None
}

/// The first value of an option that isn't what the option takes.
fn bad_of<'a>(options: &Options<'a>, row: &OptionRow) -> Option<(OptionRow, &'a str)>
    ensures { option_map (λ p. (row_view p.0, p.1.now)) result
        ≡ spec.bad_of (rows_in options.now) (row_view row.now) }
{
    let text = bad_among(row.value, options.uses(row.name)?)?;
    Some((*row, text))
}

/// The first value that isn't what its option takes.
pub(crate) fn first_bad<'a>(
    options: &Options<'a>,
    rows: &[OptionRow],
) -> Option<(OptionRow, &'a str)>
    ensures { option_map (λ p. (row_view p.0, p.1.now)) result
        ≡ spec.first_bad (rows_view rows.now) (rows_in options.now) }
{
    for i in 0..rows.len() {
        let bad = bad_of(options, &rows[i]);
        if bad.is_some() {
            return bad;
        }
    }
    None
}
