//! Values in a few words.
ghost use Rattle.std.specs.Prelude.{◌≡◌, ◌++◌, IfOk, OnOk, length, string_bytes};
ghost use Rattle.std.specs.Str.{IsAscii};
ghost use Rattle.serde_json.specs.View.{view};
ghost use Rattle.smap_differences.specs.Showing as spec;

use crate::{bare_json, cut, json};
use serde_json::Value;
use std::alloc::{AllocError, Global};

/// The most bytes of a text that are shown.
const MOST_SHOWN: usize = 60;

/// Whether a text is shown as it is.
pub(crate) fn is_short(text: &str) -> bool
    ensures { result ≡ spec.is_short text.now }
{
    text.len() <= MOST_SHOWN
}

/// A text as JSON has it, with dots in place of what is too long to be shown.
pub(crate) fn quoted(alloc: Global, text: &str) -> Result<String, AllocError>
    ensures { IfOk result (λ t. string_bytes t ≡ spec.quoted text.now) }
{
    if is_short(text) {
        return json(alloc, text);
    }
    let json = json(alloc, cut(text, MOST_SHOWN))?;
    let json = json.as_str();
    format!(in alloc; "{json}...")
}

/// A member's name as JSON has it, without the quotation marks.
fn bare(alloc: Global, name: &str) -> Result<String, AllocError>
    ensures { IfOk result (λ t. string_bytes t ≡ spec.bare name.now) }
{
    if is_short(name) {
        return bare_json(alloc, name);
    }
    let json = bare_json(alloc, cut(name, MOST_SHOWN))?;
    let json = json.as_str();
    format!(in alloc; "{json}...")
}

/// The line of a member, behind its name.
pub(crate) fn line_of(alloc: Global, name: &str, change: &str) -> Result<String, AllocError>
    ensures { IfOk result (λ t. string_bytes t ≡ spec.line name.now change.now) }
{
    let name = bare(alloc, name)?;
    let name = name.as_str();
    format!(in alloc; "{name}: {change}")
}

/// The word for so many entries.
fn entries_word(count: usize) -> &'static str
    ensures { result.now ≡ spec.entries_word count }
{
    if count == 1 { "entry" } else { "entries" }
}

/// The word for so many bytes.
fn bytes_word(count: usize) -> &'static str
    ensures { result.now ≡ spec.bytes_word count }
{
    if count == 1 { "byte" } else { "bytes" }
}

/// A comma behind a digit that three more digits, or six and so on, follow.
fn separator(left: usize) -> &'static str
    ensures { result.now ≡ spec.separator left }
{
    if 0 < left && left % 3 == 0 { "," } else { "" }
}

/// Appends a digit that so many others follow.
fn push_digit(text: &mut String, digit: &str, left: usize) -> Result<(), AllocError>
    ensures { OnOk result (string_bytes text.new
        ≡ string_bytes text.old ++ (digit.now ++ spec.separator left)) }
{
    text.push_str(digit)?;
    text.push_str(separator(left))
}

/// Digits with commas between each three.
fn grouped(alloc: Global, digits: &str) -> Result<String, AllocError>
    requires { IsAscii digits.now }
    ensures { IfOk result (λ t. string_bytes t ≡ spec.grouped digits.now) }
{
    let mut text = String::new(alloc);
    for i in 0..digits.len() {
        push_digit(&mut text, &digits[i..i + 1], digits.len() - i - 1)?;
    }
    Ok(text)
}

/// A number as it is shown.
pub(crate) fn count_text(alloc: Global, count: usize) -> Result<String, AllocError>
    ensures { IfOk result (λ t. string_bytes t ≡ spec.count_text count) }
{
    let digits = format!(in alloc; "{count}")?;
    grouped(alloc, digits.as_str())
}

/// So many entries.
pub(crate) fn entry_count(alloc: Global, count: usize) -> Result<String, AllocError>
    ensures { IfOk result (λ t. string_bytes t ≡ spec.entry_count count) }
{
    let (count, word) = (count_text(alloc, count)?, entries_word(count));
    let count = count.as_str();
    format!(in alloc; "{count} {word}")
}

/// So many entries before, and so many now.
pub(crate) fn entry_counts(alloc: Global, before: usize, now: usize) -> Result<String, AllocError>
    ensures { IfOk result (λ t. string_bytes t ≡ spec.entry_counts before now) }
{
    if before == now {
        return entry_count(alloc, now);
    }
    let (before, now) = (count_text(alloc, before)?, entry_count(alloc, now)?);
    let (before, now) = (before.as_str(), now.as_str());
    format!(in alloc; "{before} to {now}")
}

/// So many bytes.
fn byte_count(alloc: Global, count: usize) -> Result<String, AllocError>
    ensures { IfOk result (λ t. string_bytes t ≡ spec.byte_count count) }
{
    let (count, word) = (count_text(alloc, count)?, bytes_word(count));
    let count = count.as_str();
    format!(in alloc; "{count} {word}")
}

/// So many bytes before, and so many now.
pub(crate) fn byte_counts(alloc: Global, before: usize, now: usize) -> Result<String, AllocError>
    ensures { IfOk result (λ t. string_bytes t ≡ spec.byte_counts before now) }
{
    let is_as_long = before == now;
    let (before, now) = (count_text(alloc, before)?, byte_count(alloc, now)?);
    let (before, now) = (before.as_str(), now.as_str());
    if is_as_long {
        return format!(in alloc; "{now}, other ones");
    }
    format!(in alloc; "{before} to {now}")
}

/// How a text becomes another: both, where they are short, and else how long they are.
pub(crate) fn text_change(alloc: Global, before: &str, now: &str) -> Result<String, AllocError>
    ensures { IfOk result (λ t. string_bytes t ≡ spec.text_change before.now now.now) }
{
    if !is_short(before) || !is_short(now) {
        return byte_counts(alloc, before.len(), now.len());
    }
    let before = quoted(alloc, before)?;
    let now = quoted(alloc, now)?;
    let (before, now) = (before.as_str(), now.as_str());
    format!(in alloc; "{before} to {now}")
}

/// The same behind a comma.
fn behind_comma(alloc: Global, count: &str) -> Result<String, AllocError>
    ensures { IfOk result (λ t. string_bytes t ≡ spec.behind_comma count.now) }
{
    format!(in alloc; ", {count}")
}

/// How large an array is.
fn entries_size(alloc: Global, entries: &[Value]) -> Result<String, AllocError>
    ensures { IfOk result (λ t. string_bytes t ≡ spec.entries_size (length entries.now)) }
{
    let count = entry_count(alloc, entries.len())?;
    behind_comma(alloc, count.as_str())
}

/// How large a string is.
fn text_size(alloc: Global, text: &str) -> Result<String, AllocError>
    ensures { IfOk result (λ t. string_bytes t ≡ spec.text_size text.now) }
{
    let count = byte_count(alloc, text.len())?;
    behind_comma(alloc, count.as_str())
}

/// How large a value is, behind a comma, if it is an array or a string.
pub(crate) fn size_of(alloc: Global, value: &Value) -> Result<String, AllocError>
    ensures { IfOk result (λ t. string_bytes t ≡ spec.size (view value.now)) }
{
    if let Some(entries) = value.as_array() {
        return entries_size(alloc, entries);
    }
    if let Some(text) = value.as_str() {
        return text_size(alloc, text);
    }
    Ok(String::new(alloc))
}
