//! Mappings as numbers, each by what it differs in from the one before it.
ghost use Rattle.std.specs.Prelude.{◌≡◌, ◌-◌, ◌<◌, ◌≤◌, ◌^◌, ◌++◌, IfOk, OnOk, string_bytes};
ghost use Rattle.smap_view_page.specs.Numbers.{text as numbers_text};
ghost use Rattle.smap_view_page.specs.Steps as spec;

use crate::numbers::{difference, push_number};
use std::alloc::AllocError;

/// Where a mapping leads: numbers of the source and of the name, and the position in the source.
#[derive(Clone, Copy, PartialEq, Eq)]
pub(crate) struct Origin {
    pub(crate) source: u32,
    pub(crate) line: u32,
    pub(crate) column: u32,
    pub(crate) name: Option<u32>,
}

/// A mapping.
#[derive(Clone, Copy, PartialEq, Eq)]
pub(crate) struct Place {
    pub(crate) line: u32,
    pub(crate) column: u32,
    pub(crate) original: Option<Origin>,
}

/// What the mappings before had last.
#[derive(Clone, Copy, PartialEq, Eq)]
pub(crate) struct Last {
    line: u32,
    column: u32,
    source: u32,
    row: u32,
    offset: u32,
    name: u32,
}

impl Last {
    /// Before the first mapping.
    pub(crate) fn new() -> Last
        ensures { result ≡ spec.first }
    {
        Last {
            line: 0,
            column: 0,
            source: 0,
            row: 0,
            offset: 0,
            name: 0,
        }
    }
}

/// How far a number has gone on; 0 where it is smaller, as in a sorted list it never is.
fn ahead(old: u32, new: u32) -> u64
    ensures value { result ≡ new - old }
    ensures small { result < 2 ^ 32 }
{
    u64::from(new.saturating_sub(old))
}

fn line_step(last: Last, line: u32) -> Option<u32>
    ensures { result ≡ spec.line_step last line }
{
    if line == last.line {
        None
    } else {
        Some(line.saturating_sub(last.line))
    }
}

fn push_step(text: &mut String, step: Option<u32>) -> Result<(), AllocError>
    ensures { OnOk result (string_bytes text.new
        ≡ string_bytes text.old ++ numbers_text (spec.step_numbers step)) }
{
    match step {
        None => Ok(()),
        Some(step) => push_number(text, 4 * u64::from(step) + 3),
    }
}

fn column_before(last: Last, line: u32) -> u32
    ensures { result ≡ spec.column_before last line }
{
    if line == last.line { last.column } else { 0 }
}

fn kind(original: Option<Origin>) -> u64
    ensures value { result ≡ spec.kind original }
    ensures small { result ≤ 2 }
{
    match original {
        None => 0,
        Some(origin) => { if origin.name.is_some() { 2 } else { 1 } }
    }
}

fn push_name(text: &mut String, last: Last, name: Option<u32>) -> Result<(), AllocError>
    ensures { OnOk result (string_bytes text.new
        ≡ string_bytes text.old ++ numbers_text (spec.name_numbers last name)) }
{
    match name {
        None => Ok(()),
        Some(name) => push_number(text, difference(last.name, name)),
    }
}

fn push_origin(text: &mut String, last: Last, original: Option<Origin>) -> Result<(), AllocError>
    ensures { OnOk result (string_bytes text.new
        ≡ string_bytes text.old ++ numbers_text (spec.origin_numbers last original)) }
{
    let Some(origin) = original else {
        return Ok(());
    };
    push_number(text, difference(last.source, origin.source))?;
    push_number(text, difference(last.row, origin.line))?;
    push_number(text, difference(last.offset, origin.column))?;
    push_name(text, last, origin.name)
}

fn after_origin(last: Last, original: Option<Origin>) -> Last
    ensures { result ≡ spec.after_origin last original }
{
    let Some(origin) = original else {
        return last;
    };
    Last {
        source: origin.source,
        row: origin.line,
        offset: origin.column,
        name: origin.name.unwrap_or(last.name),
        ..last
    }
}

/// Adds a mapping to a text, and answers what comes before the next one.
pub(crate) fn push_mapping(
    text: &mut String,
    last: Last,
    mapping: Place,
) -> Result<Last, AllocError>
    ensures text { OnOk result (string_bytes text.new
        ≡ string_bytes text.old ++ numbers_text (spec.numbers last mapping)) }
    ensures after { IfOk result (λ l. l ≡ spec.after last mapping) }
{
    push_step(text, line_step(last, mapping.line))?;
    let ahead = ahead(column_before(last, mapping.line), mapping.column);
    push_number(text, 4 * ahead + kind(mapping.original))?;
    push_origin(text, last, mapping.original)?;
    let last = Last {
        line: mapping.line,
        column: mapping.column,
        ..last
    };
    Ok(after_origin(last, mapping.original))
}
