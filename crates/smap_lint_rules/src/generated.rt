//! What is wrong in where the mappings begin in the script, in words.
ghost use Rattle.std.specs.Prelude.{◌≡◌, ◌<◌, IfOk, filter, length, option_map, string_bytes};
ghost use Rattle.smap_lint_rules.specs.Findings as spec;
ghost use Rattle.smap_lint_rules.specs.Positions.{is_past_end};

use crate::pair::Script;
use crate::positions::{count_past_end, first_past_end};
use crate::share::{mapped_units, unit_count};
use crate::wording::{counted, one_or_more, place, some_of};
use smap_mappings::{Token, script_widths};
use smap_record::SourceMap;
use std::alloc::{AllocError, Global};

/// The widths of the lines of a script, if there is one and its positions can be counted.
pub(crate) fn widths_of(
    alloc: Global,
    script: Option<Script<'_>>,
) -> Result<Option<Vec<usize>>, AllocError>
    ensures { IfOk result (λ w. option_map (λ v. v.items) w ≡ spec.widths_of script.entry) }
{
    match script {
        Some(script) => script_widths(alloc, script.text),
        None => Ok(None),
    }
}

fn past_end(alloc: Global, count: usize, total: usize) -> Result<String, AllocError>
    ensures { IfOk result (λ t. string_bytes t ≡ spec.past_end count total) }
{
    let mappings = some_of(alloc, count, total, "mapping")?;
    let are = one_or_more(count, "is", "are");
    format!(in alloc; "{mappings} {are} past the end of the script or its lines")
}

fn begins_at(alloc: Global, count: usize, first: Token, lines: usize) -> Result<String, AllocError>
    ensures { IfOk result (λ t. string_bytes t ≡ spec.begins_at count first lines) }
{
    let at = one_or_more(count, "at", "the first at");
    let place = place(alloc, first.line, first.column)?;
    let lines = counted(alloc, lines, "line")?;
    format!(in alloc; "{at} {place} (the script has {lines})")
}

fn past_end_words(
    alloc: Global,
    map: &SourceMap,
    widths: &[usize],
    first: Token,
) -> Result<String, AllocError>
    ensures { IfOk result (λ t. string_bytes t ≡ spec.past_end_words
        (length (filter (is_past_end widths.now) map.now.listing.tokens))
        (length map.now.listing.tokens) (length widths.now) first) }
{
    let count = count_past_end(map, widths);
    let what = past_end(alloc, count, map.token_count())?;
    let place = begins_at(alloc, count, first, widths.len())?;
    format!(in alloc; "{what}, {place}")
}

/// Whether mappings begin past the end of a script whose lines are so wide, or of a line.
pub(crate) fn generated_past_end(
    alloc: Global,
    map: &SourceMap,
    widths: &[usize],
) -> Result<Option<String>, AllocError>
    ensures { IfOk result (λ t. option_map string_bytes t ≡ spec.generated_past_end map.now widths.now) }
{
    match first_past_end(map, widths) {
        Some(first) => Ok(Some(past_end_words(alloc, map, widths, first)?)),
        None => Ok(None),
    }
}

/// So many of all units, in percent, rounded down.
fn percent(mapped: u64, all: u64) -> u64
    requires { 0 < all }
    ensures { result ≡ spec.percent mapped all }
{
    mapped.saturating_mul(100) / all
}

fn few_words(alloc: Global, share: u64, least: u32) -> Result<String, AllocError>
    ensures { IfOk result (λ t. string_bytes t ≡ spec.few_words share least) }
{
    format!(in alloc; "{share} percent of the script has an original, below {least}")
}

fn below(alloc: Global, least: u32, mapped: u64, all: u64) -> Result<Option<String>, AllocError>
    ensures { IfOk result (λ t. option_map string_bytes t ≡ spec.below least mapped all) }
{
    if all == 0 {
        return Ok(None);
    }
    let share = percent(mapped, all);
    if u64::from(least) <= share {
        return Ok(None);
    }
    Ok(Some(few_words(alloc, share, least)?))
}

/// Whether less of the script has an original than is asked for, if something is.
pub(crate) fn few_mapped(
    alloc: Global,
    least: Option<u32>,
    map: &SourceMap,
    widths: &[usize],
) -> Result<Option<String>, AllocError>
    ensures { IfOk result (λ t. option_map string_bytes t ≡ spec.few_mapped least map.now widths.now) }
{
    match least {
        Some(least) => {
            let (mapped, all) = (mapped_units(map, widths), unit_count(widths));
            below(alloc, least, mapped as u64, all as u64)
        }
        None => Ok(None),
    }
}
