//! The mappings that lead past the end of a source.
ghost use Rattle.std.specs.Prelude.{◌≡◌, ◌<◌, IfOk, length, filter, find, option_and_then, option_copied};
ghost use Rattle.std.specs.Prelude.{option_map, slice_get, ◌++◌, ◌∷◌, [], OnOk};
ghost use Rattle.smap_lint_rules.specs.Contents as spec;
ghost use Rattle.smap_lint_rules.specs.Contents.{AreWidths};
ghost use Rattle.smap_record.specs.Record.{record_of};
ghost use Rattle.smap_record.specs.Views.{origin_of_view};

use crate::positions::counted;
use smap_mappings::{has_separator, is_within, line_widths};
use smap_record::{OriginalView, SourceMap};
use std::alloc::{AllocError, Global};

/// How wide the lines of a source are, if they can be told: it has a content, which has no U+2028 and no
/// U+2029.
#[derive(Drop)]
pub(crate) struct Widths {
    pub(crate) lines: Option<Vec<usize>>,
}

fn widths_of(alloc: Global, content: Option<&str>) -> Result<Widths, AllocError>
    ensures { IfOk result (λ w. spec.lines_in w ≡ spec.content_widths (option_copied content.entry)) }
{
    let Some(text) = content else {
        return Ok(Widths { lines: None });
    };
    if has_separator(text.as_bytes()) {
        return Ok(Widths { lines: None });
    }
    let lines = line_widths(alloc, text.as_bytes())?;
    Ok(Widths { lines: Some(lines) })
}

fn add_widths(all: &mut Vec<Widths>, widths: Widths) -> Result<(), AllocError>
    ensures { OnOk result (all.new.items ≡ all.old.items ++ widths ∷ []) }
{
    match all.push(widths) {
        Ok(()) => Ok(()),
        Err(_) => Err(AllocError),
    }
}

/// How wide the lines of each distinct source are.
///
/// # Errors
///
/// `AllocError`.
pub(crate) fn content_widths(alloc: Global, map: &SourceMap) -> Result<Vec<Widths>, AllocError>
    ensures { IfOk result (λ widths. AreWidths map.now widths.items) }
{
    let mut all = Vec::new(alloc);
    for i in 0..map.source_count() {
        let widths = widths_of(alloc, map.source(i).content)?;
        add_widths(&mut all, widths)?;
    }
    Ok(all)
}

/// Whether a text whose lines are so wide, if that is known, has no such position.
fn is_past(widths: &Widths, line: u32, column: u32) -> bool
    ensures { result ≡ spec.is_past (spec.lines_in widths.now) line column }
{
    match &widths.lines {
        Some(lines) => !is_within(lines, line, column),
        None => false,
    }
}

/// Whether the source with this number, of those whose lines are so wide, has no such position.
fn is_past_source(widths: &[Widths], number: usize, line: u32, column: u32) -> bool
    ensures { result ≡ spec.is_past_source (slice_get widths.now number) line column }
{
    match widths.get(number) {
        Some(widths) => is_past(widths, line, column),
        None => false,
    }
}

/// Whether the mapping with this number leads to such an original.
fn leads_past(map: &SourceMap, widths: &[Widths], i: usize) -> bool
    requires within { i < length map.now.listing.tokens }
    requires widths { AreWidths map.now widths.now }
    ensures { option_map spec.leads_past (slice_get (record_of map.now).mappings i) ≡ Some result }
{
    match map.token(i).original {
        Some(original) => {
            let OriginalView {
                source_number,
                line,
                column,
                ..
            } = original;
            is_past_source(widths, source_number, line, column)
        }
        None => false,
    }
}

/// How many mappings lead past the end of a source's content, or of one of its lines. `widths` are those that
/// `content_widths` gives of this map.
#[tactic(auto, using(crate::proofs::WalkLemmas::filter_bound))]
pub(crate) fn count_originals_past_end(map: &SourceMap, widths: &[Widths]) -> usize
    requires { AreWidths map.now widths.now }
    ensures { result ≡ length (filter spec.leads_past (record_of map.now).mappings) }
{
    let mut count = 0;
    for i in 0..map.token_count() {
        count = counted(count, leads_past(map, widths, i));
    }
    count
}

/// The original that the first of these mappings leads to.
pub(crate) fn first_lost_original<'m>(
    map: &'m SourceMap,
    widths: &[Widths],
) -> Option<OriginalView<'m>>
    requires { AreWidths map.now widths.now }
    ensures { option_map origin_of_view result
        ≡ option_and_then (λ m. m.origin) (find spec.leads_past (record_of map.now).mappings) }
{
    for i in 0..map.token_count() {
        if leads_past(map, widths, i) {
            return map.token(i).original;
        }
    }
    None
}
