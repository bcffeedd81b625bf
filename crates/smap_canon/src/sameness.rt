//! Whether two maps have equal records.
ghost use Rattle.std.specs.Prelude.{◌≡◌, ◌↔◌, IsTrue};
ghost use Rattle.std.specs.Option.{option_eq};
ghost use Rattle.smap_record.specs.Record.{record_of, same_entry};
ghost use Rattle.smap_record.specs.Views.{entry_of_view};
ghost use Rattle.smap_canon.specs.Sameness.{same_numbered, same_view};

use smap_record::{OriginalView, SourceMap, SourceView, TokenView};

fn same_source(a: SourceView<'_>, b: SourceView<'_>) -> bool
    ensures { result ≡ same_entry (entry_of_view a.entry) (entry_of_view b.entry) }
{
    a.url == b.url && (a.content == b.content && a.ignored == b.ignored)
}

/// Compares the indices of the sources in place of the sources, for two maps with the same distinct sources.
fn same_original(a: OriginalView<'_>, b: OriginalView<'_>) -> bool
    ensures { result ≡ same_numbered a.entry b.entry }
{
    a.source_number == b.source_number
        && (a.line == b.line && (a.column == b.column && a.name == b.name))
}

fn same_originals(a: Option<OriginalView<'_>>, b: Option<OriginalView<'_>>) -> bool
    ensures { result ≡ option_eq same_numbered a.entry b.entry }
{
    match (a, b) {
        (None, None) => true,
        (Some(a), Some(b)) => same_original(a, b),
        _ => false,
    }
}

fn same_mapping(a: TokenView<'_>, b: TokenView<'_>) -> bool
    ensures { result ≡ same_view a.entry b.entry }
{
    a.line == b.line && (a.column == b.column && same_originals(a.original, b.original))
}

fn same_sources(a: &SourceMap, b: &SourceMap) -> bool
    ensures { IsTrue result ↔ ((record_of a.now).sources ≡ (record_of b.now).sources) }
{
    if a.source_count() != b.source_count() {
        return false;
    }
    for i in 0..a.source_count() {
        if !same_source(a.source(i), b.source(i)) {
            return false;
        }
    }
    true
}

/// Whether the mappings are equal, given that the sources are.
fn same_mappings(a: &SourceMap, b: &SourceMap) -> bool
    requires { (record_of a.now).sources ≡ (record_of b.now).sources }
    ensures { IsTrue result ↔ ((record_of a.now).mappings ≡ (record_of b.now).mappings) }
{
    if a.token_count() != b.token_count() {
        return false;
    }
    for i in 0..a.token_count() {
        if !same_mapping(a.token(i), b.token(i)) {
            return false;
        }
    }
    true
}

/// Whether two maps have equal records: the same labels, the same distinct sources in the same order, and the
/// same mappings. How sources and names are listed makes no difference.
///
/// Each source is compared once, with its content, and each mapping by its numbers and its name. It takes
/// no memory.
pub fn same(a: &SourceMap, b: &SourceMap) -> bool
    ensures { IsTrue result ↔ (record_of a.now ≡ record_of b.now) }
{
    a.has_labels_of(b) && same_sources(a, b) && same_mappings(a, b)
}
