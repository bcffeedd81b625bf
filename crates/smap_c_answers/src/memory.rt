//! How much memory a map takes, about, by what it has.
ghost use Rattle.std.specs.Prelude.{◌≡◌, ◌<◌, ◌+◌, length, option_copied, slice_get, Some, sum_by};
ghost use Rattle.smap_shape.specs.Labels.{named};
ghost use Rattle.smap_record.specs.Record.{record_of};
ghost use Rattle.smap_record.specs.Views.{entry_of_view};
ghost use Rattle.smap_record.specs.Written.{Spelling};
ghost use Rattle.smap_c_answers.specs.Memory.{block, capped, room, text_memory, source_memory, name_memory};
ghost use Rattle.smap_c_answers.specs.Memory.{label_memory, text_spellings_memory};
ghost use Rattle.smap_c_answers.specs.Memory.{strings_memory, lists_memory, written_memory, root_memory};
ghost use Rattle.smap_c_answers.specs.Memory.{roots_memory, spellings_memory, table_memory, memory_of};

use smap_record::{Base, LabelView, SourceMap, SourceView, WrittenSources};

/// What each map takes: the box of a handle, the shared map, and a list of roots that has room for four.
const OF_MAP: usize = 648;

/// A list of things of up to 1,024 bytes begins with room for four.
const FIRST: usize = 4;

/// Most lists have fewer than 2^31 things, so that they have been doubled less often.
const DOUBLINGS: usize = 32;

/// Distinct sources lie in groups of as many.
const GROUP: usize = 9;

/// A group: its tags and indices, and nine sources with their hashes.
const OF_GROUP: usize = 784;

/// A source as listed is a number.
const OF_LISTED_SOURCE: usize = 8;

/// A string besides its bytes.
const OF_NAME: usize = 24;

const OF_MAPPING: usize = 32;

/// A source as it is written, besides its bytes: a string or none, and which root it has.
const OF_WRITTEN: usize = 40;

/// A root as it is written, besides its bytes: a string or none.
const OF_ROOT: usize = 32;

/// A line of the table of lines is a number.
const OF_LINE: usize = 8;

/// The block that malloc has for so many bytes.
fn block(bytes: usize) -> usize
    ensures { result ≡ capped (block bytes) }
{
    if bytes == 0 {
        0
    } else if bytes <= 24 {
        24
    } else {
        ((bytes - 9) / 16 * 16).saturating_add(24)
    }
}

/// The room of a list to which n things were added one by one.
fn room(first: usize, n: usize) -> usize
    ensures { result ≡ capped (room first n) }
{
    if n == 0 {
        return 0;
    }
    let mut room = first;
    for k in 0..DOUBLINGS {
        if room < n {
            room = room.saturating_add(room);
        }
    }
    room
}

fn text_memory(text: Option<&str>) -> usize
    ensures { result ≡ capped (text_memory (option_copied text.entry)) }
{
    match text {
        Some(text) => block(text.len()),
        None => 0,
    }
}

fn source_memory(source: SourceView<'_>) -> usize
    ensures { result ≡ capped (source_memory (entry_of_view source.entry)) }
{
    text_memory(source.url).saturating_add(text_memory(source.content))
}

fn sources_memory(map: &SourceMap) -> usize
    ensures { result ≡ capped (sum_by source_memory (record_of map.now).sources) }
{
    let mut total: usize = 0;
    for i in 0..map.source_count() {
        total = total.saturating_add(source_memory(map.source(i)));
    }
    total
}

fn names_memory(map: &SourceMap) -> usize
    ensures { result ≡ capped (sum_by name_memory map.now.listing.names) }
{
    let mut total: usize = 0;
    for i in 0..map.name_count() {
        total = total.saturating_add(block(map.name(i).len()));
    }
    total
}

fn views_memory(labels: &[LabelView<'_>]) -> usize
    ensures { result ≡ capped (sum_by (λ v. text_memory (option_copied v.text)) labels.now) }
{
    let mut total: usize = 0;
    for i in 0..labels.len() {
        let label = labels[i];
        total = total.saturating_add(text_memory(label.text));
    }
    total
}

fn labels_memory(map: &SourceMap) -> usize
    ensures { result ≡ capped (sum_by label_memory (named map.now.labels)) }
{
    let labels = map.labels();
    views_memory(&labels)
}

fn strings_memory(map: &SourceMap) -> usize
    ensures { result ≡ capped (strings_memory map.now) }
{
    let listed = sources_memory(map).saturating_add(names_memory(map));
    labels_memory(map).saturating_add(listed)
}

fn lists_memory(map: &SourceMap) -> usize
    ensures { result ≡ capped (lists_memory map.now) }
{
    let groups = room(1, map.source_count().div_ceil(GROUP)).saturating_mul(OF_GROUP);
    let listed = room(FIRST, map.listed_count()).saturating_mul(OF_LISTED_SOURCE);
    let names = room(FIRST, map.name_count()).saturating_mul(OF_NAME);
    let mappings = map.token_count().saturating_mul(OF_MAPPING);
    let sources = groups.saturating_add(listed);
    sources.saturating_add(names.saturating_add(mappings))
}

fn written_memory(written: &WrittenSources) -> usize
    ensures { result ≡ capped (sum_by written_memory written.now) }
{
    let mut total: usize = 0;
    for i in 0..written.len() {
        total = total.saturating_add(text_memory(written.source(i)));
    }
    total
}

/// The root of the i-th source, unless the next source has the same.
fn root_memory(written: &WrittenSources, i: usize) -> usize
    requires { i < length written.now }
    ensures { (s : Spelling) → slice_get written.now i ≡ Some s
        → result ≡ capped (root_memory s (slice_get written.now (i + 1))) }
{
    let count = written.len();
    let root = written.root(i);
    if i + 1 < count && root == written.root(i + 1) {
        return 0;
    }
    text_memory(root).saturating_add(OF_ROOT)
}

fn roots_memory(written: &WrittenSources) -> usize
    ensures { result ≡ capped (roots_memory written.now) }
{
    let mut total: usize = 0;
    for i in 0..written.len() {
        total = total.saturating_add(root_memory(written, i));
    }
    total
}

fn spellings_memory(written: &WrittenSources) -> usize
    ensures { result ≡ capped (spellings_memory written.now) }
{
    let list = room(FIRST, written.len()).saturating_mul(OF_WRITTEN);
    let texts = written_memory(written).saturating_add(roots_memory(written));
    list.saturating_add(texts)
}

fn text_spellings_memory(written: Option<&WrittenSources>) -> usize
    ensures { result ≡ capped (text_spellings_memory (option_copied written.entry)) }
{
    match written {
        Some(written) => spellings_memory(written),
        None => 0,
    }
}

fn table_memory(map: &SourceMap) -> usize
    ensures { result ≡ table_memory map.now }
{
    let lines = map.line_count() as usize;
    if lines / 2 <= map.token_count() {
        OF_LINE * (lines + 1)
    } else {
        0
    }
}

/// How much memory a map takes, with its base, the table of its lines and, if it was read from a text, its
/// sources as they are written.
pub fn memory_of(base: &Base, map: &SourceMap, written: Option<&WrittenSources>) -> usize
    ensures { result ≡ capped (memory_of base.now map.now (option_copied written.entry)) }
{
    let own = block(base.text().len()).saturating_add(OF_MAP);
    let listed = strings_memory(map).saturating_add(lists_memory(map));
    let beside = text_spellings_memory(written).saturating_add(table_memory(map));
    own.saturating_add(listed.saturating_add(beside))
}
