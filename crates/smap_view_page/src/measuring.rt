//! How many bytes of a script each source has.
ghost use Rattle.std.specs.Prelude.{◌≡◌, ◌+◌, ◌-◌, ◌<◌, ◌≤◌, ◌^◌, ℕ, false, min, cond, IfOk, OnOk, Some};
ghost use Rattle.std.specs.Prelude.{List, [], ◌∷◌, length, get_or, set, slice_get, replicate, sum};
ghost use Rattle.std.specs.Prelude.{map as map_list};
ghost use Rattle.std.specs.Char.{len_utf8};
ghost use Rattle.std.specs.Str.{chars};
ghost use Rattle.smap_mappings.specs.Position.{POSITIONS};
ghost use Rattle.smap_record.specs.Record.{record_of};
ghost use Rattle.smap_view_page.specs.Bytes as places;
ghost use Rattle.smap_view_page.specs.Cursors as cursors;
ghost use Rattle.smap_view_page.specs.Owners as spec;

use smap_mappings::Token;
use smap_record::SourceMap;
use std::alloc::{AllocError, Global};

/// How many bytes of a script, and how many mappings, each source has: a byte has the source of the mapping
/// that a lookup finds for its position. Lines end as in ECMAScript, and columns are UTF-16 units.
#[derive(Drop)]
pub struct Sizes {
    /// By the numbers of the sources; then of mappings without a source; then of what has no mapping. The sum
    /// is the length of the script.
    pub bytes: Vec<u64>,
    /// By the numbers of the sources, and then those without a source.
    pub mappings: Vec<u64>,
}

/// A position in a script, and the mapping that a lookup finds there.
#[derive(Clone, Copy)]
struct Cursor {
    line: usize,
    column: usize,
    /// Whether a CR is before it, which ends the line unless an LF follows.
    returned: bool,
    /// The number of the mapping behind it.
    next: usize,
    /// The number of the source: behind the last one, that of none, and that of no mapping.
    owner: usize,
}

impl Cursor {
    /// The beginning of the next line, where no mapping is yet.
    fn next_line(self, free: usize) -> Cursor
        requires { self.line + 1 < 2 ^ 64 }
        ensures { result ≡ record {
          line = self.line + 1;
          column = 0;
          returned = false;
          next = self.next;
          owner = free;
        } }
    {
        Cursor {
            line: self.line + 1,
            column: 0,
            returned: false,
            next: self.next,
            owner: free,
        }
    }

    fn next_column(self) -> Cursor
        requires { self.column + 1 < 2 ^ 64 }
        ensures { result ≡ record self { column = self.column + 1 } }
    {
        Cursor {
            column: self.column + 1,
            ..self
        }
    }
}

/// The number that stands for no mapping.
fn free_of(map: &SourceMap) -> usize
    requires { length (record_of map.now).sources < POSITIONS }
    ensures { result ≡ length (record_of map.now).sources + 1 }
{
    map.source_count() + 1
}

fn owner_of(map: &SourceMap, number: usize) -> usize
    requires { number < length map.now.listing.tokens }
    ensures within { result ≤ length (record_of map.now).sources }
    ensures owner { slice_get (spec.owners (record_of map.now)) number ≡ Some result }
{
    match map.token(number).original {
        Some(original) => original.source_number,
        None => map.source_count(),
    }
}

/// Whether a mapping is behind the position.
fn is_after(cursor: Cursor, token: Token) -> bool
    ensures { result ≡ cursors.is_after cursor token.line token.column }
{
    let (line, column) = (token.line as usize, token.column as usize);
    line > cursor.line || line == cursor.line && column > cursor.column
}

/// Passes a mapping that isn't behind the position.
fn passed(map: &SourceMap, cursor: Cursor, token: Token) -> Cursor
    requires token { slice_get map.now.listing.tokens cursor.next ≡ Some token }
    requires fits { cursor.next + 1 < 2 ^ 64 }
    requires owner { cursor.owner < spec.owner_count (record_of map.now) }
    requires reached { cursors.HasReached (record_of map.now) cursor }
    requires there { cursors.is_after cursor token.line token.column ≡ false }
    ensures owner { result.owner < spec.owner_count (record_of map.now) }
    ensures next { result.next ≡ cursor.next + 1 }
    ensures line { result.line ≡ cursor.line }
    ensures column { result.column ≡ cursor.column }
    ensures reached { cursors.HasReached (record_of map.now) result }
{
    let owner = if token.line as usize == cursor.line {
        owner_of(map, cursor.next)
    } else {
        cursor.owner
    };
    Cursor {
        owner,
        next: cursor.next + 1,
        ..cursor
    }
}

/// Goes on to the last mapping that isn't behind the position.
fn advanced(map: &SourceMap, cursor: Cursor) -> Cursor
    requires owner { cursor.owner < spec.owner_count (record_of map.now) }
    requires reached { cursors.HasReached (record_of map.now) cursor }
    ensures owner { result.owner < spec.owner_count (record_of map.now) }
    ensures line { result.line ≡ cursor.line }
    ensures column { result.column ≡ cursor.column }
    ensures reached { cursors.HasReached (record_of map.now) result }
    ensures found { result.owner ≡ places.owner_at (record_of map.now) (cursors.place_of cursor) }
{
    let mut cursor = cursor;
    for number in cursor.next..map.token_count() {
        let token = map.listed_token(number);
        if is_after(cursor, token) {
            break;
        }
        cursor = passed(map, cursor, token);
    }
    cursor
}

#[tactic(auto, using(crate::proofs::OwnerLemmas::sum_added))]
fn add(bytes: &mut [u64], number: usize, count: u64)
    ensures place { bytes.new ≡ set bytes.old number (min (get_or bytes.old number 0 + count) (2 ^ 64 - 1)) }
    ensures sum { number < length bytes.old → sum bytes.old + count < 2 ^ 64
        → sum bytes.new ≡ sum bytes.old + count }
{
    if number < bytes.len() {
        bytes[number] = bytes[number].saturating_add(count);
    }
}

/// Counts bytes at a position, and goes on by a column.
fn spot(map: &SourceMap, bytes: &mut [u64], cursor: Cursor, count: u64) -> Cursor
    requires owner { cursor.owner < spec.owner_count (record_of map.now) }
    requires bytes { length bytes.old ≡ spec.owner_count (record_of map.now) }
    requires fits { sum bytes.old + count < 2 ^ 64 }
    requires room { cursor.column + 1 < 2 ^ 64 }
    requires reached { cursors.HasReached (record_of map.now) cursor }
    ensures owner { result.owner < spec.owner_count (record_of map.now) }
    ensures line { result.line ≡ cursor.line }
    ensures column { result.column ≡ cursor.column + 1 }
    ensures reached { cursors.HasReached (record_of map.now) result }
    ensures sum { sum bytes.new ≡ sum bytes.old + count }
    ensures added { cursors.Adds bytes.old
        (replicate count (places.owner_at (record_of map.now) (cursors.place_of cursor))) bytes.new }
{
    let cursor = advanced(map, cursor);
    add(bytes, cursor.owner, count);
    cursor.next_column()
}

/// Takes a character of one UTF-16 unit, or of two that have two of its four bytes each.
fn counted(map: &SourceMap, bytes: &mut [u64], cursor: Cursor, c: char) -> Cursor
    requires owner { cursor.owner < spec.owner_count (record_of map.now) }
    requires bytes { length bytes.old ≡ spec.owner_count (record_of map.now) }
    requires fits { sum bytes.old + len_utf8 c < 2 ^ 64 }
    requires room { cursor.column + len_utf8 c < 2 ^ 64 }
    requires reached { cursors.HasReached (record_of map.now) cursor }
    ensures owner { result.owner < spec.owner_count (record_of map.now) }
    ensures line { result.line ≡ cursor.line }
    ensures column { result.column ≤ cursor.column + len_utf8 c }
    ensures place { cursors.place_of result ≡ places.next_columns (cursors.place_of cursor) c }
    ensures reached { cursors.HasReached (record_of map.now) result }
    ensures sum { sum bytes.new ≡ sum bytes.old + len_utf8 c }
    ensures added { cursors.Adds bytes.old
        (map_list (places.owner_at (record_of map.now)) (places.spots (cursors.place_of cursor) c))
        bytes.new }
{
    let count = c.len_utf8() as u64;
    if count < 4 {
        return spot(map, bytes, cursor, count);
    }
    let cursor = spot(map, bytes, cursor, 2);
    spot(map, bytes, cursor, 2)
}

/// A line begins at a character behind CR, unless that is LF.
fn begun(map: &SourceMap, cursor: Cursor, c: char) -> Cursor
    requires few_sources { length (record_of map.now).sources < POSITIONS }
    requires owner { cursor.owner < spec.owner_count (record_of map.now) }
    requires room { cursor.line + 1 < 2 ^ 64 }
    requires reached { cursors.HasReached (record_of map.now) cursor }
    ensures owner { result.owner < spec.owner_count (record_of map.now) }
    ensures place { cursors.place_of result ≡ cursors.start_of cursor (c ∷ []) }
    ensures line { result.line ≤ cursor.line + 1 }
    ensures column { result.column ≤ cursor.column }
    ensures reached { cursors.HasReached (record_of map.now) result }
{
    if cursor.returned && c != '\n' {
        return cursor.next_line(free_of(map));
    }
    cursor
}

/// A line ends behind LF, LS and PS.
fn ended(map: &SourceMap, cursor: Cursor, c: char) -> Cursor
    requires few_sources { length (record_of map.now).sources < POSITIONS }
    requires owner { cursor.owner < spec.owner_count (record_of map.now) }
    requires room { cursor.line + 1 < 2 ^ 64 }
    requires reached { cursors.HasReached (record_of map.now) cursor }
    ensures owner { result.owner < spec.owner_count (record_of map.now) }
    ensures place { (later : List ℕ) → cursors.start_of result later
        ≡ cond (places.ends_line c later)
        (places.next_line (cursors.place_of cursor)) (cursors.place_of cursor) }
    ensures line { result.line ≤ cursor.line + 1 }
    ensures column { result.column ≤ cursor.column }
    ensures reached { cursors.HasReached (record_of map.now) result }
{
    if matches!(c, '\n' | '\u{2028}' | '\u{2029}') {
        return cursor.next_line(free_of(map));
    }
    Cursor {
        returned: c == '\r',
        ..cursor
    }
}

/// Takes the next character of a script.
fn taken(map: &SourceMap, bytes: &mut [u64], cursor: Cursor, c: char) -> Cursor
    requires few_sources { length (record_of map.now).sources < POSITIONS }
    requires owner { cursor.owner < spec.owner_count (record_of map.now) }
    requires bytes { length bytes.old ≡ spec.owner_count (record_of map.now) }
    requires fits { sum bytes.old + len_utf8 c < 2 ^ 64 }
    requires line { cursor.line + 2 < 2 ^ 64 }
    requires column { cursor.column + len_utf8 c < 2 ^ 64 }
    requires reached { cursors.HasReached (record_of map.now) cursor }
    ensures owner { result.owner < spec.owner_count (record_of map.now) }
    ensures place { (later : List ℕ) → cursors.start_of result later
        ≡ places.behind (cursors.start_of cursor (c ∷ [])) c later }
    ensures line { result.line ≤ cursor.line + 2 }
    ensures column { result.column ≤ cursor.column + len_utf8 c }
    ensures reached { cursors.HasReached (record_of map.now) result }
    ensures sum { sum bytes.new ≡ sum bytes.old + len_utf8 c }
    ensures added { cursors.Adds bytes.old
        (map_list (places.owner_at (record_of map.now)) (places.spots (cursors.start_of cursor (c ∷ [])) c))
        bytes.new }
{
    let cursor = begun(map, cursor, c);
    let cursor = counted(map, bytes, cursor, c);
    ended(map, cursor, c)
}

fn zeros(alloc: Global, count: usize) -> Result<Vec<u64>, AllocError>
    ensures { IfOk result (λ v. v.items ≡ replicate count 0) }
{
    vec![in alloc; 0u64; count]
}

/// A script without its byte order mark.
fn unmarked(text: &str) -> &str
    ensures chars { chars result.now ≡ places.unmarked (chars text.now) }
    ensures len { length text.now ≡ length result.now + places.mark_length (chars text.now) }
{
    let Some(script) = text.strip_prefix('\u{feff}') else {
        return text;
    };
    script
}

fn byte_counts(alloc: Global, map: &SourceMap, text: &str) -> Result<Vec<u64>, AllocError>
    requires { length (record_of map.now).sources < POSITIONS }
    ensures counts { IfOk result (λ b. b.items ≡ places.byte_counts (record_of map.now) text.now) }
    ensures sum { IfOk result (λ b. sum b.items ≡ length text.now) }
{
    let free = free_of(map);
    let mut bytes = zeros(alloc, free + 1)?;
    let script = unmarked(text);
    add(
        &mut bytes,
        free,
        text.len().saturating_sub(script.len()) as u64,
    );
    let mut cursor = Cursor {
        line: 0,
        column: 0,
        returned: false,
        next: 0,
        owner: free,
    };
    for c in script.chars() {
        cursor = taken(map, &mut bytes, cursor, c);
    }
    Ok(bytes)
}

fn mapping_counts(alloc: Global, map: &SourceMap) -> Result<Vec<u64>, AllocError>
    ensures counts { IfOk result (λ c. c.items ≡ spec.mapping_counts (record_of map.now)) }
    ensures few_sources { OnOk result (length (record_of map.now).sources < POSITIONS) }
{
    let mut counts = zeros(alloc, map.source_count().saturating_add(1))?;
    for number in 0..map.token_count() {
        add(&mut counts, owner_of(map, number), 1);
    }
    Ok(counts)
}

/// How many bytes and mappings each source has. A byte order mark at the beginning has no mapping, and isn't
/// part of line 0.
///
/// # Errors
///
/// `AllocError`.
pub fn measured(alloc: Global, map: &SourceMap, text: &str) -> Result<Sizes, AllocError>
    ensures mappings { IfOk result (λ s. s.mappings.items ≡ spec.mapping_counts (record_of map.now)) }
    ensures bytes { IfOk result (λ s. s.bytes.items ≡ places.byte_counts (record_of map.now) text.now) }
    ensures sum { IfOk result (λ s. sum s.bytes.items ≡ length text.now) }
{
    let mappings = mapping_counts(alloc, map)?;
    let bytes = byte_counts(alloc, map, text)?;
    Ok(Sizes { bytes, mappings })
}
