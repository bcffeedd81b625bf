//! Names of functions for frames: that of the innermost function around the original position in the source's
//! own text, where it is sure. `docs/LOGS.md` says what is.
ghost use Rattle.std.specs.Prelude.{◌≡◌, ◌<◌, IfOk, IfSome, Some, length, option_and_then, option_map};
ghost use Rattle.std.specs.Prelude.{slice_get};
ghost use Rattle.smap_frames.specs.Frame.{FrameParts};
ghost use Rattle.smap_frames.specs.FrameView.{parts_in};
ghost use Rattle.smap_frames.specs.Reading.{frame_of};
ghost use Rattle.smap_functions.specs.Lines.{AreLines};
ghost use Rattle.smap_functions.specs.Names.{IsName, words_of};
ghost use Rattle.smap_record.specs.Record.{record_of};
ghost use Rattle.smap_record.specs.Views.{entry_of_view, mapping_of_view, origin_of_view};
ghost use Rattle.smap_trace.specs.Known.{AreKnown, GivesName};
ghost use Rattle.smap_trace.specs.Names as spec;
ghost use Rattle.smap_trace.specs.Names.{IsRenamed};
ghost use Rattle.smap_trace.specs.NamesView.{IsMapped, IsOfContent, mapped_of};

use crate::known::KnownFunctions;
use crate::lines::map_for;
use crate::lookups::find;
use crate::scripts::Maps;
use smap_frames::{Frame, frame};
use smap_functions::{Name, SourceFunctions, closing, logged_name, renamed_before, says};
use smap_mappings::Memory;
use smap_record::{OriginalView, SourceMap, TokenView};
use std::alloc::{AllocError, Global};

/// How many mappings before a frame's and behind it show whether a source's text is of the map's build.
const NEAR: usize = 64;

/// The bytes of the longest name of a mapping that is looked for in a text.
const MOST_NAME: usize = 256;

/// A frame, and the mapping that its position falls to.
#[derive(Clone, Copy)]
struct MappedFrame<'a> {
    frame: Frame<'a>,
    map: &'a SourceMap,
    index: usize,
    token: TokenView<'a>,
    original: OriginalView<'a>,
}

/// A frame and the mapping with this index, if it has an original.
fn mapping_with<'a>(frame: &Frame<'a>, map: &'a SourceMap, index: usize) -> Option<MappedFrame<'a>>
    requires { index < length (record_of map.now).mappings }
    ensures value { option_map mapped_of result ≡ spec.mapped_at (parts_in frame.now) (record_of map.now)
        index }
    ensures mapped { IfSome result (λ m. IsMapped m × (m.frame ≡ frame.now)) }
{
    let token = map.token(index);
    match token.original {
        Some(original) => Some(MappedFrame {
            frame: *frame,
            map,
            index,
            token,
            original,
        }),
        None => None,
    }
}

/// A frame and the mapping that its position falls to, if it has an original.
fn mapping_in<'a>(frame: &Frame<'a>, map: &'a SourceMap) -> Option<MappedFrame<'a>>
    requires { (0 < frame.now.line) × (0 < frame.now.column) }
    ensures value { option_map mapped_of result ≡ spec.mapped_in (parts_in frame.now) (record_of map.now) }
    ensures mapped { IfSome result (λ m. IsMapped m × (m.frame ≡ frame.now)) }
{
    match find(map, frame.line - 1, frame.column - 1).0 {
        Some(index) => mapping_with(frame, map, index),
        None => None,
    }
}

/// The frame that a line is, if its position has an original.
fn frame_mapping<'a, M: Maps>(
    text: &'a [u8],
    maps: &'a M,
    ignore_query: bool,
) -> Option<MappedFrame<'a>>
    ensures value { option_map mapped_of result ≡ spec.mapped ignore_query (M.scripts maps.now) text.now }
    ensures mapped { IfSome result (λ m. IsMapped m × (frame_of text.now ≡ Some (parts_in m.frame))) }
{
    let Some(frame) = frame(text) else {
        return None;
    };
    match map_for(text, &frame, maps, ignore_query) {
        Some(map) => mapping_in(&frame, map),
        None => None,
    }
}

/// The original of a mapping, if it is in the source of another original.
fn original_in<'a>(
    map: &'a SourceMap,
    index: usize,
    other: &OriginalView<'_>,
) -> Option<OriginalView<'a>>
    requires within { index < length (record_of map.now).mappings }
    requires number { slice_get (record_of map.now).sources other.now.source_number
        ≡ Some (entry_of_view other.now.source) }
    ensures { option_map origin_of_view result ≡ option_and_then
        (spec.in_source (entry_of_view other.now.source)) (slice_get (record_of map.now).mappings index) }
{
    match map.token(index).original {
        Some(original) if original.source_number == other.source_number => Some(original),
        _ => None,
    }
}

/// The same, if it has a name.
fn named_in<'a>(
    map: &'a SourceMap,
    index: usize,
    other: &OriginalView<'_>,
) -> Option<OriginalView<'a>>
    requires within { index < length (record_of map.now).mappings }
    requires number { slice_get (record_of map.now).sources other.now.source_number
        ≡ Some (entry_of_view other.now.source) }
    ensures { option_map origin_of_view result ≡ option_and_then
        (spec.named_in (entry_of_view other.now.source)) (slice_get (record_of map.now).mappings index) }
{
    match original_in(map, index, other) {
        Some(original) if original.name.is_some() => Some(original),
        _ => None,
    }
}

/// Whether a name stands at a place of a text.
fn stands_at(text: &[u8], name: &[u8], at: usize) -> bool
    ensures { result ≡ spec.stands_at text.now name.now at }
{
    if name.len() > MOST_NAME {
        return false;
    }
    if at > text.len() {
        return name.is_empty();
    }
    text[at..].starts_with(name)
}

/// Whether an original has a name, and it is at its place in the text.
fn has_name_there(original: &OriginalView<'_>, source: &SourceFunctions, text: &[u8]) -> bool
    ensures { AreLines text.now source.now.lines
        → result ≡ spec.has_name_there text.now (origin_of_view original.now) }
{
    match original.name {
        Some(name) => match source.place(text, original.line, original.column) {
            Some(at) => stands_at(text, name.as_bytes(), at),
            None => false,
        },
        None => false,
    }
}

/// Whether a text is of the build that made the map: of the mappings around the frame's that have a name and
/// an original in this source, at least half have the name there.
fn fits(mapped: &MappedFrame<'_>, source: &SourceFunctions, text: &[u8]) -> bool
    requires { IsMapped mapped.now }
    ensures { AreLines text.now source.now.lines
        → result ≡ spec.fits text.now (entry_of_view mapped.now.original.source)
        (spec.near (record_of mapped.now.map.now).mappings mapped.now.index) }
{
    let count = mapped.map.token_count();
    let from = mapped.index.saturating_sub(NEAR);
    let to = count.min(mapped.index.saturating_add(NEAR));
    let (mut named, mut found) = (0usize, 0usize);
    for i in from..to {
        if let Some(original) = named_in(mapped.map, i, &mapped.original) {
            named += 1;
            if has_name_there(&original, source, text) {
                found += 1;
            }
        }
    }
    named <= 2 * found
}

/// Whether the next mapping has its original in the same source, and no function begins or ends between the
/// two.
fn is_followed(
    mapped: &MappedFrame<'_>,
    source: &SourceFunctions,
    text: &[u8],
    place: usize,
) -> bool
    requires { IsMapped mapped.now }
    ensures { AreLines text.now source.now.lines
        → result ≡ spec.is_followed source.now.functions text.now (mapped_of mapped.now) place }
{
    let count = mapped.map.token_count();
    let next = mapped.index + 1;
    if next >= count {
        return false;
    }
    match original_in(mapped.map, next, &mapped.original) {
        Some(next) => match source.place(text, next.line, next.column) {
            Some(other) => source.is_undivided(place, other),
            None => false,
        },
        None => false,
    }
}

/// Whether the name is sure.
fn is_sure(column: u32, mapped_column: u32, logged: &[u8], word: &[u8], is_followed: bool) -> bool
    ensures { result ≡ spec.is_sure column mapped_column logged.now word.now is_followed }
{
    u64::from(mapped_column) + 1 == u64::from(column) || (says(logged, word) || is_followed)
}

/// Whether a name at this place is sure, and the text is of the map's build.
fn is_told(
    mapped: &MappedFrame<'_>,
    source: &SourceFunctions,
    text: &[u8],
    place: usize,
    word: &[u8],
) -> bool
    requires { IsMapped mapped.now }
    ensures { AreLines text.now source.now.lines
        → result ≡ spec.is_told source.now.functions text.now (mapped_of mapped.now) place word.now }
{
    let logged = logged_name(mapped.frame.before);
    let is_followed = is_followed(mapped, source, text, place);
    let (column, mapped_column) = (mapped.frame.column, mapped.token.column);
    is_sure(column, mapped_column, logged, word, is_followed) && fits(mapped, source, text)
}

/// The name of the function at a place of a text, if it is to be told.
fn told_at<'a>(
    mapped: &MappedFrame<'a>,
    source: &SourceFunctions,
    text: &'a [u8],
    place: usize,
) -> Option<Name<'a>>
    requires { IsMapped mapped.now }
    ensures exact { AreLines text.now source.now.lines → option_map words_of result
        ≡ spec.told_at source.now.functions text.now (mapped_of mapped.now) place }
    ensures words { IfSome result IsName }
{
    match source.name_at(text, place) {
        Some(name) if is_told(mapped, source, text, place, name.word) => Some(name),
        _ => None,
    }
}

/// The name of the function in which a frame is, by the functions of its source.
fn name_in<'a>(mapped: &MappedFrame<'a>, source: &SourceFunctions) -> Option<Name<'a>>
    requires { IsMapped mapped.now }
    ensures exact { IsOfContent mapped.now.original source.now → option_map words_of result
        ≡ spec.name_at source.now.functions (mapped_of mapped.now) }
    ensures words { IfSome result IsName }
{
    match mapped.original.source.content {
        Some(content) => {
            let text = content.as_bytes();
            let original = &mapped.original;
            match source.place(text, original.line, original.column) {
                Some(place) => told_at(mapped, source, text, place),
                None => None,
            }
        }
        None => None,
    }
}

/// What a frame has around its position, with the name of its function.
#[derive(Drop)]
pub struct RenamedFrame {
    /// Where its position begins in the line.
    pub start: usize,
    /// What stands before it.
    pub before: Vec<u8>,
    /// What is put behind it, before what stands there.
    pub closing: &'static [u8],
}

fn renamed(alloc: Global, frame: &Frame<'_>, name: &Name<'_>) -> Result<RenamedFrame, AllocError>
    requires { IsName name.now }
    ensures renamed { IfOk result (IsRenamed frame.now.before.now) }
    ensures exact { IfOk result (λ r. spec.around_of r
        ≡ spec.renamed frame.now.before.now (words_of name.now)) }
{
    Ok(RenamedFrame {
        start: frame.before.len(),
        before: renamed_before(alloc, frame.before, name)?,
        closing: closing(frame.before),
    })
}

/// What a frame has around its position by the functions of its source.
fn renamed_in(
    alloc: Global,
    mapped: &MappedFrame<'_>,
    source: &SourceFunctions,
) -> Result<Option<RenamedFrame>, AllocError>
    requires { IsMapped mapped.now }
    ensures renamed { IfOk result (λ o. IfSome o (IsRenamed mapped.now.frame.before.now)) }
    ensures exact { IsOfContent mapped.now.original source.now → IfOk result (λ o. option_map spec.around_of o
        ≡ spec.renamed_by (mapped_of mapped.now) (Some source.now)) }
{
    match name_in(mapped, source) {
        Some(name) => Ok(Some(renamed(alloc, &mapped.frame, &name)?)),
        None => Ok(None),
    }
}

/// What a line that is a frame has around its position with the name of the function that is there, if that
/// is sure. The functions of a source are read when a frame first needs them.
///
/// # Errors
///
/// `Memory`.
pub fn rename_frame<M: Maps>(
    alloc: Global,
    text: &[u8],
    maps: &M,
    ignore_query: bool,
    known: &mut KnownFunctions,
) -> Result<Option<RenamedFrame>, Memory>
    ensures renamed { IfOk result (λ o. IfSome o (λ r. (f : FrameParts) × (frame_of text.now ≡ Some f)
        × IsRenamed f.before r)) }

    // If what is known is of the sources of these maps, it stays so, and what the frame gets is exactly what
    // the definition says by what is known then.
    ensures exact { AreKnown ignore_query (M.scripts maps.now) known.old
        → IfOk result (λ o. AreKnown ignore_query (M.scripts maps.now) known.new
        × GivesName (spec.mapped ignore_query (M.scripts maps.now) text.now) known.new
        (option_map spec.around_of o)) }
{
    let Some(mapped) = frame_mapping(text, maps, ignore_query) else {
        return Ok(None);
    };
    known.read(alloc, mapped.frame.url, &mapped.original)?;
    match known.of(mapped.frame.url, mapped.original.source_number) {
        Some(source) => Ok(renamed_in(alloc, &mapped, source)?),
        None => Ok(None),
    }
}
