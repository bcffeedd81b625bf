//! The positions in a line that name scripts with maps.
ghost use Rattle.std.specs.Prelude.{◌≡◌, ◌<◌, false, IfOk, flat_map, map, option_and_then, option_map};
ghost use Rattle.smap_record.specs.Record.{record_of};
ghost use Rattle.smap_trace.specs.Anywhere.{pieces_of};
ghost use Rattle.smap_trace.specs.LineParts.{Part, part_in, parts_of, shown, with_parts};
ghost use Rattle.smap_trace.specs.Translation as spec;

use crate::anywhere::next_occurrence;
use crate::lines::map_for;
use crate::lookups::origin_at;
use crate::match_mode::MatchMode;
use crate::scripts::Maps;
use smap_frames::frame;
use smap_mappings::Memory;
use smap_record::{OriginalView, SourceMap};
use std::alloc::{AllocError, Global};

/// A position in a line that names a script with a map.
#[derive(Clone, Copy)]
pub struct LinePosition<'a> {
    /// Where its bytes begin in the line.
    pub start: usize,
    /// Where they end.
    pub end: usize,
    /// What the script's map has there. The translation of the line has it in place of these bytes, unless
    /// its source has no URL.
    pub original: Option<OriginalView<'a>>,
}

/// The position of this script between these places, which counts from 1.
fn position_at<'a>(
    map: &'a SourceMap,
    line: u32,
    column: u32,
    start: usize,
    end: usize,
) -> LinePosition<'a>
    requires { (0 < line) × (0 < column) }
    ensures { part_in result ≡ record {
      start = start;
      end = end;
      text = option_and_then spec.origin_text (spec.origin_at (record_of map.now) line column);
    } }
{
    LinePosition {
        start,
        end,
        original: origin_at(map, line, column),
    }
}

/// The position of the frame that a line is, if its script has a map.
fn frame_position<'a, M: Maps>(
    text: &[u8],
    maps: &'a M,
    ignore_query: bool,
) -> Option<LinePosition<'a>>
    ensures { with_parts text.now 0 (parts_of (option_map part_in result))
        ≡ shown (spec.frame_fate ignore_query (M.scripts maps.now) false text.now) text.now }
{
    let frame = frame(text)?;
    let map = map_for(text, &frame, maps, ignore_query)?;
    let (start, end) = (frame.before.len(), text.len() - frame.after.len());
    Some(position_at(map, frame.line, frame.column, start, end))
}

/// The positions anywhere in a line, from left to right.
fn positions_anywhere<'a, M: Maps>(
    alloc: Global,
    text: &[u8],
    maps: &'a M,
    ignore_query: bool,
) -> Result<Vec<LinePosition<'a>>, AllocError>
    ensures { IfOk result (λ found. with_parts text.now 0 (map part_in found.items)
        ≡ flat_map spec.written_for (pieces_of ignore_query (M.scripts maps.now) text.now)) }
{
    let mut positions = Vec::new(alloc);
    let mut at = 0;
    'positions: while let Some((start, found)) = next_occurrence(text, at, maps, ignore_query) {
        let end = start + found.width;
        positions.push(position_at(found.map, found.line, found.column, start, end))?;
        at = end;
    }
    Ok(positions)
}

/// The positions that are found in a line without its line feed, from left to right, each with its original.
/// Written in their places, the originals give the line's translation, as by
/// [`translate_line_in`](crate::translate_line_in) where nothing is hidden.
///
/// # Errors
///
/// `Memory`.
pub fn line_positions<'a, M: Maps>(
    alloc: Global,
    text: &[u8],
    maps: &'a M,
    mode: MatchMode,
) -> Result<Vec<LinePosition<'a>>, Memory>
    ensures { IfOk result (λ found. with_parts text.now 0 (map part_in found.items)
        ≡ shown (spec.fate_found mode (M.scripts maps.now) false text.now) text.now) }
{
    if mode.anywhere {
        return Ok(positions_anywhere(alloc, text, maps, mode.ignore_query)?);
    }
    let mut positions = Vec::new(alloc);
    if let Some(position) = frame_position(text, maps, mode.ignore_query) {
        positions.push(position)?;
    }
    Ok(positions)
}
