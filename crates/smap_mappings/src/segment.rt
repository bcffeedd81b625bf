//! One segment: its token, by the absolute values before it, or its first fault.
ghost use Rattle.std.specs.Prelude.{◌≡◌, pos, ◌+ℤ◌};
ghost use Rattle.smap_mappings.specs.Tokens.{below, column_in, kind_of, name_in, original_in};
ghost use Rattle.smap_mappings.specs.Steps.{next_values, token_step};
ghost use Rattle.smap_mappings.specs.Writing.{original_after};

use crate::error::SegmentKind;
use crate::running::{POSITION_LIMIT, Running};
use crate::token::{Bounds, Original, Token};
use smap_vlq::{Fields, SegmentFault};

/// A number plus a difference; none unless the sum is from 0 to below the limit.
#[inline(always)]
fn moved(position: u32, difference: i32, limit: u32) -> Option<u32>
    ensures { result ≡ below limit (pos position +ℤ difference) }
{
    let moved = position as i64 + difference as i64;
    if moved < 0 || moved >= limit as i64 {
        return None;
    }
    Some(moved as u32)
}

/// The segment's name index.
#[inline(always)]
fn name_at(bounds: Bounds, running: Running, fields: &Fields) -> Result<Option<u32>, SegmentKind>
    ensures { result ≡ name_in bounds (next_values running fields.now) fields.now.count }
{
    if fields.count != 5 {
        return Ok(None);
    }
    let name = moved(running.name, fields.numbers[4], bounds.names).ok_or(SegmentKind::Name)?;
    Ok(Some(name))
}

/// The segment's original position.
#[inline(always)]
fn original_at(
    bounds: Bounds,
    running: Running,
    fields: &Fields,
) -> Result<Option<Original>, SegmentKind>
    ensures { result ≡ original_in bounds (next_values running fields.now) fields.now.count }
{
    if fields.count == 1 {
        return Ok(None);
    }
    let source = moved(running.source, fields.numbers[1], bounds.sources).ok_or(
        SegmentKind::Source,
    )?;
    let line = moved(running.original_line, fields.numbers[2], POSITION_LIMIT).ok_or(
        SegmentKind::OriginalLine,
    )?;
    let column = moved(running.original_column, fields.numbers[3], POSITION_LIMIT).ok_or(
        SegmentKind::OriginalColumn,
    )?;
    let name = name_at(bounds, running, fields)?;
    Ok(Some(Original {
        source,
        line,
        column,
        name,
    }))
}

/// The running values after a segment with this original position, except for the column.
#[inline(always)]
fn original_after(running: Running, original: Option<Original>) -> Running
    ensures { result ≡ original_after running original }
{
    let Some(original) = original else {
        return running;
    };
    Running {
        source: original.source,
        original_line: original.line,
        original_column: original.column,
        name: original.name.unwrap_or(running.name),
        ..running
    }
}

/// The column after the segment, and that column after placing.
#[inline(always)]
fn column_at(bounds: Bounds, line: usize, column: u32, difference: i32) -> Option<(u32, u32)>
    ensures { result ≡ column_in bounds line (pos column +ℤ difference) }
{
    let moved = column as i64 + difference as i64;
    if moved < 0 {
        return None;
    }
    let offset = if line == 0 { bounds.start_column } else { 0 };
    let placed = moved + offset as i64;
    if placed >= POSITION_LIMIT as i64 {
        return None;
    }
    Some((moved as u32, placed as u32))
}

/// The running values after the segment, and its token.
#[inline(always)]
pub(crate) fn token_at(
    bounds: Bounds,
    running: Running,
    line: usize,
    fields: &Fields,
) -> Result<(Running, Token), SegmentKind>
    ensures { result ≡ token_step bounds running line fields.now }
{
    let lines = bounds.lines as usize;
    let start = bounds.start_line as usize;
    // The line is tested first, so that the sum below can't overflow: `line` may be as large as a `usize` can
    // be.
    if line >= lines || start + line >= lines {
        return Err(SegmentKind::GeneratedLine);
    }
    let (column, placed) = column_at(bounds, line, running.column, fields.numbers[0]).ok_or(
        SegmentKind::Column,
    )?;
    let original = original_at(bounds, running, fields)?;
    let after = original_after(running, original);
    let token = Token {
        line: (start + line) as u32,
        column: placed,
        original,
    };
    Ok((Running { column, ..after }, token))
}

/// The fault of a segment's numbers or of their count, as one of a mappings string.
pub(crate) fn kind_of(fault: SegmentFault) -> SegmentKind
    ensures { result ≡ kind_of fault }
{
    match fault {
        SegmentFault::Empty => SegmentKind::Empty,
        SegmentFault::Number(which, fault) => SegmentKind::Number(which, fault),
        SegmentFault::Count(count) => SegmentKind::Count(count),
    }
}
