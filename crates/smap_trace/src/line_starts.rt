//! Where the mappings of each line begin.
ghost use Rattle.std.specs.Prelude.{◌≡◌, ◌≤◌, IfOk};
ghost use Rattle.smap_record.specs.Record.{record_of};
ghost use Rattle.smap_trace.specs.LineStarts.{line_start, line_starts, lines_of, range_in};

use smap_mappings::Memory;
use smap_record::SourceMap;
use std::alloc::Global;
use std::marker::Model;

/// Where the mappings of each line of a map begin, so that a lookup compares only positions of its line:
/// [`find_in`] takes the map and its table. A table belongs to the map that it was made from; callers keep
/// both together.
///
/// It has a number of 8 bytes for each line up to the one after the last mapping's. If these lines are more
/// than twice the mappings and two, as where the only mapping is on line 2,147,483,646, the table is empty,
/// and a lookup searches all mappings. So a table of *n* mappings takes at most 16 *n* + 16 bytes.
///
/// [`find_in`]: crate::find_in
#[derive(Drop)]
pub struct LineStarts {
    starts: Vec<usize>,
}

impl Model for LineStarts {
    ghost use Rattle.std.specs.Prelude.{List, ℕ};

    ghost Value = { List ℕ };

    ghost view = { λ s. s.starts.items };
}

impl LineStarts {
    /// The table of a map. It takes one pass over the mappings and the lines.
    ///
    /// # Errors
    ///
    /// `Memory`.
    pub fn new(alloc: Global, map: &SourceMap) -> Result<LineStarts, Memory>
        ensures { IfOk result (λ s. s ≡ line_starts (record_of map.now).mappings) }
    {
        let lines = lines_of(map);
        if lines / 2 > map.token_count() {
            return Ok(LineStarts {
                starts: Vec::new(alloc),
            });
        }
        let mut starts = Vec::with_capacity(alloc, lines + 1)?;
        let mut at = 0;
        for line in 0..lines + 1 {
            at = line_start(map, at, line);
            starts.push(at)?;
        }
        Ok(LineStarts { starts })
    }

    /// Where the mappings of a line begin and end, if the table has the line.
    pub(crate) fn of_line(&self, line: u32) -> Option<(usize, usize)>
        ensures { result ≡ range_in self.now line }
    {
        let starts = &self.starts;
        let line = line as usize;
        if line + 1 < starts.len() {
            Some((starts[line], starts[line + 1]))
        } else {
            None
        }
    }
}

/// One more than the line of the last mapping, or 0 if there is none.
fn lines_of(map: &SourceMap) -> usize
    ensures value { result ≡ lines_of (record_of map.now).mappings }
    ensures within { result ≤ 4294967296 }
{
    let count = map.token_count();
    if count == 0 {
        return 0;
    }
    map.listed_token(count - 1).line as usize + 1
}

/// The index of the first mapping on this line or a later one, which is known to be at least `at`, or the
/// number of mappings if there is none.
fn line_start(map: &SourceMap, at: usize, line: usize) -> usize
    requires { at ≤ line_start (record_of map.now).mappings line }
    ensures { result ≡ line_start (record_of map.now).mappings line }
{
    let count = map.token_count();
    let mut at = at;
    while at < count && (map.listed_token(at).line as usize) < line {
        at += 1;
    }
    at
}
