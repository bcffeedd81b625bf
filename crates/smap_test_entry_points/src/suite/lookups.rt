//! Lookups in example maps, and their probes.
ghost use Rattle.std.specs.Prelude.{◌≡◌};
ghost use Rattle.smap_record.specs.Record.{record_of};
ghost use Rattle.smap_trace.specs.LineStarts.{line_starts};

use crate::suite::asserted::{equal, holds};
use crate::suite::reading::read;
use smap_record::{SourceMap, TokenView};
use smap_trace::{LineStarts, find, find_in, lookup, lookup_in};
use std::process::Abort;

const EMPTY: &str = r#"{"version":3,"mappings":""}"#;

/// Four lines with 1, 0, 3 and 7 mappings, the last two with some at equal columns. By halving, a position
/// among one less than a power of two takes as many probes as that power says, wherever it lies.
const LINES: &str = concat!(
    r#"{"version":3,"sources":["a.js"],"mappings":"#,
    r#""AAAA;;AACA,CACA,AACA;AACA,CACA,CACA,AACA,CACA,CACA,CACA"}"#,
);

/// Two mappings on line 8. The table of its lines is empty, since they are more than twice the mappings and
/// two.
const FAR: &str = r#"{"version":3,"sources":["a.js"],"mappings":";;;;;;;;AAAA,CAAC"}"#;

/// The line of the original of a mapping that was found.
fn line_of(found: Option<TokenView<'_>>) -> Option<u32> {
    Some(found?.original?.line)
}

/// The index of a mapping and the line of its original; the least and the most probes by the table of the
/// map's lines.
type Expected = ((Option<usize>, Option<u32>), (u32, u32));

/// Asserts that a lookup among all mappings of a map takes as many probes as halving does: as many as their
/// number has binary digits, or one fewer.
fn are_halvings(rt: &impl Abort, map: &SourceMap, place: (u32, u32), probes: u32) {
    let digits = usize::BITS - map.token_count().leading_zeros();
    holds(
        rt,
        (place, probes),
        probes <= digits && digits <= probes.saturating_add(1),
    );
}

/// Asserts which mapping each lookup finds for a position.
fn is_found(
    rt: &impl Abort,
    map: &SourceMap,
    starts: &LineStarts,
    place: (u32, u32),
    expected: Expected,
)
    requires { starts.now ≡ line_starts (record_of map.now).mappings }
{
    let (line, column) = place;
    let (expected, (least, most)) = expected;
    let (found, probes) = find(map, line, column);
    let (view, same_probes) = lookup(map, line, column);
    equal(rt, place, (found, line_of(view)), expected);
    equal(rt, place, probes, same_probes);
    are_halvings(rt, map, place, probes);
    let (found, probes) = find_in(map, starts, line, column);
    let (view, same_probes) = lookup_in(map, starts, line, column);
    equal(rt, place, (found, line_of(view)), expected);
    equal(rt, place, probes, same_probes);
    holds(rt, (place, probes), least <= probes && probes <= most);
}

/// Asserts that of a map, with the table that is made of it.
fn is_found_in(
    rt: &(impl Abort + AllocGlobal),
    map: &SourceMap,
    place: (u32, u32),
    expected: Expected,
) {
    let starts = LineStarts::new(rt.alloc(), map).expect(rt, "a table is made");
    is_found(rt, map, &starts, place, expected);
}

#[test]
fn the_last_mapping_up_to_a_position_is_found(rt: HostRuntime) {
    for &(text, place, index, line, probes) in &[
        (EMPTY, (0, 0), None, None, (0, 0)),
        (LINES, (0, 0), Some(0), Some(0), (1, 1)),
        (LINES, (0, 2147483647), Some(0), Some(0), (1, 1)),
        (LINES, (1, 5), None, None, (0, 0)),
        (LINES, (2, 0), Some(1), Some(1), (2, 2)),
        (LINES, (2, 1), Some(3), Some(3), (2, 2)),
        (LINES, (3, 1), Some(5), Some(5), (3, 3)),
        (LINES, (3, 2), Some(7), Some(7), (3, 3)),
        (LINES, (3, 9), Some(10), Some(10), (3, 3)),
        (LINES, (4, 0), None, None, (3, 4)),
        (FAR, (0, 0), None, None, (1, 2)),
        (FAR, (8, 0), Some(0), Some(0), (1, 2)),
        (FAR, (8, 1), Some(1), Some(0), (1, 2)),
    ] {
        is_found_in(&rt, &read(&rt, text), place, ((index, line), probes));
    }
}
