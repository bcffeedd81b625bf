//! Laws about the definitions. Each is the contract of a function that does nothing.
ghost use Rattle.smap_trace.specs.Ends.{NothingIsPast, WithinAllStays};
ghost use Rattle.smap_trace.specs.Laws.{CutIsComputed, FramesAreFoundAnywhere, LinesAreCounted};
ghost use Rattle.smap_trace.specs.Known.{OneMapOfAUrl};
ghost use Rattle.smap_trace.specs.Laws.{LookupIsComputed, OneCut, PiecesAreTheLine};
ghost use Rattle.smap_trace.specs.RenamedFrame.{RenamedStaysAFrame};

pub use smap_frames::laws::{frames_are_computed, one_reading};

/// The function that looks a position up finds exactly the mapping that the definition gives it, so there
/// is at most one.
pub fn lookups_are_computed()
    ensures { LookupIsComputed }
{}

/// In a map that ends where the lines of its script do ([`ended`](smap_record::SourceMap::ended)), a position
/// of the script falls to the same mapping as in the map itself.
pub fn within_all_stays()
    ensures { WithinAllStays }
{}

/// In such a map, a position past the end of its line, or of the script, has no original.
pub fn nothing_is_past()
    ensures { NothingIsPast }
{}

/// In the table of a map's lines, the difference of a line's entry and the next one is the number of mappings
/// on the line.
pub fn lines_are_counted()
    ensures { LinesAreCounted }
{}

/// The function that cuts a line into bytes and positions cuts it exactly as the relation says.
pub fn cuts_are_computed()
    ensures { CutIsComputed }
{}

/// A line is cut into bytes and positions in one way.
pub fn one_cut()
    ensures { OneCut }
{}

/// The pieces into which a line is cut, joined, are the line.
pub fn pieces_are_the_line()
    ensures { PiecesAreTheLine }
{}

/// The same becomes of a line that is a frame, and holds no position but its own, whether positions are found
/// in frames or anywhere.
pub fn frames_are_found_anywhere()
    ensures { FramesAreFoundAnywhere }
{}

/// Frames with one URL are in the script of one map, whether or not queries are ignored.
pub fn one_map_of_a_url()
    ensures { OneMapOfAUrl }
{}

/// A frame that gets the name of a function, as
/// [`rename_frame`](crate::rename_frame) gives it, and the position that a translation puts there, is still a
/// frame, of the form that it had.
pub fn renamed_stays_a_frame()
    ensures { RenamedStaysAFrame }
{}
