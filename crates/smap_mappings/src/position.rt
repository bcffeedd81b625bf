//! Generated positions, their order, and where a map places them.
ghost use Rattle.std.specs.Prelude.{◌≡◌, IfSome};
ghost use Rattle.smap_mappings.specs.Position.{IsPosition, in_range, place};

use smap_vlq::MAX_POSITION;

/// A generated line and column, both from 0. Positions are ordered by line, and on one line by column.
#[derive(Clone, Copy, Debug, PartialEq, Eq, PartialOrd, Ord)]
pub struct Position {
    /// The generated line.
    pub line: u32,
    /// The generated column.
    pub column: u32,
}

impl Position {
    /// The position `own` of a map that starts at `self` (ECMA-426, "Index source map"): the lines are
    /// added, and the columns only on the map's first line. None where the line or the column would be
    /// above 2,147,483,647.
    pub fn place(self, own: Position) -> Option<Position>
        ensures placed { result ≡ in_range (place self own) }
        ensures within { IfSome result IsPosition }
    {
        let placed = if own.line == 0 {
            Position {
                line: self.line,
                column: self.column.checked_add(own.column)?,
            }
        } else {
            Position {
                line: self.line.checked_add(own.line)?,
                column: own.column,
            }
        };
        if placed.line > MAX_POSITION || placed.column > MAX_POSITION {
            return None;
        }
        Some(placed)
    }
}
