//! Tokens, which are the mappings of a mappings string, and the bounds under which it is read.
ghost use Rattle.std.specs.Prelude.{◌≡◌};
ghost use Rattle.smap_mappings.specs.Position.{position_of};

use crate::position::Position;
use smap_vlq::MAX_POSITION;

/// A mapping as the string has it: a generated position, and the original that it maps to, if any. Lines
/// and columns count from 0; columns are in the unit of whoever wrote the map, in practice UTF-16 code
/// units.
#[derive(Clone, Copy, Debug, PartialEq, Eq)]
pub struct Token {
    /// The generated line, below 16,777,216 in every token that was read.
    pub line: u32,
    /// The generated column, at most 2,147,483,647 in every token that was read.
    pub column: u32,
    /// The original position; none for a segment of a single number.
    pub original: Option<Original>,
}

impl Token {
    /// The generated position.
    #[inline(always)]
    pub fn position(&self) -> Position
        ensures { result ≡ position_of self.now }
    {
        Position {
            line: self.line,
            column: self.column,
        }
    }
}

/// An original position, perhaps with a name. All numbers are at most 2,147,483,647 where they were read.
#[derive(Clone, Copy, Debug, PartialEq, Eq)]
pub struct Original {
    /// The index of the source in the map's `sources`.
    pub source: u32,
    /// The line in the source, from 0.
    pub line: u32,
    /// The column in the source, from 0.
    pub column: u32,
    /// The index of the name in the map's `names`.
    pub name: Option<u32>,
}

/// The greatest limit on generated lines: every mapping is on a line below it. This project's own limit.
pub const MAX_LINES: u32 = 16_777_216;

/// Where a mappings string starts in the generated file, and what its lines and indices must stay below.
#[derive(Clone, Copy, PartialEq, Eq)]
pub struct Bounds {
    /// The generated line at which the string starts, at most [`MAX_POSITION`]; not 0 only in a section of
    /// an index map.
    pub start_line: u32,
    /// The column at which its first line starts, at most [`MAX_POSITION`]. It isn't added on other lines.
    pub start_column: u32,
    /// The number of sources, at most [`MAX_POSITION`]: source indices are below it.
    pub sources: u32,
    /// The number of names, at most [`MAX_POSITION`]: name indices are below it.
    pub names: u32,
    /// The limit on generated lines, at most [`MAX_LINES`]: lines, counted from 0, are below it.
    pub lines: u32,
}

/// The widest bounds for a string that starts at line 0 and column 0.
pub const WIDEST: Bounds = Bounds {
    start_line: 0,
    start_column: 0,
    sources: MAX_POSITION,
    names: MAX_POSITION,
    lines: MAX_LINES,
};
