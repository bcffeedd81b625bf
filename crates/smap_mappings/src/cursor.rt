//! Where a mappings string is being read: the running values, and the place of the next segment.
ghost use Rattle.std.specs.Prelude.{◌≡◌, ◌+◌, ◌<◌};
ghost use Rattle.smap_mappings.specs.Steps.{at_start};
ghost use Rattle.smap_mappings.specs.Tokens.{u32_count};

use crate::running::Running;

/// The running values before a segment, and its place. The line, and the index of the segment on it, stay at
/// the greatest `u32` once they are there.
#[derive(Clone, Copy)]
pub(crate) struct Cursor {
    pub(crate) running: Running,
    pub(crate) line: u32,
    pub(crate) index: u32,
}

impl Cursor {
    /// Before the first segment.
    pub(crate) fn new() -> Cursor
        ensures { result ≡ record { running = at_start; line = 0; index = 0 } }
    {
        Cursor {
            running: Running::new(),
            line: 0,
            index: 0,
        }
    }

    /// After a comma: the values are those of the segment before it.
    #[inline(always)]
    pub(crate) fn after_comma(self, running: Running) -> Cursor
        ensures { result
            ≡ record { running = running; line = self.line; index = u32_count (self.index + 1) } }
    {
        Cursor {
            running,
            line: self.line,
            index: self.index.saturating_add(1),
        }
    }

    /// After a semicolon: only the generated column starts again on a new line.
    #[inline(always)]
    pub(crate) fn after_semicolon(self, running: Running) -> Cursor
        ensures { result
            ≡ record {
              running = record running { column = 0 };
              line = u32_count (self.line + 1);
              index = 0;
            } }
    {
        Cursor {
            running: Running {
                column: 0,
                ..running
            },
            line: self.line.saturating_add(1),
            index: 0,
        }
    }
}
