//! Limits on what a map may list, and on its generated lines. A map that lists more is refused before any
//! of its sources is resolved or any name copied.
ghost use Rattle.std.specs.Prelude.{◌≡◌, ◌≤◌, ◌↔◌, IsSome, IfSome};
ghost use Rattle.smap_vlq.specs.Limits.{max_position};
ghost use Rattle.smap_mappings.specs.Limits.{max_lines};
ghost use Rattle.smap_record.specs.Record.{usual};

use smap_mappings::{MAX_LINES, MAX_POSITION};
use std::marker::Model;

/// The greatest number of sources that a map may list, and likewise of names (`items`), and of generated
/// lines (`lines`). This project's own limits; [`Limits::usual`] are those of the program.
#[derive(Clone, Copy)]
pub struct Limits {
    items: u32,
    lines: u32,
}

impl Model for Limits {
    ghost use Rattle.std.specs.Prelude.{◌≤◌};
    ghost use Rattle.smap_vlq.specs.Limits.{max_position};
    ghost use Rattle.smap_mappings.specs.Limits.{max_lines};
    ghost use Rattle.smap_record.specs.Record.{Allowed};

    ghost Value = { Allowed };

    ghost view = { λ s. record { items = s.items; lines = s.lines } };

    ghost invariant = { λ s. (s.items ≤ max_position) × (s.lines ≤ max_lines) };

    ghost inverse = { λ a. record { items = a.items; lines = a.lines } };
}

impl Limits {
    /// These limits; none where `items` is above 2,147,483,647, or `lines` above 16,777,216.
    pub fn new(items: u32, lines: u32) -> Option<Limits>
        ensures valid { IsSome result ↔ ((items ≤ max_position) × (lines ≤ max_lines)) }
        ensures value { IfSome result (λ l. (l.items ≡ items) × (l.lines ≡ lines)) }
    {
        if items <= MAX_POSITION && lines <= MAX_LINES {
            Some(Limits { items, lines })
        } else {
            None
        }
    }

    /// 16,777,216 sources, names and lines.
    pub fn usual() -> Limits
        ensures { result ≡ usual }
    {
        Limits {
            items: MAX_LINES,
            lines: MAX_LINES,
        }
    }

    /// The greatest number of sources, and likewise of names.
    pub fn items(self) -> u32
        ensures value { result ≡ self.items }
        ensures most { result ≤ max_position }
    {
        self.items
    }

    /// The greatest number of generated lines.
    pub fn lines(self) -> u32
        ensures value { result ≡ self.lines }
        ensures most { result ≤ max_lines }
    {
        self.lines
    }
}
