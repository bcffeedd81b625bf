//! Binary search in a sorted list of positions.
ghost use Rattle.std.specs.Prelude.{◌≡◌, ℕ, ◌+◌, ◌-◌, ◌<◌, ◌≤◌, List, length, slice_get, Some};
ghost use Rattle.smap_mappings.specs.declared.position.Position.{Position as SpecPosition};
ghost use Rattle.smap_mappings.specs.Position.{NeverFalls};
ghost use Rattle.smap_trace.specs.Positions.{count_at_most, position_in, IsBetween, IsWithinBinaryDigits};

use smap_mappings::Position;

/// A sorted list of positions that counts how often one was asked for.
pub trait Positions {
    // the list
    ghost positions: { Self → List SpecPosition };

    // the count
    ghost probes: { Self → ℕ };

    /// The number of positions.
    fn len(&self) -> usize
        ensures { result ≡ length (positions self.now) };

    /// The line and column of the i-th position. `i` must be below `len`, and the count below
    /// 4,294,967,295; it rises by one.
    fn at(&mut self, i: usize) -> (u32, u32)
        requires within { i < length (positions self.old) }
        requires room { probes self.old < 4294967295 }
        ensures value { slice_get (positions self.old) i ≡ Some (position_in result) }
        ensures list { positions self.new ≡ positions self.old }
        ensures count { probes self.new ≡ probes self.old + 1 };
}

/// A line and a column as a position.
fn position_in(p: (u32, u32)) -> Position
    ensures { result ≡ position_in p }
{
    Position {
        line: p.0,
        column: p.1,
    }
}

/// The number of positions that aren't after this line and column, by binary search. The positions must be
/// sorted, and none asked for yet. The count is then at most the number of binary digits of `len`, and 0
/// only where `len` is 0.
pub fn search<P: Positions>(p: &mut P, line: u32, column: u32) -> usize
    requires sorted { NeverFalls (P.positions p.old) }
    requires none { P.probes p.old ≡ 0 }
    ensures count { result ≡ count_at_most (P.positions p.old) (position_in (line, column)) }
    ensures list { P.positions p.new ≡ P.positions p.old }

    ensures most { IsWithinBinaryDigits (P.probes p.new) (length (P.positions p.old)) }
    ensures least { 0 < length (P.positions p.old) → 0 < P.probes p.new }
{
    let len = p.len();
    search_between(p, 0, len, line, column)
}

/// The same where that number is known to be at least `from` and at most `to`.
pub(crate) fn search_between<P: Positions>(
    p: &mut P,
    from: usize,
    to: usize,
    line: u32,
    column: u32,
) -> usize
    requires sorted { NeverFalls (P.positions p.old) }
    requires none { P.probes p.old ≡ 0 }
    requires within { to ≤ length (P.positions p.old) }
    requires known { IsBetween from to (count_at_most (P.positions p.old) (position_in (line, column))) }
    ensures count { result ≡ count_at_most (P.positions p.old) (position_in (line, column)) }
    ensures list { P.positions p.new ≡ P.positions p.old }

    ensures most { IsWithinBinaryDigits (P.probes p.new) (to - from) }
    ensures least { from < to → 0 < P.probes p.new }
{
    let asked = position_in((line, column));
    // What is before `low` isn't after it, and what is at `low + size` or later is.
    let mut low = from;
    let mut size = to - from;
    while size > 0 {
        let half = size / 2;
        let middle = low + half;
        if position_in(p.at(middle)) <= asked {
            low = middle + 1;
            size = size - half - 1;
        } else {
            size = half;
        }
    }
    low
}
