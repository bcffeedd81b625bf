//! A text that comes in pieces, cut into its lines. A line that isn't whole yet waits in a vector.
ghost use Rattle.std.specs.Prelude.{◌≡◌, ◌++◌, List, ℕ, OnOk, []};
ghost use Rattle.smap_io.specs.Lines.{HasNoFeed, TakesAll, TakesPiece, lines_of};

use memchr::memchr;
use std::alloc::AllocError;

/// What lines are handed to, one after another, and what it has made of them so far.
pub trait EachLine<S> {
    // what a line makes of what there was before it
    ghost takes: { Self → S → List ℕ → S → Type 0 };

    /// Takes the next line, with its line feed if it has one.
    ///
    /// # Errors
    ///
    /// `AllocError`, and nothing is promised of `so_far`.
    fn take(&self, so_far: &mut S, line: &[u8]) -> Result<(), AllocError>
        ensures { OnOk result (takes self.now so_far.old line.now so_far.new) };
}

/// Hands over a line: what waits in `line`, and then these bytes, which end it.
fn take_line<S, E: EachLine<S>>(
    each: &E,
    so_far: &mut S,
    line: &mut Vec<u8>,
    end: &[u8],
) -> Result<(), AllocError>
    ensures rest { OnOk result (line.new.items ≡ []) }
    ensures takes { OnOk result
        (E.takes each.now so_far.old (line.old.items ++ end.now) so_far.new) }
{
    // Nearly all lines are within one piece, and aren't copied.
    if line.is_empty() {
        return each.take(so_far, end);
    }
    line.extend_from_slice(end)?;
    each.take(so_far, line)?;
    line.clear();
    Ok(())
}

/// Hands over the lines that the next piece of a text ends, each with its line feed. What is behind them
/// waits in `line`, which holds no line feed.
///
/// # Errors
///
/// `AllocError`: some of the lines were handed over.
pub fn take_piece<S, E: EachLine<S>>(
    each: &E,
    so_far: &mut S,
    line: &mut Vec<u8>,
    piece: &[u8],
) -> Result<(), AllocError>
    requires { HasNoFeed line.old.items }
    ensures rest { OnOk result (HasNoFeed line.new.items) }
    ensures takes { OnOk result (TakesPiece (E.takes each.now) line.old.items piece.now line.new.items
        so_far.old so_far.new) }
{
    let mut left = piece;
    'lines: while let Some(feed) = memchr(b'\n', left) {
        take_line(each, so_far, line, &left[..=feed])?;
        left = &left[feed + 1..];
    }
    line.extend_from_slice(left)
}

/// Hands over what waits in `line` at the end of a text, if that isn't empty: its last line, which has no
/// line feed.
///
/// # Errors
///
/// `AllocError`, if the line was refused.
pub fn take_last<S, E: EachLine<S>>(each: &E, so_far: &mut S, line: &[u8]) -> Result<(), AllocError>
    requires { HasNoFeed line.now }
    ensures { OnOk result (TakesAll (E.takes each.now) so_far.old (lines_of line.now) so_far.new) }
{
    if line.is_empty() {
        return Ok(());
    }
    each.take(so_far, line)
}
