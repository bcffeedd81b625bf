//! How many segments a mappings string has.
ghost use Rattle.std.specs.Prelude.{◌≡◌, ◌+◌, ◌-◌, ◌<◌, ◌≤◌, length, drop, slice_index};
ghost use Rattle.smap_mappings.specs.Lines.{segments_of};
ghost use Rattle.smap_mappings.specs.Steps.{mark, marks, commas_in, starts_in};

use std::simd::prelude::*;

/// What a byte adds to the number of segments, given the byte before it: one for a comma, and one for the
/// first byte of a line.
#[inline(always)]
fn mark(previous: u8, byte: u8) -> usize
    ensures { result ≡ mark previous byte }
{
    (byte == b',') as usize + (previous == b';' && byte != b';') as usize
}

/// How many of 32 bytes are commas.
#[inline(always)]
fn commas(lanes: u8x32) -> u32
    requires { length lanes ≡ 32 }
    ensures { result ≡ commas_in lanes }
{
    lanes.simd_eq(u8x32::splat(b',')).to_bitmask().count_ones()
}

/// How many of 32 bytes are the first of a line. `after` has the byte before each.
#[inline(always)]
fn starts(after: u8x32, lanes: u8x32) -> u32
    requires after { length after ≡ 32 }
    requires lanes { length lanes ≡ 32 }
    ensures { result ≡ starts_in after lanes }
{
    let semicolons = u8x32::splat(b';');
    let after_semicolons = after.simd_eq(semicolons).select(lanes, semicolons);
    after_semicolons
        .simd_ne(semicolons)
        .to_bitmask()
        .count_ones()
}

/// What 32 bytes add to the number of segments.
fn block(text: &[u8], at: usize) -> u32
    requires some { 0 < at }
    requires within { at + 32 ≤ length text.now }
    ensures value { result + marks (slice_index text.now (at + 31)) (drop (at + 32) text.now)
        ≡ marks (slice_index text.now (at - 1)) (drop at text.now) }
{
    let lanes = u8x32::from_slice(&text[at..]);
    let after = u8x32::from_slice(&text[at - 1..]);
    commas(lanes) + starts(after, lanes)
}

/// The number of segments of a mappings string, valid or not: each line that isn't empty has one more than
/// it has commas. It reads 32 bytes at a time, and takes no memory.
pub fn count_segments(text: &[u8]) -> usize
    ensures { result ≡ length (segments_of text.now) }
{
    if text.is_empty() {
        return 0;
    }
    let mut total = mark(b';', text[0]);
    let mut place: usize = 1;
    while text.len() - place >= 32 {
        total += block(text, place) as usize;
        place += 32;
    }
    while place < text.len() {
        total += mark(text[place - 1], text[place]);
        place += 1;
    }
    total
}
