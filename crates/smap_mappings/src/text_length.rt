//! The length of a mappings string that isn't written.
ghost use Rattle.std.specs.Prelude.{◌≡◌, ◌-◌, ◌^◌, ◌<◌, ◌≤◌, ◌++◌, ◌∷◌, [], List, OnOk, Some};
ghost use Rattle.std.specs.Prelude.{flat_map, length, min};
ghost use Rattle.smap_vlq.specs.Number.{spelling};
ghost use Rattle.smap_mappings.specs.declared.token.Token.{Token as SpecToken};
ghost use Rattle.smap_mappings.specs.Position.{POSITIONS, LINES};
ghost use Rattle.smap_mappings.specs.Text.{IsEncodable, IsPlaced, IsOriginal, difference, mappings_text};
ghost use Rattle.smap_mappings.specs.Writing.{IsRunning, original_from, segment_from, separator};

use crate::encoder::{after, on_line};
use crate::running::Running;
use crate::token::{Original, Token};
use smap_vlq::spelled_len;

/// How many bytes the encoding of the difference of two numbers has.
#[inline(always)]
fn difference_len(old: u32, new: u32) -> usize
    requires old { old < POSITIONS }
    requires new { new < POSITIONS }
    ensures len { result ≡ length (spelling (difference old new)) }
    ensures few { result ≤ 7 }
{
    spelled_len(new as i32 - old as i32)
}

/// How many bytes the numbers of an original position have.
#[inline(always)]
fn original_len(running: Running, o: Original) -> usize
    requires original { IsOriginal o }
    requires running { IsRunning running }
    ensures len { result ≡ length (flat_map spelling (original_from running (Some o))) }
    ensures few { result ≤ 28 }
{
    let numbers = difference_len(running.source, o.source)
        + difference_len(running.original_line, o.line)
        + difference_len(running.original_column, o.column);
    match o.name {
        Some(name) => numbers + difference_len(running.name, name),
        None => numbers,
    }
}

/// How many bytes the segment of a token has.
#[inline(always)]
fn segment_len(running: Running, token: Token) -> usize
    requires token { IsPlaced token }
    requires running { IsRunning running }
    ensures len { result ≡ length (segment_from running token) }
    ensures few { result ≤ 35 }
{
    let column = difference_len(running.column, token.column);
    match token.original {
        None => column,
        Some(original) => column + original_len(running, original),
    }
}

/// How many separators precede the next token's segment: one comma, or semicolons.
#[inline(always)]
fn separator_len(lines: u32, line: u32) -> u32
    requires { line < LINES }
    ensures { result ≡ length (separator lines line) }
{
    if lines == line + 1 {
        return 1;
    }
    (line + 1).saturating_sub(lines.max(1))
}

/// Counts the bytes of the mappings string of tokens that are passed one by one, and takes no memory.
#[derive(Drop)]
pub struct TextLength {
    len: u128,
    running: Running,
    // One more than the line of the last token.
    lines: u32,
    ghost running_is: { IsRunning running },
    ghost lines_are: { lines ≤ LINES },
}

impl TextLength {
    ghost use Rattle.smap_mappings.specs.Feeding.{Measures};

    /// The length for no tokens yet, which is 0.
    pub fn new() -> TextLength
        ensures { Measures result [] }
    {
        TextLength {
            len: 0,
            running: Running::new(),
            lines: 0,
        }
    }

    /// Counts the segment of the next token, and the separators before it.
    #[inline(always)]
    pub fn push(&mut self, token: Token)
        requires { IsPlaced token }
        ensures { (tokens : List SpecToken) → Measures self.old tokens
            → IsEncodable (tokens ++ token ∷ []) → Measures self.new (tokens ++ token ∷ []) }
    {
        let running = on_line(self.running, self.lines, token.line);
        let more = separator_len(self.lines, token.line) as usize + segment_len(running, token);
        self.len = self.len.saturating_add(more as u128);
        self.running = after(running, token);
        self.lines = token.line + 1;
    }

    /// The length in bytes of the canonical mappings string of the tokens, capped at 2^128 - 1.
    pub fn len(&self) -> u128
        ensures { (tokens : List SpecToken) → Measures self.now tokens
            → result ≡ min (length (mappings_text tokens)) (2 ^ 128 - 1) }
    {
        self.len
    }
}
