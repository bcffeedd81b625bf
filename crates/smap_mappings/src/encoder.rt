//! Encoding a mappings string token by token.
ghost use Rattle.std.specs.Prelude.{◌≡◌, ◌≢◌, ◌+◌, ◌-◌, ◌<◌, ◌≤◌, ◌++◌, ◌∷◌, [], List, IfOk, OnOk, Some};
ghost use Rattle.std.specs.Prelude.{length};
ghost use Rattle.std.specs.Prelude.{take, vec_len, flat_map};
ghost use Rattle.smap_vlq.specs.Number.{spelling};
ghost use Rattle.smap_mappings.specs.declared.token.Token.{Token as SpecToken};
ghost use Rattle.smap_mappings.specs.Position.{POSITIONS, LINES};
ghost use Rattle.smap_mappings.specs.Text.{IsEncodable, IsPlaced, IsOriginal, difference, mappings_text};
ghost use Rattle.smap_mappings.specs.Writing.{IsRunning, original_from, segment_from, running_after};
ghost use Rattle.smap_mappings.specs.Writing.{original_after, separator, at_line};

use crate::error::Memory;
use crate::running::Running;
use crate::token::{Original, Token};
use smap_vlq::spell_at;
use std::alloc::Global;

/// Writes the difference of two numbers.
#[inline(always)]
fn put_difference(out: &mut [u8], at: usize, old: u32, new: u32) -> usize
    requires old { old < POSITIONS }
    requires new { new < POSITIONS }
    requires room { at + 7 ≤ length out.old }
    ensures text { take result out.new ≡ take at out.old ++ spelling (difference old new) }
    ensures place { result ≤ at + 7 }
    ensures room { length out.new ≡ length out.old }
{
    spell_at(new as i32 - old as i32, out, at)
}

/// Writes the numbers of an original position.
#[inline(always)]
fn put_original(out: &mut [u8], at: usize, running: Running, o: Original) -> usize
    requires original { IsOriginal o }
    requires running { IsRunning running }
    requires room { at + 28 ≤ length out.old }
    ensures text { take result out.new ≡ take at out.old
        ++ flat_map spelling (original_from running (Some o)) }
    ensures place { result ≤ at + 28 }
    ensures room { length out.new ≡ length out.old }
{
    let at = put_difference(out, at, running.source, o.source);
    let at = put_difference(out, at, running.original_line, o.line);
    let at = put_difference(out, at, running.original_column, o.column);
    match o.name {
        Some(name) => put_difference(out, at, running.name, name),
        None => at,
    }
}

/// Writes the segment of a token.
#[inline(always)]
fn put_segment(out: &mut [u8], at: usize, running: Running, token: Token) -> usize
    requires token { IsPlaced token }
    requires running { IsRunning running }
    requires room { at + 35 ≤ length out.old }
    ensures text { take result out.new ≡ take at out.old ++ segment_from running token }
    ensures place { result ≤ at + 35 }
    ensures room { length out.new ≡ length out.old }
{
    let at = put_difference(out, at, running.column, token.column);
    match token.original {
        None => at,
        Some(original) => put_original(out, at, running, original),
    }
}

/// The running values after an original position.
#[inline(always)]
fn after_original(running: Running, o: Original) -> Running
    ensures { result ≡ original_after running (Some o) }
{
    Running {
        source: o.source,
        original_line: o.line,
        original_column: o.column,
        name: o.name.unwrap_or(running.name),
        ..running
    }
}

/// The running values after a token's segment.
#[inline(always)]
pub(crate) fn after(running: Running, token: Token) -> Running
    ensures { result ≡ running_after running token }
{
    let running = Running {
        column: token.column,
        ..running
    };
    match token.original {
        None => running,
        Some(original) => after_original(running, original),
    }
}

/// The running values before the next token's segment: the column starts again on a new line.
#[inline(always)]
pub(crate) fn on_line(running: Running, lines: u32, line: u32) -> Running
    requires { line < LINES }
    ensures { result ≡ at_line running lines line }
{
    if lines == line + 1 {
        return running;
    }
    Running {
        column: 0,
        ..running
    }
}

/// Writes the semicolons between two lines.
fn put_semicolons(out: &mut [u8], at: usize, lines: u32, line: u32) -> usize
    requires other { lines ≢ line + 1 }
    requires line { line < LINES }
    requires room { at + (line + 1 - lines) ≤ length out.old }
    ensures text { take result out.new ≡ take at out.old ++ separator lines line }
    ensures place { result ≤ at + (line + 1 - lines) }
    ensures room { length out.new ≡ length out.old }
{
    // No semicolon precedes the first line.
    let end = at + (line + 1).saturating_sub(lines.max(1)) as usize;
    out[at..end].fill(b';');
    end
}

/// Writes the separators before the next token's segment: a comma on the same line, and else semicolons.
#[inline(always)]
fn put_separator(out: &mut [u8], at: usize, lines: u32, line: u32) -> usize
    requires line { line < LINES }
    requires room { at + (line + 2 - lines) ≤ length out.old }
    ensures text { take result out.new ≡ take at out.old ++ separator lines line }
    ensures place { result ≤ at + (line + 2 - lines) }
    ensures room { length out.new ≡ length out.old }
{
    if lines == line + 1 {
        out[at] = b',';
        return at + 1;
    }
    put_semicolons(out, at, lines, line)
}

/// Writes the separators before a token's segment, and the segment.
#[inline(always)]
fn put_token(out: &mut [u8], at: usize, lines: u32, running: Running, token: Token) -> usize
    requires token { IsPlaced token }
    requires running { IsRunning running }
    requires room { at + (token.line + 2 - lines) + 35 ≤ length out.old }
    ensures text { take result out.new ≡ (take at out.old ++ separator lines token.line)
        ++ segment_from running token }
    ensures place { result ≤ length out.new }
    ensures room { length out.new ≡ length out.old }
{
    let at = put_separator(out, at, lines, token.line);
    put_segment(out, at, running, token)
}

/// How many bytes of the buffer are filled with zeros at a time. The vector doubles its capacity when it has
/// to, but capacity that isn't filled is never touched.
const PIECE: usize = 65_536;

/// Most segments, with their separator, have at most this many bytes.
const USUAL: usize = 8;

/// Makes room for this many more bytes.
fn grow(room: &mut Vec<u8>, at: usize, more: usize) -> Result<(), Memory>
    requires at { at ≤ vec_len room.old }
    ensures front { take at room.new.items ≡ take at room.old.items }
    ensures room { OnOk result (at + more ≤ vec_len room.new) }
    ensures len { at ≤ vec_len room.new }
{
    room.resize(at.saturating_add(more.max(PIECE)), 0)
}

/// Writes a mappings string while its tokens come.
///
/// The bytes are written into one buffer that grows a few times, so that a token seldom asks for memory.
///
/// # Examples
///
/// ```
/// let mut encoder = Encoder::new(alloc);
/// for token in tokens {
///     encoder.push(token)?;
/// }
/// let mappings = encoder.finish();
/// ```
#[derive(Drop)]
pub struct Encoder {
    room: Vec<u8>,
    at: usize,
    running: Running,
    // One more than the line of the last token.
    lines: u32,
    ghost inside: { at ≤ vec_len room },
    ghost running_is: { IsRunning running },
    ghost lines_are: { lines ≤ LINES },
}

impl Encoder {
    ghost use Rattle.smap_mappings.specs.Feeding.{Encodes};

    /// An encoder without tokens. It takes no memory yet.
    pub fn new(alloc: Global) -> Encoder
        ensures { Encodes result [] }
    {
        Encoder {
            room: Vec::new(alloc),
            at: 0,
            running: Running::new(),
            lines: 0,
        }
    }

    /// An encoder without tokens, with capacity for the usual length of so many: eight bytes each. Capacity
    /// that isn't used isn't touched, and costs neither time nor memory.
    ///
    /// # Errors
    ///
    /// `Memory`.
    pub fn with_capacity(alloc: Global, tokens: usize) -> Result<Encoder, Memory>
        ensures { IfOk result (λ encoder. Encodes encoder []) }
    {
        Ok(Encoder {
            room: Vec::with_capacity(alloc, tokens.saturating_mul(USUAL))?,
            at: 0,
            running: Running::new(),
            lines: 0,
        })
    }

    /// Writes the segment of the next token, and the separators before it. The token must not lie before
    /// the last one, and its numbers must be those of an encodable token
    /// ([`is_encodable`](crate::is_encodable)).
    ///
    /// # Errors
    ///
    /// `Memory`. What was written so far isn't defined then: drop the encoder.
    #[inline(always)]
    pub fn push(&mut self, token: Token) -> Result<(), Memory>
        requires { IsPlaced token }
        ensures { OnOk result ((tokens : List SpecToken) → Encodes self.old tokens
            → IsEncodable (tokens ++ token ∷ []) → Encodes self.new (tokens ++ token ∷ [])) }
    {
        let more = (token.line + 2).saturating_sub(self.lines) as usize + 35;
        if self.room.len() - self.at < more {
            grow(&mut self.room, self.at, more)?;
        }
        let running = on_line(self.running, self.lines, token.line);
        self.at = put_token(
            self.room.as_mut_slice(),
            self.at,
            self.lines,
            running,
            token,
        );
        self.running = after(running, token);
        self.lines = token.line + 1;
        Ok(())
    }

    /// The canonical mappings string of the tokens.
    pub fn finish(self) -> Vec<u8>
        ensures { (tokens : List SpecToken) → Encodes self tokens → result.items ≡ mappings_text tokens }
    {
        let Encoder { mut room, at, .. } = self;
        room.truncate(at);
        room
    }
}
