//! Reading a mappings string in pieces.
ghost use Rattle.std.specs.Prelude.{◌≡◌, ◌≢◌, vec_capacity, map, IsOk, ◌+◌, ◌<◌, ◌≤◌, nat_lt, ℕ, List, []};
ghost use Rattle.std.specs.Prelude.{◌∷◌, ◌++◌, take, length, Ok, Err, Some, None, IfOk, OnOk, IfErr};
ghost use Rattle.smap_vlq.specs.Segment.{fields_in};
ghost use Rattle.smap_vlq.specs.Pieces.{StandsFor as SegmentStandsFor};
ghost use Rattle.smap_mappings.specs.Tokens.{Segment, tokens_after};
ghost use Rattle.smap_mappings.specs.declared.error.MappingsError.TheVariants as errors;
ghost use Rattle.smap_mappings.specs.Decoded.{ReturnsTokens, decoded};
ghost use Rattle.smap_mappings.specs.Steps.{Sums, Continues, text_at, ending};
ghost use Rattle.smap_mappings.specs.Pieces.{ended_segments, ReturnsFirstFault, IsAt, IsReadTo, IsRead};
ghost use Rattle.smap_mappings.specs.Pieces.{Fits, StandsFor};
ghost use Rattle.smap_mappings.specs.Pieces.{failure, room as room_of, ReadsOrFails, ReadsSome};
ghost use Rattle.smap_mappings.specs.Lines.{segments_of};
ghost use Rattle.smap_mappings.specs.Position.{NeverFalls, position_of};

use crate::cursor::Cursor;
use crate::error::{MappingsError, Memory, SegmentKind, SegmentPlace};
use crate::running::Running;
use crate::segment::{kind_of, token_at};
use crate::token::{Bounds, Token};
use crate::token_list::TokenList;
use crate::whole_segments::whole_segment;
use smap_vlq::{Fields, SegmentReader};
use std::alloc::Global;

/// Reads a mappings string that comes in pieces, which may be cut anywhere, and stores none of them. It
/// answers what [`decode`](crate::decode) answers for the pieces joined.
///
/// # Examples
///
/// ```
/// let mut reader = MappingsReader::new(alloc, WIDEST, 0)?;
/// reader.feed(b"AAUE,I")?;
/// reader.feed(b"AEA")?;
/// let tokens = reader.finish()?;
/// ```
#[derive(Drop)]
pub struct MappingsReader {
    bounds: Bounds,
    tokens: TokenList,
    cursor: Cursor,
    segment: SegmentReader,
    /// Whether the current segment has a byte.
    begun: bool,
    failed: Option<MappingsError>,
}

impl MappingsReader {
    /// A reader before the first byte of a string, with capacity for `room` tokens; 0 takes no memory yet.
    ///
    /// # Errors
    ///
    /// `Memory`.
    pub fn new(alloc: Global, bounds: Bounds, room: usize) -> Result<MappingsReader, Memory>
        ensures stands { IfOk result (λ r. StandsFor r bounds []) }
        ensures room { IfOk result (λ r. room ≤ room_of r) }
        ensures none { room ≡ 0 → IsOk result }
        ensures fine { IfOk result (λ r. failure r ≡ None) }
    {
        Ok(MappingsReader {
            bounds,
            tokens: TokenList::with_capacity(alloc, room)?,
            cursor: Cursor::new(),
            segment: SegmentReader::new(),
            begun: false,
            failed: None,
        })
    }

    /// Takes the next piece of the string.
    ///
    /// # Errors
    ///
    /// `Fault` for the first segment that is invalid, as soon as the separator after it was read; `Memory`.
    /// Each later call answers the same error again.
    pub fn feed(&mut self, piece: &[u8]) -> Result<(), MappingsError>
        ensures stands { (bounds : Bounds) (text : List ℕ) → StandsFor self.old bounds text
            → StandsFor self.new bounds (text ++ piece.now) }
        ensures tells { (bounds : Bounds) (text : List ℕ) → StandsFor self.old bounds text
            → ReturnsFirstFault result (tokens_after bounds [] (ended_segments (text ++ piece.now))) }
        ensures fails { IfErr result (λ error. failure self.new ≡ Some error) }
        ensures fine { OnOk result (failure self.new ≡ None) }
        ensures stays { (error : MappingsError) → failure self.old ≡ Some error → result ≡ Err error }

        // No memory is taken as long as the tokens fit.
        ensures fits { (bounds : Bounds) (text : List ℕ) → StandsFor self.old bounds text
            → failure self.old ≢ Some errors.Memory
            → Fits bounds (ended_segments (text ++ piece.now)) (room_of self.old)
            → result ≢ Err errors.Memory }
        ensures room { room_of self.old ≤ room_of self.new }
    {
        if let Some(error) = self.failed {
            return Err(error);
        }
        match self.read(piece) {
            Ok(()) => Ok(()),
            Err(error) => {
                self.failed = Some(error);
                Err(error)
            }
        }
    }

    /// Reads a piece: segments that are entirely within it at once, and those that are cut by its end byte by
    /// byte.
    fn read(&mut self, piece: &[u8]) -> Result<(), MappingsError>
        ensures room { room_of self.old ≤ room_of self.new }
        ensures same { failure self.new ≡ failure self.old }
        ensures reads { (bounds : Bounds) (text : List ℕ) → IsRead self.old bounds text
            → ReadsOrFails self.new bounds (text ++ piece.now) (room_of self.old) result }
    {
        let mut place = 0;
        while place < piece.len() {
            if !self.begun {
                let (cursor, after) = read_whole(
                    &mut self.tokens,
                    self.bounds,
                    self.cursor,
                    piece,
                    place,
                )?;
                self.cursor = cursor;
                place = after;
            }
            if place < piece.len() {
                self.read_byte(piece[place])?;
                place += 1;
            }
        }
        Ok(())
    }

    /// Reads one more byte.
    fn read_byte(&mut self, byte: u8) -> Result<(), MappingsError>
        ensures room { room_of self.old ≤ room_of self.new }
        ensures same { failure self.new ≡ failure self.old }
        ensures reads { (bounds : Bounds) (text : List ℕ) → IsRead self.old bounds text
            → ReadsOrFails self.new bounds (text ++ byte ∷ []) (room_of self.old) result }
    {
        match byte {
            b',' => {
                let running = end_segment(
                    &mut self.tokens,
                    self.bounds,
                    self.cursor,
                    &mut self.segment,
                )?;
                self.cursor = self.cursor.after_comma(running);
                self.begun = false;
            }
            b';' => {
                let running = end_line(
                    &mut self.tokens,
                    self.bounds,
                    self.cursor,
                    &mut self.segment,
                    self.begun,
                )?;
                self.cursor = self.cursor.after_semicolon(running);
                self.begun = false;
            }
            _ => {
                self.segment.byte(byte);
                self.begun = true;
            }
        }
        Ok(())
    }

    /// Ends the string, and answers its tokens, sorted as by [`decode`](crate::decode).
    ///
    /// # Errors
    ///
    /// The error of an earlier [`feed`](MappingsReader::feed); `Fault` where the last segment is invalid;
    /// `Memory`.
    pub fn finish(self) -> Result<Vec<Token>, MappingsError>
        ensures says { (bounds : Bounds) (text : List ℕ) → StandsFor self bounds text
            → ReturnsTokens result (decoded bounds text) }
        ensures stays { (error : MappingsError) → failure self ≡ Some error → result ≡ Err error }

        // No memory is taken if the tokens fit and came in order.
        ensures fits { (bounds : Bounds) (text : List ℕ) → StandsFor self bounds text
            → failure self ≢ Some errors.Memory
            → Fits bounds (segments_of text) (room_of self)
            → ((tokens : List Token) → tokens_after bounds [] (segments_of text) ≡ Ok tokens
            → NeverFalls (map position_of tokens))
            → result ≢ Err errors.Memory }
    {
        if let Some(error) = self.failed {
            return Err(error);
        }
        let MappingsReader {
            bounds,
            mut tokens,
            cursor,
            mut segment,
            begun,
            failed: _,
        } = self;
        end_line(&mut tokens, bounds, cursor, &mut segment, begun)?;
        let arranged = tokens.arranged()?;
        Ok(arranged)
    }
}

/// Reads the segments from an index of a piece on that are entirely within it, and returns the index of what
/// is left.
fn read_whole(
    tokens: &mut TokenList,
    bounds: Bounds,
    cursor: Cursor,
    piece: &[u8],
    start: usize,
) -> Result<(Cursor, usize), MappingsError>
    requires { start ≤ length piece.now }
    ensures room { vec_capacity tokens.old.list ≤ vec_capacity tokens.new.list }
    ensures within { IfOk result (λ x. (start ≤ x.1) × (x.1 ≤ length piece.now)) }
    ensures reads { (text : List ℕ)
        → IsReadTo bounds (text ++ take start piece.now) tokens.old.list.items cursor []
        → ReadsSome bounds text piece.now (vec_capacity tokens.old.list) tokens.new.list.items result }
{
    let mut cursor = cursor;
    let mut place = start;
    while place < piece.len() {
        if piece[place] == b';' && cursor.index == 0 {
            // An empty line.
            cursor = cursor.after_semicolon(cursor.running);
            place += 1;
            continue;
        }
        let Some((fields, end)) = whole_segment(piece, place) else {
            return Ok((cursor, place));
        };
        let running = add(tokens, bounds, cursor, &fields)?;
        if piece[end] == b',' {
            cursor = cursor.after_comma(running);
        } else {
            cursor = cursor.after_semicolon(running);
        }
        place = end + 1;
    }
    Ok((cursor, place))
}

/// The error for an invalid segment.
fn refusal(cursor: Cursor, kind: SegmentKind) -> MappingsError
    ensures { result ≡ errors.Fault (record { line = cursor.line; segment = cursor.index }) kind }
{
    let place = SegmentPlace {
        line: cursor.line,
        segment: cursor.index,
    };
    MappingsError::Fault(place, kind)
}

/// Reads one more segment, which has these fields.
#[inline(always)]
fn add(
    tokens: &mut TokenList,
    bounds: Bounds,
    cursor: Cursor,
    fields: &Fields,
) -> Result<Running, MappingsError>
    ensures room { vec_capacity tokens.old.list ≤ vec_capacity tokens.new.list }
    ensures reads { (before : List Segment) (line index : ℕ) (text : List ℕ) → IsAt cursor line index
        → fields_in text ≡ Ok fields.now
        → Sums cursor.running before line
        → Continues bounds before line (text_at line index text ∷ [])
        (vec_capacity tokens.old.list) tokens.old.list.items tokens.new.list.items result }
{
    match token_at(bounds, cursor.running, cursor.line as usize, fields) {
        Ok((after, token)) => {
            tokens.push(token)?;
            Ok(after)
        }
        Err(kind) => Err(refusal(cursor, kind)),
    }
}

/// Ends a segment that was read byte by byte.
fn end_segment(
    tokens: &mut TokenList,
    bounds: Bounds,
    cursor: Cursor,
    segment: &mut SegmentReader,
) -> Result<Running, MappingsError>
    ensures room { vec_capacity tokens.old.list ≤ vec_capacity tokens.new.list }
    ensures reads { (before : List Segment) (line index : ℕ) (text : List ℕ) → IsAt cursor line index
        → SegmentStandsFor segment.old text
        → Sums cursor.running before line
        → Continues bounds before line (text_at line index text ∷ [])
        (vec_capacity tokens.old.list) tokens.old.list.items tokens.new.list.items result }
    ensures again { SegmentStandsFor segment.new [] }
{
    match segment.end() {
        Ok(fields) => add(tokens, bounds, cursor, &fields),
        Err(fault) => Err(refusal(cursor, kind_of(fault))),
    }
}

/// Ends a line, and its last segment unless the line is empty.
fn end_line(
    tokens: &mut TokenList,
    bounds: Bounds,
    cursor: Cursor,
    segment: &mut SegmentReader,
    begun: bool,
) -> Result<Running, MappingsError>
    ensures room { vec_capacity tokens.old.list ≤ vec_capacity tokens.new.list }
    ensures reads { (before : List Segment) (line index : ℕ) (text : List ℕ) → IsAt cursor line index
        → SegmentStandsFor segment.old text
        → begun ≡ nat_lt 0 (length text) → Sums cursor.running before line
        → Continues bounds before line (ending line index text)
        (vec_capacity tokens.old.list) tokens.old.list.items tokens.new.list.items result }
    ensures again { (text : List ℕ) → SegmentStandsFor segment.old text → begun ≡ nat_lt 0 (length text)
        → SegmentStandsFor segment.new [] }
{
    if cursor.index == 0 && !begun {
        return Ok(cursor.running);
    }
    end_segment(tokens, bounds, cursor, segment)
}
