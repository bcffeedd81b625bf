//! Calls on mappings strings.

use crate::answers::{Answer, line, said};
use smap_mappings::{
    Bounds, MAX_POSITION, MappingsError, MappingsReader, Memory, Original, Token, WIDEST, decode,
    encode,
};
use smap_record::Fault;
use std::alloc::Global;

/// The bounds of a map with one source and no names.
pub(crate) const ONE_SOURCE: Bounds = Bounds {
    sources: 1,
    names: 0,
    ..WIDEST
};

/// The canonical string of the tokens.
fn text_of(alloc: Global, tokens: &[Token]) -> Answer {
    if !smap_mappings::is_encodable(tokens) {
        return said(alloc, b"tokens without a text");
    }
    encode(alloc, tokens)
}

/// The line of the fault.
fn fault(alloc: Global, error: MappingsError) -> Answer {
    match error {
        MappingsError::Fault(place, kind) => line(alloc, &Fault::of_segment(place, kind)),
        MappingsError::Memory => Err(Memory),
    }
}

/// The canonical string of the tokens, or the line of the fault.
fn tokens_or_fault(alloc: Global, tokens: Result<Vec<Token>, MappingsError>) -> Answer {
    match tokens {
        Ok(tokens) => text_of(alloc, tokens.as_slice()),
        Err(error) => fault(alloc, error),
    }
}

pub(crate) fn decoded(alloc: Global, text: &[u8], bounds: Bounds) -> Answer {
    tokens_or_fault(alloc, decode(alloc, text, bounds))
}

/// Whether the reader answers each further call as it did the last one.
fn stays(mut reader: MappingsReader, error: MappingsError) -> bool {
    reader.feed(b"A") == Err(error) && reader.finish() == Err(error)
}

/// The line of the fault that the reader told.
fn told(alloc: Global, reader: MappingsReader, error: MappingsError) -> Answer {
    if !stays(reader, error) {
        return said(alloc, b"the reader changed its mind");
    }
    fault(alloc, error)
}

/// Byte by byte, with room for so many tokens to begin with. Once memory has run out, each further call has
/// to answer that too.
pub(crate) fn in_pieces(alloc: Global, text: &[u8], bounds: Bounds, room: usize) -> Answer {
    let mut reader = MappingsReader::new(alloc, bounds, room)?;
    for i in 0..text.len() {
        if let Err(error) = reader.feed(&text[i..i + 1]) {
            return told(alloc, reader, error);
        }
    }
    tokens_or_fault(alloc, reader.finish())
}

/// The canonical string of tokens of this program's own.
pub(crate) fn encoded(alloc: Global) -> Answer {
    let token = Token {
        line: 0,
        column: MAX_POSITION,
        original: Some(Original {
            source: 1,
            line: 2,
            column: 3,
            name: Some(4),
        }),
    };
    text_of(alloc, &[token; 40])
}
