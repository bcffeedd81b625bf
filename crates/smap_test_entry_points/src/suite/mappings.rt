//! A mappings string in pieces, with room for its tokens and without.
use crate::suite::asserted::{equal, holds};
use smap_mappings::{Bounds, MappingsError, MappingsReader, Original, Token};
use std::alloc::Global;
use std::process::Abort;

/// Those of a map with one source and one name.
const BOUNDS: Bounds = Bounds {
    start_line: 0,
    start_column: 0,
    sources: 1,
    names: 1,
    lines: 9,
};

/// Its columns fall within the first line.
const TEXT: &str = "EAAAA,DAAC;;K";

/// An original in the first line of the only source.
fn original(column: u32, name: Option<u32>) -> Option<Original> {
    Some(Original {
        source: 0,
        line: 0,
        column,
        name,
    })
}

fn token(line: u32, column: u32, original: Option<Original>) -> Token {
    Token {
        line,
        column,
        original,
    }
}

/// What a reader with room for so many tokens returns for two pieces.
fn read_two(
    alloc: Global,
    front: &[u8],
    back: &[u8],
    room: usize,
) -> Result<Vec<Token>, MappingsError> {
    let mut reader = MappingsReader::new(alloc, BOUNDS, room)?;
    reader.feed(front)?;
    reader.feed(back)?;
    reader.finish()
}

/// Asserts that the text's tokens were read.
fn are_tokens(rt: &impl Abort, room: usize, read: Result<Vec<Token>, MappingsError>) {
    let expected = [
        token(0, 1, original(1, None)),
        token(0, 2, original(0, Some(0))),
        token(2, 5, None),
    ];
    match &read {
        Ok(tokens) => equal(rt, room, tokens.as_slice(), expected.as_slice()),
        Err(_) => holds(rt, room, false),
    }
}

fn two_pieces_give_tokens(rt: &(impl Abort + AllocGlobal), text: &str, room: usize) {
    for cut in 0..=text.len() {
        let (front, back) = text.as_bytes().split_at(cut);
        are_tokens(rt, room, read_two(rt.alloc(), front, back, room));
    }
}

#[test]
fn every_two_pieces_give_the_tokens(rt: HostRuntime) {
    for room in [0, 9] {
        two_pieces_give_tokens(&rt, TEXT, room);
    }
}
