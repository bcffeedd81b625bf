//! Which call has which name. The names are looked up in short lists, one after another, since a long one is
//! slow to prove.

use crate::{codec, maps, runs, traces, words};
use smap_mappings::{Memory, WIDEST};
use smap_record::Fault;
use smap_tool::fault_text;
use smap_trace::MatchMode;
use std::alloc::Global;

/// The answer of a call, as a string of bytes.
pub(crate) type Answer = Result<Vec<u8>, Memory>;

/// Positions anywhere in a line.
const ANYWHERE: MatchMode = MatchMode {
    anywhere: true,
    ignore_query: false,
};

/// An answer of this program's own.
pub(crate) fn said(alloc: Global, text: &[u8]) -> Answer {
    let mut out = Vec::new(alloc);
    out.extend_from_slice(text)?;
    Ok(out)
}

/// The line of a fault.
pub(crate) fn line(alloc: Global, fault: &Fault) -> Answer {
    let line = fault_text(alloc, fault)?;
    Ok(line.into_bytes())
}

/// The answer of the call with this name for this input, if there is such a call.
pub(crate) fn answer_of(alloc: Global, call: &str, text: &[u8]) -> Option<Answer> {
    match call {
        "decode" => Some(codec::decoded(alloc, text, WIDEST)),
        "decode_of_one_source" => Some(codec::decoded(alloc, text, codec::ONE_SOURCE)),
        "pieces" => Some(codec::in_pieces(alloc, text, WIDEST, 0)),
        "pieces_with_room" => Some(codec::in_pieces(alloc, text, WIDEST, 9)),
        "pieces_of_one_source" => Some(codec::in_pieces(alloc, text, codec::ONE_SOURCE, 0)),
        _ => answer_on_map(alloc, call, text),
    }
}

/// The same for the calls that read a map, and those after them.
fn answer_on_map(alloc: Global, call: &str, text: &[u8]) -> Option<Answer> {
    match call {
        "from_slice" | "canonical" | "canonical_relative" | "canonical_mappings" | "flatten" => {
            Some(maps::written(alloc, call, text))
        }
        "as_written" => Some(maps::as_written(alloc, text)),
        _ => answer_on_trace(alloc, call, text),
    }
}

/// The same for the calls that find positions, and those after them.
fn answer_on_trace(alloc: Global, call: &str, text: &[u8]) -> Option<Answer> {
    match call {
        "line_starts" => Some(traces::by_table(alloc, text)),
        "translate_line" => Some(traces::line(alloc, text, MatchMode::FRAMES)),
        "translate_line_by" => Some(traces::line(alloc, text, ANYWHERE)),
        "translate" => Some(traces::trace(alloc, text)),
        _ => answer_on_nothing(alloc, call, text),
    }
}

/// The same for the calls that take no input, and those after them.
fn answer_on_nothing(alloc: Global, call: &str, text: &[u8]) -> Option<Answer> {
    match call {
        "encode" => Some(codec::encoded(alloc)),
        "base" => Some(maps::base(alloc)),
        "fault_text" => Some(maps::fault(alloc)),
        "relative" => Some(maps::relative(alloc)),
        _ => answer_of_program(alloc, call, text),
    }
}

/// The same for the calls of the program's own: its command line, and its runs.
fn answer_of_program(alloc: Global, call: &str, text: &[u8]) -> Option<Answer> {
    match call {
        "task_of" => Some(words::task(alloc, text)),
        _ => Some(runs::ran(alloc, runs::task_named(call)?, text)),
    }
}
