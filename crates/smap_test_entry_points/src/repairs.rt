//! A map repaired, or its mappings listed, which `tests/repairs/run` runs.
//!
//! [`repair`] writes the text that is read then to standard output, and to standard error a line for each
//! repair, or why the map stays refused. [`mappings`] writes a line for each mapping: its position, and where
//! it has one its original position, the name in JSON or `null`, and the URL, all with spaces between them.
//!
//! The status is 0 for a map that is read, else 1, or 3 where writing fails, and 4 without memory.

use serde_json::Value;
use smap_record::{Base, BaseFault, Limits, ReadError, SourceMap, TokenView};
use smap_repair::{Repaired, repair_text};
use std::alloc::{AllocError, Global};
use std::io::{self, Write};

fn write(rt: &HostRuntime, text: &[u8]) -> u8 {
    match io::writer(rt).write_all(text) {
        Ok(()) => 0,
        Err(_) => 3,
    }
}

fn said(rt: &HostRuntime, text: &[u8], answer: &Repaired) -> u8 {
    match answer {
        Repaired::Sound => write(rt, text),
        Repaired::Mended { text, repairs } => {
            for repair in repairs {
                let _ = eprintln!(rt; "{repair}");
            }
            write(rt, text)
        }
        Repaired::Refused { fault, left } => {
            let _ = eprintln!(rt; "refused: {fault}");
            if let Some(left) = left {
                let _ = eprintln!(rt; "left: {left}");
            }
            1
        }
        Repaired::LongUrls => 1,
    }
}

/// Writes a map as it is repaired.
pub(crate) fn repair(rt: &HostRuntime, text: &[u8], base: &Base) -> u8 {
    match repair_text(rt.alloc(), text, base, Limits::usual(), usize::MAX) {
        Ok(answer) => said(rt, text, &answer),
        Err(_) => 4,
    }
}

/// A name in JSON, or `null`.
fn quoted(alloc: Global, name: Option<&str>) -> Result<String, AllocError> {
    match name {
        Some(name) => Value::String(String::from_str(alloc, name)?).to_string(alloc),
        None => String::from_str(alloc, "null"),
    }
}

/// The line of a mapping.
fn line(alloc: Global, token: TokenView<'_>) -> Result<String, AllocError> {
    let Some(original) = token.original else {
        return format!(in alloc; "{} {}\n", token.line, token.column);
    };
    let name = quoted(alloc, original.name)?;
    let url = original.source.url.unwrap_or("");
    let place = format!(in alloc; "{} {} ", token.line, token.column)?;
    let origin = format!(in alloc; "{} {} ", original.line, original.column)?;
    format!(in alloc; "{place}{origin}{name} {url}\n")
}

/// The lines of a map's mappings.
fn lines(alloc: Global, map: &SourceMap) -> Result<String, AllocError> {
    let mut lines = String::new(alloc);
    for i in 0..map.token_count() {
        lines.push_str(line(alloc, map.token(i))?.as_str())?;
    }
    Ok(lines)
}

/// Writes the mappings of a map.
pub(crate) fn mappings(rt: &HostRuntime, text: &[u8], base: &Base) -> u8 {
    let map = match SourceMap::from_slice(rt.alloc(), text, base, Limits::usual()) {
        Ok(map) => map,
        Err(ReadError::Refused(_)) => return 1,
        Err(ReadError::Memory) => return 4,
    };
    match lines(rt.alloc(), &map) {
        Ok(lines) => write(rt, lines.as_bytes()),
        Err(_) => 4,
    }
}
