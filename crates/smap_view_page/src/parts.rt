//! What is counted of scripts.
use crate::amounts::{Amounts, Row};
use crate::measuring::{Sizes, measured};
use smap_record::SourceMap;
use std::alloc::{AllocError, Global};

/// What was measured of a script.
#[derive(Drop)]
pub struct Measures {
    /// The bytes of its code, and its mappings.
    pub sizes: Sizes,
    /// How many bytes the comment has that holds its map.
    pub comment: u64,
    /// How many bytes there are.
    pub all: u64,
}

/// What has bytes of a script.
#[derive(Drop)]
pub struct Part {
    /// The URL of a source, or what it is called.
    pub name: String,
    /// Whether it is a source that has a URL.
    pub is_source: bool,
    /// The number of the script.
    pub script: usize,
    pub amounts: Amounts,
}

/// What is measured where there is no map.
pub fn unmeasured(alloc: Global) -> Measures {
    Measures {
        sizes: Sizes {
            bytes: Vec::new(alloc),
            mappings: Vec::new(alloc),
        },
        comment: 0,
        all: 0,
    }
}

/// Measures a script, of which so many bytes stand before the comment that holds its map.
///
/// # Errors
///
/// `AllocError`.
pub fn measured_script(
    alloc: Global,
    map: &SourceMap,
    text: &str,
    code: usize,
) -> Result<Measures, AllocError> {
    let code = match text.split_at_checked(code) {
        Some((code, _)) => code,
        None => text,
    };
    Ok(Measures {
        sizes: measured(alloc, map, code)?,
        comment: text.len().saturating_sub(code.len()) as u64,
        all: text.len() as u64,
    })
}

/// The number at a place, or 0 behind the last one.
pub fn at(numbers: &[u64], i: usize) -> u64 {
    match numbers.get(i) {
        Some(number) => *number,
        None => 0,
    }
}

/// What is counted by a number: a source, or what has none.
fn name_of(alloc: Global, map: &SourceMap, i: usize) -> Result<String, AllocError> {
    if i < map.source_count() {
        if let Some(url) = map.source(i).url {
            return String::from_str(alloc, url);
        }
        let number = i.saturating_add(1);
        return format!(in alloc; "source {number}, which has no URL");
    }
    if i == map.source_count() {
        return String::from_str(alloc, "mappings without a source");
    }
    String::from_str(alloc, "no mapping")
}

/// What has so many bytes and mappings of this build.
fn amounts(bytes: u64, mappings: u64) -> Amounts {
    Amounts {
        old: 0,
        bytes,
        mappings,
        parts: 1,
    }
}

/// Appends what has bytes of a script: its sources, then what has no source, what has no mapping, and the
/// comment with the map if there is one.
///
/// # Errors
///
/// `AllocError`.
pub fn push_parts(
    alloc: Global,
    parts: &mut Vec<Part>,
    map: &SourceMap,
    measures: &Measures,
    script: usize,
) -> Result<(), AllocError> {
    let Sizes { bytes, mappings } = &measures.sizes;
    for i in 0..bytes.len() {
        parts.push(Part {
            name: name_of(alloc, map, i)?,
            is_source: i < map.source_count() && map.source(i).url.is_some(),
            script,
            amounts: amounts(at(bytes, i), at(mappings, i)),
        })?;
    }
    if measures.comment > 0 {
        parts.push(Part {
            name: String::from_str(alloc, "the comment with the map")?,
            is_source: false,
            script,
            amounts: amounts(measures.comment, 0),
        })?;
    }
    Ok(())
}

/// The rows of parts, or those of sources alone.
///
/// # Errors
///
/// `AllocError`.
pub fn rows_of<'a>(
    alloc: Global,
    parts: &'a [Part],
    sources_alone: bool,
) -> Result<Vec<Row<'a>>, AllocError> {
    let mut rows = Vec::with_capacity(alloc, parts.len())?;
    for part in parts {
        if part.is_source || !sources_alone {
            rows.push(Row {
                name: part.name.as_str(),
                amounts: part.amounts,
            })?;
        }
    }
    Ok(rows)
}

/// How many bytes parts have together.
pub fn bytes_of(parts: &[Part]) -> u64 {
    let mut sum: u64 = 0;
    for part in parts {
        sum = sum.saturating_add(part.amounts.bytes);
    }
    sum
}

/// How many bytes parts of the build that another one is compared with have together.
pub fn old_bytes_of(parts: &[Part]) -> u64 {
    let mut sum: u64 = 0;
    for part in parts {
        sum = sum.saturating_add(part.amounts.old);
    }
    sum
}

/// Makes the bytes of parts those of the build that another one is compared with.
pub fn as_old(parts: &mut Vec<Part>) {
    for part in parts {
        part.amounts.old = part.amounts.bytes;
        part.amounts.bytes = 0;
        part.amounts.mappings = 0;
    }
}
