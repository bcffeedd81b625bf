//! The page of one script or several.
use crate::loading::{Content, Loaded};
use serde_json::{Value, json};
use smap_record::SourceMap;
use smap_system::{Disk, Host, Stop, Watched};
use smap_view_page::{Measures, embedded, map_json, text_json};
use std::alloc::{AllocError, Global};
use std::io::Write;

/// The data of one script, each as it stands in an element.
#[derive(Drop)]
pub(crate) struct Data {
    about: Vec<u8>,
    map: Vec<u8>,
    text: Vec<u8>,
}

/// What a map and its script are called.
#[derive(Clone, Copy)]
struct Names<'a> {
    map: &'a str,
    url: &'a str,
    script: &'a str,
}

/// What a page says of a map, and how many bytes of the script are a comment with it.
fn about(
    alloc: Global,
    names: Names<'_>,
    comment: u64,
    refused: Value,
) -> Result<Vec<u8>, AllocError> {
    let value = json!(in alloc; {
        "comment": comment,
        "map": names.map,
        "refused": refused,
        "script": names.script,
        "url": names.url
    })?;
    let text = value.to_string(alloc)?;
    embedded(alloc, &text)
}

fn nothing(alloc: Global) -> Result<Vec<u8>, AllocError> {
    Vec::from_slice(alloc, b"null")
}

fn map_data(
    alloc: Global,
    names: Names<'_>,
    map: &SourceMap,
    text: &str,
    measures: &Measures,
) -> Result<Data, AllocError> {
    Ok(Data {
        about: about(alloc, names, measures.comment, Value::Null)?,
        map: map_json(alloc, map, &measures.sizes)?,
        text: text_json(alloc, text.strip_prefix('\u{feff}').unwrap_or(text))?,
    })
}

fn refused_data(
    alloc: Global,
    names: Names<'_>,
    error: &str,
    place: &Value,
) -> Result<Data, AllocError> {
    let refused = json!(in alloc; {"error": error, "place": place})?;
    Ok(Data {
        about: about(alloc, names, 0, refused)?,
        map: nothing(alloc)?,
        text: nothing(alloc)?,
    })
}

/// The data of a map that was read, with what was measured. A byte order mark isn't part of the text.
pub(crate) fn data_of(
    alloc: Global,
    loaded: &Loaded,
    measures: &Measures,
) -> Result<Data, AllocError> {
    let names = Names {
        map: &loaded.map,
        url: &loaded.url,
        script: &loaded.script,
    };
    match &loaded.content {
        Content::Map(map, text) => map_data(alloc, names, map, text, measures),
        Content::Refused(error, place) => refused_data(alloc, names, error, place),
    }
}

/// Writes an element of the page: its name, which has a number behind it but for the first script, and what
/// is in it.
fn write_element<E: Eprint + AllocGlobal, D: Disk, W: Write>(
    host: &Host<'_, E, D>,
    name: &str,
    number: usize,
    json: &[u8],
    writer: &mut Watched<W>,
) -> Result<(), Stop> {
    let alloc = host.alloc();
    let begin = if number == 1 {
        format!(in alloc; "<script type=\"application/json\" id=\"{name}\">")?
    } else {
        format!(in alloc; "<script type=\"application/json\" id=\"{name}-{number}\">")?
    };
    host.write(begin.as_bytes(), writer)?;
    host.write(json, writer)?;
    host.write(b"</script>\n", writer)
}

/// Writes the element of what has grown since another build.
pub(crate) fn write_growth<E: Eprint + AllocGlobal, D: Disk, W: Write>(
    host: &Host<'_, E, D>,
    growth: &Value,
    writer: &mut Watched<W>,
) -> Result<(), Stop> {
    let alloc = host.alloc();
    let text = growth.to_string(alloc)?;
    let json = embedded(alloc, &text)?;
    write_element(host, "growth", 1, &json, writer)
}

/// Writes the elements of a script, which has this number on the page, from 1.
pub(crate) fn write_data<E: Eprint + AllocGlobal, D: Disk, W: Write>(
    host: &Host<'_, E, D>,
    number: usize,
    data: &Data,
    writer: &mut Watched<W>,
) -> Result<(), Stop> {
    write_element(host, "about", number, &data.about, writer)?;
    write_element(host, "map", number, &data.map, writer)?;
    write_element(host, "text", number, &data.text, writer)
}
