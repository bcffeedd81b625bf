//! The sizes of sources and folders, as they are written for people and for programs.
use crate::loading::{Content, Loaded};
use serde_json::{Value, json};
use smap_command_line::view::SizesForm;
use smap_record::SourceMap;
use smap_system::printable;
use smap_view_page::{
    Builds, Measures, Part, Row, Sizes, at, by_growth, bytes_of, folders, growth_table, growth_tsv,
    growth_value, json_line, push_parts, rows_of, share, summed,
};
use std::alloc::{AllocError, Global};
use std::cmp::Ordering;

/// A name as a person sees it.
pub(crate) fn shown(alloc: Global, name: &str) -> Result<String, AllocError> {
    printable(alloc, name.as_bytes())
}

/// The beginning of a line of a table.
fn front(alloc: Global, row: &Row<'_>, all: u64) -> Result<String, AllocError> {
    let (bytes, mappings) = (row.amounts.bytes, row.amounts.mappings);
    let share = share(bytes, all);
    let (whole, tenth) = (share / 10, share % 10);
    let front = format!(in alloc; "{bytes:>10} {whole:>4}.{tenth}%")?;
    let front = front.as_str();
    format!(in alloc; "{front} {mappings:>9}  ")
}

/// Appends a line of a table, with more behind the name.
fn push_line(
    alloc: Global,
    text: &mut String,
    row: &Row<'_>,
    more: &str,
    all: u64,
) -> Result<(), AllocError> {
    let front = front(alloc, row, all)?;
    let name = shown(alloc, row.name)?;
    text.push_str(front.as_str())?;
    text.push_str(name.as_str())?;
    text.push_str(more)?;
    text.push('\n')
}

/// Appends what is in folders, if there are some.
fn push_folders(
    alloc: Global,
    text: &mut String,
    parts: &[Part],
    all: u64,
) -> Result<(), AllocError> {
    let mut rows = folders(alloc, &rows_of(alloc, parts, true)?)?;
    if rows.is_empty() {
        return Ok(());
    }
    by_growth(&mut rows)?;
    text.push_str("     bytes   share  mappings  folder\n")?;
    for row in &rows {
        push_line(alloc, text, row, "", all)?;
    }
    Ok(())
}

fn table(alloc: Global, place: &str, parts: &[Part], all: u64) -> Result<String, AllocError> {
    let place = shown(alloc, place)?;
    let place = place.as_str();
    let mut text = format!(in alloc; "{place}: {all} bytes\n")?;
    text.push_str("     bytes   share  mappings  source\n")?;
    let mut rows = rows_of(alloc, parts, false)?;
    by_growth(&mut rows)?;
    for row in &rows {
        push_line(alloc, &mut text, row, "", all)?;
    }
    push_folders(alloc, &mut text, parts, all)?;
    Ok(text)
}

fn tsv(alloc: Global, place: &str, parts: &[Part]) -> Result<String, AllocError> {
    let place = shown(alloc, place)?;
    let place = place.as_str();
    let mut rows = rows_of(alloc, parts, false)?;
    by_growth(&mut rows)?;
    let mut text = String::new(alloc);
    for row in &rows {
        let (bytes, mappings) = (row.amounts.bytes, row.amounts.mappings);
        let name = shown(alloc, row.name)?;
        let name = name.as_str();
        let front = format!(in alloc; "{place}\t{bytes}\t{mappings}")?;
        let front = front.as_str();
        let line = format!(in alloc; "{front}\t{name}\n")?;
        text.push_str(line.as_str())?;
    }
    Ok(text)
}

/// A source as JSON.
fn source_value(
    alloc: Global,
    map: &SourceMap,
    sizes: &Sizes,
    i: usize,
) -> Result<Value, AllocError> {
    let (bytes, mappings) = (at(&sizes.bytes, i), at(&sizes.mappings, i));
    let (url, ignored) = if i < map.source_count() {
        let source = map.source(i);
        (source.url, source.ignored)
    } else {
        (None, false)
    };
    let url = match url {
        Some(url) => Value::String(String::from_str(alloc, url)?),
        None => Value::Null,
    };
    json!(in alloc; {"bytes": bytes, "ignored": ignored, "mappings": mappings, "source": url})
}

fn source_values(alloc: Global, map: &SourceMap, sizes: &Sizes) -> Result<Value, AllocError> {
    let mut values = Vec::with_capacity(alloc, map.source_count())?;
    for i in 0..map.source_count() {
        values.push(source_value(alloc, map, sizes, i)?)?;
    }
    Ok(Value::Array(values))
}

fn folder_values(alloc: Global, parts: &[Part]) -> Result<Value, AllocError> {
    let mut rows = folders(alloc, &rows_of(alloc, parts, true)?)?;
    by_growth(&mut rows)?;
    let mut values = Vec::with_capacity(alloc, rows.len())?;
    for row in &rows {
        let (bytes, mappings) = (row.amounts.bytes, row.amounts.mappings);
        values.push(json!(in alloc; {"bytes": bytes, "folder": row.name, "mappings": mappings})?)?;
    }
    Ok(Value::Array(values))
}

/// The sizes of a script as JSON.
fn line(
    alloc: Global,
    loaded: &Loaded,
    map: &SourceMap,
    measures: &Measures,
    parts: &[Part],
) -> Result<String, AllocError> {
    let (count, sizes) = (map.source_count(), &measures.sizes);
    let sources = source_values(alloc, map, sizes)?;
    let folders = folder_values(alloc, parts)?;
    let (unsourced, unmapped) = (
        at(&sizes.bytes, count),
        at(&sizes.bytes, count.saturating_add(1)),
    );
    let value = json!(in alloc; {
        "bytes": measures.all,
        "comment": measures.comment,
        "folders": folders,
        "map": &loaded.url,
        "script": &loaded.place,
        "sources": sources,
        "unmapped": unmapped,
        "unsourced": unsourced
    })?;
    json_line(alloc, &value)
}

/// The growth in the form that is asked for.
pub(crate) fn growth_sizes(
    alloc: Global,
    form: SizesForm,
    given: &str,
    builds: Builds<'_>,
) -> Result<String, AllocError> {
    match form {
        SizesForm::Table => growth_table(alloc, given, builds),
        SizesForm::Tsv => growth_tsv(alloc, builds),
        SizesForm::Json => json_line(alloc, &growth_value(alloc, builds)?),
    }
}

/// The sizes of a script in the form that is asked for; nothing where its map is refused.
pub(crate) fn sizes_text(
    alloc: Global,
    form: SizesForm,
    loaded: &Loaded,
    measures: &Measures,
) -> Result<String, AllocError> {
    let Content::Map(map, _) = &loaded.content else {
        return Ok(String::new(alloc));
    };
    let mut parts = Vec::new(alloc);
    push_parts(alloc, &mut parts, map, measures, 0)?;
    let place = loaded.place.as_str();
    match form {
        SizesForm::Json => line(alloc, loaded, map, measures, &parts),
        SizesForm::Tsv => tsv(alloc, place, &parts),
        SizesForm::Table => table(alloc, place, &parts, measures.all),
    }
}

/// What each script has of a source, whose parts are these.
fn within(alloc: Global, parts: &[Part], places: &[String]) -> Result<String, AllocError> {
    let mut text = String::new(alloc);
    for part in parts {
        let (bytes, mark) = (part.amounts.bytes, if text.is_empty() { ":" } else { "," });
        let Some(place) = places.get(part.script) else {
            continue;
        };
        let place = shown(alloc, place.as_str())?;
        let place = place.as_str();
        let one = format!(in alloc; "{mark} {bytes} in {place}")?;
        text.push_str(one.as_str())?;
    }
    Ok(text)
}

/// The parts with this name, of parts in the order of their names.
fn named<'a>(parts: &'a [Part], name: &str) -> &'a [Part] {
    let from = parts.partition_point(|part| part.name.as_str() < name);
    let behind = parts.partition_point(|part| part.name.as_str() <= name);
    parts.get(from..behind).unwrap_or(&[])
}

/// The sizes of all scripts together, as a table: what each source has, and what each script has of it.
pub(crate) fn all_text(
    alloc: Global,
    parts: &mut Vec<Part>,
    places: &[String],
) -> Result<String, AllocError> {
    let all = bytes_of(parts);
    let mut text = format!(in alloc; "all scripts: {all} bytes\n")?;
    text.push_str("     bytes   share  mappings  source\n")?;
    parts.sort_by(|a, b| match a.name.as_str().cmp(b.name.as_str()) {
        Ordering::Equal => b.amounts.bytes.cmp(&a.amounts.bytes),
        order => order,
    })?;
    let mut rows = summed(alloc, &rows_of(alloc, parts, false)?)?;
    by_growth(&mut rows)?;
    for row in &rows {
        let more = within(alloc, named(parts, row.name), places)?;
        push_line(alloc, &mut text, row, more.as_str(), all)?;
    }
    push_folders(alloc, &mut text, parts, all)?;
    Ok(text)
}
