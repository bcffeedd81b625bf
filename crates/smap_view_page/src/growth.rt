//! A build compared with another one.
use crate::amounts::{Row, summed};
use crate::markdown::push_cell;
use crate::nesting::folders;
use crate::parts::{Part, rows_of};
use crate::shares::by_growth;
use serde_json::{Map, Value, json};
use smap_system::printable;
use std::alloc::{AllocError, Global};

/// The parts of two builds.
#[derive(Clone, Copy)]
pub struct Builds<'a> {
    /// What the other one is called.
    pub name: &'a str,
    /// Its parts, whose bytes count as old ones.
    pub old: &'a [Part],
    pub new: &'a [Part],
}

/// A name as a person sees it.
fn shown(alloc: Global, name: &str) -> Result<String, AllocError> {
    printable(alloc, name.as_bytes())
}

/// The rows of both builds, or those of sources alone.
fn rows_of_both<'a>(
    alloc: Global,
    builds: Builds<'a>,
    sources_alone: bool,
) -> Result<Vec<Row<'a>>, AllocError> {
    let mut rows = rows_of(alloc, builds.new, sources_alone)?;
    for row in &rows_of(alloc, builds.old, sources_alone)? {
        rows.push(*row)?;
    }
    Ok(rows)
}

/// What each name has in both builds, the most growth first.
fn grown<'a>(
    alloc: Global,
    builds: Builds<'a>,
    sources_alone: bool,
) -> Result<Vec<Row<'a>>, AllocError> {
    let mut rows = summed(alloc, &rows_of_both(alloc, builds, sources_alone)?)?;
    by_growth(&mut rows)?;
    Ok(rows)
}

/// The same of folders.
fn grown_folders<'a>(alloc: Global, builds: Builds<'a>) -> Result<Vec<Row<'a>>, AllocError> {
    let mut rows = folders(alloc, &rows_of_both(alloc, builds, true)?)?;
    by_growth(&mut rows)?;
    Ok(rows)
}

/// How many bytes rows have in the old build, and in the new one.
fn bytes_in(rows: &[Row<'_>]) -> (u64, u64) {
    let (mut old, mut bytes): (u64, u64) = (0, 0);
    for row in rows {
        old = old.saturating_add(row.amounts.old);
        bytes = bytes.saturating_add(row.amounts.bytes);
    }
    (old, bytes)
}

/// A growth as a person writes it.
fn growth_text(alloc: Global, old: u64, bytes: u64) -> Result<String, AllocError> {
    let (more, less) = (bytes.saturating_sub(old), old.saturating_sub(bytes));
    if more > 0 {
        return format!(in alloc; "+{more}");
    }
    if less > 0 {
        return format!(in alloc; "-{less}");
    }
    String::from_str(alloc, "0")
}

/// What has come or gone.
fn change(row: &Row<'_>) -> &'static str {
    match (row.amounts.old, row.amounts.bytes) {
        (0, 0) => "",
        (0, _) => " (new)",
        (_, 0) => " (gone)",
        _ => "",
    }
}

/// The numbers of a row in a table.
fn columns(alloc: Global, row: &Row<'_>) -> Result<String, AllocError> {
    let (old, bytes) = (row.amounts.old, row.amounts.bytes);
    let growth = growth_text(alloc, old, bytes)?;
    let growth = growth.as_str();
    format!(in alloc; "{old:>10}{bytes:>10}{growth:>10}")
}

/// Appends a line of a table.
fn push_row(alloc: Global, text: &mut String, row: &Row<'_>) -> Result<(), AllocError> {
    let columns = columns(alloc, row)?;
    let name = shown(alloc, row.name)?;
    let (columns, name, change) = (columns.as_str(), name.as_str(), change(row));
    let line = format!(in alloc; "{columns}  {name}{change}\n")?;
    text.push_str(line.as_str())
}

/// Appends how many rows are as they were.
fn push_same(alloc: Global, text: &mut String, same: usize) -> Result<(), AllocError> {
    if same == 0 {
        return Ok(());
    }
    let line = format!(in alloc; "{same:>30}  as before\n")?;
    text.push_str(line.as_str())
}

/// Appends the rows that have changed, and how many haven't.
fn push_rows(
    alloc: Global,
    text: &mut String,
    rows: &[Row<'_>],
    what: &str,
) -> Result<(), AllocError> {
    let head = format!(in alloc; "       old     bytes    growth  {what}\n")?;
    text.push_str(head.as_str())?;
    let mut same: usize = 0;
    for row in rows {
        if row.amounts.old == row.amounts.bytes {
            same = same.saturating_add(1);
        } else {
            push_row(alloc, text, row)?;
        }
    }
    push_same(alloc, text, same)
}

/// Appends the growth of folders, if there are some.
fn push_folders(alloc: Global, text: &mut String, builds: Builds<'_>) -> Result<(), AllocError> {
    let folders = grown_folders(alloc, builds)?;
    if folders.is_empty() {
        return Ok(());
    }
    push_rows(alloc, text, &folders, "folder")
}

/// What a build has, and how much it has grown.
fn total(alloc: Global, given: &str, old: u64, bytes: u64) -> Result<String, AllocError> {
    let given = shown(alloc, given)?;
    let growth = growth_text(alloc, old, bytes)?;
    let (given, growth) = (given.as_str(), growth.as_str());
    format!(in alloc; "{given}: {bytes} bytes, {growth}")
}

/// The first line of a table.
fn heading(alloc: Global, given: &str, name: &str, rows: &[Row<'_>]) -> Result<String, AllocError> {
    let (old, bytes) = bytes_in(rows);
    let total = total(alloc, given, old, bytes)?;
    let name = shown(alloc, name)?;
    let (total, name) = (total.as_str(), name.as_str());
    format!(in alloc; "{total}: {name} has {old}\n")
}

/// A value in one line. Names come from strangers: a character that a terminal may take for something else
/// than what it shows stands in a string, where `printable` escapes it as JSON does.
///
/// # Errors
///
/// `AllocError`.
pub fn json_line(alloc: Global, value: &Value) -> Result<String, AllocError> {
    let text = value.to_string(alloc)?;
    let mut text = printable(alloc, text.as_bytes())?;
    text.push('\n')?;
    Ok(text)
}

/// The growth for people.
///
/// # Errors
///
/// `AllocError`.
pub fn growth_table(alloc: Global, given: &str, builds: Builds<'_>) -> Result<String, AllocError> {
    let rows = grown(alloc, builds, false)?;
    let mut text = heading(alloc, given, builds.name, &rows)?;
    push_rows(alloc, &mut text, &rows, "source")?;
    push_folders(alloc, &mut text, builds)?;
    Ok(text)
}

/// The numbers of a row as TSV.
fn fields(alloc: Global, row: &Row<'_>) -> Result<String, AllocError> {
    let (old, bytes) = (row.amounts.old, row.amounts.bytes);
    let growth = growth_text(alloc, old, bytes)?;
    let growth = growth.as_str();
    format!(in alloc; "{old}\t{bytes}\t{growth}")
}

/// Appends a line of TSV.
fn push_fields(alloc: Global, text: &mut String, row: &Row<'_>) -> Result<(), AllocError> {
    let fields = fields(alloc, row)?;
    let name = shown(alloc, row.name)?;
    let (fields, name) = (fields.as_str(), name.as_str());
    let line = format!(in alloc; "{fields}\t{name}\n")?;
    text.push_str(line.as_str())
}

/// The growth of each source as TSV.
///
/// # Errors
///
/// `AllocError`.
pub fn growth_tsv(alloc: Global, builds: Builds<'_>) -> Result<String, AllocError> {
    let rows = grown(alloc, builds, false)?;
    let mut text = String::new(alloc);
    for row in &rows {
        push_fields(alloc, &mut text, row)?;
    }
    Ok(text)
}

/// The growth as a number of JSON.
fn growth_of(old: u64, bytes: u64) -> i64 {
    let (old, bytes) = (i64::try_from(old), i64::try_from(bytes));
    bytes
        .unwrap_or(i64::MAX)
        .saturating_sub(old.unwrap_or(i64::MAX))
}

fn row_value(alloc: Global, row: &Row<'_>) -> Result<Value, AllocError> {
    let (old, bytes) = (row.amounts.old, row.amounts.bytes);
    let growth = growth_of(old, bytes);
    json!(in alloc; {"bytes": bytes, "growth": growth, "name": row.name, "old": old})
}

fn row_values(alloc: Global, rows: &[Row<'_>]) -> Result<Value, AllocError> {
    let mut values = Vec::with_capacity(alloc, rows.len())?;
    for row in rows {
        values.push(row_value(alloc, row)?)?;
    }
    Ok(Value::Array(values))
}

/// The rows that belong to no source.
fn others<'a>(alloc: Global, builds: Builds<'a>) -> Result<Vec<Row<'a>>, AllocError> {
    let mut rows = Vec::new(alloc);
    for parts in [builds.new, builds.old] {
        for part in parts {
            if !part.is_source {
                rows.push(Row {
                    name: part.name.as_str(),
                    amounts: part.amounts,
                })?;
            }
        }
    }
    let mut rows = summed(alloc, &rows)?;
    by_growth(&mut rows)?;
    Ok(rows)
}

/// Puts rows into an object.
fn put_rows(
    alloc: Global,
    members: &mut Map<String, Value>,
    name: &str,
    rows: &[Row<'_>],
) -> Result<(), AllocError> {
    let values = row_values(alloc, rows)?;
    let name = String::from_str(alloc, name)?;
    drop(members.insert(name, values)?);
    Ok(())
}

/// Puts the growth of sources, of folders and of what belongs to no source into an object.
fn put_growth(
    alloc: Global,
    members: &mut Map<String, Value>,
    builds: Builds<'_>,
) -> Result<(), AllocError> {
    put_rows(alloc, members, "sources", &grown(alloc, builds, true)?)?;
    put_rows(alloc, members, "folders", &grown_folders(alloc, builds)?)?;
    put_rows(alloc, members, "others", &others(alloc, builds)?)
}

/// The growth of sources, of folders and of what belongs to no source, as JSON.
///
/// # Errors
///
/// `AllocError`.
pub fn growth_value(alloc: Global, builds: Builds<'_>) -> Result<Value, AllocError> {
    let (old, bytes) = bytes_in(&rows_of_both(alloc, builds, false)?);
    let growth = growth_of(old, bytes);
    let mut value = json!(in alloc;
        {"bytes": bytes, "growth": growth, "old": old, "since": builds.name}
    )?;
    if let Some(members) = value.as_object_mut() {
        put_growth(alloc, members, builds)?;
    }
    Ok(value)
}

/// Appends a row of a table in Markdown, unless nothing has changed.
fn push_markdown_row(
    alloc: Global,
    text: &mut String,
    row: &Row<'_>,
    what: &str,
) -> Result<(), AllocError> {
    let (old, bytes) = (row.amounts.old, row.amounts.bytes);
    if old == bytes {
        return Ok(());
    }
    let growth = growth_text(alloc, old, bytes)?;
    let growth = growth.as_str();
    let front = format!(in alloc; "| {old} | {bytes} | {growth} | {what} ")?;
    text.push_str(front.as_str())?;
    push_cell(alloc, text, row.name)?;
    text.push_str("|\n")
}

/// Appends the rows that have changed to a table in Markdown.
fn push_markdown_rows(
    alloc: Global,
    text: &mut String,
    rows: &[Row<'_>],
    what: &str,
) -> Result<(), AllocError> {
    for row in rows {
        push_markdown_row(alloc, text, row, what)?;
    }
    Ok(())
}

/// The growth as a table in Markdown, sources and then folders.
///
/// # Errors
///
/// `AllocError`.
pub fn growth_markdown(alloc: Global, builds: Builds<'_>) -> Result<String, AllocError> {
    let rows = grown(alloc, builds, false)?;
    let folders = grown_folders(alloc, builds)?;
    let (old, bytes) = bytes_in(&rows);
    let growth = growth_text(alloc, old, bytes)?;
    let growth = growth.as_str();
    let mut text = format!(in alloc;
        "| old | bytes | growth | | name |\n|---:|---:|---:|---|---|\n\
         | {old} | {bytes} | {growth} | all | |\n"
    )?;
    push_markdown_rows(alloc, &mut text, &rows, "source")?;
    push_markdown_rows(alloc, &mut text, &folders, "folder")?;
    Ok(text)
}
