//! What the folders have that sources are in.
ghost use Rattle.std.specs.Prelude.{◌≡◌, ◌++◌, IfOk, OnOk, fold, option_map, option_to_list};
ghost use Rattle.std.specs.List.{flat_map};
ghost use Rattle.smap_view_page.specs.Amounts as sums;
ghost use Rattle.smap_view_page.specs.Folders as spec;

use crate::amounts::{Amounts, Row, add_row, rows_in};
use indexmap::IndexMap;
use std::alloc::{AllocError, Global};

/// How many bytes of a name are searched for folders.
const LONGEST: usize = 500;

/// Whether a folder of a name ends with the byte behind this place.
fn ends_folder(name: &[u8], at: usize) -> bool
    ensures { result ≡ spec.ends_folder name.now at }
{
    match (name.get(at), name.get(at.saturating_add(1))) {
        (Some(before), Some(byte)) => *byte == b'/' && !(*before == b'/' || *before == b':'),
        _ => false,
    }
}

/// The folder that ends there.
fn folder_at(name: &str, at: usize) -> Option<&str>
    ensures { option_map (λ s. s.now) result ≡ spec.folder_at name.now at }
{
    if !ends_folder(name.as_bytes(), at) {
        return None;
    }
    let (folder, _) = name.split_at_checked(at.saturating_add(2))?;
    Some(folder)
}

/// Adds what a row has to the folder of its name that ends there, if one does.
fn add_at<'a>(
    table: &mut IndexMap<&'a str, Amounts>,
    name: &'a str,
    amounts: Amounts,
    at: usize,
) -> Result<(), AllocError>
    ensures { OnOk result (sums.lines_of table.new.entries
        ≡ fold sums.added (sums.lines_of table.old.entries) (spec.lines_at (name.now, amounts) at)) }
{
    match folder_at(name, at) {
        Some(folder) => add_row(table, folder, amounts),
        None => Ok(()),
    }
}

/// Adds what a row has to each folder that it is in.
fn add_folders<'a>(
    table: &mut IndexMap<&'a str, Amounts>,
    name: &'a str,
    amounts: Amounts,
) -> Result<(), AllocError>
    ensures { OnOk result (sums.lines_of table.new.entries
        ≡ fold sums.added (sums.lines_of table.old.entries) (spec.folder_lines (name.now, amounts))) }
{
    for at in 0..name.len().min(LONGEST) {
        add_at(table, name, amounts, at)?;
    }
    Ok(())
}

/// The table of the folders that rows are in.
fn folder_table<'a>(
    alloc: Global,
    rows: &[Row<'a>],
) -> Result<IndexMap<&'a str, Amounts>, AllocError>
    ensures { IfOk result (λ t. sums.lines_of t.entries
        ≡ sums.table_of (flat_map spec.folder_lines (sums.lines rows.now))) }
{
    let mut table = IndexMap::new(alloc);
    for row in rows {
        add_folders(&mut table, row.name, row.amounts)?;
    }
    Ok(table)
}

/// What is in each folder and below it, in the order of their first sources.
fn folder_sums<'a>(alloc: Global, rows: &[Row<'a>]) -> Result<Vec<Row<'a>>, AllocError>
    ensures { IfOk result (λ r. sums.lines r.items ≡ spec.sums (sums.lines rows.now)) }
{
    let table = folder_table(alloc, rows)?;
    rows_in(alloc, &table)
}

/// Whether the next folder is in this one and has all that this one has.
fn is_passed(rows: &[Row<'_>], i: usize) -> bool
    ensures { result ≡ spec.is_passed (sums.lines rows.now) i }
{
    match (rows.get(i), rows.get(i.saturating_add(1))) {
        (Some(row), Some(next)) => {
            row.amounts.parts == next.amounts.parts
                && next.name.as_bytes().starts_with(row.name.as_bytes())
        }
        _ => false,
    }
}

/// The folder with this number, unless it is passed over.
fn told_row<'a>(rows: &[Row<'a>], i: usize) -> Option<Row<'a>>
    ensures { option_map sums.line result ≡ spec.told_at (sums.lines rows.now) i }
{
    if is_passed(rows, i) {
        return None;
    }
    match rows.get(i) {
        Some(row) => Some(*row),
        None => None,
    }
}

/// Appends the folder with this number, unless it is passed over.
fn push_told<'a>(told: &mut Vec<Row<'a>>, rows: &[Row<'a>], i: usize) -> Result<(), AllocError>
    ensures { OnOk result (sums.lines told.new.items
        ≡ sums.lines told.old.items ++ option_to_list (spec.told_at (sums.lines rows.now) i)) }
{
    match told_row(rows, i) {
        Some(row) => {
            told.push(row)?;
            Ok(())
        }
        None => Ok(()),
    }
}

/// The folders that sources are in, in the order of their first sources, with what is in each and below it.
/// One that has but another folder in it is left out.
///
/// # Errors
///
/// `AllocError`.
pub fn folders<'a>(alloc: Global, rows: &[Row<'a>]) -> Result<Vec<Row<'a>>, AllocError>
    ensures { IfOk result (λ r. sums.lines r.items ≡ spec.folders (sums.lines rows.now)) }
{
    let all = folder_sums(alloc, rows)?;
    let mut told = Vec::new(alloc);
    for i in 0..all.len() {
        push_told(&mut told, &all, i)?;
    }
    Ok(told)
}
