//! What sources and folders have, and sums of it by their names.
ghost use Rattle.std.specs.Prelude.{◌≡◌, IfOk, OnOk};
ghost use Rattle.smap_view_page.specs.Amounts as spec;

use indexmap::IndexMap;
use std::alloc::{AllocError, Global};

/// What a source or a folder has, or several together. Sums stop at the greatest number of 64 bits.
#[derive(Clone, Copy, Debug, PartialEq, Eq)]
pub struct Amounts {
    /// Its bytes in the build that this one is compared with.
    pub old: u64,
    /// Its bytes.
    pub bytes: u64,
    pub mappings: u64,
    /// How many parts of scripts these are.
    pub parts: u64,
}

/// What has a name.
#[derive(Clone, Copy)]
pub struct Row<'a> {
    pub name: &'a str,
    pub amounts: Amounts,
}

fn plus(a: Amounts, b: Amounts) -> Amounts
    ensures { result ≡ spec.plus a b }
{
    Amounts {
        old: a.old.saturating_add(b.old),
        bytes: a.bytes.saturating_add(b.bytes),
        mappings: a.mappings.saturating_add(b.mappings),
        parts: a.parts.saturating_add(b.parts),
    }
}

/// What a name has in a table.
fn found(table: &IndexMap<&str, Amounts>, name: &str) -> Amounts
    ensures { result ≡ spec.found (spec.lines_of table.now.entries) name.now }
{
    match table.get(name) {
        Some(amounts) => *amounts,
        None => Amounts {
            old: 0,
            bytes: 0,
            mappings: 0,
            parts: 0,
        },
    }
}

/// Adds what a name has to what it has in a table.
pub(crate) fn add_row<'a>(
    table: &mut IndexMap<&'a str, Amounts>,
    name: &'a str,
    amounts: Amounts,
) -> Result<(), AllocError>
    ensures { OnOk result (spec.lines_of table.new.entries
        ≡ spec.added (spec.lines_of table.old.entries) (name.now, amounts)) }
{
    let sum = plus(found(table, name), amounts);
    table.insert(name, sum)?;
    Ok(())
}

/// The rows of a table.
pub(crate) fn rows_in<'a>(
    alloc: Global,
    table: &IndexMap<&'a str, Amounts>,
) -> Result<Vec<Row<'a>>, AllocError>
    ensures { IfOk result (λ r. spec.lines r.items ≡ spec.read_out (spec.lines_of table.now.entries)) }
{
    let mut rows = Vec::new(alloc);
    for name in table.keys() {
        rows.push(Row {
            name: *name,
            amounts: found(table, *name),
        })?;
    }
    Ok(rows)
}

/// The table of rows.
fn table_of<'a>(alloc: Global, rows: &[Row<'a>]) -> Result<IndexMap<&'a str, Amounts>, AllocError>
    ensures { IfOk result (λ t. spec.lines_of t.entries ≡ spec.table_of (spec.lines rows.now)) }
{
    let mut table = IndexMap::new(alloc);
    for row in rows {
        add_row(&mut table, row.name, row.amounts)?;
    }
    Ok(table)
}

/// A row for each name, in the order of their first places, with what its rows have together.
///
/// # Errors
///
/// `AllocError`.
pub fn summed<'a>(alloc: Global, rows: &[Row<'a>]) -> Result<Vec<Row<'a>>, AllocError>
    ensures { IfOk result (λ r. spec.lines r.items ≡ spec.summed (spec.lines rows.now)) }
{
    let table = table_of(alloc, rows)?;
    rows_in(alloc, &table)
}
