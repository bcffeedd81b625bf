//! Shares, and the order of rows.
ghost use Rattle.std.specs.Prelude.{◌≡◌, IsPermutation, OnOk};
ghost use Rattle.std.specs.List.Sorted.{IsSortedBy};
ghost use Rattle.smap_view_page.specs.Shares as spec;

use crate::amounts::Row;
use std::alloc::AllocError;

/// A share of all in tenths of a percent, to the nearest; what is more than all has 1000.
pub fn share(bytes: u64, all: u64) -> u64
    ensures { result ≡ spec.share bytes all }
{
    if all == 0 {
        return 0;
    }
    let (bytes, all) = (u128::from(bytes.min(all)), u128::from(all));
    ((2000 * bytes + all) / (2 * all)) as u64
}

/// A number that is greater the more something has grown.
fn rank(row: &Row<'_>) -> u128
    ensures { result ≡ spec.rank row.now.amounts }
{
    u128::from(row.amounts.bytes) + u128::from(u64::MAX - row.amounts.old)
}

/// Sorts rows by their growth, the most first; so by their bytes where nothing was there before. Those that
/// grew alike keep their order.
///
/// # Errors
///
/// `AllocError`.
pub fn by_growth(rows: &mut Vec<Row<'_>>) -> Result<(), AllocError>
    ensures same { IsPermutation rows.old.items rows.new.items }
    ensures sorted { OnOk result (IsSortedBy spec.grew_more rows.new.items) }
{
    rows.sort_by(|a, b| rank(b).cmp(&rank(a)))?;
    Ok(())
}
