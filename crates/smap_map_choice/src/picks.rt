//! Which map a script has that a log names.
ghost use Rattle.std.specs.Prelude.{◌≡◌, List, ℕ, IfOk, get_or, map};
ghost use Rattle.smap_link.specs.Table.{IsTable};
ghost use Rattle.smap_map_choice.specs.Picks as spec;
ghost use Rattle.smap_map_choice.specs.Picks.{ArePicks, IsMapOf, IsPick};

use smap_link::{Likeness, ScriptTable, maps_of_scripts};
use std::alloc::{AllocError, Global};

/// What a name of a log has.
#[derive(Clone, Copy, Debug, PartialEq, Eq)]
pub enum Found {
    /// The map with this place in the list of those that have a script.
    Given(usize),
    /// The file with this place in the list of those that go by the ends of their names.
    ByEnd(usize),
    /// One of the files with these two places, and it isn't clear which.
    Unclear(usize, usize),
    /// No map.
    Missing,
}

/// A name of a log, and what it has.
#[derive(Clone, Copy)]
pub struct Pick<'a> {
    pub name: &'a [u8],
    pub found: Found,
}

/// The script that a log means by a name.
fn meant(
    alloc: Global,
    table: &mut ScriptTable,
    ignore_query: bool,
    name: &[u8],
) -> Result<Option<usize>, AllocError>
    ensures value { (scripts : List (List ℕ)) → IsTable table.old scripts
        → IfOk result (λ found. found ≡ spec.meant ignore_query scripts name.now) }
    ensures table { (scripts : List (List ℕ)) → IsTable table.old scripts → IsTable table.new scripts }
{
    match table.named(name) {
        Some(i) => Ok(Some(i)),
        None => table.alike(alloc, name, ignore_query),
    }
}

fn of_end(end: Likeness) -> Found
    ensures { result ≡ spec.of_end end }
{
    match end {
        Likeness::Like(i) => Found::ByEnd(i),
        Likeness::Unclear(i, j) => Found::Unclear(i, j),
        Likeness::Unlike => Found::Missing,
    }
}

/// The script that is meant, or else what the ends of the files' names say.
fn found_of(script: Option<usize>, end: Likeness) -> Found
    ensures { result ≡ spec.found_of script end }
{
    match script {
        Some(i) => Found::Given(i),
        None => of_end(end),
    }
}

/// What a name of a log has, if the ends of the files' names say this of it.
fn pick_one<'a>(
    alloc: Global,
    table: &mut ScriptTable,
    ignore_query: bool,
    name: &'a [u8],
    end: Likeness,
) -> Result<Pick<'a>, AllocError>
    ensures name { IfOk result (λ pick. pick.name.now ≡ name.now) }
    ensures found { (scripts files : List (List ℕ)) → IsTable table.old scripts → IsMapOf files name.now end
        → IfOk result (IsPick ignore_query scripts files) }
    ensures table { (scripts : List (List ℕ)) → IsTable table.old scripts → IsTable table.new scripts }
{
    let script = meant(alloc, table, ignore_query, name)?;
    let found = found_of(script, end);
    Ok(Pick { name, found })
}

fn end_at(ends: &[Likeness], i: usize) -> Likeness
    ensures { result ≡ get_or ends.now i Likeness.Unlike }
{
    if i < ends.len() {
        ends[i]
    } else {
        Likeness::Unlike
    }
}

/// What each name of a log has, in the order of the names: the map of the script that is meant, or else that
/// file of the folders without a URL whose name ends as the script's path does, by whole segments. A script
/// is meant that has this very name, or else the first that is alike and has the same query, or else, if
/// queries are ignored, the first that is alike to the name without its query, or the only one that is alike
/// to it but for that.
///
/// The time is proportional to the bytes of all names, and of those files that end alike.
///
/// # Errors
///
/// `AllocError`.
pub fn pick_all<'a>(
    alloc: Global,
    table: &mut ScriptTable,
    files: &[&[u8]],
    ignore_query: bool,
    names: &[&'a [u8]],
) -> Result<Vec<Pick<'a>>, AllocError>
    ensures picks { (scripts : List (List ℕ)) → IsTable table.old scripts
        → IfOk result (λ picks. ArePicks ignore_query scripts (map (λ f. f.now) files.now)
        (map (λ n. n.now) names.now) picks.items) }
    ensures table { (scripts : List (List ℕ)) → IsTable table.old scripts → IsTable table.new scripts }
{
    let ends = maps_of_scripts(alloc, names, files)?;
    let mut picks = Vec::new(alloc);
    for i in 0..names.len() {
        let pick = pick_one(alloc, table, ignore_query, names[i], end_at(&ends, i))?;
        picks.push(pick)?;
    }
    Ok(picks)
}
