//! The maps that the sources of a map lead to, at every depth.
ghost use Rattle.std.specs.Prelude.{IfOk};
ghost use Rattle.smap_chains.specs.Chains.{IsChain};

use crate::search::Search;
use crate::ways::Sources;
use smap_map_files::Home;
use smap_record::SourceMap;
use smap_system::Disk;
use std::alloc::{AllocError, Global};

/// How many levels of maps are followed.
pub(crate) const DEEPEST: usize = 16;

/// Which maps sources have besides those that they name.
#[derive(Clone, Copy)]
pub struct MoreMaps<'a> {
    /// Whether a source that names none has the `NAME.map` next to it.
    pub beside: bool,
    /// The URLs of sources, whole or below that of the folder, with the paths of their maps. What such a
    /// source names doesn't count.
    pub given: &'a [(&'a str, &'a str)],
}

/// How the maps of sources are looked for.
#[derive(Clone, Copy)]
pub struct ChainAsked<'a> {
    /// The folder in which files are.
    pub home: Home<'a>,
    pub more: MoreMaps<'a>,
    /// How many bytes the URLs of a map's sources may take.
    pub url_bytes: usize,
}

/// The maps that the sources of a map lead to. Those of one source are the same wherever it is listed.
#[derive(Drop)]
pub struct Chain {
    /// The maps, in the order in which they were found.
    pub maps: Vec<SourceMap>,
    /// For each distinct source of the first map the index of its map; none if it leads to none.
    pub numbers: Vec<Option<usize>>,
    /// The same of each of `maps`.
    pub leads: Vec<Vec<Option<usize>>>,
    /// How many levels there are; none where there are more than 16, or a map leads back to itself.
    pub depth: Option<usize>,
    /// The first source that is followed, with what it names.
    pub example: Option<String>,
    /// What the first source says that names a map which isn't there, and how many do.
    pub missed: Option<String>,
    pub missing: usize,
    /// Why other maps can't be followed, a sentence each.
    pub refusals: Vec<String>,
}

/// Marks the maps that have these indices. Answers whether there is one.
fn mark(numbers: &[Option<usize>], marks: &mut Vec<bool>) -> bool {
    let mut is_one = false;
    for number in numbers {
        if let Some(number) = *number {
            if let Some(mark) = marks.get_mut(number) {
                *mark = true;
                is_one = true;
            }
        }
    }
    is_one
}

/// Marks the maps that the sources of the marked ones lead to. Answers whether there is one.
fn mark_next(leads: &[Vec<Option<usize>>], marks: &[bool], next: &mut Vec<bool>) -> bool {
    let mut is_one = false;
    for (numbers, marked) in leads.iter().zip(marks) {
        if *marked && mark(numbers, next) {
            is_one = true;
        }
    }
    is_one
}

/// How many levels of maps there are; none if they are too many, or without an end.
fn depth_of(
    alloc: Global,
    count: usize,
    numbers: &[Option<usize>],
    leads: &[Vec<Option<usize>>],
) -> Result<Option<usize>, AllocError> {
    if leads.len() < count {
        return Ok(None);
    }
    let mut marks = vec![in alloc; false; count]?;
    let mut is_one = mark(numbers, &mut marks);
    for depth in 0..DEEPEST + 1 {
        if !is_one {
            return Ok(Some(depth));
        }
        let mut next = vec![in alloc; false; count]?;
        is_one = mark_next(leads, &marks, &mut next);
        marks = next;
    }
    Ok(None)
}

/// The maps that the sources of a map lead to, each looked at as a script, at every depth. The map is of the
/// script with this URL, and nothing outside of the folder is opened but maps that are given. A map that is
/// refused, or of another text, isn't followed: `refusals` say so.
///
/// # Errors
///
/// Out of memory alone.
pub fn chain_of<D: Disk>(
    alloc: Global,
    disk: &D,
    asked: ChainAsked<'_>,
    script: &[u8],
    map: &SourceMap,
) -> Result<Chain, AllocError>
    ensures { IfOk result (IsChain (D.held disk.now) asked.entry script.now map.now) }
{
    let sources = Sources { alloc, disk, asked };
    let mut search = Search::new(alloc);
    let numbers = search.numbers(&sources, script, map)?;
    let leads = search.leads(&sources)?;
    let Search {
        maps,
        example,
        missed,
        missing,
        refusals,
        ..
    } = search;
    Ok(Chain {
        depth: depth_of(alloc, maps.len(), &numbers, &leads)?,
        maps,
        numbers,
        leads,
        example,
        missed,
        missing,
        refusals,
    })
}
