//! Which of many maps and many scripts belong together, where maps are known by their files' names alone.
ghost use Rattle.std.specs.Prelude.{◌≡◌, ◌≤◌, ◌+◌, ℕ, List, [], IfOk, OnOk, get_or, length, map};
ghost use Rattle.smap_link.specs.Endings as spec;
ghost use Rattle.smap_link.specs.Ends.{BelongsTo, script_path as path_in, stem as stem_of};
ghost use Rattle.smap_link.specs.Likeness.{AreMostAlike, IsMostAlike};

use crate::ends::{script_path, stem};
use crate::likeness::{Best, Likeness, better};
use crate::table::place;
use crate::tails::{Agreement, agreement_of};
use indexmap::IndexMap;
use std::alloc::{AllocError, Global};

/// Paths by their last segments, in which two are alike if they are in anything.
#[derive(Drop)]
struct Endings {
    /// For each segment the last path that ends in it.
    latest: IndexMap<Vec<u8>, usize>,
    /// For each path the last one before it that ends in the same segment.
    earlier: Vec<Option<usize>>,
}

fn segment_size(path: &[u8]) -> usize
    ensures value { result ≡ spec.segment_size path.now }
    ensures within { result ≤ length path.now }
{
    path.iter().rev().take_while(|b| **b != b'/').count()
}

fn last_segment<'a>(path: &'a [u8]) -> &'a [u8]
    ensures { result.now ≡ spec.last_segment path.now }
{
    &path[path.len() - segment_size(path)..]
}

fn script_paths(alloc: Global, scripts: &[&[u8]]) -> Result<Vec<Vec<u8>>, AllocError>
    ensures { IfOk result (λ paths. map (λ p. p.items) paths.items
        ≡ map path_in (map (λ s. s.now) scripts.now)) }
{
    let mut paths = Vec::new(alloc);
    for i in 0..scripts.len() {
        let path = script_path(alloc, scripts[i])?;
        paths.push(path)?;
    }
    Ok(paths)
}

fn stems(alloc: Global, names: &[&[u8]]) -> Result<Vec<Vec<u8>>, AllocError>
    ensures { IfOk result (λ stems. map (λ p. p.items) stems.items
        ≡ map stem_of (map (λ n. n.now) names.now)) }
{
    let mut stems = Vec::new(alloc);
    for i in 0..names.len() {
        let stem = Vec::from_slice(alloc, stem(names[i]))?;
        stems.push(stem)?;
    }
    Ok(stems)
}

/// Adds a path, whose place this is.
fn add_path(alloc: Global, endings: &mut Endings, path: &[u8], i: usize) -> Result<(), AllocError>
    ensures { (paths : List (List ℕ)) → get_or paths i [] ≡ path.now → spec.HasEndings endings.old paths i
        → OnOk result (spec.HasEndings endings.new paths (i + 1)) }
{
    let segment = Vec::from_slice(alloc, last_segment(path))?;
    let before = endings.latest.insert(segment, i)?;
    endings.earlier.push(before)?;
    Ok(())
}

fn endings_of(alloc: Global, paths: &[Vec<u8>]) -> Result<Endings, AllocError>
    ensures { IfOk result (λ e. spec.AreEndings e (map (λ p. p.items) paths.now)) }
{
    let mut endings = Endings {
        latest: IndexMap::new(alloc),
        earlier: Vec::new(alloc),
    };
    for i in 0..paths.len() {
        add_path(alloc, &mut endings, &paths[i], i)?;
    }
    Ok(endings)
}

/// The path that is most like this one. Those that end in another segment aren't looked at.
fn most_alike_in(wanted: &[u8], paths: &[Vec<u8>], endings: &Endings) -> Likeness
    requires { spec.AreEndings endings.now (map (λ p. p.items) paths.now) }
    ensures { IsMostAlike wanted.now (map (λ p. p.items) paths.now) result }
{
    let mut best = Best {
        agreement: Agreement { size: 0, left: 0 },
        found: Likeness::Unlike,
    };
    let mut at = place(&endings.latest, last_segment(wanted));
    'paths: loop {
        let Some(i) = at else {
            return best.found;
        };
        best = better(best, i, agreement_of(wanted, &paths[i]));
        at = endings.earlier[i];
    }
}

/// For each of some paths the one of others that is most like it.
fn each_most_alike(
    alloc: Global,
    wanted: &[Vec<u8>],
    paths: &[Vec<u8>],
) -> Result<Vec<Likeness>, AllocError>
    ensures { IfOk result (λ found. AreMostAlike (map (λ p. p.items) wanted.now)
        (map (λ p. p.items) paths.now) found.items) }
{
    let ends = endings_of(alloc, paths)?;
    let mut found = Vec::new(alloc);
    for i in 0..wanted.len() {
        found.push(most_alike_in(&wanted[i], paths, &ends))?;
    }
    Ok(found)
}

/// Which of these scripts the map in a file belongs to: the one with whose URL's path the file's name,
/// without `.map`, has the longest end in common, by whole segments, and at least its last one. So
/// `build/static/js/main.js.map` belongs to `https://h/static/js/main.js`. Of several such scripts it is the
/// one whose path has the fewest segments before that end.
///
/// # Errors
///
/// `AllocError`.
pub fn script_of_map(alloc: Global, name: &[u8], scripts: &[&[u8]]) -> Result<Likeness, AllocError>
    ensures { IfOk result (λ found. BelongsTo name.now (map (λ s. s.now) scripts.now) found) }
{
    let paths = script_paths(alloc, scripts)?;
    let ends = endings_of(alloc, &paths)?;
    Ok(most_alike_in(stem(name), &paths, &ends))
}

/// Which of these scripts each of these maps belongs to, as `script_of_map` says it of one.
///
/// The time is proportional to the bytes of all names, and for each map to those of the scripts whose paths
/// end in the same segment.
///
/// # Errors
///
/// `AllocError`.
pub fn scripts_of_maps(
    alloc: Global,
    names: &[&[u8]],
    scripts: &[&[u8]],
) -> Result<Vec<Likeness>, AllocError>
    ensures { IfOk result (λ found. AreMostAlike (map stem_of (map (λ n. n.now) names.now))
        (map path_in (map (λ s. s.now) scripts.now)) found.items) }
{
    let stems = stems(alloc, names)?;
    let paths = script_paths(alloc, scripts)?;
    each_most_alike(alloc, &stems, &paths)
}

/// Which of these maps belongs to each of these scripts: the one whose name, without `.map`, has the longest
/// end in common with the path of the script's URL, by whole segments, and at least its last one. Of several
/// such maps it is the one whose name has the fewest segments before that end: `dist/app.js.map`, and not
/// `dist/old/app.js.map`, belongs to `https://h/app.js`. It takes as much time as `scripts_of_maps`.
///
/// # Errors
///
/// `AllocError`.
pub fn maps_of_scripts(
    alloc: Global,
    scripts: &[&[u8]],
    names: &[&[u8]],
) -> Result<Vec<Likeness>, AllocError>
    ensures { IfOk result (λ found. AreMostAlike (map path_in (map (λ s. s.now) scripts.now))
        (map stem_of (map (λ n. n.now) names.now)) found.items) }
{
    let paths = script_paths(alloc, scripts)?;
    let stems = stems(alloc, names)?;
    each_most_alike(alloc, &paths, &stems)
}
