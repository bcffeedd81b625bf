//! One map for each script: those that are named twice are told, and a script that may name its map gives way
//! to a map that is there.
ghost use Rattle.std.specs.Prelude.{◌≡◌, ◌+◌, ◌⊎◌, ◌||◌, ◌++◌, List, ℕ, IfErr, IfOk, OnOk, Ok, false, true};
ghost use Rattle.std.specs.Prelude.{length};
ghost use Rattle.std.specs.Prelude.{map, not, option_map, slice_get};
ghost use Rattle.std.specs.List.{zip};
ghost use Rattle.std.specs.Str.{bytes_eq};
ghost use Rattle.smap_map_files.specs.Chosen.{beside_flag, holds};
ghost use Rattle.smap_map_files.specs.Settling as spec;
ghost use Rattle.smap_map_files.specs.WantedView as view;
ghost use Rattle.smap_map_choice.specs.PlaceView.{place_in, places_in};

use crate::wanted::{Origin, Wanted, may_name_map};
use indexmap::IndexSet;
use smap_map_choice::Place;
use smap_system::{Disk, Host, Stop, printable};
use std::alloc::{AllocError, Global};

/// Which places are kept, and which are repeated.
#[derive(Drop)]
struct Decided {
    /// For each place whether it is kept.
    kept: Vec<bool>,
    /// The numbers of those whose script another has.
    repeated: Vec<usize>,
}

/// A place and how it is named, if there is one with this number.
fn named<'a>(places: &'a [Place], origins: &[Origin], i: usize) -> Option<(&'a Place, Origin)>
    ensures { option_map (λ n. (place_in n.0.now, n.1)) result
        ≡ slice_get (zip (places_in places.now) origins.now) i }
{
    if i < places.len().min(origins.len()) {
        Some((&places[i], origins[i]))
    } else {
        None
    }
}

/// Whether this is a script in a folder, which may name its map.
fn may_link(place: &Place, origin: Origin) -> bool
    ensures { result ≡ spec.may_link (place_in place.now, origin) }
{
    match origin {
        Origin::Below(_) => may_name_map(&place.file),
        Origin::Alone { .. } => false,
    }
}

/// Adds a text, and says whether it is new.
pub(crate) fn add_text<'a>(
    texts: &mut IndexSet<&'a [u8]>,
    text: &'a [u8],
) -> Result<bool, AllocError>
    ensures new { IfOk result (λ new. new ≡ not (holds texts.old.keys text.now)) }
    ensures added { (other : List ℕ) → OnOk result (holds texts.new.keys other
        ≡ (holds texts.old.keys other || bytes_eq other text.now)) }
{
    let (_, new) = texts.insert_full(text)?;
    Ok(new)
}

/// The scripts that have a map.
fn mapped<'a>(
    alloc: Global,
    places: &'a [Place],
    origins: &[Origin],
) -> Result<IndexSet<&'a [u8]>, AllocError>
    ensures { (script : List ℕ) → IfOk result (λ s. holds s.keys script
        ≡ spec.is_mapped (zip (places_in places.now) origins.now) script) }
{
    let mut mapped = IndexSet::new(alloc);
    for i in 0..places.len() {
        let Some((place, origin)) = named(places, origins, i) else {
            continue;
        };
        if may_link(place, origin) {
            continue;
        }
        add_text(&mut mapped, place.script.as_slice())?;
    }
    Ok(mapped)
}

/// Whether a place gives way to a map of its script that is there.
fn gives_way(place: &Place, origin: Origin, mapped: &IndexSet<&[u8]>) -> bool
    ensures { (ns : List view.Named) → ((script : List ℕ) → holds mapped.now.keys script
        ≡ spec.is_mapped ns script)
        → result ≡ spec.gives_way ns (place_in place.now, origin) }
{
    may_link(place, origin) && mapped.contains(place.script.as_slice())
}

/// What becomes of each place.
fn decide(alloc: Global, places: &[Place], origins: &[Origin]) -> Result<Decided, AllocError>
    ensures count { IfOk result (λ f. length f.kept.items ≡ length (zip (places_in places.now) origins.now)) }
    ensures kept { IfOk result (λ f. beside_flag true f.kept.items (zip (places_in places.now) origins.now)
        ≡ spec.kept (zip (places_in places.now) origins.now)) }
    ensures repeated { IfOk result (λ f. length (spec.kept (zip (places_in places.now) origins.now))
        + length f.repeated.items ≡ length (spec.that_stay (zip (places_in places.now) origins.now))) }
{
    let mapped = mapped(alloc, places, origins)?;
    let mut seen = IndexSet::new(alloc);
    let mut kept = Vec::new(alloc);
    let mut repeated = Vec::new(alloc);
    for i in 0..places.len() {
        let Some((place, origin)) = named(places, origins, i) else {
            continue;
        };
        if gives_way(place, origin, &mapped) {
            kept.push(false)?;
            continue;
        }
        if add_text(&mut seen, place.script.as_slice())? {
            kept.push(true)?;
            continue;
        }
        kept.push(false)?;
        repeated.push(i)?;
    }
    Ok(Decided { kept, repeated })
}

/// Says which places have a script that another has.
fn say_all_repeated<E: Eprint + AllocGlobal, D: Disk>(
    host: &Host<'_, E, D>,
    places: &[Place],
    numbers: &[usize],
) -> Result<(), Stop>
    ensures { IfErr result (λ s. s ≡ Stop.Memory) }
{
    let alloc = host.alloc();
    for number in numbers {
        let Some(place) = places.get(*number) else {
            continue;
        };
        let file = printable(alloc, &place.file)?;
        let script = printable(alloc, &place.script)?;
        let (file, script) = (file.as_str(), script.as_str());
        let text = format!(in alloc; "{file} ({script}): script repeated")?;
        host.say(text.as_str());
    }
    Ok(())
}

/// The elements beside flags that aren't set, and those beside the others.
fn parted<T: Drop>(
    alloc: Global,
    items: Vec<T>,
    flags: &[bool],
) -> Result<(Vec<T>, Vec<T>), AllocError>
    ensures unset { IfOk result (λ p. p.0.items ≡ beside_flag false flags.now items.items) }
    ensures set { IfOk result (λ p. p.1.items ≡ beside_flag true flags.now items.items) }
{
    let mut rest = items.into_iter();
    let mut unset = Vec::new(alloc);
    let mut set = Vec::new(alloc);
    for flag in flags {
        let Some(item) = rest.next() else {
            return Ok((unset, set));
        };
        if *flag {
            set.push(item)?;
        } else {
            unset.push(item)?;
        }
    }
    Ok((unset, set))
}

/// Those beside flags that are set.
pub(crate) fn chosen<T: Drop>(
    alloc: Global,
    items: Vec<T>,
    flags: &[bool],
) -> Result<Vec<T>, AllocError>
    ensures { IfOk result (λ v. v.items ≡ beside_flag true flags.now items.items) }
{
    let (_, set) = parted(alloc, items, flags)?;
    Ok(set)
}

/// Those beside flags that aren't set, how many these are, and behind them the others.
fn arranged<T: Drop>(
    alloc: Global,
    items: Vec<T>,
    flags: &[bool],
) -> Result<(Vec<T>, usize), AllocError>
    ensures items { IfOk result (λ p. p.0.items
        ≡ beside_flag false flags.now items.items ++ beside_flag true flags.now items.items) }
    ensures count { IfOk result (λ p. p.1 ≡ length (beside_flag false flags.now items.items)) }
{
    let (mut all, mut set) = parted(alloc, items, flags)?;
    let count = all.len();
    all.append(&mut set)?;
    Ok((all, count))
}

/// For each file whether it may name its map, as far as there are numbers of folders.
fn script_flags(alloc: Global, files: &[Vec<u8>], roots: &[usize]) -> Result<Vec<bool>, AllocError>
    ensures { IfOk result (λ flags. flags.items
        ≡ map (λ f. view.may_name_map f.0) (zip (map (λ f. f.items) files.now) roots.now)) }
{
    let mut flags = Vec::new(alloc);
    for i in 0..files.len().min(roots.len()) {
        flags.push(may_name_map(&files[i]))?;
    }
    Ok(flags)
}

/// Puts the maps of folders that are given alone before the scripts there.
fn put_maps_first(alloc: Global, wanted: &mut Wanted<'_>) -> Result<(), AllocError>
    ensures files { OnOk result (map (λ f. f.items) wanted.new.files.items
        ≡ map (λ f. f.0) (spec.maps_first (view.files_in wanted.old))) }
    ensures file_roots { OnOk result (wanted.new.file_roots.items
        ≡ map (λ f. f.1) (spec.maps_first (view.files_in wanted.old))) }
    ensures map_count { OnOk result (wanted.new.map_count ≡ length (spec.maps_of
        (view.files_in wanted.old))) }
    ensures others { (wanted.new.places ≡ wanted.old.places) × (wanted.new.origins ≡ wanted.old.origins)
        × (wanted.new.roots ≡ wanted.old.roots) × (wanted.new.logs ≡ wanted.old.logs)
        × (wanted.new.positions ≡ wanted.old.positions) }
{
    let files = std::mem::replace(&mut wanted.files, Vec::new(alloc));
    let roots = std::mem::replace(&mut wanted.file_roots, Vec::new(alloc));
    let flags = script_flags(alloc, &files, &roots)?;
    let (files, count) = arranged(alloc, files, &flags)?;
    let (roots, _) = arranged(alloc, roots, &flags)?;
    wanted.files = files;
    wanted.file_roots = roots;
    wanted.map_count = count;
    Ok(())
}

/// Leaves the places that are kept.
fn leave_kept(alloc: Global, kept: &[bool], wanted: &mut Wanted<'_>) -> Result<(), AllocError>
    ensures places { OnOk result (wanted.new.places.items
        ≡ beside_flag true kept.now wanted.old.places.items) }
    ensures origins { OnOk result (wanted.new.origins.items
        ≡ beside_flag true kept.now wanted.old.origins.items) }
    ensures others { (wanted.new.files ≡ wanted.old.files) × (wanted.new.file_roots ≡ wanted.old.file_roots)
        × (wanted.new.map_count ≡ wanted.old.map_count) × (wanted.new.roots ≡ wanted.old.roots)
        × (wanted.new.logs ≡ wanted.old.logs)
        × (wanted.new.positions ≡ wanted.old.positions) }
{
    let places = std::mem::replace(&mut wanted.places, Vec::new(alloc));
    let origins = std::mem::replace(&mut wanted.origins, Vec::new(alloc));
    wanted.places = chosen(alloc, places, kept)?;
    wanted.origins = chosen(alloc, origins, kept)?;
    Ok(())
}

/// A script that is named twice ends the run, unless broken maps are skipped.
fn end_if_repeated(repeated: bool, skip: bool) -> Result<(), Stop>
    ensures once { skip ≡ false → OnOk result (repeated ≡ false) }
    ensures stops { IfErr result (λ s. (s ≡ Stop.Reported 1) × (skip ≡ false) × (repeated ≡ true)) }
{
    if repeated && !skip {
        return Err(Stop::Reported(1));
    }
    Ok(())
}

/// Leaves one map for each script. A script that is named twice ends the run, unless broken maps are skipped:
/// then the first map counts.
pub fn settle<E: Eprint + AllocGlobal, D: Disk>(
    host: &Host<'_, E, D>,
    skip: bool,
    wanted: &mut Wanted<'_>,
) -> Result<(), Stop>
    ensures settled { OnOk result (spec.IsSettled wanted.old wanted.new) }
    ensures once { skip ≡ false → OnOk result (spec.has_repeated (view.named_in wanted.old) ≡ false) }
    ensures stops { IfErr result (λ s. (s ≡ Stop.Memory)
        ⊎ ((s ≡ Stop.Reported 1) × (skip ≡ false) × (spec.has_repeated (view.named_in wanted.old) ≡ true))) }
{
    let alloc = host.alloc();
    let decided = decide(alloc, wanted.places.as_slice(), wanted.origins.as_slice())?;
    say_all_repeated(host, wanted.places.as_slice(), &decided.repeated)?;
    leave_kept(alloc, &decided.kept, wanted)?;
    put_maps_first(alloc, wanted)?;
    end_if_repeated(!decided.repeated.is_empty(), skip)
}
