//! Which file each name of a log has.
ghost use Rattle.std.specs.Prelude.{◌≡◌, ◌↔◌, IfOk, IsTrue, List, map, option_map, true, ℕ};
ghost use Rattle.std.specs.List.{All, list_any};
ghost use Rattle.smap_link.specs.Kinds.{file_kind as kind_of};
ghost use Rattle.smap_link.specs.Urls.{is_slash};
ghost use Rattle.smap_map_finder.specs.Choice as spec;
ghost use Rattle.smap_map_finder.specs.Choice.{AreBest, AreLinks, ArePicked, ArePicksIn, IsBest};
ghost use Rattle.smap_map_finder.specs.Choice.{IsChoiceOf};
ghost use Rattle.smap_map_finder.specs.Choice.{IsFoundIn};
ghost use Rattle.smap_map_finder.specs.Choice.{IsHalfUnclear, names_of, places_of};
ghost use Rattle.smap_map_files.specs.declared.wanted.Wanted.{Wanted};
ghost use Rattle.smap_system.specs.Held.{Held};
ghost use Rattle.smap_map_finder.specs.ChosenView.{IsOver};
ghost use Rattle.smap_map_finder.specs.Searching.{held_in, wanted_in};

use crate::links::Links;
use crate::opening::{Opener, Search};
use crate::roots::names_of;
use smap_link::{FileKind, ScriptTable, agree_equally, bare, file_kind, is_path};
use smap_map_choice::{Found, Pick, pick_all};
use smap_map_files::{Wanted, name_of_file};
use smap_system::{Disk, Host, Stop};
use std::alloc::{AllocError, Global};

/// What stands for what was found in the table of what was opened: a map in a folder without a URL is
/// another for each script, since its own URL is.
pub(crate) fn key_of_found(alloc: Global, pick: &Pick<'_>) -> Result<Vec<u8>, AllocError> {
    match pick.found {
        Found::Given(i) => Ok(format!(in alloc; "{i}")?.into_bytes()),
        Found::ByEnd(i) => {
            let mut key = format!(in alloc; "{i} ")?.into_bytes();
            key.extend_from_slice(bare(pick.name))?;
            Ok(key)
        }
        Found::Unclear(_, _) | Found::Missing => Ok(Vec::new(alloc)),
    }
}

/// How long the scheme is that a name begins with.
fn scheme_size(name: &[u8]) -> usize
    ensures { result ≡ spec.scheme_size name.now }
{
    name.iter()
        .take_while(|b| b.is_ascii_alphanumeric() || b"+-.".contains(*b))
        .count()
}

/// Whether a name begins as a URL with a host or a path does: a scheme, `://`.
fn has_scheme(name: &[u8]) -> bool
    ensures { result ≡ spec.has_scheme name.now }
{
    let size = scheme_size(name);
    size != 0 && name.get(size..).unwrap_or(b"").starts_with(b"://")
}

/// Whether a name is a URL that names a place, or an absolute path.
fn is_absolute(name: &[u8]) -> bool
    ensures { result ≡ spec.is_absolute name.now }
{
    is_path(name) || has_scheme(name)
}

/// The name by which a map is opened: the log's, or, of a map in a folder without a URL, where the log's is
/// neither a URL nor a path, the URL of its own file.
pub(crate) fn opening_name(
    alloc: Global,
    wanted: &Wanted<'_>,
    pick: &Pick<'_>,
) -> Result<Vec<u8>, AllocError>
    ensures { IfOk result
        (λ name. name.items ≡ spec.opening_name wanted.now pick.now.name.now pick.now.found) }
{
    match pick.found {
        Found::ByEnd(i) => own_name(alloc, pick.name, wanted.files.get(i)),
        Found::Given(_) | Found::Unclear(_, _) | Found::Missing => Vec::from_slice(
            alloc, pick.name,
        ),
    }
}

/// A name that is absolute, or else that of the file.
fn own_name(alloc: Global, name: &[u8], file: Option<&Vec<u8>>) -> Result<Vec<u8>, AllocError>
    ensures { IfOk result
        (λ own. own.items ≡ spec.own_name name.now (option_map (λ f. f.now.items) file.entry)) }
{
    match file {
        Some(file) if !is_absolute(name) => name_of_file(alloc, file),
        _ => Vec::from_slice(alloc, name),
    }
}

fn is_script(file: &[u8]) -> bool
    ensures { result ≡ spec.is_script (kind_of file.now) }
{
    matches!(file_kind(file), FileKind::Script)
}

fn has_slash(name: &[u8]) -> bool
    ensures { result ≡ list_any is_slash name.now }
{
    name.iter().any(|b| *b == b'/' || *b == b'\\')
}

/// Whether a name is the file name of a script, with nothing before it.
fn is_bare_script(name: &[u8]) -> bool
    ensures { result ≡ spec.is_bare_script name.now }
{
    let file = bare(name);
    is_script(file) && !has_slash(file)
}

/// Whether a name may belong to a file by its end. `node:internal/x.js` names none. Of a name that is neither
/// a URL nor a path only a frame shows where it begins, unless it is the bare name of a script.
fn may_end_alike(name: &[u8], in_frames: bool) -> bool
    ensures { result ≡ spec.may_end_alike name.now in_frames }
{
    is_absolute(name) || (in_frames || is_bare_script(name)) && !name.contains(&b':')
}

/// What was found for a name, but none by its end for a name that may not belong to a file by it.
fn within_ends(name: &[u8], in_frames: bool, found: Found) -> Found
    ensures { result ≡ spec.within_ends name.now in_frames found }
{
    match found {
        Found::ByEnd(_) | Found::Unclear(_, _) if !may_end_alike(name, in_frames) => Found::Missing,
        _ => found,
    }
}

/// How many of the files are maps.
pub(crate) fn map_count(wanted: &Wanted<'_>) -> usize
    ensures { result ≡ spec.map_count_of wanted.now }
{
    wanted.map_count.min(wanted.files.len())
}

/// Whether no script is found, and no two files of which one is a map.
fn is_plain(wanted: &Wanted<'_>, found: Found) -> bool
    ensures { result ≡ spec.is_plain wanted.now found }
{
    match found {
        Found::ByEnd(i) => i < map_count(wanted),
        Found::Unclear(i, j) => map_count(wanted) <= i.min(j),
        Found::Given(_) | Found::Missing => true,
    }
}

/// Whether this holds of all these.
fn are_plain(wanted: &Wanted<'_>, picks: &[Pick<'_>]) -> bool
    ensures { result ≡ true → All (λ p. spec.is_plain wanted.now p.found ≡ true) picks.now }
{
    for i in 0..picks.len() {
        if !is_plain(wanted, picks[i].found) {
            return false;
        }
    }
    true
}

/// What is found for a name among all files, among the scripts, and among the maps.
#[derive(Clone, Copy)]
struct Finds {
    of_all: Found,
    of_scripts: Found,
    of_maps: Found,
}

/// The file with this number among these names; an empty name where there is none.
fn name_at<'a>(files: &[&'a [u8]], number: usize) -> &'a [u8]
    ensures { result.now ≡ spec.name_at (spec.texts files.now) number }
{
    match files.get(number) {
        Some(file) => *file,
        None => b"",
    }
}

/// Whether the files with these numbers agree with a name in equally many bytes.
fn agree(
    alloc: Global,
    files: &[&[u8]],
    name: &[u8],
    script: usize,
    map: usize,
) -> Result<bool, AllocError>
    ensures { IfOk result
        (λ same. IsTrue same ↔ spec.Agree (spec.texts files.now) name.now script map) }
{
    let of_script = name_at(files, script);
    let of_map = name_at(files, map);
    agree_equally(alloc, name, of_script, of_map)
}

/// Whether the map that is found agrees with a name in as many bytes as this script.
fn is_map_as_long(
    alloc: Global,
    files: &[&[u8]],
    name: &[u8],
    script: usize,
    map: Found,
) -> Result<bool, AllocError>
    ensures { IfOk result
        (λ same. IsTrue same ↔ spec.IsMapAsLong (spec.texts files.now) name.now script map) }
{
    match map {
        Found::ByEnd(i) => agree(alloc, files, name, script, i),
        Found::Unclear(i, _) => agree(alloc, files, name, script, i),
        Found::Given(_) | Found::Missing => Ok(false),
    }
}

/// Whether a map and another file end alike with a name: both are found, or the other is a script, and of the
/// maps one agrees in as many bytes.
fn is_tied(
    alloc: Global,
    wanted: &Wanted<'_>,
    files: &[&[u8]],
    name: &[u8],
    finds: Finds,
) -> Result<bool, AllocError>
    requires { spec.texts files.now ≡ names_of wanted.now }
    ensures { IfOk result
        (λ tied. IsTrue tied ↔ spec.IsTied wanted.now name.now finds.of_all finds.of_maps) }
{
    match finds.of_all {
        Found::ByEnd(i) => {
            if i < map_count(wanted) {
                return Ok(false);
            }
            let same = is_map_as_long(alloc, files, name, i, finds.of_maps)?;
            Ok(same)
        }
        Found::Unclear(i, j) => Ok(i.min(j) < map_count(wanted)),
        Found::Given(_) | Found::Missing => Ok(false),
    }
}

/// What is found for each of a list of names, likewise.
#[derive(Drop)]
struct PicksByKind<'p, 'n> {
    all: &'p [Pick<'n>],
    scripts: &'p [Pick<'n>],
    maps: &'p [Pick<'n>],
}

/// These picks, but none by its end for a name that may not belong to a file by it.
fn all_within<'a>(
    alloc: Global,
    in_frames: bool,
    picks: &[Pick<'a>],
) -> Result<Vec<Pick<'a>>, AllocError>
    ensures { (held : Held) (wanted : Wanted) → All (IsChoiceOf held wanted) picks.now
        → IfOk result (λ all. ArePicked held wanted in_frames (map (λ p. p.name.now) picks.now) all.items) }
{
    let mut all = Vec::with_capacity(alloc, picks.len())?;
    for i in 0..picks.len() {
        let name = picks[i].name;
        let found = within_ends(name, in_frames, picks[i].found);
        all.push(Pick { name, found })?;
    }
    Ok(all)
}

impl<E: Eprint + AllocGlobal, D: Disk> Search<'_, E, D> {
    /// The script that was found if it names the map that was, and else the map.
    fn script_or_map(
        &self,
        name: &[u8],
        script: Found,
        map: Found,
        links: &mut Links,
    ) -> Result<Found, Stop>
        requires links { AreLinks (held_in D.held self.now) (wanted_in self.now) links.old.named.entries }
        requires unclear { IsHalfUnclear (wanted_in self.now) name.now }
        requires script { IsFoundIn (wanted_in self.now) (spec.script_names_of (wanted_in self.now))
            name.now script }
        requires map { IsFoundIn (wanted_in self.now) (spec.map_names_of (wanted_in self.now)) name.now map }
        ensures choice { IfOk result (IsBest (held_in D.held self.now) (wanted_in self.now) name.now) }
        ensures links { AreLinks (held_in D.held self.now) (wanted_in self.now) links.new.named.entries }
    {
        if let (Found::ByEnd(i), Found::ByEnd(of_map)) = (script, map) {
            if let Some(number) = map_count(self.wanted).checked_add(i) {
                if self.names_this(number, of_map, links)? {
                    return Ok(Found::ByEnd(number));
                }
            }
        }
        Ok(map)
    }

    /// Whether a script is found that has no map, and a map is found besides.
    fn is_passed_over(&self, finds: Finds, links: &mut Links) -> Result<bool, Stop>
        requires { AreLinks (held_in D.held self.now) (wanted_in self.now) links.old.named.entries }
        ensures over { IfOk result (λ b. b ≡ true
            → spec.FindsNone (held_in D.held self.now) (wanted_in self.now) finds.of_all) }
        ensures links { AreLinks (held_in D.held self.now) (wanted_in self.now) links.new.named.entries }
    {
        let Found::ByEnd(script) = finds.of_all else {
            return Ok(false);
        };
        if script < map_count(self.wanted) || finds.of_maps == Found::Missing {
            return Ok(false);
        }
        self.is_without_map(script, links)
    }

    /// What is found for a name, of which this is found among the files.
    fn settled_found(
        &self,
        files: &[&[u8]],
        name: &[u8],
        finds: Finds,
        links: &mut Links,
    ) -> Result<Found, Stop>
        requires files { map (λ f. f.now) files.now ≡ names_of (wanted_in self.now) }
        requires links { AreLinks (held_in D.held self.now) (wanted_in self.now) links.old.named.entries }
        requires found { IsFoundIn (wanted_in self.now) (names_of (wanted_in self.now)) name.now
            finds.of_all }
        requires script { IsFoundIn (wanted_in self.now) (spec.script_names_of (wanted_in self.now)) name.now
            finds.of_scripts }
        requires map { IsFoundIn (wanted_in self.now) (spec.map_names_of (wanted_in self.now)) name.now
            finds.of_maps }
        ensures choice { IfOk result (IsBest (held_in D.held self.now) (wanted_in self.now) name.now) }
        ensures links { AreLinks (held_in D.held self.now) (wanted_in self.now) links.new.named.entries }
    {
        let tied = is_tied(self.host.alloc(), self.wanted, files, name, finds)?;
        if tied {
            return self.script_or_map(name, finds.of_scripts, finds.of_maps, links);
        }
        if self.is_passed_over(finds, links)? {
            return Ok(finds.of_maps);
        }
        Ok(finds.of_all)
    }

    /// The same of each name.
    fn settle_each<'n>(
        &self,
        files: &[&[u8]],
        names: &[&'n [u8]],
        picks: &PicksByKind<'_, 'n>,
        links: &mut Links,
    ) -> Result<Vec<Pick<'n>>, Stop>
        requires links { AreLinks (held_in D.held self.now) (wanted_in self.now) links.old.named.entries }
        requires files { map (λ f. f.now) files.now ≡ names_of (wanted_in self.now) }
        requires picks { ArePicksIn (wanted_in self.now) (names_of (wanted_in self.now)) (map (λ n. n.now)
            names.now) picks.now.all.now }
        requires scripts { ArePicksIn (wanted_in self.now) (spec.script_names_of (wanted_in self.now)) (map
            (λ n. n.now) names.now) picks.now.scripts.now }
        requires maps { ArePicksIn (wanted_in self.now) (spec.map_names_of (wanted_in self.now))
            (map (λ n. n.now) names.now) picks.now.maps.now }
        ensures choices { IfOk result (λ all. AreBest (held_in D.held self.now) (wanted_in self.now)
            (map (λ n. n.now) names.now) all.items) }
        ensures links { AreLinks (held_in D.held self.now) (wanted_in self.now) links.new.named.entries }
    {
        let mut settled = Vec::with_capacity(self.host.alloc(), names.len())?;
        for i in 0..names.len() {
            let name = names[i];
            let finds = Finds {
                of_all: picks.all[i].found,
                of_scripts: picks.scripts[i].found,
                of_maps: picks.maps[i].found,
            };
            let found = self.settled_found(files, name, finds, links)?;
            settled.push(Pick { name, found })?;
        }
        Ok(settled)
    }

    /// What each name has, of which these are found among all files: where a script and a map agree with it
    /// in as many bytes, the map, through the script if that names it.
    fn settled<'n>(
        &self,
        opener: &mut Opener,
        files: &[&[u8]],
        names: &[&'n [u8]],
        picks: Vec<Pick<'n>>,
    ) -> Result<Vec<Pick<'n>>, Stop>
        requires over { IsOver (held_in D.held self.now) (wanted_in self.now) opener.old }
        requires files { map (λ f. f.now) files.now ≡ names_of (wanted_in self.now) }
        requires picks { ArePicksIn (wanted_in self.now) (names_of (wanted_in self.now)) (map (λ n. n.now)
            names.now) picks.items }
        ensures picked { IfOk result (λ all. AreBest (held_in D.held self.now) (wanted_in self.now)
            (map (λ n. n.now) names.now) all.items) }
        ensures over { IsOver (held_in D.held self.now) (wanted_in self.now) opener.new }
    {
        if are_plain(self.wanted, &picks) {
            return Ok(picks);
        }
        let alloc = self.host.alloc();
        let (maps, scripts) = files.split_at(map_count(self.wanted));
        let by_script = pick_all(alloc, &mut opener.table, scripts, true, names)?;
        let by_map = pick_all(alloc, &mut opener.table, maps, true, names)?;
        let picks = PicksByKind {
            all: picks.as_slice(),
            scripts: by_script.as_slice(),
            maps: by_map.as_slice(),
        };
        self.settle_each(files, names, &picks, &mut opener.links)
    }

    /// What each name has.
    pub(crate) fn picks_of<'n>(
        &self,
        opener: &mut Opener,
        in_frames: bool,
        names: &[&'n [u8]],
    ) -> Result<Vec<Pick<'n>>, Stop>
        requires over { IsOver (held_in D.held self.now) (wanted_in self.now) opener.old }
        ensures picked { IfOk result (λ all. ArePicked (held_in D.held self.now) (wanted_in self.now)
            in_frames (map (λ n. n.now) names.now) all.items) }
        ensures over { IsOver (held_in D.held self.now) (wanted_in self.now) opener.new }
    {
        let alloc = self.host.alloc();
        let files = names_of(alloc, self.wanted)?;
        let picks = pick_all(alloc, &mut opener.table, &files, true, names)?;
        let picks = self.settled(opener, &files, names, picks)?;
        let picks = self.choose_all(opener, &files, &picks)?;
        Ok(all_within(alloc, in_frames, &picks)?)
    }
}
