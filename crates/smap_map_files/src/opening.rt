//! The map that a file is, holds or names.
ghost use Rattle.std.specs.Prelude.{◌≡◌, ◌⊎◌, ◌<◌, ◌≤◌, cond, IfOk, IfSome, IsSome, MatchOption, None};
ghost use Rattle.smap_system.specs.Held.{IsHeld};
ghost use Rattle.smap_link.specs.Kinds.{file_kind as spec_kind};
ghost use Rattle.smap_map_files.specs.Given as spec;
ghost use Rattle.smap_map_files.specs.Given.{IsContent, IsLoadedTo, IsMadeOf, IsRead, IsReadTo};
ghost use Rattle.smap_map_files.specs.Given.{ended_loaded};
ghost use Rattle.smap_map_files.specs.Opened.{AreEnds, GivesNone, IsFollowedUp, IsLeftOut, IsLink, IsOpened};
ghost use Rattle.smap_map_files.specs.Opened.{IsReached, with_base, within_base};
ghost use Rattle.smap_map_files.specs.SubjectView.{IsScriptBeside, widths_in};
ghost use Rattle.smap_map_files.specs.RootView.{folder_of};
ghost use Rattle.smap_map_choice.specs.PlaceView.{place_in};
ghost use Rattle.smap_map_files.specs.declared.loading.MapFault.{MapFault};

use crate::Root;
use crate::folders::{is_map, stem};
use crate::following::{Followed, follow};
use crate::loading::{Content, Loaded, MapFault, Reading, load, load_map, loaded_from};
use crate::telling::{say_fault, say_mended, say_of, say_used};
use crate::wanted::may_name_map;
use smap_link::{FileKind, file_kind, own_url};
use smap_map_choice::Place;
use smap_mappings::script_widths;
use smap_record::SourceMap;
use smap_system::{Disk, Host, Stop, printable};
use std::alloc::{AllocError, Global};

/// How maps are opened.
#[derive(Clone, Copy)]
pub struct How {
    /// Maps that are refused are left out.
    pub skip: bool,
    /// What is chosen is told.
    pub verbose: bool,
}

/// A map that is to be opened.
#[derive(Drop)]
pub struct Subject<'a> {
    /// Its place.
    pub place: Place,
    /// The folder that it was found in.
    pub root: Option<&'a Root>,
    /// Whether its base was given.
    pub has_base: bool,
    /// How its text is read.
    pub reading: Reading,
}

/// What the script next to a map of a folder says of it.
#[derive(Drop)]
struct Beside {
    /// The map that it names, if that can be had.
    named: Option<(Place, Loaded)>,
    /// How wide its lines are, if it is there and they can be counted.
    ends: Option<Vec<usize>>,
}

/// The same place, with texts of its own.
pub fn copied(alloc: Global, place: &Place) -> Result<Place, AllocError>
    ensures { IfOk result (λ p. place_in p ≡ place_in place.now) }
{
    Ok(Place {
        script: Vec::from_slice(alloc, &place.script)?,
        file: Vec::from_slice(alloc, &place.file)?,
        base: Vec::from_slice(alloc, &place.base)?,
    })
}

/// The URL that was given with the script, or else this one.
fn given_base(alloc: Global, subject: &Subject<'_>, base: Vec<u8>) -> Result<Vec<u8>, AllocError>
    ensures { IfOk result (λ it.
        it.items ≡ cond subject.now.has_base subject.now.place.base.items base.items) }
{
    if subject.has_base {
        return Vec::from_slice(alloc, &subject.place.base);
    }
    Ok(base)
}

/// Whether a file's name is that of a script, in whose units positions are counted.
fn is_script(name: &[u8]) -> bool
    ensures { result ≡ spec.has_lines (spec_kind name.now) }
{
    matches!(file_kind(name), FileKind::Script)
}

/// How wide the lines of a script are that was found in a folder, if they can be counted: its map ends there.
pub(crate) fn ends_of(
    alloc: Global,
    subject: &Subject<'_>,
    text: &[u8],
) -> Result<Option<Vec<usize>>, AllocError>
    ensures { IfOk result (λ ends. widths_in ends
        ≡ spec.ends_of (folder_of subject.now.root) subject.now.place.file.items text.now) }
{
    let Some(_) = subject.root else {
        return Ok(None);
    };
    if is_script(&subject.place.file) {
        return script_widths(alloc, text);
    }
    Ok(None)
}

/// What was loaded, as that of a script whose lines are so wide, if that is known.
fn ended(alloc: Global, loaded: Loaded, ends: &Option<Vec<usize>>) -> Result<Loaded, AllocError>
    ensures { IfOk result (λ it. it ≡ ended_loaded (widths_in ends.now) loaded) }
{
    let Some(widths) = ends else {
        return Ok(loaded);
    };
    match loaded {
        Loaded::Map(map) => Ok(Loaded::Map(map.ended(alloc, widths)?)),
        Loaded::Mended(map, why) => Ok(Loaded::Mended(map.ended(alloc, widths)?, why)),
        Loaded::Broken(fault) => Ok(Loaded::Broken(fault)),
    }
}

/// The map that stands in its script, whose lines are so wide, if that is known.
fn inline_loaded<E: Eprint + AllocGlobal, D: Disk>(
    host: &Host<'_, E, D>,
    how: How,
    subject: &Subject<'_>,
    bytes: Vec<u8>,
    ends: &Option<Vec<usize>>,
) -> Result<(Place, Loaded), Stop>
    ensures { IfOk result (λ f. IsReadTo subject.now.reading
        (within_base subject.now.has_base (place_in subject.now.place)) bytes.items
        (widths_in ends.now) f.1) }
{
    let alloc = host.alloc();
    say_used(host, how, subject, "inline map")?;
    let base = own_url(alloc, &subject.place.script)?;
    let mut own = copied(alloc, &subject.place)?;
    own.base = given_base(alloc, subject, base)?;
    let loaded = loaded_from(alloc, &bytes, &own.base, subject.reading, false)?;
    Ok((own, ended(alloc, loaded, ends)?))
}

/// What has the name of a script and names no map: the map itself, unless it is from a folder.
fn itself_loaded<E: Eprint + AllocGlobal, D: Disk>(
    host: &Host<'_, E, D>,
    how: How,
    subject: &Subject<'_>,
    text: Vec<u8>,
) -> Result<Option<(Place, Loaded)>, Stop>
    ensures { IfOk result (λ found. MatchOption found (IsSome (folder_of subject.now.root))
        (λ f. IsRead subject.now.reading subject.now.place.base.items text.items f.1)) }
{
    let alloc = host.alloc();
    if subject.root.is_some() {
        return left_out(host, how, subject, "names no map");
    }
    let place = copied(alloc, &subject.place)?;
    let loaded = loaded_from(alloc, &text, &subject.place.base, subject.reading, true)?;
    Ok(Some((place, loaded)))
}

/// The map in a file that a script names, whose lines are so wide, if that is known.
fn beside_loaded<E: Eprint + AllocGlobal, D: Disk>(
    host: &Host<'_, E, D>,
    how: How,
    subject: &Subject<'_>,
    found: Place,
    ends: &Option<Vec<usize>>,
) -> Result<(Place, Loaded), Stop>
    ensures { IfOk result (λ f. IsMadeOf (IsLoadedTo subject.now.reading (widths_in ends.now))
        (D.held host.now.disk.now)
        (with_base subject.now.has_base subject.now.place.base.items (place_in found)) f.1) }
{
    let alloc = host.alloc();
    let file = printable(alloc, &found.file)?;
    let file = file.as_str();
    let which = format!(in alloc; "map, {file},")?;
    say_used(host, how, subject, which.as_str())?;
    open_found(alloc, host.disk, subject, found, ends)
}

/// What names a map that can't be had: it is left out if it is from a folder, and else refused.
fn wrong_loaded<E: Eprint + AllocGlobal, D: Disk>(
    host: &Host<'_, E, D>,
    how: How,
    subject: &Subject<'_>,
    what: String,
) -> Result<Option<(Place, Loaded)>, Stop>
    ensures { IfOk result (λ found. MatchOption found (IsSome (folder_of subject.now.root))
        (λ f. (folder_of subject.now.root ≡ None) × IsLink f.1)) }
{
    if subject.root.is_some() {
        return left_out(host, how, subject, what.as_str());
    }
    let place = copied(host.alloc(), &subject.place)?;
    Ok(Some((place, Loaded::Broken(MapFault::Link(what)))))
}

/// The map that a script names, whose lines are so wide, if that is known; none if the script is left out.
/// What is chosen is told.
fn map_of_script<E: Eprint + AllocGlobal, D: Disk>(
    host: &Host<'_, E, D>,
    how: How,
    subject: &Subject<'_>,
    text: Vec<u8>,
    ends: &Option<Vec<usize>>,
) -> Result<Option<(Place, Loaded)>, Stop>
    requires held { IsHeld (D.held host.now.disk.now) subject.now.place.file.items text.items }
    requires ends { widths_in ends.now
        ≡ spec.ends_of (folder_of subject.now.root) subject.now.place.file.items text.items }
    ensures { IfOk result (λ found. MatchOption found
        (IsLeftOut (D.held host.now.disk.now) (folder_of subject.now.root) (place_in subject.now.place))
        (λ f. IsFollowedUp subject.now.reading (D.held host.now.disk.now) (folder_of subject.now.root)
        subject.now.has_base (place_in subject.now.place) f.1)) }
{
    match follow(host, &subject.place, subject.root, &text)? {
        Followed::Inline(bytes) => {
            drop(text);
            Ok(Some(inline_loaded(host, how, subject, bytes, ends)?))
        }
        Followed::File(found) => {
            drop(text);
            Ok(Some(beside_loaded(host, how, subject, found, ends)?))
        }
        Followed::Nothing => itself_loaded(host, how, subject, text),
        Followed::Wrong(what) => wrong_loaded(host, how, subject, what),
    }
}

/// Opens the file that a script names, whose lines are so wide, if that is known.
fn open_found<D: Disk>(
    alloc: Global,
    disk: &D,
    subject: &Subject<'_>,
    found: Place,
    ends: &Option<Vec<usize>>,
) -> Result<(Place, Loaded), Stop>
    ensures { IfOk result (λ f. IsMadeOf (IsLoadedTo subject.now.reading (widths_in ends.now))
        (D.held disk.now)
        (with_base subject.now.has_base subject.now.place.base.items (place_in found)) f.1) }
{
    let found = Place {
        script: found.script,
        file: found.file,
        base: given_base(alloc, subject, found.base)?,
    };
    let loaded = load_map(alloc, disk, &found, subject.reading)?;
    Ok((found, ended(alloc, loaded, ends)?))
}

/// Leaves out a script from a folder that names no map that can be read.
fn left_out<E: Eprint + AllocGlobal, D: Disk>(
    host: &Host<'_, E, D>,
    how: How,
    subject: &Subject<'_>,
    what: &str,
) -> Result<Option<(Place, Loaded)>, Stop>
    ensures { IfOk result (λ found. found ≡ None) }
{
    let alloc = host.alloc();
    if how.verbose {
        let said = format!(in alloc; ": left out, since it {what}")?;
        say_of(host, &subject.place, said.as_str())?;
    }
    Ok(None)
}

/// The map that was loaded from a place, or says what is wrong with it.
fn map_in<E: Eprint + AllocGlobal, D: Disk>(
    host: &Host<'_, E, D>,
    place: &Place,
    loaded: Loaded,
    worst: &mut u8,
) -> Result<Option<SourceMap>, Stop>
    ensures found { IfOk result (λ found. MatchOption found
        ((why : MapFault) × ((loaded ≡ Loaded.Broken why) × (0 < worst.new)))
        (λ m. (loaded ≡ Loaded.Map m) ⊎ ((why : MapFault) × (loaded ≡ Loaded.Mended m why)))) }
    ensures worst { worst.old ≤ worst.new }
{
    match loaded {
        Loaded::Map(map) => Ok(Some(map)),
        Loaded::Mended(map, why) => {
            say_mended(host, place, &why)?;
            Ok(Some(map))
        }
        Loaded::Broken(fault) => {
            let status = say_fault(host, place, &fault)?;
            *worst = (*worst).max(status);
            Ok(None)
        }
    }
}

/// The map of a script of which nothing else is known: the one that it names, or none if it is left out.
fn script_loaded<E: Eprint + AllocGlobal, D: Disk>(
    host: &Host<'_, E, D>,
    how: How,
    subject: &Subject<'_>,
    text: Vec<u8>,
) -> Result<Option<(Place, Loaded)>, Stop>
    requires { IsHeld (D.held host.now.disk.now) subject.now.place.file.items text.items }
    ensures { IfOk result (λ found. MatchOption found
        (IsLeftOut (D.held host.now.disk.now) (folder_of subject.now.root) (place_in subject.now.place))
        (λ f. IsFollowedUp subject.now.reading (D.held host.now.disk.now) (folder_of subject.now.root)
        subject.now.has_base (place_in subject.now.place) f.1)) }
{
    let ends = ends_of(host.alloc(), subject, &text)?;
    map_of_script(host, how, subject, text, &ends)
}

/// The map that these bytes of a file are, whose script's lines are so wide, if that is known.
fn itself_ended(
    alloc: Global,
    subject: &Subject<'_>,
    bytes: &[u8],
    ends: &Option<Vec<usize>>,
) -> Result<Loaded, AllocError>
    ensures { IfOk result (IsReadTo subject.now.reading subject.now.place.base.items bytes.now
        (widths_in ends.now)) }
{
    let loaded = loaded_from(alloc, bytes, &subject.place.base, subject.reading, true)?;
    Ok(ended(alloc, loaded, ends)?)
}

/// What became of what a file holds for a map: it is ended as the script next to it is; a script is followed
/// to its map, or left out.
fn content_loaded<E: Eprint + AllocGlobal, D: Disk>(
    host: &Host<'_, E, D>,
    how: How,
    subject: &Subject<'_>,
    content: Content,
    ends: &Option<Vec<usize>>,
) -> Result<Option<(Place, Loaded)>, Stop>
    requires held { IsMadeOf IsContent (D.held host.now.disk.now) (place_in subject.now.place) content }
    requires ends { AreEnds (D.held host.now.disk.now) (folder_of subject.now.root)
        (place_in subject.now.place) (widths_in ends.now) }
    ensures { IfOk result (λ found. MatchOption found
        (IsLeftOut (D.held host.now.disk.now) (folder_of subject.now.root) (place_in subject.now.place))
        (λ f. IsReached subject.now.reading (D.held host.now.disk.now) (folder_of subject.now.root)
        subject.now.has_base (place_in subject.now.place) f.1)) }
{
    match content {
        Content::Script(text) => script_loaded(host, how, subject, text),
        Content::Bytes(bytes) => {
            let place = copied(host.alloc(), &subject.place)?;
            let loaded = itself_ended(host.alloc(), subject, &bytes, ends)?;
            Ok(Some((place, loaded)))
        }
        Content::Unread(why) => {
            let place = copied(host.alloc(), &subject.place)?;
            Ok(Some((place, Loaded::Broken(why))))
        }
    }
}

/// The script or the style sheet next to a map that was found in a folder.
pub(crate) fn script_beside<'a>(
    alloc: Global,
    subject: &Subject<'a>,
) -> Result<Option<Subject<'a>>, AllocError>
    ensures { IfOk result (λ found. IfSome found (IsScriptBeside subject.now)) }
{
    let file = subject.place.file.as_slice();
    let script = stem(file);
    if subject.root.is_none() || !is_map(file) || !may_name_map(script) {
        return Ok(None);
    }
    let place = Place {
        script: Vec::from_slice(alloc, &subject.place.script)?,
        file: Vec::from_slice(alloc, script)?,
        base: Vec::from_slice(alloc, &subject.place.base)?,
    };
    Ok(Some(Subject {
        place,
        root: subject.root,
        has_base: subject.has_base,
        reading: subject.reading,
    }))
}

/// What a script of a folder says of its map, whose text this is. What it leaves out isn't told: the map next
/// to it is there.
fn said_by<E: Eprint + AllocGlobal, D: Disk>(
    host: &Host<'_, E, D>,
    skip: bool,
    script: &Subject<'_>,
    text: Vec<u8>,
) -> Result<Beside, Stop>
    requires { IsHeld (D.held host.now.disk.now) script.now.place.file.items text.items }
    ensures named { IfOk result (λ said. IfSome said.named (λ f. IsFollowedUp script.now.reading
        (D.held host.now.disk.now) (folder_of script.now.root) script.now.has_base
        (place_in script.now.place) f.1)) }
    ensures ends { IfOk result (λ said. widths_in said.ends
        ≡ spec.ends_of (folder_of script.now.root) script.now.place.file.items text.items) }
{
    let how = How {
        skip,
        verbose: false,
    };
    let ends = ends_of(host.alloc(), script, &text)?;
    let named = map_of_script(host, how, script, text, &ends)?;
    Ok(Beside { named, ends })
}

/// What the script says that lies next to a map of a folder.
fn said_beside<E: Eprint + AllocGlobal, D: Disk>(
    host: &Host<'_, E, D>,
    how: How,
    subject: &Subject<'_>,
) -> Result<Beside, Stop>
    ensures reached { IfOk result (λ said. IfSome said.named (λ f. IsReached subject.now.reading
        (D.held host.now.disk.now) (folder_of subject.now.root) subject.now.has_base
        (place_in subject.now.place) f.1)) }
    ensures ends { IfOk result (λ said. AreEnds (D.held host.now.disk.now) (folder_of subject.now.root)
        (place_in subject.now.place) (widths_in said.ends)) }
{
    let Some(script) = script_beside(host.alloc(), subject)? else {
        return Ok(Beside {
            named: None,
            ends: None,
        });
    };
    let content = load(host.alloc(), host.disk, &script.place)?;
    match content {
        Content::Script(text) => said_by(host, how.skip, &script, text),
        Content::Bytes(_) | Content::Unread(_) => Ok(Beside {
            named: None,
            ends: None,
        }),
    }
}

/// What became of the map of a place, and where it is; none if the place is a script that is left out. Of a
/// script it is the map that its last comment names; so it is of a map that lies next to its script in a
/// folder, if what the script names can be had. The map of a script of a folder ends where the lines of that
/// do: nothing past these has an original.
///
/// # Errors
///
/// `Stop::Memory` alone.
pub fn loaded_of<E: Eprint + AllocGlobal, D: Disk>(
    host: &Host<'_, E, D>,
    how: How,
    subject: &Subject<'_>,
) -> Result<Option<(Place, Loaded)>, Stop>
    ensures { IfOk result (λ found. MatchOption found
        (IsLeftOut (D.held host.now.disk.now) (folder_of subject.now.root) (place_in subject.now.place))
        (λ f. IsReached subject.now.reading (D.held host.now.disk.now) (folder_of subject.now.root)
        subject.now.has_base (place_in subject.now.place) f.1)) }
{
    let Beside { named, ends } = said_beside(host, how, subject)?;
    if let Some(found) = named {
        return Ok(Some(found));
    }
    let content = load(host.alloc(), host.disk, &subject.place)?;
    content_loaded(host, how, subject, content, &ends)
}

/// The map of a place as [`loaded_of`] has it, or says what is wrong with it.
///
/// # Errors
///
/// `Stop::Memory` alone: that a map is refused is said, and raises `worst` to the status of that.
pub fn open_map_of<E: Eprint + AllocGlobal, D: Disk>(
    host: &Host<'_, E, D>,
    how: How,
    subject: &Subject<'_>,
    worst: &mut u8,
) -> Result<Option<SourceMap>, Stop>
    ensures settled { IfOk result (λ found. MatchOption found
        (GivesNone subject.now.reading (D.held host.now.disk.now) (folder_of subject.now.root)
        subject.now.has_base (place_in subject.now.place) worst.new)
        (IsOpened subject.now.reading (D.held host.now.disk.now) (folder_of subject.now.root)
        subject.now.has_base (place_in subject.now.place))) }
    ensures worst { worst.old ≤ worst.new }
{
    match loaded_of(host, how, subject)? {
        Some((place, loaded)) => map_in(host, &place, loaded, worst),
        None => Ok(None),
    }
}
