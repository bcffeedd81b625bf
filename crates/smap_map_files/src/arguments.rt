//! From the arguments to what they name, as the file system has it.
ghost use Rattle.std.specs.Prelude.{◌≡◌, IfOk, MatchOption, OnOk, option_map, true};
ghost use Rattle.smap_map_choice.specs.PlaceView.{place_in};
ghost use Rattle.smap_map_files.specs.Lists as spec;
ghost use Rattle.smap_map_files.specs.Lists.{lists_of, no_lists, with_map, with_log};
ghost use Rattle.smap_map_files.specs.Naming.{IsNotThere, IsReadable, IsWayFound};
ghost use Rattle.smap_map_files.specs.Naming.{Names, NamesAll, NamesFile, NamesPath, NamesPlace};
ghost use Rattle.smap_map_files.specs.Naming.{NamesPosition, NamesWay};
ghost use Rattle.smap_map_files.specs.Positions.{is_position as is_position_by};

use crate::folders::{add_folder, add_folder_alone, add_map_alone, is_map, push_script};
use crate::positions::is_position;
use crate::wanted::{Origin, Wanted};
use smap_command_line::trace::{
    Argument, Kind, Split, needs_url, path_message, place_message, split_message,
};
use smap_map_choice::{Place, usual_place};
use smap_system::{Disk, Host, Kind as OnDisk, Stop};
use std::alloc::{AllocError, Global};

/// What is there under the name of a file, if a map can be read from it or it is a folder. A pipe is let be:
/// opening it might wait.
fn kind_of<E: Eprint + AllocGlobal, D: Disk>(host: &Host<'_, E, D>, name: &str) -> Option<Kind>
    ensures { MatchOption result (IsNotThere (D.tree host.now.disk.now) (D.held host.now.disk.now) name.now)
        (λ kind. IsReadable (D.tree host.now.disk.now) (D.held host.now.disk.now) kind name.now) }
{
    match host.disk.kind(name) {
        OnDisk::Folder => Some(Kind::Folder),
        OnDisk::Special => Some(Kind::File),
        OnDisk::File => match host.disk.open(name) {
            Ok(_) => Some(Kind::File),
            Err(_) => None,
        },
        OnDisk::Missing => None,
    }
}

/// The map of a script, with this URL of its own or the usual one.
fn place_with(alloc: Global, url: &str, file: &str, base: Option<&str>) -> Result<Place, AllocError>
    ensures { IfOk result (λ place. place_in place
        ≡ spec.place_with url.now file.now (option_map (λ b. b.now) base.entry)) }
{
    let Some(base) = base else {
        return usual_place(alloc, url.as_bytes(), file.as_bytes());
    };
    Ok(Place {
        script: Vec::from_slice(alloc, url.as_bytes())?,
        file: Vec::from_slice(alloc, file.as_bytes())?,
        base: Vec::from_slice(alloc, base.as_bytes())?,
    })
}

/// Adds the map of a script.
fn add_map(
    alloc: Global,
    url: &str,
    file: &str,
    base: Option<&str>,
    wanted: &mut Wanted<'_>,
) -> Result<(), AllocError>
    ensures { OnOk result (lists_of wanted.new
        ≡ with_map url.now file.now (option_map (λ b. b.now) base.entry) (lists_of wanted.old)) }
{
    let place = place_with(alloc, url, file, base)?;
    wanted.places.push(place)?;
    wanted.origins.push(Origin::Alone {
        has_base: base.is_some(),
    })?;
    let script = Vec::from_slice(alloc, url.as_bytes())?;
    push_script(script, wanted)?;
    Ok(())
}

/// Adds what an argument names that is read in this way.
fn add_split<E: Eprint + AllocGlobal, D: Disk>(
    host: &Host<'_, E, D>,
    split: &Split<'_>,
    kind: Kind,
    wanted: &mut Wanted<'_>,
) -> Result<(), Stop>
    ensures { OnOk result (NamesWay (D.tree host.now.disk.now) kind split.now.word.now split.now.url_end
        split.now.file_end (lists_of wanted.old) (lists_of wanted.new)) }
{
    let alloc = host.alloc();
    if let Some(fault) = split.fault(kind) {
        let text = split_message(alloc, split, fault)?;
        return Err(host.fail(2, text.as_str()));
    }
    match kind {
        Kind::Folder => add_folder(host, split.url(), split.file(), wanted),
        Kind::File => {
            add_map(alloc, split.url(), split.file(), split.base(), wanted)?;
            Ok(())
        }
    }
}

/// Of all ways to read an argument the first whose file or folder is there.
fn way_of<'a, E: Eprint + AllocGlobal, D: Disk>(
    host: &Host<'_, E, D>,
    word: &'a str,
) -> Result<Option<(Split<'a>, Kind)>, Stop>
    ensures { IfOk result (IsWayFound (D.tree host.now.disk.now) (D.held host.now.disk.now) word.now) }
{
    let mut split = Split::first(word);
    for _ in 0..u64::MAX {
        let Some(way) = split else {
            return Ok(None);
        };
        if let Some(kind) = kind_of(host, way.file()) {
            return Ok(Some((way, kind)));
        }
        split = way.following();
    }
    Err(host.fail(2, "an argument is too long"))
}

/// Adds a position.
fn add_position<'a>(word: &'a str, wanted: &mut Wanted<'a>) -> Result<(), AllocError>
    requires { is_position_by word.now ≡ true }
    ensures { OnOk result (NamesPosition word.now (lists_of wanted.old) (lists_of wanted.new)) }
{
    wanted.positions.words.push(word)?;
    Ok(())
}

/// Adds what `URL=FILE[=BASE]` or `URL/=FOLDER/` names: of all ways to read it the first whose file is there;
/// or a position, if none is.
fn add_place<'a, E: Eprint + AllocGlobal, D: Disk>(
    host: &Host<'_, E, D>,
    word: &'a str,
    wanted: &mut Wanted<'a>,
) -> Result<(), Stop>
    ensures { OnOk result (NamesPlace (D.tree host.now.disk.now) (D.held host.now.disk.now) word.now
        (lists_of wanted.old) (lists_of wanted.new)) }
{
    match way_of(host, word)? {
        Some((way, kind)) => add_split(host, &way, kind, wanted),
        None if is_position(word) => {
            add_position(word, wanted)?;
            Ok(())
        }
        None => {
            let text = place_message(host.alloc(), word)?;
            Err(host.fail(2, text.as_str()))
        }
    }
}

fn push_log<'a>(word: &'a str, wanted: &mut Wanted<'a>) -> Result<(), AllocError>
    ensures { OnOk result (lists_of wanted.new ≡ with_log word.now (lists_of wanted.old)) }
{
    wanted.logs.push(word)?;
    Ok(())
}

/// Adds a map or a log, by the name of its file.
fn add_file<'a, E: Eprint + AllocGlobal, D: Disk>(
    host: &Host<'_, E, D>,
    word: &'a str,
    wanted: &mut Wanted<'a>,
) -> Result<(), Stop>
    ensures { OnOk result (NamesFile word.now (lists_of wanted.old) (lists_of wanted.new)) }
{
    if is_map(word.as_bytes()) {
        add_map_alone(host.alloc(), word, wanted)?;
        return Ok(());
    }
    if needs_url(word) {
        let text = path_message(host.alloc(), word)?;
        return Err(host.fail(2, text.as_str()));
    }
    push_log(word, wanted)?;
    Ok(())
}

/// Adds a folder, a map, a log or a position.
fn add_path<'a, E: Eprint + AllocGlobal, D: Disk>(
    host: &Host<'_, E, D>,
    word: &'a str,
    wanted: &mut Wanted<'a>,
) -> Result<(), Stop>
    ensures { OnOk result (NamesPath (D.tree host.now.disk.now) word.now (lists_of wanted.old)
        (lists_of wanted.new)) }
{
    match host.disk.kind(word) {
        OnDisk::Folder => add_folder_alone(host, word, wanted),
        OnDisk::File | OnDisk::Special => add_file(host, word, wanted),
        OnDisk::Missing if is_position(word) => {
            add_position(word, wanted)?;
            Ok(())
        }
        OnDisk::Missing => {
            let text = path_message(host.alloc(), word)?;
            Err(host.fail(2, text.as_str()))
        }
    }
}

/// Adds what an argument names.
fn add_argument<'a, E: Eprint + AllocGlobal, D: Disk>(
    host: &Host<'_, E, D>,
    argument: Argument<'a>,
    wanted: &mut Wanted<'a>,
) -> Result<(), Stop>
    ensures { OnOk result (Names (D.tree host.now.disk.now) (D.held host.now.disk.now) argument.entry
        (lists_of wanted.old) (lists_of wanted.new)) }
{
    match argument {
        Argument::Place(word) => add_place(host, word, wanted),
        Argument::Path(word) => add_path(host, word, wanted),
    }
}

/// What the arguments name.
pub fn wanted_by<'a, E: Eprint + AllocGlobal, D: Disk>(
    host: &Host<'_, E, D>,
    arguments: &[Argument<'a>],
) -> Result<Wanted<'a>, Stop>
    ensures { IfOk result (λ wanted. NamesAll (D.tree host.now.disk.now) (D.held host.now.disk.now)
        arguments.now no_lists (lists_of wanted)) }
{
    let mut wanted = Wanted::new(host.alloc());
    for i in 0..arguments.len() {
        add_argument(host, arguments[i], &mut wanted)?;
    }
    Ok(wanted)
}
