//! What is said of names: which map one is taken for, how many maps are opened, and where their sources lead.
ghost use Rattle.std.specs.Prelude.{◌≡◌};
ghost use Rattle.smap_map_finder.specs.ChosenView.{choices_of};

use crate::chosen::Chosen;
use crate::opening::Search;
use smap_chains::Remarks;
use smap_link::bare;
use smap_map_choice::{Found, Pick, Place};
use smap_map_files::say_of;
use smap_system::{Disk, Host, Stop, printable};
use std::alloc::{AllocError, Global};

/// So many names are told to be taken for others at most.
const MOST_TOLD: usize = 1_000;

/// Notes that something is told of a name. Answers whether it wasn't yet, and is to be.
fn is_to_be_told(alloc: Global, name: &[u8], chosen: &mut Chosen) -> Result<bool, AllocError>
    ensures { choices_of chosen.new ≡ choices_of chosen.old }
{
    if chosen.told.len() >= MOST_TOLD {
        return Ok(false);
    }
    let key = Vec::from_slice(alloc, bare(name))?;
    Ok(chosen.told.insert(key, ())?.is_none())
}

fn tell_alike<E: Eprint + AllocGlobal, D: Disk>(
    host: &Host<'_, E, D>,
    place: &Place,
    name: &[u8],
    chosen: &mut Chosen,
) -> Result<(), Stop>
    ensures { choices_of chosen.new ≡ choices_of chosen.old }
{
    let alloc = host.alloc();
    if !is_to_be_told(alloc, name, chosen)? {
        return Ok(());
    }
    let name = printable(alloc, name)?;
    let script = printable(alloc, &place.script)?;
    let file = printable(alloc, &place.file)?;
    let (name, script, file) = (name.as_str(), script.as_str(), file.as_str());
    let text = format!(in alloc; "{name} in the log is taken for {script} ({file})")?;
    host.say(text.as_str());
    Ok(())
}

fn tell_end<E: Eprint + AllocGlobal, D: Disk>(
    host: &Host<'_, E, D>,
    file: &[u8],
    name: &[u8],
    chosen: &mut Chosen,
) -> Result<(), Stop>
    ensures { choices_of chosen.new ≡ choices_of chosen.old }
{
    let alloc = host.alloc();
    if !is_to_be_told(alloc, name, chosen)? {
        return Ok(());
    }
    let (name, file) = (printable(alloc, name)?, printable(alloc, file)?);
    let (name, file) = (name.as_str(), file.as_str());
    let text = format!(in alloc; "{name} in the log takes {file} by its end")?;
    host.say(text.as_str());
    Ok(())
}

fn say_unclear<E: Eprint + AllocGlobal, D: Disk>(
    host: &Host<'_, E, D>,
    name: &[u8],
    first: &[u8],
    second: &[u8],
) -> Result<(), Stop> {
    let alloc = host.alloc();
    let name = printable(alloc, name)?;
    let first = printable(alloc, first)?;
    let second = printable(alloc, second)?;
    let (name, first, second) = (name.as_str(), first.as_str(), second.as_str());
    let text = format!(in alloc;
        "{name} is left as it is: its map may be {first} or {second}; URL=FILE says which"
    )?;
    host.say(text.as_str());
    Ok(())
}

fn say_each<E: Eprint + AllocGlobal, D: Disk>(
    host: &Host<'_, E, D>,
    place: &Place,
    sentences: &[String],
) -> Result<(), Stop> {
    for sentence in sentences {
        let sentence = sentence.as_str();
        let what = format!(in host.alloc(); ": {sentence}")?;
        say_of(host, place, what.as_str())?;
    }
    Ok(())
}

/// Says why maps that the sources of a map lead to aren't followed; and which are, if what is chosen is told.
pub(crate) fn tell_remarks<E: Eprint + AllocGlobal, D: Disk>(
    host: &Host<'_, E, D>,
    is_verbose: bool,
    place: &Place,
    remarks: &Remarks,
) -> Result<(), Stop> {
    if is_verbose {
        say_each(host, place, &remarks.notes)?;
    }
    say_each(host, place, &remarks.faults)
}

impl<E: Eprint + AllocGlobal, D: Disk> Search<'_, E, D> {
    /// Says which script a name was taken for, and that it is unclear which.
    pub(crate) fn tell_pick(&self, pick: &Pick<'_>, chosen: &mut Chosen) -> Result<(), Stop>
        ensures { choices_of chosen.new ≡ choices_of chosen.old }
    {
        let (host, wanted) = (self.host, self.wanted);
        match pick.found {
            Found::Given(i) if self.how.verbose => match wanted.places.get(i) {
                Some(place) if place.script.as_slice() != pick.name => {
                    tell_alike(host, place, pick.name, chosen)
                }
                _ => Ok(()),
            },
            Found::ByEnd(i) if self.how.verbose => match wanted.files.get(i) {
                Some(file) => tell_end(host, file, pick.name, chosen),
                None => Ok(()),
            },
            Found::Unclear(i, j) => match (wanted.files.get(i), wanted.files.get(j)) {
                (Some(first), Some(second)) => {
                    chosen.is_unclear = true;
                    say_unclear(host, pick.name, first, second)
                }
                _ => Ok(()),
            },
            _ => Ok(()),
        }
    }

    /// Says how many maps were opened.
    pub(crate) fn tell_count(&self, chosen: &Chosen) -> Result<(), Stop> {
        if !self.how.verbose {
            return Ok(());
        }
        let (host, wanted) = (self.host, self.wanted);
        let alloc = host.alloc();
        let opened = chosen.opened_count();
        let all = wanted.places.len().saturating_add(wanted.files.len());
        let text = format!(in alloc; "{opened} of {all} maps are opened")?;
        host.say(text.as_str());
        Ok(())
    }
}
