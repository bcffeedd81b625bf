//! Maps between which it isn't clear which one a name has, and which differ only in how they are written.
ghost use Rattle.std.specs.Prelude.{◌≡◌, IfOk, IfSome, None, Ok, Some, true};
ghost use Rattle.smap_map_files.specs.Given.{IsReading};
ghost use Rattle.smap_map_finder.specs.Choice as spec;
ghost use Rattle.smap_map_finder.specs.Choice.{AreAlike, HoldAlike, IsOneMap};
ghost use Rattle.smap_map_finder.specs.Searching.{held_in, wanted_in};
ghost use Rattle.url.specs.Parser.{parse_url};

use crate::giving::MOST_FOR;
use crate::opening::Search;
use crate::picking::opening_name;
use indexmap::IndexMap;
use smap_canon::same;
use smap_map_choice::{Found, Pick, usual_place};
use smap_map_files::Reading;
use smap_record::{Base, BaseFault, Limits, ReadError, SourceMap};
use smap_system::{Disk, Stop};
use std::alloc::{AllocError, Global};

/// Two files, by their numbers.
#[derive(Drop, PartialEq, Eq, Hash)]
pub(crate) struct Pair {
    first: usize,
    second: usize,
}

/// This URL, if it is one.
fn base_of(alloc: Global, url: &[u8]) -> Result<Option<Base>, AllocError>
    ensures { IfOk result (λ found. IfSome found (λ base. parse_url None url.now ≡ Ok base)) }
{
    let Ok(url) = std::str::from_utf8(url) else {
        return Ok(None);
    };
    match Base::new(alloc, url) {
        Ok(base) => Ok(Some(base)),
        Err(BaseFault::NotUrl) => Ok(None),
        Err(BaseFault::Memory) => Err(AllocError),
    }
}

/// The map that these bytes are with this URL of their own, if they have no fault.
fn map_of(
    alloc: Global,
    reading: Reading,
    url: &[u8],
    bytes: &[u8],
) -> Result<Option<SourceMap>, AllocError>
    ensures { IfOk result (λ found. IfSome found (λ m. IsReading reading url.now bytes.now (Ok (Some m)))) }
{
    let Some(base) = base_of(alloc, url)? else {
        return Ok(None);
    };
    let (limits, most) = (Limits::usual(), reading.url_bytes);
    match SourceMap::from_slice_within(alloc, bytes, &base, limits, most) {
        Ok(Some((map, _))) => Ok(Some(map)),
        Ok(None) => Ok(None),
        Err(ReadError::Refused(_)) => Ok(None),
        Err(ReadError::Memory) => Err(AllocError),
    }
}

/// Whether two texts with this URL of their own are maps whose canonical bytes are equal.
fn are_one_map(
    alloc: Global,
    reading: Reading,
    url: &[u8],
    first: &[u8],
    second: &[u8],
) -> Result<bool, AllocError>
    ensures { IfOk result (λ are. are ≡ true → IsOneMap reading url.now first.now second.now) }
{
    let Some(map) = map_of(alloc, reading, url, first)? else {
        return Ok(false);
    };
    let Some(other) = map_of(alloc, reading, url, second)? else {
        return Ok(false);
    };
    Ok(same(&map, &other))
}

/// How often two files were found to be alike.
fn times_in(tried: &IndexMap<Pair, usize>, pair: &Pair) -> usize {
    match tried.get(pair) {
        Some(times) => *times,
        None => 0,
    }
}

impl<E: Eprint + AllocGlobal, D: Disk> Search<'_, E, D> {
    /// Whether two files hold such texts.
    fn hold_alike(&self, url: &[u8], first: &[u8], second: &[u8]) -> Result<bool, Stop>
        ensures { IfOk result (λ are. are ≡ true → HoldAlike (wanted_in self.now).reading
            (held_in D.held self.now) url.now first.now second.now) }
    {
        let Some(bytes) = self.bytes_of(first)? else {
            return Ok(false);
        };
        let Some(others) = self.bytes_of(second)? else {
            return Ok(false);
        };
        let (alloc, reading) = (self.host.alloc(), self.wanted.reading);
        Ok(are_one_map(alloc, reading, url, &bytes, &others)?)
    }

    /// The own URL of the map that this file is, opened for a name.
    fn url_for(&self, name: &[u8], file: usize) -> Result<Vec<u8>, AllocError>
        ensures { IfOk result (λ url. url.items ≡ spec.url_for (wanted_in self.now) name.now file) }
    {
        let alloc = self.host.alloc();
        let pick = Pick {
            name,
            found: Found::ByEnd(file),
        };
        let own = opening_name(alloc, self.wanted, &pick)?;
        let place = usual_place(alloc, &own, b"")?;
        Ok(place.base)
    }

    /// Whether the files with these numbers do, with the URL that the first has for this name.
    fn read_alike(&self, name: &[u8], first: usize, second: usize) -> Result<bool, Stop>
        ensures { IfOk result (λ are. are ≡ true
            → AreAlike (held_in D.held self.now) (wanted_in self.now) name.now first second) }
    {
        let files = &self.wanted.files;
        let (Some(one), Some(other)) = (files.get(first), files.get(second)) else {
            return Ok(false);
        };
        let url = self.url_for(name, first)?;
        self.hold_alike(&url, one, other)
    }

    /// The same. Two files are read for as many names at most as one is opened for, and once they aren't
    /// alike for no other name.
    pub(crate) fn are_alike(
        &self,
        tried: &mut IndexMap<Pair, usize>,
        name: &[u8],
        first: usize,
        second: usize,
    ) -> Result<bool, Stop>
        ensures { IfOk result (λ are. are ≡ true
            → AreAlike (held_in D.held self.now) (wanted_in self.now) name.now first second) }
    {
        let pair = Pair { first, second };
        let times = times_in(tried, &pair);
        if times >= MOST_FOR {
            return Ok(false);
        }
        let are_alike = self.read_alike(name, first, second)?;
        tried.insert(pair, if are_alike { times + 1 } else { MOST_FOR })?;
        Ok(are_alike)
    }
}
