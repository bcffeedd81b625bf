//! What is to be repaired of a text: first what keeps it from being JSON, then what its maps have.
use crate::listed::{EMPTY_MAPPINGS, is_odd_three};
use crate::lone::lone_halves;
use crate::maps::{MapText, maps_of};
use crate::mending::Edit;
use crate::places::Place;
use crate::repair::Change;
use crate::scanning::parts;
use crate::source_repairs::add_sources;
use smap_record::{Base, Path};
use std::alloc::{AllocError, Global};
use url::{ParseError, Url};

/// How many repairs are made of a text before it is JSON, and how many after. A text that needs more stays
/// refused.
const MOST_REPAIRS: usize = 65_536;

/// What is to be repaired of a text, as far as that was looked for.
#[derive(Drop)]
pub(crate) struct Findings<'t> {
    pub(crate) alloc: Global,
    pub(crate) text: &'t [u8],
    edits: Vec<Edit>,
}

impl<'t> Findings<'t> {
    fn new(alloc: Global, text: &'t [u8]) -> Findings<'t> {
        Findings {
            alloc,
            text,
            edits: Vec::new(alloc),
        }
    }

    /// Adds the repair by which what is at this place becomes another text, unless there are too many.
    pub(crate) fn add(
        &mut self,
        section: &[usize],
        change: Change,
        place: Place,
        after: &str,
    ) -> Result<(), AllocError> {
        if self.edits.len() >= MOST_REPAIRS {
            return Ok(());
        }
        let Some(section) = Path::new(section) else {
            return Ok(());
        };
        let Some(before) = place.copied(self.alloc, self.text)? else {
            return Ok(());
        };
        let after = String::from_str(self.alloc, after)?;
        let edit = Edit {
            start: place.start,
            change,
            section,
            before,
            after,
        };
        match self.edits.push(edit) {
            Ok(()) => Ok(()),
            Err(_) => Err(AllocError),
        }
    }

    fn add_version(&mut self, map: &MapText) -> Result<(), AllocError> {
        match map.member(self.alloc, self.text, "version")? {
            Some(version) if is_odd_three(version.bytes(self.text)) => {
                self.add(&map.section, Change::Version, version, "3")
            }
            _ => Ok(()),
        }
    }

    /// Whether a map lists nothing under this key.
    fn is_empty(&self, map: &MapText, key: &str) -> Result<bool, AllocError> {
        let Some(list) = map.member(self.alloc, self.text, key)? else {
            return Ok(true);
        };
        Ok(
            list.bytes(self.text).starts_with(b"[")
                && parts(self.alloc, self.text, list)?.is_empty(),
        )
    }

    /// Adds empty mappings to a flat map that has none, if it lists no sources and no names.
    fn add_mappings(&mut self, map: &MapText) -> Result<(), AllocError> {
        let value = map.value(self.alloc, self.text, "mappings")?;
        if map.member(self.alloc, self.text, "mappings")?.is_some()
            || map.members.is_empty()
            || !self.is_empty(map, "sources")?
            || !self.is_empty(map, "names")?
        {
            return Ok(());
        }
        let start = map.start.saturating_add(1);
        let (place, after) = match value {
            Some(null) => (null, "\"\""),
            None => (Place { start, end: start }, EMPTY_MAPPINGS),
        };
        self.add(&map.section, Change::Mappings, place, after)
    }

    /// Takes empty mappings out of an index map.
    fn add_mappings_beside(&mut self, map: &MapText) -> Result<(), AllocError> {
        match map.member(self.alloc, self.text, "mappings")? {
            Some(mappings) if mappings.bytes(self.text) == b"\"\"".as_slice() => {
                self.add(&map.section, Change::MappingsBeside, mappings, "null")
            }
            _ => Ok(()),
        }
    }

    fn add_map(&mut self, base: &Url, map: &MapText) -> Result<(), AllocError> {
        self.add_version(map)?;
        if map.member(self.alloc, self.text, "sections")?.is_some() {
            return self.add_mappings_beside(map);
        }
        self.add_mappings(map)?;
        add_sources(self, base, map)
    }
}

/// Escapes of half a surrogate pair, which keep a text from being JSON.
pub(crate) fn edits_of_halves(alloc: Global, text: &[u8]) -> Result<Vec<Edit>, AllocError> {
    let mut findings = Findings::new(alloc, text);
    for start in lone_halves(alloc, text)? {
        let place = Place {
            start,
            end: start.saturating_add(6),
        };
        findings.add(&[], Change::HalfSurrogate, place, "\\ufffd")?;
    }
    Ok(findings.edits)
}

/// The base as a URL.
fn url_of(alloc: Global, base: &Base) -> Result<Option<Url>, AllocError> {
    match Url::parse(alloc, base.text()) {
        Ok(url) => Ok(Some(url)),
        Err(ParseError::OutOfMemory | ParseError::Overflow) => Err(AllocError),
        Err(_) => Ok(None),
    }
}

/// What the maps of a text have to be repaired, in the order of its places.
pub(crate) fn edits_of_maps(
    alloc: Global,
    text: &[u8],
    base: &Base,
) -> Result<Vec<Edit>, AllocError> {
    let Some(base) = url_of(alloc, base)? else {
        return Ok(Vec::new(alloc));
    };
    let mut findings = Findings::new(alloc, text);
    for map in maps_of(alloc, text)? {
        findings.add_map(&base, &map)?;
    }
    let mut edits = findings.edits;
    edits.sort_by_key(|edit| edit.start)?;
    Ok(edits)
}
