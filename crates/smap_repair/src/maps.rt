//! The maps of a text: the outermost one, and those of sections, at every level that is read.
use crate::places::Place;
use crate::scanning::{document, member, parts, present};
use smap_shape::MAX_LEVEL;
use std::alloc::{AllocError, Global};

/// A map of a text.
#[derive(Drop)]
pub(crate) struct MapText {
    /// The section that it is the map of, by its index at each level; empty for the outermost map.
    pub(crate) section: Vec<usize>,
    /// Where its object begins.
    pub(crate) start: usize,
    /// Where its keys and its values are, in turn.
    pub(crate) members: Vec<Place>,
}

impl MapText {
    fn new(
        alloc: Global,
        text: &[u8],
        section: Vec<usize>,
        place: Place,
    ) -> Result<MapText, AllocError> {
        Ok(MapText {
            section,
            start: place.start,
            members: parts(alloc, text, place)?,
        })
    }

    /// Where the value of a member is, also if it is null.
    pub(crate) fn value(
        &self,
        alloc: Global,
        text: &[u8],
        key: &str,
    ) -> Result<Option<Place>, AllocError> {
        member(alloc, text, &self.members, key)
    }

    /// Where the value of a member is, if it is present and not null.
    pub(crate) fn member(
        &self,
        alloc: Global,
        text: &[u8],
        key: &str,
    ) -> Result<Option<Place>, AllocError> {
        Ok(present(text, self.value(alloc, text, key)?))
    }

    /// The map of its section with this index, which is at this place; none if it has none.
    fn map_of(
        &self,
        alloc: Global,
        text: &[u8],
        k: usize,
        section: Place,
    ) -> Result<Option<MapText>, AllocError> {
        let members = parts(alloc, text, section)?;
        let Some(map) = present(text, member(alloc, text, &members, "map")?) else {
            return Ok(None);
        };
        let mut path = Vec::from_slice(alloc, &self.section)?;
        if path.push(k).is_err() {
            return Err(AllocError);
        }
        Ok(Some(MapText::new(alloc, text, path, map)?))
    }

    /// The maps of its sections; none for a flat map.
    fn inner(&self, alloc: Global, text: &[u8]) -> Result<Vec<MapText>, AllocError> {
        let mut maps = Vec::new(alloc);
        let Some(sections) = self.member(alloc, text, "sections")? else {
            return Ok(maps);
        };
        let sections = parts(alloc, text, sections)?;
        for k in 0..sections.len() {
            if let Some(map) = self.map_of(alloc, text, k, sections[k])?
                && maps.push(map).is_err()
            {
                return Err(AllocError);
            }
        }
        Ok(maps)
    }
}

/// The maps of the sections of these maps.
fn next_level(alloc: Global, text: &[u8], maps: &[MapText]) -> Result<Vec<MapText>, AllocError> {
    let mut next = Vec::new(alloc);
    for map in maps {
        let mut inner = map.inner(alloc, text)?;
        next.append(&mut inner)?;
    }
    Ok(next)
}

/// The maps of a text, level by level.
pub(crate) fn maps_of(alloc: Global, text: &[u8]) -> Result<Vec<MapText>, AllocError> {
    let outermost = MapText::new(alloc, text, Vec::new(alloc), document(text))?;
    let mut maps = Vec::new(alloc);
    let mut level = Vec::new(alloc);
    if level.push(outermost).is_err() {
        return Err(AllocError);
    }
    for _ in 0..MAX_LEVEL {
        let next = next_level(alloc, text, &level)?;
        maps.append(&mut level)?;
        level = next;
    }
    maps.append(&mut level)?;
    Ok(maps)
}
