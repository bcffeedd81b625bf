//! Where in the text of a map its lists of sources and contents are. What is found is read back before it is
//! used, so nothing is promised of it.
use crate::spans::Span;
use json::{MAX_DEPTH, Reader, Scratch, Token};
use smap_shape::{MAX_LEVEL, json_start};
use std::alloc::{AllocError, AllocFailed, Global};

/// Why a list isn't found.
#[derive(Clone, Copy, PartialEq, Eq)]
pub(crate) enum PlaceFault {
    /// An object has a member twice.
    Twice,
    /// It isn't where it would have to be.
    Unclear,
    /// Out of memory.
    Memory,
}

impl From<AllocError> for PlaceFault {
    fn from(_error: AllocError) -> PlaceFault {
        PlaceFault::Memory
    }
}

impl<T: Drop> From<AllocFailed<T>> for PlaceFault {
    fn from(_error: AllocFailed<T>) -> PlaceFault {
        PlaceFault::Memory
    }
}

#[derive(Clone, Copy, PartialEq, Eq)]
enum Name {
    Sources,
    Contents,
    Sections,
    Map,
}

/// A member of an object.
#[derive(Clone, Copy)]
struct Member {
    name: Name,
    value: Span,
    /// What goes if the member goes: a comma, too.
    whole: Span,
}

/// The members of an object that are looked for.
#[derive(Drop)]
struct Members {
    found: Vec<Member>,
}

/// A list in the text of a map.
#[derive(Drop)]
pub(crate) struct List {
    /// With its brackets; or null.
    pub(crate) value: Span,
    /// What goes if the member goes.
    pub(crate) whole: Span,
    pub(crate) entries: Vec<Span>,
}

/// The lists of a map without sections.
#[derive(Drop)]
pub(crate) struct Lists {
    pub(crate) sources: Option<List>,
    pub(crate) contents: Option<List>,
}

fn name_of(key: &str) -> Option<Name> {
    match key {
        "sources" => Some(Name::Sources),
        "sourcesContent" => Some(Name::Contents),
        "sections" => Some(Name::Sections),
        "map" => Some(Name::Map),
        _ => None,
    }
}

fn is_space(byte: u8) -> bool {
    byte == b' ' || byte == b'\t' || byte == b'\n' || byte == b'\r'
}

/// A text without the white space at its end.
fn trimmed(text: &[u8]) -> &[u8] {
    let size = text.iter().rev().take_while(|b| is_space(**b)).count();
    match text.get(..text.len().saturating_sub(size)) {
        Some(front) => front,
        None => text,
    }
}

/// Where a value ends that is followed by at most a comma before this place.
fn end_before(text: &[u8], next: usize) -> usize {
    let front = trimmed(Span {
        start: 0,
        end: next,
    }
    .of(text));
    match front.strip_suffix(b",") {
        Some(front) => trimmed(front).len(),
        None => front.len(),
    }
}

impl Members {
    fn get(&self, name: Name) -> Option<Member> {
        let found = &self.found;
        for i in 0..found.len() {
            if found[i].name == name {
                return Some(found[i]);
            }
        }
        None
    }
}

/// The range from a member's name, before which a value ends, to the next member's: what goes with it.
fn whole_of(text: &[u8], before: usize, start: usize, end: usize, next: usize) -> Span {
    match text.get(next) {
        Some(b'"') => Span { start, end: next },
        _ => Span { start: before, end },
    }
}

/// The members of the object in a range of a text.
fn members_of(alloc: Global, text: &[u8], object: Span) -> Result<Members, PlaceFault> {
    let bytes = object.of(text);
    let Ok(object_text) = std::str::from_utf8(bytes) else {
        return Err(PlaceFault::Unclear);
    };
    let mut scratch = Scratch::new(alloc);
    let mut reader = Reader::new(object_text, &mut scratch)?;
    let Some(Token::BeginObject) = reader.next() else {
        return Err(PlaceFault::Unclear);
    };
    let mut members = Members {
        found: Vec::new(alloc),
    };
    let mut before = reader.offset();
    let mut start = before;
    'members: while let Ok(Some(key)) = reader.next_key() {
        let name = name_of(key);
        let value_start = reader.offset();
        if reader.skip_value(MAX_DEPTH).is_err() {
            return Err(PlaceFault::Unclear);
        }
        let next = reader.offset();
        let end = end_before(bytes, next);
        if let Some(name) = name {
            if members.get(name).is_some() {
                return Err(PlaceFault::Twice);
            }
            let value = Span {
                start: value_start,
                end,
            };
            let whole = whole_of(bytes, before, start, end, next);
            members.found.push(Member {
                name,
                value: value.shifted(object.start),
                whole: whole.shifted(object.start),
            })?;
        }
        before = end;
        start = next;
    }
    Ok(members)
}

/// The entries of the array in a range of a text; none of a null.
fn entries_of(alloc: Global, text: &[u8], array: Span) -> Result<Vec<Span>, PlaceFault> {
    let bytes = array.of(text);
    let Ok(array_text) = std::str::from_utf8(bytes) else {
        return Err(PlaceFault::Unclear);
    };
    let mut entries = Vec::new(alloc);
    let mut scratch = Scratch::new(alloc);
    let mut reader = Reader::new(array_text, &mut scratch)?;
    match reader.next() {
        Some(Token::BeginArray) => {}
        Some(Token::Null) => return Ok(entries),
        _ => return Err(PlaceFault::Unclear),
    }
    'entries: while !reader.take_end_array() {
        let start = reader.offset();
        if reader.skip_value(MAX_DEPTH).is_err() {
            return Err(PlaceFault::Unclear);
        }
        let end = end_before(bytes, reader.offset());
        entries.push(Span { start, end }.shifted(array.start))?;
    }
    Ok(entries)
}

/// Adds the map of a section.
fn add_map_of(
    alloc: Global,
    text: &[u8],
    section: Span,
    maps: &mut Vec<Span>,
) -> Result<(), PlaceFault> {
    match members_of(alloc, text, section)?.get(Name::Map) {
        Some(map) => {
            maps.push(map.value)?;
            Ok(())
        }
        None => Err(PlaceFault::Unclear),
    }
}

/// Adds the maps of the sections that a map has, or else the map, and says whether it has sections.
fn add_maps_of(
    alloc: Global,
    text: &[u8],
    map: Span,
    maps: &mut Vec<Span>,
) -> Result<bool, PlaceFault> {
    let members = members_of(alloc, text, map)?;
    let sections = match members.get(Name::Sections) {
        Some(sections) if sections.value.of(text).starts_with(b"[") => sections,
        _ => {
            maps.push(map)?;
            return Ok(false);
        }
    };
    if members.get(Name::Sources).is_some() || members.get(Name::Contents).is_some() {
        return Err(PlaceFault::Unclear);
    }
    let sections = entries_of(alloc, text, sections.value)?;
    for i in 0..sections.len() {
        add_map_of(alloc, text, sections[i], maps)?;
    }
    Ok(true)
}

/// The maps of these maps' sections, and those without sections; none if no map has sections.
fn opened(alloc: Global, text: &[u8], maps: &[Span]) -> Result<Option<Vec<Span>>, PlaceFault> {
    let mut inner = Vec::new(alloc);
    let mut some = false;
    for i in 0..maps.len() {
        if add_maps_of(alloc, text, maps[i], &mut inner)? {
            some = true;
        }
    }
    if some { Ok(Some(inner)) } else { Ok(None) }
}

/// The maps without sections that are in a map, in their order.
fn flat_maps(alloc: Global, text: &[u8]) -> Result<Vec<Span>, PlaceFault> {
    let Some(start) = json_start(text) else {
        return Err(PlaceFault::Unclear);
    };
    let mut maps = Vec::new(alloc);
    maps.push(Span {
        start,
        end: text.len(),
    })?;
    for _ in 0..=MAX_LEVEL {
        match opened(alloc, text, &maps)? {
            Some(inner) => maps = inner,
            None => return Ok(maps),
        }
    }
    Err(PlaceFault::Unclear)
}

fn list_of(
    alloc: Global,
    text: &[u8],
    members: &Members,
    name: Name,
) -> Result<Option<List>, PlaceFault> {
    let Some(Member { value, whole, .. }) = members.get(name) else {
        return Ok(None);
    };
    let entries = entries_of(alloc, text, value)?;
    Ok(Some(List {
        value,
        whole,
        entries,
    }))
}

fn lists_in(alloc: Global, text: &[u8], map: Span) -> Result<Lists, PlaceFault> {
    let members = members_of(alloc, text, map)?;
    let sources = list_of(alloc, text, &members, Name::Sources)?;
    let contents = list_of(alloc, text, &members, Name::Contents)?;
    Ok(Lists { sources, contents })
}

/// The lists of a map, or of each map in its sections, in their order.
pub(crate) fn lists_of(alloc: Global, text: &[u8]) -> Result<Vec<Lists>, PlaceFault> {
    let maps = flat_maps(alloc, text)?;
    let mut all = Vec::with_capacity(alloc, maps.len())?;
    for i in 0..maps.len() {
        all.push(lists_in(alloc, text, maps[i])?)?;
    }
    Ok(all)
}
