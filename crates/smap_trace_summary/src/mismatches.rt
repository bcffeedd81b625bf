//! Maps that seem to be of other scripts than those that take them: said at the end of a run.
use crate::frames::Counted;
use indexmap::IndexMap;
use memchr::memmem;
use smap_link::{FileKind, file_kind, normal_form};
use smap_lint_rules::{debug_id, file_agrees, members_of, same_id};
use smap_map_finder::Finder;
use smap_mappings::{Token, is_within, script_widths};
use smap_record::{ReadError, SourceMap, map_tree};
use smap_system::{Disk, FileFault, Host, Kind, LIMIT, Stop, printable, read_file};
use std::alloc::{AllocError, Global};

/// So many maps are named at most.
const MOST_SAID: usize = 5;

/// A file that gave a map, and scripts of the log that take it.
#[derive(Clone, Copy)]
pub struct Taken<'f, 's> {
    pub file: &'f [u8],
    pub script: &'s [u8],
    /// One of another origin.
    pub other: Option<&'s [u8]>,
}

/// The scheme and the host of a URL; other names have none.
fn origin<'a>(name: &'a [u8]) -> Option<&'a [u8]> {
    let colon = memmem::find(name, b"://")?;
    let host = colon.checked_add(3)?;
    let rest = name.get(host..)?;
    let size = rest
        .iter()
        .position(|b| *b == b'/' || *b == b'?' || *b == b'#')
        .unwrap_or(rest.len());
    name.get(..host.checked_add(size)?)
}

/// What follows the scheme and the host of a URL; of other names all.
pub fn path_of<'a>(name: &'a [u8]) -> &'a [u8] {
    match origin(name) {
        Some(origin) => name.get(origin.len()..).unwrap_or(name),
        None => name,
    }
}

/// Whether two names have different origins, however these are spelled.
fn are_of_two(alloc: Global, a: &[u8], b: &[u8]) -> Result<bool, AllocError> {
    let (a, b) = (normal_form(alloc, a)?, normal_form(alloc, b)?);
    match (origin(&a), origin(&b)) {
        (Some(a), Some(b)) => Ok(a != b),
        _ => Ok(false),
    }
}

/// Notes that a script takes the map of a file.
fn note<'f, 's>(
    alloc: Global,
    all: &mut IndexMap<&'f [u8], Taken<'f, 's>>,
    file: &'f [u8],
    script: &'s [u8],
) -> Result<(), AllocError> {
    let Some(number) = all.get_index_of(file) else {
        let taken = Taken {
            file,
            script,
            other: None,
        };
        all.insert(file, taken)?;
        return Ok(());
    };
    let taken = &mut all[number];
    if taken.other.is_none() && are_of_two(alloc, taken.script, script)? {
        taken.other = Some(script);
    }
    Ok(())
}

/// The files that scripts take, each once, with the first of these.
pub fn taken_of<'f, 's>(
    alloc: Global,
    scripts: &[&'s [u8]],
    files: &[Option<&'f [u8]>],
) -> Result<IndexMap<&'f [u8], Taken<'f, 's>>, AllocError> {
    let mut all = IndexMap::new(alloc);
    for (script, file) in scripts.iter().zip(files.iter()) {
        if let Some(file) = *file {
            note(alloc, &mut all, file, *script)?;
        }
    }
    Ok(all)
}

/// The file of the script whose map a file is or names, if it is there.
fn script_file<'a, D: Disk>(disk: &D, file: &'a [u8]) -> Option<&'a str> {
    let script = match file_kind(file) {
        FileKind::Map => file.strip_suffix(b".map".as_slice())?,
        FileKind::Script | FileKind::StyleSheet => file,
        FileKind::Other => return None,
    };
    match std::str::from_utf8(script) {
        Ok(script) if disk.kind(script) == Kind::File => Some(script),
        _ => None,
    }
}

/// A script whose positions can be counted.
#[derive(Drop)]
struct Script {
    text: Vec<u8>,
    /// How wide its lines are.
    widths: Vec<usize>,
}

/// The script in a file, if its positions can be counted.
fn script_in<D: Disk>(alloc: Global, disk: &D, file: &str) -> Result<Option<Script>, AllocError> {
    let text = match read_file(alloc, disk, file, LIMIT) {
        Ok(text) => text,
        Err(FileFault::Read(_) | FileFault::TooLong) => return Ok(None),
        Err(FileFault::Memory) => return Err(AllocError),
    };
    match script_widths(alloc, &text)? {
        Some(widths) => Ok(Some(Script { text, widths })),
        None => Ok(None),
    }
}

/// Whether a mapping is the end of its line behind this one: the maps of folders have such ends.
fn is_end(widths: &[usize], token: Token, before: Option<Token>) -> bool {
    let (Some(before), Some(width)) = (before, widths.get(token.line as usize)) else {
        return false;
    };
    token.original.is_none()
        && token.column as usize == (*width).saturating_add(1)
        && before.line == token.line
        && before.column as usize <= *width
}

/// The first mapping past the end of a script whose lines are so wide, or of one of its lines.
fn first_past_end(map: &SourceMap, widths: &[usize]) -> Option<Token> {
    let mut before = None;
    for i in 0..map.token_count() {
        let token = map.listed_token(i);
        if !is_within(widths, token.line, token.column) && !is_end(widths, token, before) {
            return Some(token);
        }
        before = Some(token);
    }
    None
}

/// How a map goes on past the end of its script, in words.
fn past_end_text(
    alloc: Global,
    map: &SourceMap,
    widths: &[usize],
) -> Result<Option<String>, AllocError> {
    let Some(first) = first_past_end(map, widths) else {
        return Ok(None);
    };
    let (line, column) = (u64::from(first.line) + 1, u64::from(first.column) + 1);
    let text = format!(in alloc;
        "has mappings past its end, from line {line}, column {column} on: of another build?"
    )?;
    Ok(Some(text))
}

/// Which script a map says it belongs to, if that is another one, in words.
fn other_file_text(
    alloc: Global,
    map: &SourceMap,
    taken: &Taken<'_, '_>,
    script: &str,
) -> Result<Option<String>, AllocError> {
    let Some(file) = map.file() else {
        return Ok(None);
    };
    if file_kind(taken.file) != FileKind::Map
        || file_agrees(file.as_bytes(), script.as_bytes())
        || file_agrees(file.as_bytes(), taken.script)
    {
        return Ok(None);
    }
    let file = printable(alloc, file.as_bytes())?;
    let file = file.as_str();
    let text = format!(in alloc; "says that it is of {file}: of another script?")?;
    Ok(Some(text))
}

/// The debug id of the map that a file holds.
fn id_of_map<D: Disk>(alloc: Global, disk: &D, file: &[u8]) -> Result<Option<String>, AllocError> {
    let (FileKind::Map, Ok(path)) = (file_kind(file), std::str::from_utf8(file)) else {
        return Ok(None);
    };
    let bytes = match read_file(alloc, disk, path, LIMIT) {
        Ok(bytes) => bytes,
        Err(FileFault::Read(_) | FileFault::TooLong) => return Ok(None),
        Err(FileFault::Memory) => return Err(AllocError),
    };
    match map_tree(alloc, &bytes) {
        Ok(tree) => Ok(members_of(alloc, &tree)?.debug_id),
        Err(ReadError::Refused(_)) => Ok(None),
        Err(ReadError::Memory) => Err(AllocError),
    }
}

/// How the debug ids of a script and of its map differ, in words.
fn other_id_text<D: Disk>(
    alloc: Global,
    disk: &D,
    file: &[u8],
    text: &[u8],
) -> Result<Option<String>, AllocError> {
    let Some(id) = debug_id(text) else {
        return Ok(None);
    };
    let Some(of_map) = id_of_map(alloc, disk, file)? else {
        return Ok(None);
    };
    if same_id(id, of_map.as_bytes()) {
        return Ok(None);
    }
    let (id, of_map) = (printable(alloc, id)?, printable(alloc, of_map.as_bytes())?);
    let (id, of_map) = (id.as_str(), of_map.as_str());
    let text = format!(in alloc; "has the debug id {of_map}, the script {id}: of another build?")?;
    Ok(Some(text))
}

/// What is strange about the map of the script in this file, in words.
fn strange_part<D: Disk>(
    alloc: Global,
    disk: &D,
    map: &SourceMap,
    taken: &Taken<'_, '_>,
    file: &str,
    script: &Script,
) -> Result<Option<String>, AllocError> {
    if let Some(what) = past_end_text(alloc, map, &script.widths)? {
        return Ok(Some(what));
    }
    if let Some(what) = other_id_text(alloc, disk, taken.file, &script.text)? {
        return Ok(Some(what));
    }
    other_file_text(alloc, map, taken, file)
}

/// What is strange about a map of a script whose file is there, in words.
fn strange_text<D: Disk>(
    alloc: Global,
    disk: &D,
    map: &SourceMap,
    taken: &Taken<'_, '_>,
) -> Result<Option<String>, AllocError> {
    let Some(file) = script_file(disk, taken.file) else {
        return Ok(None);
    };
    let Some(script) = script_in(alloc, disk, file)? else {
        return Ok(None);
    };
    let Some(what) = strange_part(alloc, disk, map, taken, file, &script)? else {
        return Ok(None);
    };
    let file = printable(alloc, file.as_bytes())?;
    let (file, what) = (file.as_str(), what.as_str());
    let text = format!(in alloc; "the map of {file} {what}")?;
    Ok(Some(text))
}

/// Says that scripts of two origins take one map.
fn say_origins<E: Eprint + AllocGlobal, D: Disk>(
    host: &Host<'_, E, D>,
    taken: &Taken<'_, '_>,
) -> Result<bool, AllocError> {
    let Some(other) = taken.other else {
        return Ok(false);
    };
    let alloc = host.alloc();
    let file = printable(alloc, taken.file)?;
    let one = printable(alloc, taken.script)?;
    let other = printable(alloc, other)?;
    let (file, one, other) = (file.as_str(), one.as_str(), other.as_str());
    let text = format!(in alloc; "{file} is used for {one} and for {other}")?;
    host.say(text.as_str());
    Ok(true)
}

/// Says what is strange about a map. Answers whether something is.
fn say_mismatch<E: Eprint + AllocGlobal, D: Disk>(
    host: &Host<'_, E, D>,
    finder: &Finder<'_, E, D>,
    taken: &Taken<'_, '_>,
) -> Result<bool, AllocError> {
    let is_shared = say_origins(host, taken)?;
    let Some(map) = finder.map_of(taken.script) else {
        return Ok(is_shared);
    };
    match strange_text(host.alloc(), host.disk, map, taken)? {
        Some(text) => {
            host.say(text.as_str());
            Ok(true)
        }
        None => Ok(is_shared),
    }
}

/// Says which maps seem to be of other scripts than these, which take them, of the first maps.
///
/// # Errors
///
/// `Stop::Memory`.
pub fn say_mismatches<E: Eprint + AllocGlobal, D: Disk>(
    host: &Host<'_, E, D>,
    finder: &Finder<'_, E, D>,
    used: &Counted,
) -> Result<(), Stop> {
    let alloc = host.alloc();
    let names = used.names(alloc)?;
    let files = finder.files_of(true, &names)?;
    let mut said = 0;
    for (_, taken) in taken_of(alloc, &names, &files)?.iter() {
        if said < MOST_SAID && say_mismatch(host, finder, taken)? {
            said += 1;
        }
    }
    Ok(())
}
