//! The sources and the names of a map that is built. Each is kept once, in a hashed table, and its number is
//! its index there.
ghost use Rattle.std.specs.Prelude.{◌≡◌, ◌≢◌, ◌≤◌, Err, IfOk, length, map as mapped};
ghost use Rattle.std.specs.Prelude.{option_copied, option_map, string_bytes};
ghost use Rattle.smap_compose.specs.declared.error.BuildError.TheVariants as errors;
ghost use Rattle.smap_compose.specs.Building.{Does, changed, with_name, with_url};
ghost use Rattle.smap_compose.specs.Built.{entries_of};

use crate::error::BuildError;
use indexmap::{IndexMap, IndexSet};
use smap_record::Sources;
use std::alloc::{AllocError, Global};

/// What is known of a source besides its URL.
#[derive(Drop)]
pub(crate) struct Details {
    pub(crate) content: Option<String>,
    pub(crate) ignored: bool,
}

/// The sources by their URLs; a null source has none.
pub(crate) type SourceTable = IndexMap<Option<String>, Details>;

/// A copy of a text.
pub(crate) fn copied(alloc: Global, text: Option<&str>) -> Result<Option<String>, AllocError>
    ensures { IfOk result (λ own. option_map string_bytes own ≡ option_copied text.entry) }
{
    match text {
        Some(text) => Ok(Some(String::from_str(alloc, text)?)),
        None => Ok(None),
    }
}

/// The number of the source of a URL, which is listed last if it isn't listed yet.
pub(crate) fn number_source(
    sources: &mut SourceTable,
    url: Option<String>,
    items: u32,
) -> Result<u32, BuildError>
    requires { length sources.old.entries ≤ items }
    ensures { Does result (entries_of sources.old.entries) (entries_of sources.new.entries)
        (with_url items (option_map string_bytes url) (entries_of sources.old.entries)) }
{
    if let Some(number) = sources.get_index_of(&url) {
        return Ok(number as u32);
    }
    let number = sources.len();
    if number >= items as usize {
        return Err(BuildError::TooMany);
    }
    sources.insert(
        url,
        Details {
            content: None,
            ignored: false,
        },
    )?;
    Ok(number as u32)
}

/// The number of a name, which is listed last if it isn't listed yet.
pub(crate) fn number_name(
    alloc: Global,
    names: &mut IndexSet<String>,
    name: &str,
    items: u32,
) -> Result<u32, BuildError>
    requires { length names.old.keys ≤ items }
    ensures { Does result (mapped string_bytes names.old.keys) (mapped string_bytes names.new.keys)
        (with_name items name.now (mapped string_bytes names.old.keys)) }
{
    if let Some(number) = names.get_index_of(name) {
        return Ok(number as u32);
    }
    let number = names.len();
    if number >= items as usize {
        return Err(BuildError::TooMany);
    }
    names.insert(String::from_str(alloc, name)?)?;
    Ok(number as u32)
}

/// Sets the content of the source with this number.
pub(crate) fn set_content(
    sources: &mut SourceTable,
    number: u32,
    content: Option<String>,
) -> Result<(), BuildError>
    ensures { Does result (entries_of sources.old.entries) (entries_of sources.new.entries)
        (changed (λ e. record e { content = option_map string_bytes content }) number
        (entries_of sources.old.entries)) }
{
    match sources.get_index_mut(number as usize) {
        Some(details) => {
            details.content = content;
            Ok(())
        }
        None => Err(BuildError::Source),
    }
}

/// Sets whether the source with this number is ignored.
pub(crate) fn set_ignored(
    sources: &mut SourceTable,
    number: u32,
    ignored: bool,
) -> Result<(), BuildError>
    ensures sets { Does result (entries_of sources.old.entries) (entries_of sources.new.entries)
        (changed (λ e. record e { ignored = ignored }) number (entries_of sources.old.entries)) }
    ensures certain { result ≢ Err errors.Memory }
{
    match sources.get_index_mut(number as usize) {
        Some(details) => {
            details.ignored = ignored;
            Ok(())
        }
        None => Err(BuildError::Source),
    }
}

/// The sources in order of their numbers.
pub(crate) fn all_sources(alloc: Global, sources: SourceTable) -> Result<Sources, AllocError>
    ensures { IfOk result (λ all. all ≡ entries_of sources.entries) }
{
    let mut all = Sources::new(alloc);
    for (url, details) in sources {
        all = all.with_owned(url, details.content, details.ignored)?;
    }
    Ok(all)
}

/// The names in order of their numbers.
pub(crate) fn all_names(alloc: Global, names: IndexSet<String>) -> Result<Vec<String>, AllocError>
    ensures { IfOk result (λ all. all.items ≡ names.keys) }
{
    let mut all = Vec::with_capacity(alloc, names.len())?;
    for name in names {
        all.push(name)?;
    }
    Ok(all)
}
