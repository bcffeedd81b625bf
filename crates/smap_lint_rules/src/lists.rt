//! What is wrong in what a map lists, in words.
ghost use Rattle.std.specs.Prelude.{◌≡◌, IfOk, option_map, string_bytes};
ghost use Rattle.smap_lint_rules.specs.Findings as spec;

use crate::listed::{repeated_count, unused_count};
use crate::pair::Pair;
use crate::paths::file_agrees;
use crate::wording::{one_or_more, some_of};
use smap_record::SourceMap;
use std::alloc::{AllocError, Global};

fn unless_agrees(alloc: Global, name: &str, file: &str) -> Result<Option<String>, AllocError>
    ensures { IfOk result (λ t. option_map string_bytes t ≡ spec.unless_agrees name.now file.now) }
{
    if file_agrees(file.as_bytes(), name.as_bytes()) {
        return Ok(None);
    }
    Ok(Some(format!(in alloc; "is the map of {file}, and {name} has it")?))
}

/// Whether the member `file` names another script. Of a map in the script itself it doesn't matter: bundlers
/// add a hash to the script's name once they wrote the map.
pub(crate) fn other_file(alloc: Global, pair: &Pair<'_>) -> Result<Option<String>, AllocError>
    ensures { IfOk result (λ t. option_map string_bytes t ≡ spec.other_file pair.now) }
{
    if pair.is_inline {
        return Ok(None);
    }
    let Some(script) = pair.script else {
        return Ok(None);
    };
    match pair.map.file() {
        Some(file) => unless_agrees(alloc, script.name, file),
        None => Ok(None),
    }
}

fn repeats(alloc: Global, count: usize, total: usize) -> Result<Option<String>, AllocError>
    ensures { IfOk result (λ t. option_map string_bytes t ≡ spec.repeats count total) }
{
    if count == 0 {
        return Ok(None);
    }
    let sources = some_of(alloc, count, total, "source")?;
    Ok(Some(format!(in alloc; "repeats {sources}")?))
}

/// Whether sources are listed more than once.
pub(crate) fn repeated_sources(alloc: Global, map: &SourceMap) -> Result<Option<String>, AllocError>
    ensures { IfOk result (λ t. option_map string_bytes t ≡ spec.repeated_sources map.now) }
{
    repeats(alloc, repeated_count(map), map.listed_count())
}

fn no_mapping(alloc: Global, count: usize, total: usize) -> Result<Option<String>, AllocError>
    ensures { IfOk result (λ t. option_map string_bytes t ≡ spec.no_mapping count total) }
{
    if count == 0 {
        return Ok(None);
    }
    let names = some_of(alloc, count, total, "name")?;
    let has = one_or_more(count, "has", "have");
    Ok(Some(format!(in alloc; "{names} {has} no mapping")?))
}

/// Whether no mapping has names that are listed.
pub(crate) fn unused_names(alloc: Global, map: &SourceMap) -> Result<Option<String>, AllocError>
    ensures { IfOk result (λ t. option_map string_bytes t ≡ spec.unused_names map.now) }
{
    let unused = unused_count(alloc, map)?;
    no_mapping(alloc, unused, map.name_count())
}
