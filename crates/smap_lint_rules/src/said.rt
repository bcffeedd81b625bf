//! What is wrong in what a map says beside its mappings, in words.
ghost use Rattle.std.specs.Prelude.{◌≡◌, IfOk, option_map, string_bytes};
ghost use Rattle.smap_lint_rules.specs.Findings as spec;

use crate::ids::{debug_id, same_id};
use crate::members::Paths;
use crate::pair::Script;
use crate::wording::{counted, example, one_or_more};
use smap_system::printable;
use std::alloc::{AllocError, Global};

fn id_words(alloc: Global, of_map: &str, of_script: &[u8]) -> Result<String, AllocError>
    ensures { IfOk result (λ t. string_bytes t ≡ spec.id_words of_map.now of_script.now) }
{
    let of_script = printable(alloc, of_script)?;
    format!(in alloc; "has debug id {of_map}, and its script {of_script}")
}

/// The debug id of a script.
fn id_of<'a>(script: Option<Script<'a>>) -> Option<&'a [u8]>
    ensures { option_map (λ id. id.now) result ≡ spec.id_of script.entry }
{
    match script {
        Some(script) => debug_id(script.text),
        None => None,
    }
}

/// Whether the debug ids of the script and the map differ, where both have one.
pub(crate) fn different_ids(
    alloc: Global,
    script: Option<Script<'_>>,
    of_map: &Option<String>,
) -> Result<Option<String>, AllocError>
    ensures { IfOk result (λ t. option_map string_bytes t ≡ spec.different_ids script.entry of_map.now) }
{
    let Some(of_map) = of_map else {
        return Ok(None);
    };
    let Some(of_script) = id_of(script) else {
        return Ok(None);
    };
    if same_id(of_script, of_map.as_str().as_bytes()) {
        return Ok(None);
    }
    Ok(Some(id_words(alloc, of_map.as_str(), of_script)?))
}

/// Whether the map has an absolute path as `sourceRoot`.
pub(crate) fn absolute_root(
    alloc: Global,
    root: &Option<String>,
) -> Result<Option<String>, AllocError>
    ensures { IfOk result (λ t. option_map string_bytes t ≡ spec.absolute_root root.now) }
{
    let Some(root) = root else {
        return Ok(None);
    };
    let root = root.as_str();
    Ok(Some(format!(in alloc; "sourceRoot is an absolute path: {root}")?))
}

/// So many sources are named by paths of a machine.
fn machine_words(alloc: Global, count: usize, first: &str) -> Result<String, AllocError>
    ensures { IfOk result (λ t. string_bytes t ≡ spec.machine_words count first.now) }
{
    let sources = counted(alloc, count, "source")?;
    let paths = one_or_more(count, "a path", "paths");
    let example = example(alloc, count, first)?;
    format!(in alloc; "names {sources} by {paths} of the machine that built it{example}")
}

/// Whether the map names sources by paths of the machine that built it.
pub(crate) fn machine_paths(alloc: Global, paths: &Paths) -> Result<Option<String>, AllocError>
    ensures { IfOk result (λ t. option_map string_bytes t ≡ spec.machine_paths paths.now) }
{
    match &paths.machine_path {
        Some(first) => Ok(Some(machine_words(alloc, paths.machine_paths, first.as_str())?)),
        None => Ok(None),
    }
}
