//! A map and the script that has it, and what all rules find in them.
ghost use Rattle.std.specs.Prelude.{◌≡◌, ◌++◌, IfOk, OnOk, map as mapped};
ghost use Rattle.smap_lint_rules.specs.Findings as spec;

use crate::checks::Check;
use crate::generated::{few_mapped, generated_past_end, widths_of};
use crate::lists::{other_file, repeated_sources, unused_names};
use crate::members::Members;
use crate::originals::{Chains, open_chains, originals_past_end};
use crate::remarks::{Remark, add};
use crate::said::{absolute_root, different_ids, machine_paths};
use crate::sources::{Wrong, missing_sources, stale_contents};
use smap_record::SourceMap;
use std::alloc::{AllocError, Global};

/// A script that has a map.
#[derive(Clone, Copy)]
pub struct Script<'a> {
    /// Its name in the folder.
    pub name: &'a str,
    pub text: &'a [u8],
}

/// A map, the script that has it, and what is known of the files of its sources.
#[derive(Clone, Copy)]
pub struct Pair<'a> {
    pub map: &'a SourceMap,
    /// What the map says beside its mappings.
    pub members: &'a Members,
    /// None for a map that no script has.
    pub script: Option<Script<'a>>,
    /// Whether the map stands in the script itself.
    pub is_inline: bool,
    /// The URL of the folder of both, with a slash at its end: what is said of a URL below it leaves it out.
    pub folder: &'a str,
    /// How much of the script has to have an original, in percent of its UTF-16 units.
    pub min_mapped: Option<u32>,
    /// The sources that have neither a content nor a file.
    pub missing: Wrong,
    /// The sources whose contents aren't those of their files.
    pub stale: Wrong,
    /// What is known of the sources that are scripts.
    pub chains: Chains<'a>,
}

/// Adds what is found in what the map says beside its mappings.
fn add_of_members(alloc: Global, pair: &Pair<'_>, found: &mut Vec<Remark>) -> Result<(), AllocError>
    ensures { OnOk result (mapped spec.told found.new.items
        ≡ mapped spec.told found.old.items ++ spec.of_members pair.now) }
{
    let ids = different_ids(alloc, pair.script, &pair.members.debug_id)?;
    add(found, Check::DebugId, ids)?;
    let root = absolute_root(alloc, &pair.members.paths.absolute_root)?;
    add(found, Check::AbsoluteRoot, root)?;
    let paths = machine_paths(alloc, &pair.members.paths)?;
    add(found, Check::MachinePath, paths)
}

/// Adds what is found in where the mappings begin in the script.
fn add_of_script(alloc: Global, pair: &Pair<'_>, found: &mut Vec<Remark>) -> Result<(), AllocError>
    ensures { OnOk result (mapped spec.told found.new.items
        ≡ mapped spec.told found.old.items ++ spec.of_script pair.now) }
{
    let Some(widths) = widths_of(alloc, pair.script)? else {
        return Ok(());
    };
    let past = generated_past_end(alloc, pair.map, &widths)?;
    add(found, Check::GeneratedPastEnd, past)?;
    let few = few_mapped(alloc, pair.min_mapped, pair.map, &widths)?;
    add(found, Check::FewMapped, few)
}

/// Adds what is found in the sources.
fn add_of_sources(alloc: Global, pair: &Pair<'_>, found: &mut Vec<Remark>) -> Result<(), AllocError>
    ensures { OnOk result (mapped spec.told found.new.items
        ≡ mapped spec.told found.old.items ++ spec.of_sources pair.now) }
{
    let past = originals_past_end(alloc, pair.map)?;
    add(found, Check::OriginalPastEnd, past)?;
    let missing = missing_sources(alloc, pair.map, pair.folder, pair.missing)?;
    add(found, Check::MissingSource, missing)?;
    let stale = stale_contents(alloc, pair.map, pair.folder, pair.stale)?;
    add(found, Check::StaleContent, stale)?;
    let open = open_chains(alloc, pair.map, pair.folder, pair.chains)?;
    add(found, Check::OpenChain, open)
}

/// Adds what is found in what the map lists.
fn add_of_lists(alloc: Global, pair: &Pair<'_>, found: &mut Vec<Remark>) -> Result<(), AllocError>
    ensures { OnOk result (mapped spec.told found.new.items
        ≡ mapped spec.told found.old.items ++ spec.of_lists pair.now) }
{
    let other = other_file(alloc, pair)?;
    add(found, Check::OtherFile, other)?;
    let repeated = repeated_sources(alloc, pair.map)?;
    add(found, Check::RepeatedSource, repeated)?;
    let unused = unused_names(alloc, pair.map)?;
    add(found, Check::UnusedName, unused)
}

/// What all rules find in a map and the script that has it.
///
/// # Errors
///
/// `AllocError`.
pub fn lint_pair(alloc: Global, pair: &Pair<'_>) -> Result<Vec<Remark>, AllocError>
    ensures { IfOk result (λ found. mapped spec.told found.items ≡ spec.findings pair.now) }
{
    let mut found = Vec::new(alloc);
    add_of_members(alloc, pair, &mut found)?;
    add_of_script(alloc, pair, &mut found)?;
    add_of_sources(alloc, pair, &mut found)?;
    add_of_lists(alloc, pair, &mut found)?;
    Ok(found)
}
