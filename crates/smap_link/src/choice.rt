//! Which map each script has that a log names.
ghost use Rattle.std.specs.Prelude.{◌≡◌, ◌++◌, List, ℕ, IfErr, IfOk, OnOk, map};
ghost use Rattle.smap_link.specs.Choice as spec;
ghost use Rattle.smap_link.specs.Table.{IsTable};

use crate::table::ScriptTable;
use std::alloc::{AllocError, Global};

/// A name of a log, and the script that it means, by their places in the lists of both.
#[derive(Clone, Copy, Debug, PartialEq, Eq)]
pub struct Choice {
    pub name: usize,
    pub script: usize,
}

/// What is wrong with a choice of maps.
#[derive(Clone, Copy, Debug, PartialEq, Eq)]
pub enum ChoiceFault {
    /// The scripts at these places have the same name.
    Repeated(usize, usize),
    /// Out of memory.
    Memory,
}

impl From<AllocError> for ChoiceFault {
    ghost use Rattle.std.specs.Prelude.{◌≡◌};
    ghost use Rattle.smap_link.specs.declared.choice.ChoiceFault.TheVariants as faults;

    ghost from_gives = { λ _ e. e ≡ faults.Memory };

    fn from(_error: AllocError) -> ChoiceFault {
        ChoiceFault::Memory
    }
}

/// The script that a log means by a name.
fn meant(
    alloc: Global,
    table: &mut ScriptTable,
    may_be_alike: bool,
    name: &[u8],
) -> Result<Option<usize>, AllocError>
    ensures value { (scripts : List (List ℕ)) → IsTable table.old scripts
        → IfOk result (λ found. found ≡ spec.meant may_be_alike scripts name.now) }
    ensures table { (scripts : List (List ℕ)) → IsTable table.old scripts → IsTable table.new scripts }
{
    match table.named(name) {
        Some(i) => Ok(Some(i)),
        None if may_be_alike => table.alike(alloc, name, true),
        None => Ok(None),
    }
}

fn add_choice(found: &mut Vec<Choice>, i: usize, script: Option<usize>) -> Result<(), AllocError>
    ensures { OnOk result (found.new.items ≡ found.old.items ++ spec.choice_at i script) }
{
    if let Some(script) = script {
        found.push(Choice { name: i, script })?;
    }
    Ok(())
}

/// The scripts that a log means by some names.
fn choices(
    alloc: Global,
    table: &mut ScriptTable,
    may_be_alike: bool,
    names: &[&[u8]],
) -> Result<Vec<Choice>, AllocError>
    ensures { (scripts : List (List ℕ)) → IsTable table.old scripts
        → IfOk result (λ found. found.items
        ≡ spec.choices may_be_alike scripts (map (λ n. n.now) names.now)) }
{
    let mut found = Vec::new(alloc);
    for i in 0..names.len() {
        let script = meant(alloc, table, may_be_alike, names[i])?;
        add_choice(&mut found, i, script)?;
    }
    Ok(found)
}

fn chosen(
    alloc: Global,
    mut table: ScriptTable,
    may_be_alike: bool,
    names: &[&[u8]],
) -> Result<Vec<Choice>, AllocError>
    ensures { (scripts : List (List ℕ)) → IsTable table scripts
        → IfOk result (λ found. found.items
        ≡ spec.choices may_be_alike scripts (map (λ n. n.now) names.now)) }
{
    choices(alloc, &mut table, may_be_alike, names)
}

/// For each name of a log, in its order, the script that is meant, if one of these is: that of this very
/// name; or else, if names may be alike, the first that is alike to it and has the same query (`key_of`); or
/// else the first that is alike to it without its query and its fragment, which a path has too in some logs;
/// or else the only one that is alike to it but for these. What is left out has no map here.
///
/// The time is proportional to the bytes of all names.
///
/// # Errors
///
/// `Repeated` where two of the scripts have the same name; `Memory`.
pub fn choose(
    alloc: Global,
    names: &[&[u8]],
    scripts: &[&[u8]],
    may_be_alike: bool,
) -> Result<Vec<Choice>, ChoiceFault>
    ensures value { IfOk result (λ found. found.items
        ≡ spec.choices may_be_alike (map (λ s. s.now) scripts.now) (map (λ n. n.now) names.now)) }
    ensures distinct { OnOk result (spec.AreDistinct (map (λ s. s.now) scripts.now)) }
    ensures fault { IfErr result (λ e. spec.IsFaultOf (map (λ s. s.now) scripts.now) e) }
{
    let table = ScriptTable::new(alloc, scripts)?;
    Ok(chosen(alloc, table, may_be_alike, names)?)
}
