//! What is asked of a run.
use smap_lint_rules::rule_named;
use smap_report::{Format, Level, Rule};
use smap_system::{Disk, Host, Stop};
use std::alloc::{AllocError, Global};

/// What is asked of a run.
#[derive(Drop)]
pub struct LintAsked<'a> {
    /// The folders, each with all folders below it; or files, each a script or a map, with its map or script.
    pub folders: Vec<&'a str>,
    pub format: Format,
    /// The levels of rules, by their names; none for a rule that isn't to be looked at. The last one counts.
    pub rules: Vec<(&'a str, Option<Level>)>,
    /// How much of a script has to have an original, in percent of its UTF-16 units.
    pub min_mapped: Option<u32>,
    /// How many bytes the URLs of a map's sources may take.
    pub url_bytes: usize,
    /// The version of the program, as a report has it.
    pub version: &'a str,
}

/// The levels that rules have unless others are set.
fn usual_levels(alloc: Global, rules: &[Rule]) -> Result<Vec<Option<Level>>, AllocError> {
    let mut levels = Vec::new(alloc);
    for rule in rules {
        levels.push(Some(rule.level))?;
    }
    Ok(levels)
}

/// The names of all rules, with commas between them.
fn rule_names(alloc: Global, rules: &[Rule]) -> Result<String, AllocError> {
    let mut names = String::new(alloc);
    for rule in rules {
        if !names.is_empty() {
            names.push_str(", ")?;
        }
        names.push_str(rule.name)?;
    }
    Ok(names)
}

fn fail_rule<E: Eprint + AllocGlobal, D: Disk>(
    host: &Host<'_, E, D>,
    rules: &[Rule],
    name: &str,
) -> Stop {
    let alloc = host.alloc();
    let Ok(names) = rule_names(alloc, rules) else {
        return Stop::Memory;
    };
    let names = names.as_str();
    match format!(in alloc; "no such rule: {name} (rules: {names})") {
        Ok(text) => host.fail(2, text.as_str()),
        Err(_) => Stop::Memory,
    }
}

/// The level of each of these rules, in their order.
pub(crate) fn levels_of<E: Eprint + AllocGlobal, D: Disk>(
    host: &Host<'_, E, D>,
    rules: &[Rule],
    asked: &LintAsked<'_>,
) -> Result<Vec<Option<Level>>, Stop> {
    let mut levels = usual_levels(host.alloc(), rules)?;
    for (name, level) in &asked.rules {
        let Some(number) = rule_named(name) else {
            return Err(fail_rule(host, rules, name));
        };
        if let Some(place) = levels.get_mut(number) {
            *place = *level;
        }
    }
    Ok(levels)
}
