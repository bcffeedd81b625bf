//! What a command line asks of `lint`, in the words of `smap_lint_run`.
use smap_command_line::NUMBER;
use smap_command_line::maps::MapsWords;
use smap_lint_run::LintAsked;
use smap_report::{Format, format_named, level_named};
use std::alloc::{AllocError, Global};

/// How findings are written: as text, if nothing is said.
fn format(asked: &MapsWords<'_>) -> Format {
    match asked.options.text("format") {
        Some(name) => format_named(name).unwrap_or(Format::Text),
        None => Format::Text,
    }
}

/// What is asked of `lint`. A rule whose level is `off` has none.
pub(crate) fn lint_asked<'a>(
    alloc: Global,
    asked: &MapsWords<'a>,
) -> Result<LintAsked<'a>, AllocError> {
    let mut rules = Vec::with_capacity(alloc, asked.rules.len())?;
    for rule in &asked.rules {
        rules.push((rule.key, level_named(rule.text)))?;
    }
    Ok(LintAsked {
        folders: Vec::from_slice(alloc, &asked.paths)?,
        format: format(asked),
        rules,
        min_mapped: asked.options.number("min-mapped"),
        url_bytes: asked.options.url_bytes(),
        version: NUMBER,
    })
}
