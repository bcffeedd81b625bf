//! The report for people.
ghost use Rattle.std.specs.Prelude.{◌≡◌, IfOk, string_bytes};
ghost use Rattle.smap_report.specs.Reports as whole;
ghost use Rattle.smap_report.specs.Text as spec;

use crate::findings::{Finding, Level, Report, Rule, rule_name};
use crate::phrases::{place_text, summary};
use smap_system::printable;
use std::alloc::{AllocError, Global};

/// A level in a column of seven characters.
fn level_column(level: Level) -> &'static str
    ensures { result.now ≡ spec.level_column level }
{
    match level {
        Level::Note => "note   ",
        Level::Warning => "warning",
        Level::Error => "error  ",
    }
}

/// The line of a finding, below the name of its file.
fn row(alloc: Global, rules: &[Rule], finding: &Finding) -> Result<String, AllocError>
    ensures { IfOk result (λ t. string_bytes t ≡ spec.row rules.now finding.now) }
{
    let level = level_column(finding.level);
    let place = place_text(alloc, "", finding.point, "  ")?;
    let message = printable(alloc, finding.message.as_bytes())?;
    let rule = rule_name(rules, finding.rule);
    format!(in alloc; "  {level}  {place}{message}  {rule}\n")
}

/// Whether the finding before the one with this number is in this file.
fn is_after(findings: &[Finding], index: usize, file: &str) -> bool
    ensures { result ≡ spec.is_after findings.now index file.now }
{
    if index == 0 {
        return false;
    }
    match findings.get(index - 1) {
        Some(before) => before.file.as_str() == file,
        None => false,
    }
}

/// The name of the file of the finding with this number, in a line, unless it stands above it already.
fn heading(
    alloc: Global,
    findings: &[Finding],
    index: usize,
    file: &str,
) -> Result<String, AllocError>
    ensures { IfOk result (λ t. string_bytes t ≡ spec.heading findings.now index file.now) }
{
    if is_after(findings, index, file) {
        return Ok(String::new(alloc));
    }
    let file = printable(alloc, file.as_bytes())?;
    format!(in alloc; "{file}\n")
}

/// What is written for the finding with this number.
fn row_at(
    alloc: Global,
    rules: &[Rule],
    findings: &[Finding],
    index: usize,
) -> Result<String, AllocError>
    ensures { IfOk result (λ t. string_bytes t ≡ spec.row_at rules.now findings.now index) }
{
    let Some(finding) = findings.get(index) else {
        return Ok(String::new(alloc));
    };
    let heading = heading(alloc, findings, index, &finding.file)?;
    let row = row(alloc, rules, finding)?;
    format!(in alloc; "{heading}{row}")
}

/// The findings below the names of their files, and a line that says how many there are.
pub(crate) fn text(alloc: Global, report: &Report<'_>) -> Result<String, AllocError>
    ensures { IfOk result (λ t. string_bytes t ≡ whole.text report.now) }
{
    let mut text = String::new(alloc);
    for index in 0..report.findings.len() {
        text.push_str(&row_at(alloc, report.rules, report.findings, index)?)?;
    }
    text.push_str(&summary(alloc, report.findings, report.files.len())?)?;
    Ok(text)
}
