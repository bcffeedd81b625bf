//! Reports of a line for each finding.
ghost use Rattle.std.specs.Prelude.{◌≡◌, IfOk, string_bytes};
ghost use Rattle.serde_json.specs.View.{view};
ghost use Rattle.smap_report.specs.Lines as spec;
ghost use Rattle.smap_report.specs.Reports as whole;

use crate::escapes::{Place, json_text, shown};
use crate::findings::{Finding, Level, Point, Report, Rule, level_word, rule_name};
use crate::phrases::place_text;
use serde_json::{Value, json};
use smap_system::printable;
use std::alloc::{AllocError, Global};

/// The form of a line.
#[derive(Clone, Copy)]
pub(crate) enum LineForm {
    Gnu,
    Github,
    Json,
}

/// The line of a finding as the GNU Coding Standards have it ("Formatting Error Messages").
fn gnu_line(alloc: Global, rules: &[Rule], finding: &Finding) -> Result<String, AllocError>
    ensures { IfOk result (λ t. string_bytes t ≡ spec.gnu_line rules.now finding.now) }
{
    let file = printable(alloc, finding.file.as_bytes())?;
    let place = place_text(alloc, ":", finding.point, "")?;
    let level = level_word(finding.level);
    let message = printable(alloc, finding.message.as_bytes())?;
    let rule = rule_name(rules, finding.rule);
    format!(in alloc; "{file}{place}: {level}: {message} [{rule}]\n")
}

/// The workflow command for a level.
fn command(level: Level) -> &'static str
    ensures { result.now ≡ spec.command level }
{
    match level {
        Level::Note => "notice",
        Level::Warning => "warning",
        Level::Error => "error",
    }
}

/// The place of a finding as properties of a workflow command.
fn github_place(alloc: Global, point: Option<Point>) -> Result<String, AllocError>
    ensures { IfOk result (λ t. string_bytes t ≡ spec.github_place point) }
{
    let Some(point) = point else {
        return Ok(String::new(alloc));
    };
    let line = point.line;
    let column = point.column;
    format!(in alloc; ",line={line},col={column}")
}

/// The workflow command of GitHub Actions for a finding.
fn github_line(alloc: Global, rules: &[Rule], finding: &Finding) -> Result<String, AllocError>
    ensures { IfOk result (λ t. string_bytes t ≡ spec.github_line rules.now finding.now) }
{
    let command = command(finding.level);
    let file = shown(alloc, Place::Property, &finding.file)?;
    let place = github_place(alloc, finding.point)?;
    let rule = shown(alloc, Place::Property, rule_name(rules, finding.rule))?;
    let message = shown(alloc, Place::Data, &finding.message)?;
    format!(in alloc; "::{command} file={file}{place},title={rule}::{message}\n")
}

/// A finding as JSON.
fn json_value(alloc: Global, rules: &[Rule], finding: &Finding) -> Result<Value, AllocError>
    ensures { IfOk result (λ v. view v ≡ spec.json_tree rules.now finding.now) }
{
    json!(in alloc; {
        "rule": rule_name(rules, finding.rule),
        "level": level_word(finding.level),
        "file": &finding.file,
        "line": finding.point.map(|point| point.line),
        "column": finding.point.map(|point| point.column),
        "message": &finding.message
    })
}

/// The line of a finding as JSON.
fn json_line(alloc: Global, rules: &[Rule], finding: &Finding) -> Result<String, AllocError>
    ensures { IfOk result (λ t. string_bytes t ≡ spec.json_line rules.now finding.now) }
{
    let mut line = json_text(alloc, &json_value(alloc, rules, finding)?)?;
    line.push('\n')?;
    Ok(line)
}

fn line_of(
    alloc: Global,
    form: LineForm,
    rules: &[Rule],
    finding: &Finding,
) -> Result<String, AllocError>
    ensures { IfOk result (λ t. string_bytes t ≡ spec.line form rules.now finding.now) }
{
    match form {
        LineForm::Gnu => gnu_line(alloc, rules, finding),
        LineForm::Github => github_line(alloc, rules, finding),
        LineForm::Json => json_line(alloc, rules, finding),
    }
}

/// A line for each finding, in their order.
pub(crate) fn lines(
    alloc: Global,
    form: LineForm,
    report: &Report<'_>,
) -> Result<String, AllocError>
    ensures { IfOk result (λ t. string_bytes t ≡ whole.lines form report.now) }
{
    let mut text = String::new(alloc);
    for finding in report.findings {
        let line = line_of(alloc, form, report.rules, finding)?;
        text.push_str(&line)?;
    }
    Ok(text)
}
