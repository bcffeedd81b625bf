//! The report as SARIF.
ghost use Rattle.std.specs.Prelude.{◌≡◌, IfOk, map, string_bytes};
ghost use Rattle.serde_json.specs.Data.{array};
ghost use Rattle.serde_json.specs.View.{items_of, view};
ghost use Rattle.smap_report.specs.Reports as whole;
ghost use Rattle.smap_report.specs.Sarif as spec;

use crate::escapes::json_text;
use crate::findings::{Finding, Point, Report, Rule, level_word, rule_name};
use percent_encoding::{AsciiSet, NON_ALPHANUMERIC, ascii_set, utf8_percent_encode};
use serde_json::{Value, json};
use std::alloc::{AllocError, Global};

/// What is percent-encoded in a path: all but slashes, ASCII letters and digits, and what RFC 3986 allows in
/// the first segment of a relative path.
pub(crate) const IN_URI: AsciiSet = ascii_set!(
    NON_ALPHANUMERIC
        .remove(b'/')
        .remove(b'-')
        .remove(b'.')
        .remove(b'_')
        .remove(b'~')
        .remove(b'!')
        .remove(b'$')
        .remove(b'&')
        .remove(b'\'')
        .remove(b'(')
        .remove(b')')
        .remove(b'*')
        .remove(b'+')
        .remove(b',')
        .remove(b';')
        .remove(b'=')
        .remove(b'@')
);

/// A file's path as a reference to a URI: a `file:` URI where it is absolute.
fn uri(alloc: Global, file: &str) -> Result<String, AllocError>
    ensures { IfOk result (λ t. string_bytes t ≡ spec.uri file.now) }
{
    let mut uri = String::new(alloc);
    if file.as_bytes().starts_with(b"/") {
        uri.push_str("file://")?;
    }
    utf8_percent_encode(file, IN_URI).append_to(&mut uri)?;
    Ok(uri)
}

fn rule_value(alloc: Global, rule: Rule) -> Result<Value, AllocError>
    ensures { IfOk result (λ v. view v ≡ spec.rule_tree rule) }
{
    json!(in alloc; {
        "id": rule.name,
        "shortDescription": {"text": rule.summary},
        "defaultConfiguration": {"level": level_word(rule.level)}
    })
}

fn rule_values(alloc: Global, rules: &[Rule]) -> Result<Value, AllocError>
    ensures { IfOk result (λ v. view v ≡ array (items_of (map spec.rule_tree rules.now))) }
{
    let mut values = Vec::new(alloc);
    for rule in rules {
        values.push(rule_value(alloc, *rule)?)?;
    }
    Ok(Value::Array(values))
}

/// The file of a finding, and its place there.
fn location(alloc: Global, file: &str, point: Option<Point>) -> Result<Value, AllocError>
    ensures { IfOk result (λ v. view v ≡ spec.location_tree file.now point) }
{
    let uri = uri(alloc, file)?;
    let Some(point) = point else {
        return json!(in alloc; {"physicalLocation": {"artifactLocation": {"uri": &uri}}});
    };
    json!(in alloc; {"physicalLocation": {
        "artifactLocation": {"uri": &uri},
        "region": {"startLine": point.line, "startColumn": point.column}
    }})
}

/// The number of a rule in the list, or -1, SARIF's word for none.
fn rule_index(rules: &[Rule], number: usize) -> Value
    ensures { view result ≡ spec.rule_index rules.now number }
{
    if number < rules.len() {
        Value::from(number)
    } else {
        Value::from(-1i64)
    }
}

fn result_value(alloc: Global, rules: &[Rule], finding: &Finding) -> Result<Value, AllocError>
    ensures { IfOk result (λ v. view v ≡ spec.result_tree rules.now finding.now) }
{
    let location = location(alloc, &finding.file, finding.point)?;
    json!(in alloc; {
        "ruleId": rule_name(rules, finding.rule),
        "ruleIndex": rule_index(rules, finding.rule),
        "level": level_word(finding.level),
        "message": {"text": &finding.message},
        "locations": [location]
    })
}

fn result_values(alloc: Global, rules: &[Rule], findings: &[Finding]) -> Result<Value, AllocError>
    ensures { IfOk result (λ v. view v ≡ array (items_of (map (spec.result_tree rules.now) findings.now))) }
{
    let mut values = Vec::new(alloc);
    for finding in findings {
        values.push(result_value(alloc, rules, finding)?)?;
    }
    Ok(Value::Array(values))
}

fn tool_value(alloc: Global, report: &Report<'_>) -> Result<Value, AllocError>
    ensures { IfOk result (λ v. view v
        ≡ spec.tool_tree report.now.tool.now report.now.version.now report.now.rules.now) }
{
    let rules = rule_values(alloc, report.rules)?;
    json!(in alloc; {"driver": {
        "name": report.tool,
        "version": report.version,
        "rules": rules
    }})
}

#[tactic(auto, unfolding(crate::specs::Sarif::sarif_tree))]
fn sarif_value(alloc: Global, report: &Report<'_>) -> Result<Value, AllocError>
    ensures { IfOk result (λ v. view v ≡ spec.sarif_tree report.now.tool.now report.now.version.now
        report.now.rules.now report.now.findings.now) }
{
    let tool = tool_value(alloc, report)?;
    let results = result_values(alloc, report.rules, report.findings)?;
    json!(in alloc; {
        "$schema": SCHEMA,
        "version": "2.1.0",
        "runs": [{"tool": tool, "columnKind": "utf16CodeUnits", "results": results}]
    })
}

/// Where the schema of SARIF 2.1.0 is.
const SCHEMA: &str =
    "https://docs.oasis-open.org/sarif/sarif/v2.1.0/errata01/os/schemas/sarif-schema-2.1.0.json";

/// The report as SARIF, in one line.
#[tactic(auto, using(crate::proofs::SarifLemmas::all_whole))]
pub(crate) fn sarif(alloc: Global, report: &Report<'_>) -> Result<String, AllocError>
    ensures { IfOk result (λ t. string_bytes t ≡ whole.sarif report.now) }
{
    let mut text = json_text(alloc, &sarif_value(alloc, report)?)?;
    text.push('\n')?;
    Ok(text)
}
