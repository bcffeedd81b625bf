//! The report as JUnit's XML.
ghost use Rattle.std.specs.Prelude.{◌≡◌, ◌++◌, IfOk, OnOk, map, string_bytes};
ghost use Rattle.std.specs.List.{flat_map};
ghost use Rattle.smap_report.specs.Junit as spec;
ghost use Rattle.smap_report.specs.Reports as whole;

use crate::escapes::xml;
use crate::findings::{Finding, Level, Report, Rule, level_word, rule_name};
use crate::phrases::{counts, place_text};
use std::alloc::{AllocError, Global};

/// What a list of a test case has: notes, or what makes it fail.
#[derive(Clone, Copy)]
enum Listed {
    Failures,
    Notes,
}

fn is_in(finding: &Finding, file: &str) -> bool
    ensures { result ≡ spec.is_in finding.now file.now }
{
    finding.file.as_str() == file
}

/// Whether a file has a finding of this kind.
fn is_listed(finding: &Finding, file: &str, listed: Listed) -> bool
    ensures { result ≡ spec.is_listed finding.now file.now listed }
{
    if !is_in(finding, file) {
        return false;
    }
    match listed {
        Listed::Failures => finding.level != Level::Note,
        Listed::Notes => finding.level == Level::Note,
    }
}

/// The line of a finding in the test case of its file.
fn case_line(alloc: Global, rules: &[Rule], finding: &Finding) -> Result<String, AllocError>
    ensures { IfOk result (λ t. string_bytes t ≡ spec.case_line rules.now finding.now) }
{
    let place = place_text(alloc, "", finding.point, ": ")?;
    let level = level_word(finding.level);
    let message = xml(alloc, &finding.message)?;
    let rule = xml(alloc, rule_name(rules, finding.rule))?;
    format!(in alloc; "{place}{level}: {message} [{rule}]\n")
}

/// The lines of a file's findings of this kind.
fn case_lines(
    alloc: Global,
    rules: &[Rule],
    findings: &[Finding],
    file: &str,
    listed: Listed,
) -> Result<String, AllocError>
    ensures { IfOk result (λ t. string_bytes t ≡ spec.case_lines rules.now findings.now file.now listed) }
{
    let mut text = String::new(alloc);
    for finding in findings {
        if is_listed(finding, file, listed) {
            text.push_str(&case_line(alloc, rules, finding)?)?;
        }
    }
    Ok(text)
}

/// How many findings of this level a file has.
fn count_in(findings: &[Finding], file: &str, level: Level) -> usize
    ensures { result ≡ spec.count_in findings.now file.now level }
{
    findings
        .iter()
        .filter(|finding| is_in(finding, file) && finding.level == level)
        .count()
}

/// What says in a test case that it fails, unless there are no lines.
fn failure_text(
    alloc: Global,
    lines: String,
    errors: usize,
    warnings: usize,
) -> Result<String, AllocError>
    ensures { IfOk result (λ t. string_bytes t ≡ spec.failure_text (string_bytes lines) errors warnings) }
{
    if lines.is_empty() {
        return Ok(lines);
    }
    let counts = counts(alloc, errors, warnings, 0)?;
    format!(in alloc; "<failure message=\"{counts}\" type=\"lint\">{lines}</failure>\n")
}

/// What makes the test case of a file fail, if something does.
#[tactic(auto, unfolding(crate::specs::Junit::failure))]
fn failure(
    alloc: Global,
    rules: &[Rule],
    findings: &[Finding],
    file: &str,
) -> Result<String, AllocError>
    ensures { IfOk result (λ t. string_bytes t ≡ spec.failure rules.now findings.now file.now) }
{
    let lines = case_lines(alloc, rules, findings, file, Listed::Failures)?;
    let errors = count_in(findings, file, Level::Error);
    let warnings = count_in(findings, file, Level::Warning);
    failure_text(alloc, lines, errors, warnings)
}

/// What says notes in a test case, unless there are none.
fn note_text(alloc: Global, lines: String) -> Result<String, AllocError>
    ensures { IfOk result (λ t. string_bytes t ≡ spec.note_text (string_bytes lines)) }
{
    if lines.is_empty() {
        return Ok(lines);
    }
    format!(in alloc; "<system-out>{lines}</system-out>\n")
}

/// The notes on a file, if there are any.
#[tactic(auto, unfolding(crate::specs::Junit::notes))]
fn notes(
    alloc: Global,
    rules: &[Rule],
    findings: &[Finding],
    file: &str,
) -> Result<String, AllocError>
    ensures { IfOk result (λ t. string_bytes t ≡ spec.notes rules.now findings.now file.now) }
{
    let lines = case_lines(alloc, rules, findings, file, Listed::Notes)?;
    note_text(alloc, lines)
}

/// A test case of these parts.
fn case_text(
    alloc: Global,
    name: &str,
    class: &str,
    failure: &str,
    notes: &str,
) -> Result<String, AllocError>
    ensures { IfOk result (λ t. string_bytes t
        ≡ spec.case_text name.now class.now failure.now notes.now) }
{
    format!(in alloc;
        "<testcase name=\"{name}\" classname=\"{class}\">\n{failure}{notes}</testcase>\n"
    )
}

/// The test case of a file.
#[tactic(auto, unfolding(crate::specs::Junit::case))]
fn case(alloc: Global, report: &Report<'_>, file: &str) -> Result<String, AllocError>
    ensures { IfOk result (λ t. string_bytes t ≡ spec.case report.now.tool.now report.now.rules.now
        report.now.findings.now file.now) }
{
    let name = xml(alloc, file)?;
    let class = xml(alloc, report.tool)?;
    let failure = failure(alloc, report.rules, report.findings, file)?;
    let notes = notes(alloc, report.rules, report.findings, file)?;
    case_text(alloc, &name, &class, &failure, &notes)
}

/// The test cases of these files.
fn cases(alloc: Global, report: &Report<'_>, files: &[String]) -> Result<String, AllocError>
    ensures { IfOk result (λ t. string_bytes t ≡ flat_map (λ file. spec.case report.now.tool.now
        report.now.rules.now report.now.findings.now (string_bytes file)) files.now) }
{
    let mut text = String::new(alloc);
    for file in files {
        text.push_str(&case(alloc, report, file)?)?;
    }
    Ok(text)
}

fn holds(files: &[String], file: &str) -> bool
    ensures { result ≡ spec.has_file files.now file.now }
{
    files.iter().any(|one| one.as_str() == file)
}

/// Adds a file, unless it is there.
#[tactic(auto, using(crate::proofs::FileLemmas::holds_is))]
fn add_file(alloc: Global, files: &mut Vec<String>, file: &str) -> Result<(), AllocError>
    ensures { OnOk result (map string_bytes files.new.items
        ≡ spec.with_file (map string_bytes files.old.items) file.now) }
{
    if holds(files, file) {
        return Ok(());
    }
    files.push(String::from_str(alloc, file)?)?;
    Ok(())
}

/// The files that have test cases: those looked at, and behind them the others that have findings.
fn case_files(
    alloc: Global,
    files: &[String],
    findings: &[Finding],
) -> Result<Vec<String>, AllocError>
    ensures { IfOk result (λ made. map string_bytes made.items
        ≡ spec.case_files (map string_bytes files.now) findings.now) }
{
    let mut made = copies(alloc, files)?;
    for finding in findings {
        add_file(alloc, &mut made, &finding.file)?;
    }
    Ok(made)
}

fn copies(alloc: Global, files: &[String]) -> Result<Vec<String>, AllocError>
    ensures { IfOk result (λ made. map string_bytes made.items ≡ map string_bytes files.now) }
{
    let mut made = Vec::new(alloc);
    for file in files {
        made.push(String::from_str(alloc, file)?)?;
    }
    Ok(made)
}

/// Whether the test case of a file fails.
fn fails(findings: &[Finding], file: &str) -> bool
    ensures { result ≡ spec.fails findings.now file.now }
{
    findings
        .iter()
        .any(|finding| is_listed(finding, file, Listed::Failures))
}

/// How many test cases fail.
fn count_failures(findings: &[Finding], files: &[String]) -> usize
    ensures { result ≡ spec.failures findings.now files.now }
{
    files.iter().filter(|file| fails(findings, file)).count()
}

/// A suite of these parts.
fn suite_words(
    alloc: Global,
    name: &str,
    tests: usize,
    failures: usize,
    cases: &str,
) -> Result<String, AllocError>
    ensures { IfOk result (λ t. string_bytes t ≡ spec.suite_words name.now tests failures cases.now) }
{
    format!(in alloc;
        "<?xml version=\"1.0\" encoding=\"UTF-8\"?>\n<testsuites>\n\
         <testsuite name=\"{name}\" tests=\"{tests}\" failures=\"{failures}\" errors=\"0\" skipped=\"0\">\n\
         {cases}</testsuite>\n</testsuites>\n"
    )
}

/// The suite with the test cases of these files.
fn suite(alloc: Global, report: &Report<'_>, files: &[String]) -> Result<String, AllocError>
    ensures { IfOk result (λ t. string_bytes t ≡ spec.suite report.now.tool.now report.now.rules.now
        (map string_bytes files.now) report.now.findings.now) }
{
    let name = xml(alloc, report.tool)?;
    let failures = count_failures(report.findings, files);
    let cases = cases(alloc, report, files)?;
    suite_words(alloc, &name, files.len(), failures, &cases)
}

/// The report as JUnit's XML.
pub(crate) fn junit(alloc: Global, report: &Report<'_>) -> Result<String, AllocError>
    ensures { IfOk result (λ t. string_bytes t ≡ whole.junit report.now) }
{
    let files = case_files(alloc, report.files, report.findings)?;
    suite(alloc, report, &files)
}
