//! Places and numbers as reports write them.
ghost use Rattle.std.specs.Prelude.{◌≡◌, IfOk, string_bytes};
ghost use Rattle.smap_report.specs.Phrases as spec;

use crate::findings::{Finding, Level, Point};
use std::alloc::{AllocError, Global};

/// `LINE:COLUMN` between these, or nothing where there is no place.
pub(crate) fn place_text(
    alloc: Global,
    before: &str,
    point: Option<Point>,
    behind: &str,
) -> Result<String, AllocError>
    ensures { IfOk result (λ t. string_bytes t ≡ spec.place_text before.now point behind.now) }
{
    let Some(point) = point else {
        return Ok(String::new(alloc));
    };
    let line = point.line;
    let column = point.column;
    format!(in alloc; "{before}{line}:{column}{behind}")
}

/// A number and what is counted, as `1 error` or `2 errors`.
fn count_text(alloc: Global, count: usize, word: &str) -> Result<String, AllocError>
    ensures { IfOk result (λ t. string_bytes t ≡ spec.count_text count word.now) }
{
    if count == 1 {
        format!(in alloc; "{count} {word}")
    } else {
        format!(in alloc; "{count} {word}s")
    }
}

/// The text, and behind it how many there are of something, unless there are none.
fn with_count(alloc: Global, text: String, count: usize, word: &str) -> Result<String, AllocError>
    ensures { IfOk result (λ t. string_bytes t ≡ spec.with_count (string_bytes text) count word.now) }
{
    if count == 0 {
        return Ok(text);
    }
    let words = count_text(alloc, count, word)?;
    if text.is_empty() {
        return Ok(words);
    }
    format!(in alloc; "{text}, {words}")
}

/// How many of these have this level.
fn count_of(findings: &[Finding], level: Level) -> usize
    ensures { result ≡ spec.count_of findings.now level }
{
    findings
        .iter()
        .filter(|finding| finding.level == level)
        .count()
}

/// How many there are of each level, as `2 errors, 1 note`; nothing where there is none.
#[tactic(auto, unfolding(crate::specs::Phrases::counts))]
pub(crate) fn counts(
    alloc: Global,
    errors: usize,
    warnings: usize,
    notes: usize,
) -> Result<String, AllocError>
    ensures { IfOk result (λ t. string_bytes t ≡ spec.counts errors warnings notes) }
{
    let text = with_count(alloc, String::new(alloc), errors, "error")?;
    let text = with_count(alloc, text, warnings, "warning")?;
    with_count(alloc, text, notes, "note")
}

/// How many there are of each level among these.
fn all_counts(alloc: Global, findings: &[Finding]) -> Result<String, AllocError>
    ensures { IfOk result (λ t. string_bytes t ≡ spec.all_counts findings.now) }
{
    counts(
        alloc,
        count_of(findings, Level::Error),
        count_of(findings, Level::Warning),
        count_of(findings, Level::Note),
    )
}

/// The last line for people: how much was found in how many files.
pub(crate) fn summary(
    alloc: Global,
    findings: &[Finding],
    files: usize,
) -> Result<String, AllocError>
    ensures { IfOk result (λ t. string_bytes t ≡ spec.summary findings.now files) }
{
    let files = count_text(alloc, files, "file")?;
    if findings.is_empty() {
        return format!(in alloc; "nothing found in {files}\n");
    }
    let counts = all_counts(alloc, findings)?;
    format!(in alloc; "{counts} in {files}\n")
}
