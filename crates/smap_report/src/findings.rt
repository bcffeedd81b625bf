//! What a report is made of.
ghost use Rattle.std.specs.Prelude.{◌≡◌};
ghost use Rattle.smap_report.specs.Findings as spec;

/// How much a finding matters.
#[derive(Clone, Copy, Debug, PartialEq, Eq)]
pub enum Level {
    Note,
    Warning,
    Error,
}

/// A rule: its name, the level of what it finds unless another is set, and one sentence that says what it
/// finds.
#[derive(Clone, Copy)]
pub struct Rule {
    pub name: &'static str,
    pub level: Level,
    pub summary: &'static str,
}

/// A place in a file. Both numbers count from 1, and columns in UTF-16 units.
#[derive(Clone, Copy, PartialEq, Eq)]
pub struct Point {
    pub line: u64,
    pub column: u64,
}

/// What a rule found.
#[derive(Drop)]
pub struct Finding {
    /// The rule's number in the list of rules, from 0.
    pub rule: usize,
    pub level: Level,
    /// The file's path, relative or absolute, with slashes.
    pub file: String,
    /// Where in the file, if the finding has a place.
    pub point: Option<Point>,
    /// A sentence or part of one, in one line.
    pub message: String,
}

/// All that a report says.
#[derive(Clone, Copy)]
pub struct Report<'a> {
    /// The name of the program.
    pub tool: &'a str,
    /// The program's version.
    pub version: &'a str,
    pub rules: &'a [Rule],
    /// The files that were looked at.
    pub files: &'a [String],
    /// What was found, in the order in which it is written.
    pub findings: &'a [Finding],
}

/// A level in one word.
pub(crate) fn level_word(level: Level) -> &'static str
    ensures { result.now ≡ spec.level_word level }
{
    match level {
        Level::Note => "note",
        Level::Warning => "warning",
        Level::Error => "error",
    }
}

/// The words that name the levels, as a message lists them.
pub const LEVEL_WORDS: &str = "note, warning or error";

/// The level that a word names.
pub fn level_named(word: &str) -> Option<Level>
    ensures { result ≡ spec.level_named word.now }
{
    if word == level_word(Level::Note) {
        Some(Level::Note)
    } else if word == level_word(Level::Warning) {
        Some(Level::Warning)
    } else if word == level_word(Level::Error) {
        Some(Level::Error)
    } else {
        None
    }
}

/// The name of the rule with this number, or `unknown` where the list has none.
pub(crate) fn rule_name(rules: &[Rule], number: usize) -> &'static str
    ensures { result.now ≡ spec.rule_name rules.now number }
{
    match rules.get(number) {
        Some(rule) => rule.name,
        None => "unknown",
    }
}

/// Whether there is an error among these.
pub fn has_error(findings: &[Finding]) -> bool
    ensures { result ≡ spec.has_error findings.now }
{
    findings.iter().any(|finding| finding.level == Level::Error)
}
