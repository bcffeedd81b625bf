//! The forms that a report has.
ghost use Rattle.std.specs.Prelude.{◌≡◌};
ghost use Rattle.smap_report.specs.Formats as spec;

/// The form of a report.
#[derive(Clone, Copy, PartialEq, Eq)]
pub enum Format {
    /// For people: findings below the name of their file, and a line with counts.
    Text,
    /// `FILE:LINE:COLUMN: level: message [rule]`, as compilers write it.
    Gnu,
    /// The workflow commands of GitHub Actions.
    Github,
    /// SARIF 2.1.0.
    Sarif,
    /// JUnit's XML.
    Junit,
    /// One JSON object a line.
    Json,
}

/// The words that name the forms, as a message lists them.
pub const FORMAT_WORDS: &str = "text, gnu, github, sarif, junit or json";

/// The form that a word names.
pub fn format_named(word: &str) -> Option<Format>
    ensures { result ≡ spec.format_named word.now }
{
    match word {
        "text" => Some(Format::Text),
        "gnu" => Some(Format::Gnu),
        "github" => Some(Format::Github),
        "sarif" => Some(Format::Sarif),
        "junit" => Some(Format::Junit),
        "json" => Some(Format::Json),
        _ => None,
    }
}
