//! A report in any form.
ghost use Rattle.std.specs.Prelude.{◌≡◌, IfOk, string_bytes};
ghost use Rattle.smap_report.specs.Reports as spec;

use crate::findings::Report;
use crate::formats::Format;
use crate::junit::junit;
use crate::lines::{LineForm, lines};
use crate::sarif::sarif;
use crate::text::text;
use std::alloc::{AllocError, Global};

/// A report in this form, its lines ended by line feeds. A finding whose rule the list doesn't have is one of
/// the rule `unknown`.
///
/// - `Text`: the findings in their order, each in a line of level, place, message and rule; above them the
///   name of their file, wherever it is another one than before, so findings are best given file by file. The
///   last line counts findings and files.
/// - `Gnu`: the same as `FILE:LINE:COLUMN: level: message [rule]`, without a place
///   `FILE: level: message [rule]`; with nothing found, an empty text.
/// - `Github`: `::error file=..,line=..,col=..,title=rule::message`, or `::warning` or `::notice`, with the
///   escapes of GitHub's toolkit.
/// - `Json`: for each finding an object in a line of its own (JSON Lines), with the members `column`, `file`,
///   `level`, `line`, `message` and `rule`. `line` and `column` are numbers or both `null`.
/// - `Sarif`: a log of SARIF 2.1.0 with one run, in one line. A path is percent-encoded; a relative one stays
///   relative, an absolute one becomes a `file:` URI. Results of rules that aren't listed have the index -1.
/// - `Junit`: a suite with a test case for each file that was looked at, and for each other one that has
///   findings. Errors and warnings are lines of the case's failure, notes are lines of its output. U+FFFE and
///   U+FFFF are written as U+FFFD. The time that it takes is proportional to the number of files times that
///   of findings.
///
/// In each form control characters, and those that turn the direction of text, are written as `\u001b`,
/// unless the form has an escape of its own for them. In `Json` and `Sarif` that is JSON's escape.
///
/// # Errors
///
/// `AllocError`.
pub fn report_text(alloc: Global, report: &Report<'_>, format: Format) -> Result<String, AllocError>
    ensures { IfOk result (λ t. string_bytes t ≡ spec.report_text report.now format) }
{
    match format {
        Format::Text => text(alloc, report),
        Format::Gnu => lines(alloc, LineForm::Gnu, report),
        Format::Github => lines(alloc, LineForm::Github, report),
        Format::Sarif => sarif(alloc, report),
        Format::Junit => junit(alloc, report),
        Format::Json => lines(alloc, LineForm::Json, report),
    }
}
