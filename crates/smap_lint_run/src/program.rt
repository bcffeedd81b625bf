//! The run.
use crate::asked::{LintAsked, levels_of};
use crate::book::Book;
use crate::visit::lint_folder;
use smap_lint_rules::RULES;
use smap_report::{Report, Rule, has_error, report_text};
use smap_system::{Disk, Host, Stop, Watched};
use std::io::Write;

/// Lints all folders by these rules.
fn lint_folders<E: Eprint + AllocGlobal, D: Disk>(
    host: &Host<'_, E, D>,
    rules: &[Rule],
    asked: &LintAsked<'_>,
) -> Result<Book, Stop> {
    let levels = levels_of(host, rules, asked)?;
    let mut book = Book::new(host.alloc(), levels, asked.min_mapped, asked.url_bytes);
    for given in &asked.folders {
        lint_folder(host, &mut book, given)?;
    }
    book.finish()?;
    Ok(book)
}

/// Lints what is asked for by these rules, and writes the report.
fn lint_by<E: Eprint + AllocGlobal, D: Disk, W: Write>(
    host: &Host<'_, E, D>,
    rules: &[Rule],
    asked: &LintAsked<'_>,
    writer: &mut Watched<W>,
) -> Result<(), Stop> {
    let book = lint_folders(host, rules, asked)?;
    let report = Report {
        tool: host.name,
        version: asked.version,
        rules,
        files: book.files.as_slice(),
        findings: book.findings.as_slice(),
    };
    let text = report_text(host.alloc(), &report, asked.format)?;
    host.write(text.as_str().as_bytes(), writer)?;
    if book.unread {
        return Err(Stop::Reported(3));
    }
    if has_error(report.findings) {
        return Err(Stop::Reported(1));
    }
    Ok(())
}

/// Lints what is asked for, and writes the report. What can't be read, and why a run ends early, is said on
/// standard error; a file that can't be read is left out, and the others are looked at.
///
/// # Errors
///
/// With status 1 where an error was found; 2 where a rule that was set is unknown, a path isn't there, or a
/// folder has no script and no map; 3 where something can't be read or written; where nobody reads the
/// report; and where memory ran out.
pub fn lint<E: Eprint + AllocGlobal, D: Disk, W: Write>(
    host: &Host<'_, E, D>,
    asked: &LintAsked<'_>,
    writer: &mut Watched<W>,
) -> Result<(), Stop> {
    lint_by(host, &RULES, asked, writer)
}
