//! What is said of a map on standard error, and under which name.
ghost use Rattle.std.specs.Prelude.{◌≡◌, IfOk, option_copied, option_map, string_bytes};
ghost use Rattle.smap_maps_run.specs.Remarks as spec;

use crate::json_lines::{failure_text, long_urls};
use crate::outcome::{Outcome, Refusal, TextPlace, Verdict};
use smap_differences::shown_name;
use std::alloc::{AllocError, Global};

/// The names of members, as JSON writes them.
fn names_text(alloc: Global, names: &[String]) -> Result<String, AllocError>
    ensures { IfOk result (λ t. string_bytes t ≡ spec.names_text names.now) }
{
    let mut text = String::new(alloc);
    for (i, name) in names.iter().enumerate() {
        let name = shown_name(alloc, name.as_str())?;
        if i > 0 {
            text.push_str(", ")?;
        }
        text.push_str(name.as_str())?;
    }
    Ok(text)
}

/// What is said of a refused map, with the fault that repairs would leave, if that is told.
fn refusal_text(alloc: Global, why: &Refusal, left: Option<&String>) -> Result<String, AllocError>
    ensures { IfOk result (λ t. string_bytes t ≡ spec.refusal_text why.now (option_copied left.entry)) }
{
    let (fault, detail) = (&why.fault, why.detail.as_str());
    match left {
        Some(left) => {
            let left = left.as_str();
            format!(in alloc; "{fault}{detail}; once that is repaired: {left}")
        }
        None => format!(in alloc; "{fault}{detail}"),
    }
}

/// The name of a file with a place in it.
fn name_with(alloc: Global, file: &str, place: Option<TextPlace>) -> Result<String, AllocError>
    ensures { IfOk result (λ t. string_bytes t ≡ spec.name_with file.now place) }
{
    let Some(place) = place else {
        return String::from_str(alloc, file);
    };
    let (line, column) = (place.point.line, place.point.column);
    format!(in alloc; "{file}:{line}:{column}")
}

/// The name under which something is said of a map: its file, with the line and the column of the fault that
/// it is refused for (`FILE:LINE:COLUMN`, both from 1), if that has a place.
///
/// # Errors
///
/// `AllocError`.
pub fn said_name(alloc: Global, file: &str, verdict: &Verdict) -> Result<String, AllocError>
    ensures { IfOk result (λ t. string_bytes t ≡ spec.said_name file.now verdict.now) }
{
    match verdict {
        Verdict::Refused(why) => name_with(alloc, file, why.place),
        _ => String::from_str(alloc, file),
    }
}

/// What is said of a map on standard error, if there is something to be said.
///
/// # Errors
///
/// `AllocError`.
pub fn remark(alloc: Global, outcome: &Outcome) -> Result<Option<String>, AllocError>
    ensures { IfOk result (λ o. option_map string_bytes o ≡ spec.remark outcome.now) }
{
    match &outcome.verdict {
        Verdict::Refused(why) => Ok(Some(refusal_text(alloc, why, outcome.changes.first())?)),
        Verdict::NotUrl => Ok(Some(String::from_str(alloc, "base is no URL")?)),
        Verdict::LongUrls(most) => {
            let fault = long_urls(alloc, *most)?;
            let fault = fault.as_str();
            Ok(Some(format!(in alloc; "{fault} (--url-bytes allows more)")?))
        }
        Verdict::Failed(failure) => { Ok(Some(String::from_str(alloc, failure_text(*failure))?)) }
        Verdict::Kept => {
            let names = names_text(alloc, &outcome.drops)?;
            let names = names.as_str();
            Ok(Some(format!(in alloc;
                "not rewritten, since that drops {names} (--drop allows it)"
            )?))
        }
        Verdict::Changed | Verdict::Rewritten if !outcome.drops.is_empty() => {
            let names = names_text(alloc, &outcome.drops)?;
            let names = names.as_str();
            Ok(Some(format!(in alloc; "drops {names}")?))
        }
        _ => Ok(None),
    }
}

/// Whether a map is named on the output.
pub fn is_named(verdict: &Verdict) -> bool
    ensures { result ≡ spec.is_named verdict.now }
{
    matches!(verdict, Verdict::Changed | Verdict::Rewritten)
}
