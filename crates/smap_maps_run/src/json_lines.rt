//! The line of JSON for a map. `docs/OUTPUT.md`, "smap-maps", has its members; what is text there is written
//! by `serde_json`.
ghost use Rattle.std.specs.Prelude.{◌≡◌, IfOk, map, option_map, string_bytes};
ghost use Rattle.serde_json.specs.Data.{array, string};
ghost use Rattle.serde_json.specs.View.{items_of, view};
ghost use Rattle.smap_maps_run.specs.JsonLines as spec;

use crate::outcome::{Failure, Outcome, TextPlace, Verdict};
use serde_json::Value;
use smap_mappings::SegmentPlace;
use smap_record::{Fault, Path};
use std::alloc::{AllocError, Global};

/// What a failure is called.
pub(crate) fn failure_text(failure: Failure) -> &'static str
    ensures { result.now ≡ spec.failure_text failure }
{
    match failure {
        Failure::Unread => "cannot read it",
        Failure::TooLong => "input too long",
        Failure::Unwritable => "cannot write it",
        Failure::Folder => "cannot write in its folder",
        Failure::NotWritten => "write failed",
        Failure::Changed => "it changed meanwhile, and stays as it is",
        Failure::Memory => "out of memory",
    }
}

/// A text as JSON.
fn json_text(alloc: Global, text: &str) -> Result<String, AllocError>
    ensures { IfOk result (λ t. string_bytes t ≡ spec.json_text text.now) }
{
    let value = Value::String(String::from_str(alloc, text)?);
    value.to_string(alloc)
}

/// What is wrong with a map of which the URLs of the sources take more than this many bytes.
pub(crate) fn long_urls(alloc: Global, most: usize) -> Result<String, AllocError>
    ensures { IfOk result (λ t. string_bytes t ≡ spec.long_urls most) }
{
    format!(in alloc; "the URLs of its sources take more than {most} bytes")
}

/// What is wrong with a map, without its place.
fn fault_message(alloc: Global, verdict: &Verdict) -> Result<Option<String>, AllocError>
    ensures { IfOk result (λ o. option_map string_bytes o ≡ spec.fault_message verdict.now) }
{
    match verdict {
        Verdict::Refused(why) => {
            let kind = why.fault.kind;
            Ok(Some(format!(in alloc; "{kind}")?))
        }
        Verdict::NotUrl => Ok(Some(String::from_str(alloc, "base is no URL")?)),
        Verdict::LongUrls(most) => Ok(Some(long_urls(alloc, *most)?)),
        Verdict::Failed(failure) => { Ok(Some(String::from_str(alloc, failure_text(*failure))?)) }
        _ => Ok(None),
    }
}

fn fault_text(alloc: Global, verdict: &Verdict) -> Result<String, AllocError>
    ensures { IfOk result (λ t. string_bytes t ≡ spec.fault_text verdict.now) }
{
    match fault_message(alloc, verdict)? {
        Some(words) => json_text(alloc, words.as_str()),
        None => String::from_str(alloc, "null"),
    }
}

/// The section that a fault is in.
fn section_text(alloc: Global, section: &Path) -> Result<String, AllocError>
    ensures { IfOk result (λ t. string_bytes t ≡ spec.section_text section.now) }
{
    let path = format!(in alloc; "{section}")?;
    let path = json_text(alloc, path.as_str())?;
    format!(in alloc; "\"section\":{path}")
}

/// The segment that a fault is in.
fn segment_text(alloc: Global, place: SegmentPlace) -> Result<String, AllocError>
    ensures { IfOk result (λ t. string_bytes t ≡ spec.segment_text place) }
{
    let SegmentPlace { line, segment } = place;
    format!(in alloc; "\"line\":{line},\"segment\":{segment}")
}

/// Where a fault outside of sections is.
fn outside(alloc: Global, place: Option<SegmentPlace>) -> Result<String, AllocError>
    ensures { IfOk result (λ t. string_bytes t ≡ spec.outside place) }
{
    let Some(place) = place else {
        return String::from_str(alloc, "null");
    };
    let segment = segment_text(alloc, place)?;
    format!(in alloc; "{{{segment}}}")
}

/// Where a fault in a section is.
fn within(alloc: Global, section: &Path, place: Option<SegmentPlace>) -> Result<String, AllocError>
    ensures { IfOk result (λ t. string_bytes t ≡ spec.within section.now place) }
{
    let section = section_text(alloc, section)?;
    let Some(place) = place else {
        return format!(in alloc; "{{{section}}}");
    };
    let segment = segment_text(alloc, place)?;
    format!(in alloc; "{{{section},{segment}}}")
}

/// The section and the segment that a fault is in, if it is in one of them.
fn place_text(alloc: Global, fault: &Fault) -> Result<String, AllocError>
    ensures { IfOk result (λ t. string_bytes t ≡ spec.place_text fault.now.section fault.now.place) }
{
    if fault.section.numbers().is_empty() {
        outside(alloc, fault.place)
    } else {
        within(alloc, &fault.section, fault.place)
    }
}

fn place_of(alloc: Global, verdict: &Verdict) -> Result<String, AllocError>
    ensures { IfOk result (λ t. string_bytes t ≡ spec.place_of verdict.now) }
{
    match verdict {
        Verdict::Refused(why) => place_text(alloc, &why.fault),
        _ => String::from_str(alloc, "null"),
    }
}

/// Where in the text of a map a fault is.
fn text_place(alloc: Global, place: Option<TextPlace>) -> Result<String, AllocError>
    ensures { IfOk result (λ t. string_bytes t ≡ spec.text_place place) }
{
    let Some(place) = place else {
        return String::from_str(alloc, ",\"line\":null,\"column\":null,\"range\":null");
    };
    let (line, column) = (place.point.line, place.point.column);
    let (start, end) = (place.range.start, place.range.end);
    format!(in alloc; ",\"line\":{line},\"column\":{column},\"range\":[{start},{end}]")
}

fn text_place_of(alloc: Global, verdict: &Verdict) -> Result<String, AllocError>
    ensures { IfOk result (λ t. string_bytes t ≡ spec.text_place_of verdict.now) }
{
    match verdict {
        Verdict::Refused(why) => text_place(alloc, why.place),
        _ => text_place(alloc, None),
    }
}

/// Some texts as an array of JSON.
fn array_of(alloc: Global, texts: &[String]) -> Result<Value, AllocError>
    ensures { IfOk result (λ v. view v ≡ array (items_of (map string (map string_bytes texts.now)))) }
{
    let mut values = Vec::with_capacity(alloc, texts.len())?;
    for text in texts {
        values.push(Value::String(text.clone()?))?;
    }
    Ok(Value::Array(values))
}

/// What a rewrite drops, if the command can rewrite.
#[tactic(auto, using(crate::proofs::WholeLemmas::strings_whole))]
fn drops_text(alloc: Global, drops: &[String], rewrites: bool) -> Result<String, AllocError>
    ensures { IfOk result (λ t. string_bytes t ≡ spec.drops_text rewrites (map string_bytes drops.now)) }
{
    if !rewrites {
        return Ok(String::new(alloc));
    }
    let drops = array_of(alloc, drops)?.to_string(alloc)?;
    format!(in alloc; ",\"drops\":{drops}")
}

/// The map's file, what became of it, and what is wrong.
fn front(alloc: Global, file: &str, verdict: &Verdict) -> Result<String, AllocError>
    ensures { IfOk result (λ t. string_bytes t ≡ spec.front file.now verdict.now) }
{
    let path = json_text(alloc, file)?;
    let status = verdict.name();
    let fault = fault_text(alloc, verdict)?;
    format!(in alloc; "{{\"path\":{path},\"status\":\"{status}\",\"fault\":{fault}")
}

/// Where that is, in the map and in its text.
fn places(alloc: Global, verdict: &Verdict) -> Result<String, AllocError>
    ensures { IfOk result (λ t. string_bytes t ≡ spec.places verdict.now) }
{
    let place = place_of(alloc, verdict)?;
    let text_place = text_place_of(alloc, verdict)?;
    format!(in alloc; ",\"place\":{place}{text_place}")
}

/// The line of JSON for a map, without its line feed; with what is dropped, if the command can rewrite.
/// `file` is the map's file, as it was given or found below a folder.
///
/// # Errors
///
/// `AllocError`.
pub fn json_line(
    alloc: Global,
    file: &str,
    outcome: &Outcome,
    rewrites: bool,
) -> Result<String, AllocError>
    ensures { IfOk result (λ t. string_bytes t ≡ spec.json_line file.now outcome.now rewrites) }
{
    let front = front(alloc, file, &outcome.verdict)?;
    let places = places(alloc, &outcome.verdict)?;
    let drops = drops_text(alloc, &outcome.drops, rewrites)?;
    format!(in alloc; "{front}{places}{drops}}}")
}
