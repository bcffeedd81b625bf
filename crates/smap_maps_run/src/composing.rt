//! `smap-maps compose`: each map composed with those that its sources lead to.
ghost use Rattle.std.specs.Prelude.{◌≡◌, IfOk, Ok, Some, cond, string_bytes, true};
ghost use Rattle.smap_canon.specs.Canonical.{canonical_text_in};
ghost use Rattle.smap_canon.specs.Layout.{form_asked};
ghost use Rattle.smap_compose.specs.Thinning.{thinned};
ghost use Rattle.smap_compose.specs.Using as using_of;
ghost use Rattle.smap_record.specs.Record.{record_of, usual};
ghost use Rattle.smap_record.specs.UrlBytes.{reading_within};
ghost use Rattle.smap_maps_run.specs.Composing as spec;
ghost use Rattle.smap_maps_run.specs.Composing.{IsClosedOver, IsComposedTo};
ghost use Rattle.smap_maps_run.specs.Looking.{IsFileOf};

use crate::deciding::{Deed, Work, decided};
use crate::forms::Form;
use crate::judging::map_of;
use crate::looking::{Case, MapFile, differences, plain};
use crate::replacing::put;
use crate::reporting::report;
use crate::targets::{Target, targets_of};
use crate::{Failure, Outcome, Verdict, unread};
use smap_canon::canonical_in;
use smap_chains::{ChainAsked, Closed, MoreMaps, Remarks, chain_of, close, remarks_of};
use smap_command_line::maps::{MapsWords, Rewrite};
use smap_compose::{only_used, thin};
use smap_map_files::MapText;
use smap_record::{Base, SourceMap};
use smap_system::{Disk, Host, Stop, Watched};
use std::alloc::{AllocError, Global};
use std::io::Write;

/// What is asked of a run.
#[derive(Clone, Copy)]
struct Job<'a> {
    rewrite: Rewrite,
    more: MoreMaps<'a>,
    /// Whether mappings are left out that change no position's original.
    thin: bool,
    /// Whether sources are left out that no mapping has.
    used: bool,
    /// How many bytes the URLs of a map's sources may take.
    url_bytes: usize,
}

/// What became of a map.
#[derive(Drop)]
struct Composed {
    outcome: Outcome,
    /// What is said of its sources.
    remarks: Remarks,
}

/// A map without the mappings that change nothing, if that is asked for.
fn thinned_if(alloc: Global, map: SourceMap, asked: bool) -> Result<SourceMap, AllocError>
    ensures { IfOk result (λ m. record_of m ≡ cond asked (thinned (record_of map)) (record_of map)) }
{
    if asked { thin(alloc, &map) } else { Ok(map) }
}

/// A map without the sources that no mapping has, if that is asked for.
fn used_if(alloc: Global, map: SourceMap, asked: bool) -> Result<SourceMap, AllocError>
    ensures { IfOk result (λ m. record_of m ≡ cond asked (using_of.used (record_of map)) (record_of map)) }
{
    if asked {
        only_used(alloc, &map)
    } else {
        Ok(map)
    }
}

/// The canonical text of a map as it is asked for.
fn finished_text(
    alloc: Global,
    base: &Base,
    map: SourceMap,
    job: Job<'_>,
) -> Result<Vec<u8>, AllocError>
    ensures { IfOk result (λ text. text.items ≡ canonical_text_in (form_asked true) base.now
        (spec.finished job.entry.thin job.entry.used (record_of map))) }
{
    let map = thinned_if(alloc, map, job.thin)?;
    let map = used_if(alloc, map, job.used)?;
    match canonical_in(alloc, &map, base, true) {
        Ok(text) => Ok(text),
        Err(_) => Err(AllocError),
    }
}

/// Gives the file of a map this text.
fn rewritten<D: Disk>(case: &Case<'_, D>, file: &MapFile, text: &[u8]) -> Verdict
    requires file { IsFileOf (D.held case.now.disk.now) (string_bytes case.now.target.now.file)
        case.now.target.now.url.items file.now }
    requires text { IsComposedTo (D.held case.now.disk.now) file.now.base case.now.url_bytes
        file.now.bytes.items text.now }
{
    let path = case.target.file.as_str();
    match put(case.alloc, case.disk, path, file.stamp, text) {
        Ok(()) => Verdict::Rewritten,
        Err(failure) => Verdict::Failed(failure),
    }
}

/// What becomes of a map where its composition is this text, of other bytes.
fn changed<D: Disk>(case: &Case<'_, D>, file: &MapFile, rewrite: Rewrite, text: &[u8]) -> Outcome
    requires file { IsFileOf (D.held case.now.disk.now) (string_bytes case.now.target.now.file)
        case.now.target.now.url.items file.now }
    requires text { IsComposedTo (D.held case.now.disk.now) file.now.base case.now.url_bytes
        file.now.bytes.items text.now }
{
    let alloc = case.alloc;
    let shows = rewrite == Rewrite::Diff;
    let Ok((drops, changes)) = differences(alloc, &file.bytes, text, shows) else {
        return plain(alloc, Verdict::Failed(Failure::Memory));
    };
    let verdict = match decided(rewrite, !drops.is_empty()) {
        Deed::Tell | Deed::Show => Verdict::Changed,
        Deed::Keep => Verdict::Kept,
        Deed::Write => rewritten(case, file, text),
    };
    Outcome {
        verdict,
        drops,
        changes,
    }
}

/// What becomes of a map whose composition with those that its sources lead to is this.
fn closed_outcome<D: Disk>(
    case: &Case<'_, D>,
    file: &MapFile,
    map: &SourceMap,
    closed: SourceMap,
    job: Job<'_>,
) -> Result<Outcome, AllocError>
    requires file { IsFileOf (D.held case.now.disk.now) (string_bytes case.now.target.now.file)
        case.now.target.now.url.items file.now }
    requires reads { reading_within file.now.base usual case.now.url_bytes file.now.bytes.items
        ≡ Ok (Some map.now) }
    requires closed { IsClosedOver (D.held case.now.disk.now) map.now closed }
{
    let text = finished_text(case.alloc, &file.base, closed, job)?;
    if text.as_slice() == file.bytes.as_slice() {
        return Ok(plain(case.alloc, Verdict::Unchanged));
    }
    Ok(changed(case, file, job.rewrite, &text))
}

/// A map of whose sources nothing is said.
fn alone(alloc: Global, verdict: Verdict) -> Composed {
    Composed {
        outcome: plain(alloc, verdict),
        remarks: Remarks {
            notes: Vec::new(alloc),
            faults: Vec::new(alloc),
        },
    }
}

/// What becomes of a map, whose file is this, with the maps of its sources.
fn with_chain<D: Disk>(
    case: &Case<'_, D>,
    file: &MapFile,
    map: &SourceMap,
    job: Job<'_>,
) -> Result<Composed, AllocError>
    requires file { IsFileOf (D.held case.now.disk.now) (string_bytes case.now.target.now.file)
        case.now.target.now.url.items file.now }
    requires reads { reading_within file.now.base usual case.now.url_bytes file.now.bytes.items
        ≡ Ok (Some map.now) }
{
    let alloc = case.alloc;
    let asked = ChainAsked {
        home: case.target.home(),
        more: job.more,
        url_bytes: job.url_bytes,
    };
    let chain = chain_of(
        alloc,
        case.disk,
        asked,
        case.target.script().as_bytes(),
        map,
    )?;
    let closed = close(alloc, map, &chain)?;
    let remarks = remarks_of(alloc, map, chain, &closed)?;
    let outcome = match closed {
        Closed::Map(closed) => closed_outcome(case, file, map, closed, job)?,
        Closed::Same | Closed::Endless | Closed::TooMuch => plain(alloc, Verdict::Unchanged),
    };
    Ok(Composed { outcome, remarks })
}

/// What becomes of a map that is looked at.
fn looked_at<D: Disk>(case: &Case<'_, D>, job: Job<'_>) -> Composed {
    let alloc = case.alloc;
    let file = match case.file() {
        Ok(file) => file,
        Err(verdict) => return alone(alloc, verdict),
    };
    let map = match map_of(alloc, &file.base, &file.bytes, case.url_bytes) {
        Ok(Some(map)) => map,
        Ok(None) => return alone(alloc, Verdict::LongUrls(case.url_bytes)),
        Err(error) => {
            let text = MapText {
                bytes: &file.bytes,
                base: &file.base,
                url_bytes: case.url_bytes,
                is_file: true,
            };
            return alone(alloc, unread(alloc, &text, error));
        }
    };
    match with_chain(case, &file, &map, job) {
        Ok(made) => made,
        Err(_) => alone(alloc, Verdict::Failed(Failure::Memory)),
    }
}

/// Composes a map, and says what became of it. Answers the status of that.
fn compose_map<E: Eprint + AllocGlobal, D: Disk, W: Write>(
    host: &Host<'_, E, D>,
    job: Job<'_>,
    target: &Target,
    writer: &mut Watched<W>,
) -> Result<u8, Stop> {
    let work = Work::Compare {
        form: Form::Canonical { relative: true },
        rewrite: job.rewrite,
    };
    let case = Case {
        alloc: host.alloc(),
        disk: host.disk,
        target,
        work,
        url_bytes: job.url_bytes,
    };
    let Composed { outcome, remarks } = looked_at(&case, job);
    for remark in remarks.notes.iter().chain(&remarks.faults) {
        host.say_of(target.file.as_str(), remark.as_str());
    }
    report(host, work, target.file.as_str(), &outcome, writer)?;
    let least = if remarks.faults.is_empty() { 0 } else { 1 };
    Ok(outcome.verdict.status().max(least))
}

/// The values of `--map`: a URL, which may hold `=`, and a path.
fn maps_given<'a>(
    alloc: Global,
    asked: &MapsWords<'a>,
) -> Result<Vec<(&'a str, &'a str)>, AllocError> {
    let mut given = Vec::new(alloc);
    for word in &asked.options.texts(alloc, "map")? {
        given.push(word.rsplit_once('=').unwrap_or((*word, "")))?;
    }
    Ok(given)
}

/// Composes the maps that the paths name, each with those of its sources. Answers the status of a run that
/// came to its end: the greatest of all maps'.
pub(crate) fn compose<E: Eprint + AllocGlobal, D: Disk, W: Write>(
    host: &Host<'_, E, D>,
    asked: &MapsWords<'_>,
    writer: &mut Watched<W>,
) -> Result<u8, Stop> {
    let targets = targets_of(host, None, &asked.paths)?;
    let given = maps_given(host.alloc(), asked)?;
    let job = Job {
        rewrite: asked.rewrite(),
        more: MoreMaps {
            beside: asked.options.has("beside"),
            given: &given,
        },
        thin: asked.options.has("thin"),
        used: asked.options.has("used"),
        url_bytes: asked.options.url_bytes(),
    };
    let mut worst = 0;
    for target in &targets {
        worst = compose_map(host, job, target, writer)?.max(worst);
    }
    Ok(worst)
}
