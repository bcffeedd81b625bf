//! One map that is refused: repaired, and rewritten if that is wanted.
ghost use Rattle.std.specs.Prelude.{◌≡◌, IfOk, MatchResult, string_bytes};
ghost use Rattle.smap_map_files.specs.Given.{IsRepairOf};
ghost use Rattle.smap_maps_run.specs.Judging.{IsRefusedFor};
ghost use Rattle.smap_maps_run.specs.Looking.{IsFileOf, IsMendedAs, IsMendedTo, IsOutcomeOf, IsUnmendedAs};

use crate::deciding::Work;
use crate::looking::{Case, MapFile, plain};
use crate::{Failure, Outcome, Verdict, refused_for};
use smap_map_files::MapText;
use smap_record::{Fault, Limits};
use smap_repair::{Repair, Repaired, proposal, repair_text, sentence};
use smap_system::Disk;
use std::alloc::{AllocError, Global};

/// What is said of a repair that is made, or that `--write` would make.
fn said_of(alloc: Global, repair: &Repair, write: bool) -> Result<String, AllocError> {
    if write {
        return sentence(alloc, repair);
    }
    let proposal = proposal(alloc, repair)?;
    let proposal = proposal.as_str();
    format!(in alloc; "{proposal} (--write)")
}

fn sentences(alloc: Global, repairs: &[Repair], write: bool) -> Result<Vec<String>, AllocError> {
    let mut all = Vec::with_capacity(alloc, repairs.len())?;
    for repair in repairs {
        all.push(said_of(alloc, repair, write)?)?;
    }
    Ok(all)
}

/// The fault that repairs leave, if it is another one.
fn left_text(
    alloc: Global,
    fault: &Fault,
    left: &Option<Fault>,
) -> Result<Vec<String>, AllocError> {
    let mut all = Vec::new(alloc);
    if let Some(left) = left {
        if left != fault {
            all.push(format!(in alloc; "{left}")?)?;
        }
    }
    Ok(all)
}

/// A map that stays refused, with the fault that repairs would leave.
fn refused(alloc: Global, text: &MapText<'_>, fault: Fault, left: &Option<Fault>) -> Outcome
    ensures { IsRefusedFor text.now.base.now text.now.url_bytes text.now.bytes.now fault result.verdict }
{
    match left_text(alloc, &fault, left) {
        Ok(changes) => Outcome {
            verdict: refused_for(alloc, text, fault),
            drops: Vec::new(alloc),
            changes,
        },
        Err(_) => plain(alloc, Verdict::Failed(Failure::Memory)),
    }
}

/// What `repair_text` answers of a text.
fn repair_of(alloc: Global, text: &MapText<'_>) -> Result<Repaired, AllocError>
    ensures { IfOk result (IsRepairOf text.now.base.now text.now.url_bytes text.now.bytes.now) }
{
    repair_text(
        alloc,
        text.bytes,
        text.base,
        Limits::usual(),
        text.url_bytes,
    )
}

/// What becomes of a text: the mended one with what is said of that, or what the map is without a repair.
fn mended(alloc: Global, text: &MapText<'_>, write: bool) -> Result<(Vec<u8>, Vec<String>), Outcome>
    ensures { MatchResult result
        (λ m. IsMendedTo text.now.base.now text.now.url_bytes text.now.bytes.now m.0.items)
        (λ o. IsUnmendedAs text.now.base.now text.now.url_bytes text.now.bytes.now o.verdict) }
{
    match repair_of(alloc, text) {
        Ok(Repaired::Sound) => Err(plain(alloc, Verdict::Unchanged)),
        Ok(Repaired::LongUrls) => Err(plain(alloc, Verdict::LongUrls(text.url_bytes))),
        Ok(Repaired::Refused { fault, left }) => Err(refused(alloc, text, fault, &left)),
        Ok(Repaired::Mended { text: new, repairs }) => match sentences(alloc, &repairs, write) {
            Ok(sentences) => Ok((new, sentences)),
            Err(_) => Err(plain(alloc, Verdict::Failed(Failure::Memory))),
        },
        Err(_) => Err(plain(alloc, Verdict::Failed(Failure::Memory))),
    }
}

/// What becomes of a map, whose file is this, once it is repaired, and rewritten if that is wanted.
pub(crate) fn repaired<D: Disk>(case: &Case<'_, D>, file: &MapFile, write: bool) -> Outcome
    requires file { IsFileOf (D.held case.now.disk.now) (string_bytes case.now.target.now.file)
        case.now.target.now.url.items file.now }
    requires work { case.now.work ≡ Work.Repair write }
    ensures { IsMendedAs write file.now.base case.now.url_bytes file.now.bytes.items result.verdict }
{
    let text = MapText {
        bytes: &file.bytes,
        base: &file.base,
        url_bytes: case.url_bytes,
        is_file: true,
    };
    let (text, changes) = match mended(case.alloc, &text, write) {
        Ok(mended) => mended,
        Err(outcome) => return outcome,
    };
    let verdict = if write {
        case.replaced(file.stamp, &text)
    } else {
        Verdict::Changed
    };
    Outcome {
        verdict,
        drops: Vec::new(case.alloc),
        changes,
    }
}
