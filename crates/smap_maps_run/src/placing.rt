//! Why a map is refused, and where in its text.
ghost use Rattle.std.specs.Prelude.{◌≡◌, IfOk, IfSome};
ghost use Rattle.smap_maps_run.specs.Judging.{IsJudgedFor, IsPlaceOf, IsRefusedFor, IsTold};

use crate::outcome::{Failure, Refusal, TextPlace, Verdict};
use smap_fault_places::{point_of, range_of};
use smap_map_files::MapText;
use smap_record::{Fault, ReadError};
use std::alloc::{AllocError, Global};

/// Where in the text of a map its fault is.
fn place_in(alloc: Global, bytes: &[u8], fault: &Fault) -> Result<Option<TextPlace>, AllocError>
    ensures { IfOk result (λ o. IfSome o (IsPlaceOf bytes.now fault.now)) }
{
    match range_of(alloc, bytes, fault)? {
        Some(range) => Ok(Some(TextPlace {
            range,
            point: point_of(bytes, range.start),
        })),
        None => Ok(None),
    }
}

/// What a text is that is refused for this fault.
fn told(alloc: Global, text: &MapText<'_>, fault: Fault) -> Result<Refusal, AllocError>
    ensures { IfOk result (λ why. (why.fault ≡ fault)
        × IsTold text.now.base.now text.now.url_bytes text.now.bytes.now why) }
{
    let detail = text.detail(alloc, &fault)?;
    let place = place_in(alloc, text.bytes, &fault)?;
    Ok(Refusal {
        fault,
        detail,
        place,
    })
}

/// What a text is that is refused for this fault: refused, with what is wrong and where, or failed with
/// [`Failure::Memory`].
pub fn refused_for(alloc: Global, text: &MapText<'_>, fault: Fault) -> Verdict
    ensures { IsRefusedFor text.now.base.now text.now.url_bytes text.now.bytes.now fault result }
{
    match told(alloc, text, fault) {
        Ok(why) => Verdict::Refused(why),
        Err(_) => Verdict::Failed(Failure::Memory),
    }
}

/// What a text is that isn't read: refused as by [`refused_for`], or failed with [`Failure::Memory`].
pub fn unread(alloc: Global, text: &MapText<'_>, error: ReadError) -> Verdict
    ensures { IsJudgedFor text.now.base.now text.now.url_bytes text.now.bytes.now error result }
{
    match error {
        ReadError::Refused(fault) => refused_for(alloc, text, fault),
        ReadError::Memory => Verdict::Failed(Failure::Memory),
    }
}
