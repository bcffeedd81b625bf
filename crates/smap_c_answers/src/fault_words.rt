//! The words of a fault, and how long they are.
ghost use Rattle.std.specs.Prelude.{◌≡◌, ◌<◌, ◌≤◌, ◌^◌, All, length, string_bytes, IfOk};
ghost use Rattle.smap_record.specs.Messages.{fault_message};
ghost use Rattle.smap_c_answers.specs.FaultWords.{FaultFits, KindFits, PlaceFits};

use smap_mappings::{Memory, SegmentPlace};
use smap_record::{Fault, Kind};
use std::alloc::Global;

fn numbers_fit(numbers: &[usize])
    ensures { All (λ number. number < 2 ^ 64) numbers.now }
{
    for i in 0..numbers.len() {
        let _number = numbers[i];
    }
}

fn place_fits(place: Option<SegmentPlace>)
    ensures { PlaceFits place }
{
    if let Some(SegmentPlace { line, segment }) = place {
        let _numbers = (line, segment);
    }
}

fn kind_fits(kind: Kind)
    ensures { KindFits kind }
{
    match kind {
        Kind::SourceUrl(_) | Kind::UnstableUrl(_) => {}
        Kind::Number(_, _) | Kind::Count(_) => {}
        _ => {}
    }
}

/// The numbers of a fault fit their types, which bounds its words. This does nothing when it runs.
fn fault_fits(fault: &Fault)
    ensures { FaultFits fault.now }
{
    numbers_fit(fault.section.numbers());
    place_fits(fault.place);
    kind_fits(fault.kind);
}

/// The words of a fault, which are at most 260 bytes.
///
/// # Errors
///
/// Out of memory.
#[tactic(auto, using(crate::proofs::FaultLemmas::message_is_short))]
pub fn fault_text(alloc: Global, fault: &Fault) -> Result<String, Memory>
    ensures words { IfOk result (λ text. string_bytes text ≡ fault_message fault.now) }
    ensures short { length (fault_message fault.now) ≤ 260 }
{
    fault_fits(fault);
    format!(in alloc; "{fault}")
}
