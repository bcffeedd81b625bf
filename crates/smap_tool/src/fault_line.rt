//! The error line of a refused input.
ghost use Rattle.std.specs.Prelude.{◌≡◌, ◌∷◌, ◌++◌, [], string_bytes, IfOk};
ghost use Rattle.smap_tool.specs.FaultLine.{fault_line};

use smap_mappings::Memory;
use smap_record::Fault;
use std::alloc::Global;

/// The error line of a fault, without a line feed: `refused: `, and then the `Display` of the fault.
///
/// # Errors
///
/// `Memory`.
#[tactic(auto, unfolding(crate::specs::FaultLine::fault_line))]
pub fn fault_text(alloc: Global, fault: &Fault) -> Result<String, Memory>
    ensures { IfOk result (λ line. string_bytes line ≡ fault_line fault.now) }
{
    format!(in alloc; "refused: {fault}")
}

/// The same with its line feed, as it is written.
pub(crate) fn refusal(alloc: Global, fault: &Fault) -> Result<Vec<u8>, Memory>
    ensures { IfOk result (λ text. text.items ≡ fault_line fault.now ++ 10 ∷ []) }
{
    let mut text = fault_text(alloc, fault)?.into_bytes();
    text.push(b'\n')?;
    Ok(text)
}
