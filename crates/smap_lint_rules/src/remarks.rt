//! What rules found in a map, in words.
ghost use Rattle.std.specs.Prelude.{◌≡◌, ◌++◌, OnOk, map as mapped, option_map, string_bytes};
ghost use Rattle.smap_lint_rules.specs.Findings as spec;

use crate::checks::Check;
use std::alloc::AllocError;

/// What a rule found in a map, in words.
#[derive(Drop)]
pub struct Remark {
    pub check: Check,
    pub message: String,
}

/// Adds what a rule found, if it found something.
#[tactic(auto, using(crate::proofs::MemberLemmas::map_push))]
pub(crate) fn add(
    found: &mut Vec<Remark>,
    check: Check,
    words: Option<String>,
) -> Result<(), AllocError>
    ensures { OnOk result (mapped spec.told found.new.items
        ≡ mapped spec.told found.old.items ++ spec.noted check (option_map string_bytes words)) }
{
    let Some(message) = words else {
        return Ok(());
    };
    match found.push(Remark { check, message }) {
        Ok(()) => Ok(()),
        Err(_) => Err(AllocError),
    }
}
