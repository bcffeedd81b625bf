//! Sorting tokens by generated line and column.
ghost use Rattle.std.specs.Prelude.{◌≡◌, ◌↔◌, IsTrue, IsOk, OnOk, map};
ghost use Rattle.smap_mappings.specs.Position.{NeverFalls, position_of};
ghost use Rattle.smap_mappings.specs.Arrangement.{arranged};

use crate::error::Memory;
use crate::token::Token;

/// Whether no token is before the previous one.
pub(crate) fn never_falls(tokens: &[Token]) -> bool
    ensures { IsTrue result ↔ NeverFalls (map position_of tokens.now) }
{
    for i in 1..tokens.len() {
        if tokens[i].position() < tokens[i - 1].position() {
            return false;
        }
    }
    true
}

/// Sorts the tokens, keeping the order of those at one position. Most strings are in order already: they need
/// no sort, and no memory for it.
pub(crate) fn arrange(tokens: &mut Vec<Token>) -> Result<(), Memory>
    ensures arranged { OnOk result (tokens.new.items ≡ arranged tokens.old.items) }
    ensures fits { NeverFalls (map position_of tokens.old.items) → IsOk result }
{
    if never_falls(tokens) {
        return Ok(());
    }
    tokens.sort_by(|a, b| a.position().cmp(&b.position()))?;
    Ok(())
}
