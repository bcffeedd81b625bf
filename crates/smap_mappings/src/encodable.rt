//! Which tokens have a mappings string.
ghost use Rattle.std.specs.Prelude.{◌≡◌, ◌↔◌, IsTrue};
ghost use Rattle.smap_mappings.specs.Text.{IsEncodable, IsOriginal, IsPlaced};

use crate::arrangement::never_falls;
use crate::running::POSITION_LIMIT;
use crate::token::{MAX_LINES, Original, Token};

fn is_original(original: &Original) -> bool
    ensures { IsTrue result ↔ IsOriginal original.now }
{
    original.source < POSITION_LIMIT
        && original.line < POSITION_LIMIT
        && original.column < POSITION_LIMIT
        && original.name.is_none_or(|name| name < POSITION_LIMIT)
}

fn is_placed(token: &Token) -> bool
    ensures { IsTrue result ↔ IsPlaced token.now }
{
    token.line < MAX_LINES
        && token.column < POSITION_LIMIT
        && token.original.is_none_or(|original| is_original(&original))
}

/// Whether [`encode`](crate::encode) has a string for these tokens: their positions never fall, lines are
/// below 16,777,216, and all other numbers are at most 2,147,483,647. What [`decode`](crate::decode)
/// answers always is.
pub fn is_encodable(tokens: &[Token]) -> bool
    ensures { IsTrue result ↔ IsEncodable tokens.now }
{
    never_falls(tokens) && tokens.iter().all(|token| is_placed(token))
}
