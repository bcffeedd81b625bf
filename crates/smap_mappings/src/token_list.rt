//! Tokens in the order of a mappings string, and whether one of them is before the previous one.
ghost use Rattle.std.specs.Prelude.{◌≡◌, ◌≤◌, ◌++◌, ◌∷◌, [], true, false, map, IfOk, OnOk, IsOk, OnErr};
ghost use Rattle.std.specs.Prelude.{vec_capacity, vec_len};
ghost use Rattle.smap_mappings.specs.Position.{NeverFalls, position_of};
ghost use Rattle.smap_mappings.specs.Arrangement.{arranged};
ghost use Rattle.smap_mappings.specs.Steps.{in_order};

use crate::arrangement::arrange;
use crate::error::Memory;
use crate::token::Token;
use std::alloc::Global;

/// The tokens of a mappings string in its order. Each is compared with the previous one when it is added, so
/// that no second pass is needed to see that they are in order, as most are.
#[derive(Drop)]
pub(crate) struct TokenList {
    list: Vec<Token>,
    falls: bool,
    ghost in_order: { falls ≡ false → in_order (map position_of list.items) ≡ true },
}

impl TokenList {
    /// No tokens yet, which takes no memory.
    pub(crate) fn new(alloc: Global) -> TokenList
        ensures { result.list.items ≡ [] }
    {
        TokenList {
            list: Vec::new(alloc),
            falls: false,
        }
    }

    /// No tokens yet, with capacity for `room` of them.
    pub(crate) fn with_capacity(alloc: Global, room: usize) -> Result<TokenList, Memory>
        ensures items { IfOk result (λ g. g.list.items ≡ []) }
        ensures room { IfOk result (λ g. room ≤ vec_capacity g.list) }
        ensures none { room ≡ 0 → IsOk result }
    {
        Ok(TokenList {
            list: Vec::with_capacity(alloc, room)?,
            falls: false,
        })
    }

    /// Adds a token.
    #[inline(always)]
    pub(crate) fn push(&mut self, token: Token) -> Result<(), Memory>
        ensures items { OnOk result (self.new.list.items ≡ self.old.list.items ++ token ∷ []) }
        ensures room { vec_capacity self.old.list ≤ vec_capacity self.new.list }
        ensures full { OnErr result (vec_capacity self.old.list ≤ vec_len self.old.list) }
        ensures kept { OnErr result (self.new.list.items ≡ self.old.list.items) }
    {
        let falls = is_before_last(&self.list, &token);
        self.list.push(token)?;
        if falls {
            self.falls = true;
        }
        Ok(())
    }

    /// The sorted tokens. They are sorted only if one of them is before the previous one.
    pub(crate) fn arranged(self) -> Result<Vec<Token>, Memory>
        ensures arranged { IfOk result (λ v. v.items ≡ arranged self.list.items) }
        ensures fits { NeverFalls (map position_of self.list.items) → IsOk result }
    {
        let TokenList { mut list, falls } = self;
        if falls {
            arrange(&mut list)?;
        }
        Ok(list)
    }
}

/// Whether the token is before the last one of the list.
#[inline(always)]
fn is_before_last(list: &[Token], token: &Token) -> bool
    ensures { result ≡ false → in_order (map position_of list.now) ≡ true
        → in_order (map position_of (list.now ++ token.now ∷ [])) ≡ true }
{
    if list.is_empty() {
        return false;
    }
    token.position() < list[list.len() - 1].position()
}
