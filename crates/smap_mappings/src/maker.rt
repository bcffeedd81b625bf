//! Tokens that are added one by one, in any order.
ghost use Rattle.std.specs.Prelude.{◌≡◌, ◌++◌, ◌∷◌, [], Err, IfOk, OnOk, OnErr, None, Some};
ghost use Rattle.std.specs.List.{AllByRecursion};
ghost use Rattle.smap_mappings.specs.Arrangement.{arranged};
ghost use Rattle.smap_mappings.specs.Making.{name_fault, original_fault, token_fault};
ghost use Rattle.smap_mappings.specs.Text.{IsEncodable, IsPlaced};
ghost use Rattle.smap_mappings.specs.declared.maker.AddError.TheVariants.{Refused};

use crate::error::{Memory, SegmentKind};
use crate::running::POSITION_LIMIT;
use crate::token::{Bounds, Original, Token};
use crate::token_list::TokenList;
use std::alloc::Global;
use std::marker::Model;

/// Why a token isn't added.
#[derive(Clone, Copy, Debug, PartialEq, Eq)]
pub enum AddError {
    /// The first of its numbers that is out of bounds: `GeneratedLine`, `Column`, `Source`, `OriginalLine`,
    /// `OriginalColumn` or `Name`.
    Refused(SegmentKind),
    /// Out of memory.
    Memory,
}

fn fault_of_name(names: u32, name: Option<u32>) -> Option<SegmentKind>
    ensures { result ≡ name_fault names name }
{
    match name {
        Some(n) if n >= names => Some(SegmentKind::Name),
        _ => None,
    }
}

fn fault_of_original(bounds: &Bounds, o: Original) -> Option<SegmentKind>
    ensures { result ≡ original_fault bounds.now o }
{
    if o.source >= bounds.sources {
        return Some(SegmentKind::Source);
    }
    if o.line >= POSITION_LIMIT {
        return Some(SegmentKind::OriginalLine);
    }
    if o.column >= POSITION_LIMIT {
        return Some(SegmentKind::OriginalColumn);
    }
    fault_of_name(bounds.names, o.name)
}

/// Why [`Maker::add`] would refuse the token under these bounds, if it would.
pub fn fault_of_token(bounds: &Bounds, token: Token) -> Option<SegmentKind>
    ensures { result ≡ token_fault bounds.now token }
{
    if token.line >= bounds.lines {
        return Some(SegmentKind::GeneratedLine);
    }
    if token.column >= POSITION_LIMIT {
        return Some(SegmentKind::Column);
    }
    match token.original {
        None => None,
        Some(original) => fault_of_original(bounds, original),
    }
}

/// Tokens that are added one by one, in any order.
#[derive(Drop)]
pub struct Maker {
    tokens: TokenList,
}

impl Model for Maker {
    ghost use Rattle.std.specs.Prelude.{List};
    ghost use Rattle.smap_mappings.specs.declared.token.Token.{Token};

    ghost Value = { List Token };

    ghost view = { λ m. m.tokens.list.items };
}

impl Maker {
    /// None yet, which takes no memory.
    pub fn new(alloc: Global) -> Maker
        ensures { result ≡ [] }
    {
        Maker {
            tokens: TokenList::new(alloc),
        }
    }

    /// Adds a token after the others, unless one of its numbers is out of bounds. Of the bounds the start
    /// doesn't matter.
    ///
    /// # Errors
    ///
    /// `Refused`; `Memory`. Nothing is added then.
    pub fn add(&mut self, bounds: &Bounds, token: Token) -> Result<(), AddError>
        ensures added { OnOk result (self.new ≡ self.old ++ token ∷ []) }
        ensures allowed { OnOk result (token_fault bounds.now token ≡ None) }
        ensures refused { (k : SegmentKind) → result ≡ Err (Refused k)
            → token_fault bounds.now token ≡ Some k }
        ensures kept { OnErr result (self.new ≡ self.old) }
    {
        if let Some(kind) = fault_of_token(bounds, token) {
            return Err(AddError::Refused(kind));
        }
        match self.tokens.push(token) {
            Ok(()) => Ok(()),
            Err(_) => Err(AddError::Memory),
        }
    }

    /// The tokens, sorted by generated line and column; those at one position are in the order in which they
    /// were added. They are sorted only where a position falls, which may take more memory.
    ///
    /// # Errors
    ///
    /// `Memory`.
    #[tactic(auto, using(crate::proofs::DecodedLemmas::arranged_encodable))]
    pub fn finish(self) -> Result<Vec<Token>, Memory>
        ensures arranged { IfOk result (λ v. v.items ≡ arranged self) }
        ensures encodable { AllByRecursion IsPlaced self → IfOk result (λ v. IsEncodable v.items) }
    {
        self.tokens.arranged()
    }
}
