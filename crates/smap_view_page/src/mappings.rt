//! The mappings of a map as a text of numbers.
ghost use Rattle.std.specs.Prelude.{◌≡◌, ◌<◌, length, IfOk, string_bytes};
ghost use Rattle.smap_mappings.specs.Position.{POSITIONS};
ghost use Rattle.smap_record.specs.Listings.{IsListedOriginal, IsListedToken};
ghost use Rattle.smap_view_page.specs.Places as spec;

use crate::steps::{Last, Origin, Place, push_mapping};
use smap_mappings::{Original, Token};
use smap_record::SourceMap;
use std::alloc::{AllocError, Global};

/// Where a mapping leads. The number of its source is the record's, that of its name the list's.
#[tactic(auto, using(crate::proofs::PlaceLemmas::few, crate::proofs::PlaceLemmas::listed_number))]
fn origin(map: &SourceMap, original: Original) -> Origin
    requires listed { IsListedOriginal map.now.listing original }
    requires few_sources { length map.now.listing.sources < POSITIONS }
    ensures { result ≡ spec.origin map.now original }
{
    Origin {
        source: map.listed(original.source as usize) as u32,
        line: original.line,
        column: original.column,
        name: original.name,
    }
}

fn place(map: &SourceMap, token: Token) -> Place
    requires listed { IsListedToken map.now.listing token }
    requires few_sources { length map.now.listing.sources < POSITIONS }
    ensures { result ≡ spec.place map.now token }
{
    let original = match token.original {
        Some(original) => Some(origin(map, original)),
        None => None,
    };
    Place {
        line: token.line,
        column: token.column,
        original,
    }
}

/// The mappings as characters, each of which stands for a number (`docs/OUTPUT.md`, "The page of
/// `smap-view`").
///
/// # Errors
///
/// `AllocError`.
pub fn mappings_text(alloc: Global, map: &SourceMap) -> Result<String, AllocError>
    ensures { IfOk result (λ t. string_bytes t ≡ spec.mappings_text map.now) }
{
    let mut text = String::new(alloc);
    let mut last = Last::new();
    for number in 0..map.token_count() {
        let place = place(map, map.listed_token(number));
        last = push_mapping(&mut text, last, place)?;
    }
    Ok(text)
}
