//! A map that is made of its parts, and not read from a text.
ghost use Rattle.std.specs.Prelude.{◌≡◌, IfOk, option_copied};
ghost use Rattle.smap_record.specs.Listings.{IsListing};
ghost use Rattle.smap_record.specs.Making.{listing_by};

use crate::flat::copied;
use crate::labels::{OwnLabels, labels_of};
use crate::listing::Listing;
use crate::map::SourceMap;
use crate::sources::Sources;
use smap_mappings::Token;
use std::alloc::{AllocError, Global};

impl SourceMap {
    /// The map that has the labels of another one, and lists these sources, names and mappings. What it lists
    /// must be a listing: at most 2,147,483,647 sources and as many names, mappings that are sorted and
    /// encodable ([`is_encodable`](smap_mappings::is_encodable)), and their indices those of listed sources
    /// and names.
    ///
    /// # Errors
    ///
    /// `AllocError`.
    pub fn of_parts(
        alloc: Global,
        labels: &SourceMap,
        sources: Sources,
        names: Vec<String>,
        tokens: Vec<Token>,
    ) -> Result<SourceMap, AllocError>
        requires { IsListing (listing_by sources names.items tokens.items) }
        ensures { IfOk result (λ m. m ≡ record {
          labels = labels.now.labels;
          listing = listing_by sources names.items tokens.items;
        }) }
    {
        let labels = labels_of(alloc, labels)?;
        let listing = Listing {
            sources,
            names,
            tokens,
        };
        Ok(SourceMap::new(labels, listing))
    }

    /// The map of a generated file of this name, or of none, that lists these sources, names and mappings.
    /// What it lists must be a listing, as for [`of_parts`](SourceMap::of_parts).
    ///
    /// # Errors
    ///
    /// `AllocError`.
    pub fn of_file(
        alloc: Global,
        file: Option<&str>,
        sources: Sources,
        names: Vec<String>,
        tokens: Vec<Token>,
    ) -> Result<SourceMap, AllocError>
        requires { IsListing (listing_by sources names.items tokens.items) }
        ensures { IfOk result (λ m. m ≡ record {
          labels = record { file = option_copied file.entry };
          listing = listing_by sources names.items tokens.items;
        }) }
    {
        let file = copied(alloc, file)?;
        let listing = Listing {
            sources,
            names,
            tokens,
        };
        Ok(SourceMap::new(OwnLabels { file }, listing))
    }
}
