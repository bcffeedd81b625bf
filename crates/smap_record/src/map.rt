//! A source map that was read. Every getter takes constant time and no memory.
ghost use Rattle.std.specs.Prelude.{◌≡◌, ◌<◌, length, slice_get, Some, IfOk, IfSome, option_map};
ghost use Rattle.smap_mappings.specs.Text.{line_count};
ghost use Rattle.smap_record.specs.Record.{record_of, origin_of};
ghost use Rattle.smap_record.specs.Listings.{IsListing, IsListedOriginal};
ghost use Rattle.smap_record.specs.MapView.{listing_of};
ghost use Rattle.smap_record.specs.Ends.{ended_map};
ghost use Rattle.smap_record.specs.Views.{entry_of_view, origin_of_view, mapping_of_view};

use crate::labels::OwnLabels;
use crate::listing::Listing;
use crate::view::{OriginalView, SourceView, TokenView};
use smap_mappings::{Original, Token, ended};
use std::alloc::{AllocError, Global};
use std::marker::Model;

/// A source map that was read: its labels, as [`file`], its sources and names as listed, and its mappings,
/// sorted by
/// generated line and column.
///
/// Two views of it have getters of their own. The *record* is what the map means, however it is written:
/// the distinct sources ([`source_count`], [`source`]) and the mappings with their sources and names
/// ([`token_count`], [`token`]). The *listing* is what the map lists: all sources and names, repeats
/// included ([`listed_count`], [`listed`], [`name_count`], [`name`]), and the mappings by indices into
/// these ([`listed_token`]).
///
/// [`file`]: SourceMap::file
/// [`source_count`]: SourceMap::source_count
/// [`source`]: SourceMap::source
/// [`token_count`]: SourceMap::token_count
/// [`token`]: SourceMap::token
/// [`listed_count`]: SourceMap::listed_count
/// [`listed`]: SourceMap::listed
/// [`name_count`]: SourceMap::name_count
/// [`name`]: SourceMap::name
/// [`listed_token`]: SourceMap::listed_token
pub struct SourceMap {
    pub(crate) labels: OwnLabels,
    listing: Listing,
}

// By hand: what lets go of a map then calls this, in place of letting go of each field, which would make each
// function with several exits longer to prove.
impl Drop for SourceMap {
    fn drop(self) {
        let SourceMap { labels, listing } = self;
        drop(labels);
        drop(listing);
    }
}

impl Model for SourceMap {
    ghost use Rattle.smap_record.specs.Record.{ReadMap};

    ghost Value = { ReadMap };

    ghost use Rattle.smap_record.specs.MapView.{map_view, IsSourceMap};

    ghost view = { map_view };

    ghost invariant = { IsSourceMap };
}

impl SourceMap {
    pub(crate) fn new(labels: OwnLabels, listing: Listing) -> SourceMap
        requires { IsListing (listing_of listing) }
        ensures { result ≡ record { labels = labels; listing = listing_of listing } }
    {
        SourceMap { labels, listing }
    }

    /// The map, as that of a script whose lines are so wide ([`line_widths`](smap_mappings::line_widths)):
    /// what is past the end of a line, or behind the last line, has no original. All else is as before.
    ///
    /// # Errors
    ///
    /// `AllocError`.
    pub fn ended(self, alloc: Global, widths: &[usize]) -> Result<SourceMap, AllocError>
        ensures { IfOk result (λ m. m ≡ ended_map widths.now self) }
    {
        let SourceMap { labels, listing } = self;
        let tokens = ended(alloc, &listing.tokens, widths)?;
        let listing = Listing {
            sources: listing.sources,
            names: listing.names,
            tokens,
        };
        Ok(SourceMap::new(labels, listing))
    }

    /// The number of distinct sources: listed sources are one source if URL, content and ignored flag are
    /// equal.
    pub fn source_count(&self) -> usize
        ensures { result ≡ length (record_of self.now).sources }
    {
        let sources = &self.listing.sources;
        sources.distinct_count()
    }

    /// The i-th distinct source, in order of first listing. `i` must be below `source_count`.
    pub fn source(&self, i: usize) -> SourceView<'_>
        requires { i < length (record_of self.now).sources }
        ensures { slice_get (record_of self.now).sources i ≡ Some (entry_of_view result) }
    {
        let sources = &self.listing.sources;
        sources.distinct(i)
    }

    /// The number of listed sources, repeats and nulls included; at most 2,147,483,647.
    pub fn listed_count(&self) -> usize
        ensures { result ≡ length self.now.listing.sources }
    {
        let sources = &self.listing.sources;
        sources.listed_count()
    }

    /// The index, among the distinct sources, of the i-th listed source. `i` must be below `listed_count`.
    pub fn listed(&self, i: usize) -> usize
        requires { i < length self.now.listing.sources }
        ensures within { result < length (record_of self.now).sources }
        ensures source { slice_get (record_of self.now).sources result
            ≡ slice_get self.now.listing.sources i }
    {
        let sources = &self.listing.sources;
        sources.listed(i)
    }

    /// The number of listed names, repeats and unused ones included; at most 2,147,483,647.
    pub fn name_count(&self) -> usize
        ensures { result ≡ length self.now.listing.names }
    {
        self.listing.names.len()
    }

    /// The i-th listed name. `i` must be below `name_count`.
    pub fn name(&self, i: usize) -> &str
        requires { i < length self.now.listing.names }
        ensures { slice_get self.now.listing.names i ≡ Some result.now }
    {
        let names = &self.listing.names;
        names[i].as_str()
    }

    /// The number of mappings.
    pub fn token_count(&self) -> usize
        ensures count { result ≡ length self.now.listing.tokens }
        ensures mappings { result ≡ length (record_of self.now).mappings }
        ensures listing { IsListing self.now.listing }
    {
        self.listing.tokens.len()
    }

    /// One more than the generated line of the last mapping, or 0 without one.
    pub fn line_count(&self) -> u32
        ensures { result ≡ line_count self.now.listing.tokens }
    {
        let count = self.token_count();
        if count == 0 {
            return 0;
        }
        self.listed_token(count - 1).line + 1
    }

    /// The i-th mapping by generated line and column, with indices into the listed sources and names. `i`
    /// must be below `token_count`.
    pub fn listed_token(&self, i: usize) -> Token
        requires { i < length self.now.listing.tokens }
        ensures { slice_get self.now.listing.tokens i ≡ Some result }
    {
        let tokens = &self.listing.tokens;
        tokens[i]
    }

    /// The i-th mapping by generated line and column, with its source and its name. Lines and columns count
    /// from 0. `i` must be below `token_count`.
    pub fn token(&self, i: usize) -> TokenView<'_>
        requires { i < length self.now.listing.tokens }
        ensures mapping { slice_get (record_of self.now).mappings i ≡ Some (mapping_of_view result) }
        ensures number { IfSome result.original (λ o.
            slice_get (record_of self.now).sources o.source_number ≡ Some (entry_of_view o.source)) }
    {
        let _ = &self.labels;
        let token = self.listed_token(i);
        TokenView {
            line: token.line,
            column: token.column,
            original: self.original(token.original),
        }
    }

    fn original(&self, original: Option<Original>) -> Option<OriginalView<'_>>
        requires { IfSome original (IsListedOriginal self.now.listing) }
        ensures origin { option_map origin_of_view result ≡ option_map (origin_of self.now.listing) original }
        ensures number { IfSome result (λ o.
            slice_get (record_of self.now).sources o.source_number ≡ Some (entry_of_view o.source)) }
    {
        let original = original?;
        let source_number = self.listed(original.source as usize);
        let source = self.source(source_number);
        let name = match original.name {
            Some(n) => Some(self.name(n as usize)),
            None => None,
        };
        Some(OriginalView {
            source,
            source_number,
            line: original.line,
            column: original.column,
            name,
        })
    }
}
