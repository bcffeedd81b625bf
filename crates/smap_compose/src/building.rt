//! A map that is built call by call: sources and names get numbers, mappings name them by these.
ghost use Rattle.std.specs.Prelude.{◌≡◌, ◌≢◌, Err, IfErr, IfOk, IfSome, Ok, OnOk};
ghost use Rattle.std.specs.Prelude.{option_copied, option_map, string_bytes};
ghost use Rattle.smap_mappings.specs.Making.{token_fault};
ghost use Rattle.smap_record.specs.Fitting.{IsOwnUrl, ListingFits};
ghost use Rattle.smap_compose.specs.declared.error.BuildError.TheVariants as errors;
ghost use Rattle.smap_compose.specs.Building.{Does, bounds_of, content_due, ignored_due, listing_made};
ghost use Rattle.smap_compose.specs.Building.{map_made, mapping_due, name_due, nothing, source_due};
ghost use Rattle.smap_compose.specs.Building.{source_url};

use crate::error::BuildError;
use crate::tables::{
    SourceTable, all_names, all_sources, copied, number_name, number_source, set_content,
    set_ignored,
};
use indexmap::{IndexMap, IndexSet};
use smap_mappings::{AddError, Bounds, Maker, SegmentKind, Token, fault_of_token};
use smap_record::{Base, BaseFault, Limits, SourceMap};
use std::alloc::{AllocError, Global};
use std::marker::Model;

/// A map that is built call by call, by a compiler, say.
///
/// [`source`](Builder::source) and [`name`](Builder::name) give numbers, and a mapping names its source and
/// its name by them. Mappings come in any order. A call that fails changes nothing, so that building can go
/// on.
///
/// # Examples
///
/// ```
/// let mut builder = Builder::new(alloc, base, Limits::usual());
/// let source = builder.source(alloc, Some("a.ts"))?;
/// builder.add(token)?; // its source is `source`
/// let map = builder.finish(alloc)?;
/// ```
#[derive(Drop)]
pub struct Builder {
    base: Base,
    limits: Limits,
    file: Option<String>,
    sources: SourceTable,
    names: IndexSet<String>,
    tokens: Maker,
}

impl Model for Builder {
    ghost use Rattle.smap_compose.specs.Building.{Made};

    ghost Value = { Made };

    ghost use Rattle.smap_compose.specs.Built.{IsBuilder, made_of};

    ghost view = { made_of };

    ghost invariant = { IsBuilder };
}

/// The URL of a source.
fn url_of(alloc: Global, base: &Base, source: Option<&str>) -> Result<Option<String>, BuildError>
    ensures url { IfOk result (λ url.
        source_url base.now (option_copied source.entry) ≡ Ok (option_map string_bytes url)) }
    ensures own { IfOk result (λ url. IfSome (option_map string_bytes url) (IsOwnUrl base.now)) }
    ensures refused { IfErr result (λ e. e ≢ errors.Memory
        → source_url base.now (option_copied source.entry) ≡ Err e) }
{
    let Some(source) = source else {
        return Ok(None);
    };
    match base.source_url(alloc, source) {
        Ok(url) => Ok(Some(url)),
        Err(BaseFault::NotUrl) => Err(BuildError::SourceUrl),
        Err(BaseFault::Memory) => Err(BuildError::Memory),
    }
}

impl Builder {
    /// Nothing is built yet. Sources are resolved against the base, and the map will be one that can be read
    /// against it under these limits.
    pub fn new(alloc: Global, base: Base, limits: Limits) -> Builder
        ensures { result ≡ nothing base limits }
    {
        // What these calls promise besides the limits: how great they are at most.
        let _ = (limits.items(), limits.lines());
        Builder {
            base,
            limits,
            file: None,
            sources: IndexMap::new(alloc),
            names: IndexSet::new(alloc),
            tokens: Maker::new(alloc),
        }
    }

    /// Sets the name of the generated file, or takes it away.
    ///
    /// # Errors
    ///
    /// `Memory`.
    pub fn set_file(&mut self, alloc: Global, file: Option<&str>) -> Result<(), BuildError>
        ensures { Does result self.old self.new
            (Ok (tt, record self.old { file = option_copied file.entry })) }
    {
        self.file = copied(alloc, file)?;
        Ok(())
    }

    /// The number of a source: its URL is resolved as that of a map's source without `sourceRoot`, and one
    /// URL has one number. So has the null source (`None`). A new source has no content and isn't ignored.
    ///
    /// # Errors
    ///
    /// `SourceUrl`; `TooMany`, where the limit on sources is reached; `Memory`.
    pub fn source(&mut self, alloc: Global, source: Option<&str>) -> Result<u32, BuildError>
        ensures { Does result self.old self.new (source_due self.old (option_copied source.entry)) }
    {
        let url = url_of(alloc, &self.base, source)?;
        number_source(&mut self.sources, url, self.limits.items())
    }

    /// Sets the content of the source with this number, or takes it away.
    ///
    /// # Errors
    ///
    /// `Source`; `Memory`.
    pub fn set_content(
        &mut self,
        alloc: Global,
        number: u32,
        content: Option<&str>,
    ) -> Result<(), BuildError>
        ensures { Does result self.old self.new
            (content_due self.old number (option_copied content.entry)) }
    {
        let content = copied(alloc, content)?;
        set_content(&mut self.sources, number, content)
    }

    /// Sets whether the source with this number is ignored.
    ///
    /// # Errors
    ///
    /// `Source`.
    pub fn set_ignored(&mut self, number: u32, ignored: bool) -> Result<(), BuildError>
        ensures sets { Does result self.old self.new (ignored_due self.old number ignored) }
        ensures certain { result ≢ Err errors.Memory }
    {
        set_ignored(&mut self.sources, number, ignored)
    }

    /// The number of a name. One text has one number, and the empty text has one too.
    ///
    /// # Errors
    ///
    /// `TooMany`, where the limit on names is reached; `Memory`.
    pub fn name(&mut self, alloc: Global, name: &str) -> Result<u32, BuildError>
        ensures { Does result self.old self.new (name_due self.old name.now) }
    {
        number_name(alloc, &mut self.names, name, self.limits.items())
    }

    fn bounds(&self) -> Bounds
        ensures { result ≡ bounds_of self.now }
    {
        Bounds {
            start_line: 0,
            start_column: 0,
            sources: self.sources.len() as u32,
            names: self.names.len() as u32,
            lines: self.limits.lines(),
        }
    }

    /// Why [`add`](Builder::add) would refuse a mapping, if it would.
    pub fn fault_of(&self, token: Token) -> Option<SegmentKind>
        ensures { result ≡ token_fault (bounds_of self.now) token }
    {
        fault_of_token(&self.bounds(), token)
    }

    /// Adds a mapping. Lines and columns count from 0; source and name are numbers that this builder gave.
    ///
    /// # Errors
    ///
    /// `Mapping`; `Memory`.
    pub fn add(&mut self, token: Token) -> Result<(), BuildError>
        ensures { Does result self.old self.new (mapping_due self.old token) }
    {
        let bounds = self.bounds();
        match self.tokens.add(&bounds, token) {
            Ok(()) => Ok(()),
            Err(AddError::Refused(kind)) => Err(BuildError::Mapping(kind)),
            Err(AddError::Memory) => Err(BuildError::Memory),
        }
    }

    /// The map. Its mappings are sorted by generated line and column, and those at one position stay in the
    /// order in which they were added.
    ///
    /// # Errors
    ///
    /// `AllocError`.
    pub fn finish(self, alloc: Global) -> Result<SourceMap, AllocError>
        ensures map { IfOk result (λ m. m ≡ map_made self) }
        ensures fits { OnOk result (ListingFits self.base self.limits (listing_made self)) }
    {
        let (_, map) = self.finish_with_base(alloc)?;
        Ok(map)
    }

    /// The map, and the base of its sources.
    ///
    /// # Errors
    ///
    /// `AllocError`.
    pub fn finish_with_base(self, alloc: Global) -> Result<(Base, SourceMap), AllocError>
        ensures base { IfOk result (λ r. r.0 ≡ self.base) }
        ensures map { IfOk result (λ r. r.1 ≡ map_made self) }
        ensures fits { OnOk result (ListingFits self.base self.limits (listing_made self)) }
    {
        let Builder {
            base,
            file,
            sources,
            names,
            tokens,
            ..
        } = self;
        let sources = all_sources(alloc, sources)?;
        let names = all_names(alloc, names)?;
        let tokens = tokens.finish()?;
        let map = SourceMap::of_file(alloc, file.as_deref(), sources, names, tokens)?;
        Ok((base, map))
    }
}
