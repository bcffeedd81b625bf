//! The sources of a map. Distinct ones are kept once, in a hashed table; the listed ones are indices into it.
ghost use Rattle.std.specs.Prelude.{◌≡◌, ◌<◌, ◌++◌, ◌∷◌, [], length, slice_get, Some, IfOk, IfErr};
ghost use Rattle.std.specs.Prelude.{unwrap_or};
ghost use Rattle.smap_record.specs.declared.fault.ReadError.TheVariants.{Memory};
ghost use Rattle.smap_record.specs.Record.{distinct as each_once, no_entry, same_entry};
ghost use Rattle.smap_record.specs.Numbered.{Numbers};
ghost use Rattle.smap_record.specs.Entries.{entry_of};
ghost use Rattle.smap_record.specs.Making.{entry_by};
ghost use Rattle.smap_record.specs.Views.{entry_of_view};

use crate::entry::SourceEntry;
use crate::fault::ReadError;
use crate::flat::copied;
use crate::view::SourceView;
use indexmap::IndexSet;
use std::alloc::{AllocError, Global};
use std::marker::Model;

/// Sources as listed. Equal ones are kept once, and each listed one by its index among the distinct ones.
#[derive(Drop)]
pub struct Sources {
    distinct: IndexSet<SourceEntry>,
    listed: Vec<usize>,
}

impl Model for Sources {
    ghost use Rattle.std.specs.Prelude.{List};
    ghost use Rattle.smap_record.specs.Record.{Entry};

    ghost Value = { List Entry };

    ghost use Rattle.smap_record.specs.SourcesView.{listed_entries, AreSources};

    ghost view = { listed_entries };

    ghost invariant = { AreSources };
}

/// The entry's index in the set, to which it is appended if it isn't in it yet.
fn numbered(
    mut distinct: IndexSet<SourceEntry>,
    entry: SourceEntry,
) -> Result<(IndexSet<SourceEntry>, usize), ReadError>
    ensures numbers { IfOk result (λ r. Numbers distinct.keys (entry_of entry) r.0.keys r.1) }
    ensures refused { IfErr result (λ e. e ≡ Memory) }
{
    let (i, _) = distinct.insert_full(entry)?;
    Ok((distinct, i))
}

impl Sources {
    /// None is listed yet.
    pub fn new(alloc: Global) -> Sources
        ensures { result ≡ [] }
    {
        Sources {
            distinct: IndexSet::new(alloc),
            listed: Vec::new(alloc),
        }
    }

    /// Lists one more source.
    pub(crate) fn with(self, entry: SourceEntry) -> Result<Sources, ReadError>
        ensures lists { IfOk result (λ s. s ≡ self ++ entry_of entry ∷ []) }
        ensures refused { IfErr result (λ e. e ≡ Memory) }
    {
        let Sources {
            distinct,
            mut listed,
        } = self;
        let (distinct, i) = numbered(distinct, entry)?;
        listed.push(i)?;
        Ok(Sources { distinct, listed })
    }

    /// Lists a copy of one more source.
    ///
    /// # Errors
    ///
    /// `AllocError`.
    pub fn with_copy(self, alloc: Global, source: SourceView<'_>) -> Result<Sources, AllocError>
        ensures { IfOk result (λ s. s ≡ self ++ entry_of_view source.entry ∷ []) }
    {
        let url = copied(alloc, source.url)?;
        let content = copied(alloc, source.content)?;
        self.with_owned(url, content, source.ignored)
    }

    /// Lists one more source, of these strings.
    ///
    /// # Errors
    ///
    /// `AllocError`.
    pub fn with_owned(
        self,
        url: Option<String>,
        content: Option<String>,
        ignored: bool,
    ) -> Result<Sources, AllocError>
        ensures { IfOk result (λ s. s ≡ self ++ entry_by url content ignored ∷ []) }
    {
        let Ok(listed) = self.with(SourceEntry {
            url,
            content,
            ignored,
        }) else {
            return Err(AllocError);
        };
        Ok(listed)
    }

    /// Lists the i-th listed source once more, which copies no string. `i` must be below the number of those
    /// that are listed.
    ///
    /// # Errors
    ///
    /// `AllocError`.
    pub fn again(self, i: usize) -> Result<Sources, AllocError>
        requires { i < length self }
        ensures { IfOk result (λ s. s ≡ self ++ unwrap_or (slice_get self i) no_entry ∷ []) }
    {
        let Sources {
            distinct,
            mut listed,
        } = self;
        let number = listed[i];
        listed.push(number)?;
        Ok(Sources { distinct, listed })
    }

    pub(crate) fn distinct_count(&self) -> usize
        ensures { result ≡ length (each_once same_entry self.now) }
    {
        self.distinct.len()
    }

    pub(crate) fn distinct(&self, i: usize) -> SourceView<'_>
        requires { i < length (each_once same_entry self.now) }
        ensures { slice_get (each_once same_entry self.now) i ≡ Some (entry_of_view result) }
    {
        let distinct = &self.distinct;
        let entry = &distinct[i];
        entry.as_view()
    }

    /// How many are listed.
    pub fn listed_count(&self) -> usize
        ensures { result ≡ length self.now }
    {
        self.listed.len()
    }

    /// The index, among the distinct sources, of the i-th listed one.
    pub(crate) fn listed(&self, i: usize) -> usize
        requires { i < length self.now }
        ensures within { result < length (each_once same_entry self.now) }
        ensures source { slice_get (each_once same_entry self.now) result
            ≡ slice_get self.now i }
    {
        let listed = &self.listed;
        listed[i]
    }
}
