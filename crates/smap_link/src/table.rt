//! The scripts that have maps, found by their names in time proportional to the bytes of these.
ghost use Rattle.std.specs.Prelude.{◌≡◌, ◌<◌, ◌≤◌, true, List, [], ℕ, IfErr, IfOk, OnOk, get_or, is_some};
ghost use Rattle.std.specs.Prelude.{Some, length, map, reverse};
ghost use Rattle.std.specs.List.{All};
ghost use Rattle.smap_link.specs.Alike.{key_of as key_in};
ghost use Rattle.smap_link.specs.Choice.{AreDistinct, IsFaultOf, alike_to, first_of, sole};
ghost use Rattle.smap_link.specs.Paths.{bare as bare_of};
ghost use Rattle.smap_link.specs.Table.{AreBareKeys, HasPlaces, IsTable, place_in, rows_of, texts_in};
ghost use Rattle.smap_link.specs.Table.{with_place};

use crate::alike::key_of;
use crate::choice::ChoiceFault;
use crate::paths::bare;
use indexmap::IndexMap;
use std::alloc::{AllocError, Global};

/// The place of a text, if it has one.
pub(crate) fn place(table: &IndexMap<Vec<u8>, usize>, text: &[u8]) -> Option<usize>
    ensures { result ≡ place_in (rows_of table.now.entries) text.now }
{
    match table.get(text) {
        Some(i) => Some(*i),
        None => None,
    }
}

/// Adds a text, unless it is there already.
fn add(table: &mut IndexMap<Vec<u8>, usize>, text: Vec<u8>, i: usize) -> Result<(), AllocError>
    ensures { OnOk result (rows_of table.new.entries ≡ with_place (rows_of table.old.entries) text.items i) }
{
    match place(table, &text) {
        Some(_) => Ok(()),
        None => {
            table.insert(text, i)?;
            Ok(())
        }
    }
}

/// The first place of each key (`key_of`).
fn alike_table(alloc: Global, scripts: &[&[u8]]) -> Result<IndexMap<Vec<u8>, usize>, AllocError>
    ensures { IfOk result (λ t. HasPlaces (rows_of t.entries) (map key_in (map (λ s. s.now) scripts.now))) }
{
    let mut table = IndexMap::new(alloc);
    for i in 0..scripts.len() {
        let key = key_of(alloc, scripts[i])?;
        add(&mut table, key, i)?;
    }
    Ok(table)
}

/// The place of each name, which may stand there once.
fn name_table(alloc: Global, scripts: &[&[u8]]) -> Result<IndexMap<Vec<u8>, usize>, ChoiceFault>
    ensures value { IfOk result (λ t. HasPlaces (rows_of t.entries) (map (λ s. s.now) scripts.now)) }
    ensures texts { IfOk result (λ t. texts_in (rows_of t.entries) ≡ map (λ s. s.now) scripts.now) }
    ensures distinct { OnOk result (AreDistinct (map (λ s. s.now) scripts.now)) }
    ensures fault { IfErr result (λ e. IsFaultOf (map (λ s. s.now) scripts.now) e) }
{
    let mut table = IndexMap::new(alloc);
    for i in 0..scripts.len() {
        if let Some(first) = place(&table, scripts[i]) {
            return Err(ChoiceFault::Repeated(first, i));
        }
        let name = Vec::from_slice(alloc, scripts[i])?;
        add(&mut table, name, i)?;
    }
    Ok(table)
}

/// The text at this place of a table, or an empty one.
fn text_at(table: &IndexMap<Vec<u8>, usize>, i: usize) -> &[u8]
    ensures { result.now ≡ get_or (texts_in (rows_of table.now.entries)) i [] }
{
    match table.get_index(i) {
        Some((text, _)) => text.as_slice(),
        None => b"",
    }
}

/// The texts of a table, in the order in which they were added.
fn texts(alloc: Global, table: &IndexMap<Vec<u8>, usize>) -> Result<Vec<&[u8]>, AllocError>
    ensures { IfOk result (λ all. map (λ t. t.now) all.items ≡ texts_in (rows_of table.now.entries)) }
{
    let mut all = Vec::new(alloc);
    for i in 0..table.len() {
        all.push(text_at(table, i))?;
    }
    Ok(all)
}

/// The first place of each key of a table's texts.
fn keys_of(
    alloc: Global,
    names: &IndexMap<Vec<u8>, usize>,
) -> Result<IndexMap<Vec<u8>, usize>, AllocError>
    ensures { IfOk result
        (λ t. HasPlaces (rows_of t.entries) (map key_in (texts_in (rows_of names.now.entries)))) }
{
    let texts = texts(alloc, names)?;
    alike_table(alloc, &texts)
}

/// The first places of the keys of names without their queries and fragments, from both ends of the list.
#[derive(Drop)]
struct BareKeys {
    from_start: IndexMap<Vec<u8>, usize>,
    from_end: IndexMap<Vec<u8>, usize>,
}

/// The texts of a table without queries and fragments.
fn bare_texts(alloc: Global, table: &IndexMap<Vec<u8>, usize>) -> Result<Vec<&[u8]>, AllocError>
    ensures { IfOk result
        (λ all. map (λ t. t.now) all.items ≡ map bare_of (texts_in (rows_of table.now.entries))) }
{
    let mut all = Vec::new(alloc);
    for i in 0..table.len() {
        all.push(bare(text_at(table, i)))?;
    }
    Ok(all)
}

/// The keys of a table's texts without queries and fragments.
fn bare_keys_of(alloc: Global, names: &IndexMap<Vec<u8>, usize>) -> Result<BareKeys, AllocError>
    ensures { IfOk result (λ keys. AreBareKeys (Some keys) (texts_in (rows_of names.now.entries))) }
{
    let mut texts = bare_texts(alloc, names)?;
    let from_start = alike_table(alloc, &texts)?;
    texts.reverse();
    let from_end = alike_table(alloc, &texts)?;
    Ok(BareKeys {
        from_start,
        from_end,
    })
}

/// Whether a name has neither a query nor a fragment.
fn is_bare(name: &[u8]) -> bool
    ensures { result ≡ true → bare_of name.now ≡ name.now }
{
    if bare(name) == name {
        return true;
    }
    false
}

/// The same of all of these.
fn are_bare(names: &[&[u8]]) -> bool
    ensures { result ≡ true → All (λ n. bare_of n.now ≡ n.now) names.now }
{
    for i in 0..names.len() {
        if !is_bare(names[i]) {
            return false;
        }
    }
    true
}

/// The names of scripts in a table, of which no two are the same.
#[derive(Drop)]
pub struct ScriptTable {
    names: IndexMap<Vec<u8>, usize>,
    /// The keys (`key_of`), once a name was looked for that isn't there as it is.
    keys: Option<IndexMap<Vec<u8>, usize>>,
    /// Whether no name has a query or a fragment.
    are_bare: bool,
    /// Where one has: once a name was looked for that isn't found by its key.
    bare_keys: Option<BareKeys>,
}

impl ScriptTable {
    /// The time is proportional to the bytes of the names.
    ///
    /// # Errors
    ///
    /// `Repeated` where two of the scripts have the same name; `Memory`.
    pub fn new(alloc: Global, scripts: &[&[u8]]) -> Result<ScriptTable, ChoiceFault>
        ensures value { IfOk result (λ t. IsTable t (map (λ s. s.now) scripts.now)) }
        ensures distinct { OnOk result (AreDistinct (map (λ s. s.now) scripts.now)) }
        ensures fault { IfErr result (λ e. IsFaultOf (map (λ s. s.now) scripts.now) e) }
    {
        let names = name_table(alloc, scripts)?;
        Ok(ScriptTable {
            names,
            keys: None,
            are_bare: are_bare(scripts),
            bare_keys: None,
        })
    }

    /// The place in the list of scripts of the one that has this very name.
    pub fn named(&self, name: &[u8]) -> Option<usize>
        ensures { (scripts : List (List ℕ)) → IsTable self.now scripts → result ≡ first_of name.now scripts }
    {
        place(&self.names, name)
    }

    /// Adds the keys, if they aren't there yet.
    fn add_keys(&mut self, alloc: Global) -> Result<(), AllocError>
        ensures table { (scripts : List (List ℕ)) → IsTable self.old scripts → IsTable self.new scripts }
        ensures keys { OnOk result (is_some self.new.keys ≡ true) }
    {
        if self.keys.is_none() {
            let keys = keys_of(alloc, &self.names)?;
            self.keys = Some(keys);
        }
        Ok(())
    }

    /// The place of the first script that has this key.
    fn keyed(&self, key: &[u8]) -> Option<usize>
        ensures { (scripts : List (List ℕ)) → IsTable self.now scripts → is_some self.now.keys ≡ true
            → result ≡ first_of key.now (map key_in scripts) }
    {
        match &self.keys {
            Some(keys) => place(keys, key),
            None => None,
        }
    }

    /// Adds the keys of names without queries and fragments, if they aren't there yet.
    fn add_bare_keys(&mut self, alloc: Global) -> Result<(), AllocError>
        ensures table { (scripts : List (List ℕ)) → IsTable self.old scripts → IsTable self.new scripts }
        ensures keys { OnOk result (is_some self.new.bare_keys ≡ true) }
    {
        if self.bare_keys.is_none() {
            let keys = bare_keys_of(alloc, &self.names)?;
            self.bare_keys = Some(keys);
        }
        Ok(())
    }

    /// The place of the only script that has this key without its query and its fragment.
    fn only(&self, key: &[u8]) -> Option<usize>
        ensures { (scripts : List (List ℕ)) → IsTable self.now scripts → is_some self.now.bare_keys ≡ true
            → result ≡ sole (length scripts) (first_of key.now (map key_in (map bare_of scripts)))
            (first_of key.now (map key_in (reverse (map bare_of scripts)))) }
    {
        let Some(keys) = &self.bare_keys else {
            return None;
        };
        let first = place(&keys.from_start, key)?;
        let last = place(&keys.from_end, key)?;
        if self.names.len().saturating_sub(first).saturating_sub(1) == last {
            Some(first)
        } else {
            None
        }
    }

    /// The place in the list of scripts of the first whose name is alike to this one and has the same query,
    /// or else, if queries are ignored, of the first that is alike to it without its query and its fragment,
    /// or else of the only one that is alike to it but for these.
    ///
    /// The first call takes time proportional to the bytes of all names.
    ///
    /// # Errors
    ///
    /// `AllocError`.
    pub fn alike(
        &mut self,
        alloc: Global,
        name: &[u8],
        ignore_query: bool,
    ) -> Result<Option<usize>, AllocError>
        ensures value { (scripts : List (List ℕ)) → IsTable self.old scripts
            → IfOk result (λ found. found ≡ alike_to ignore_query scripts name.now) }
        ensures table { (scripts : List (List ℕ)) → IsTable self.old scripts → IsTable self.new scripts }
    {
        self.add_keys(alloc)?;
        let key = key_of(alloc, name)?;
        if let Some(i) = self.keyed(&key) {
            return Ok(Some(i));
        }
        if !ignore_query {
            return Ok(None);
        }
        let key = key_of(alloc, bare(name))?;
        if let Some(i) = self.keyed(&key) {
            return Ok(Some(i));
        }
        if self.are_bare {
            return Ok(None);
        }
        self.add_bare_keys(alloc)?;
        Ok(self.only(&key))
    }
}
