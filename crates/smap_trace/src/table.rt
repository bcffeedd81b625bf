//! Scripts in a table that grows, found by their URLs.
ghost use Rattle.std.specs.Prelude.{◌≡◌, ◌==◌, ◌||◌, [], ℕ, IfOk, IfSome, OnErr, OnOk, get_or, length};
ghost use Rattle.std.specs.Prelude.{nat_eq, option_map, true};
ghost use Rattle.smap_record.specs.Record.{ReadMap, record_of};
ghost use Rattle.smap_trace.specs.ByLength.{at_length, is_among};
ghost use Rattle.smap_trace.specs.OccurrenceView.{IsWithin, occurrence_in};
ghost use Rattle.smap_trace.specs.Scripts.{AreDistinct, with_script};
ghost use Rattle.smap_trace.specs.Views.{scripts_in};

use crate::occurrences::{Occurrence, longer};
use crate::scripts::Maps;
use indexmap::IndexMap;
use smap_frames::place_after;
use smap_mappings::Memory;
use smap_record::SourceMap;
use std::alloc::{AllocError, Global};
use std::marker::Model;
use std::sync::Arc;

/// Something that holds the map of a script.
pub trait HasMap {
    // the map that it holds
    ghost held_map: { Self → ReadMap };

    fn map(&self) -> &SourceMap
        ensures { result.now ≡ held_map self.now };
}

impl HasMap for SourceMap {
    ghost held_map = { λ m. m };

    fn map(&self) -> &SourceMap {
        self
    }
}

impl HasMap for &SourceMap {
    ghost held_map = { λ m. m.now };

    fn map(&self) -> &SourceMap {
        *self
    }
}

impl HasMap for Arc<SourceMap> {
    ghost held_map = { λ arc. arc.value };

    fn map(&self) -> &SourceMap {
        self
    }
}

/// Scripts by their URLs, in the order in which these were first put. A contract sees the list of these,
/// each with what its map says.
#[derive(Drop)]
pub struct Scripts<H: HasMap> {
    maps: IndexMap<Vec<u8>, H>,
    // the lengths of the URLs, so that a place of a text is looked up once per length and not once per script
    lengths: Vec<usize>,
    // the first bytes of the URLs, so that at most places of a line no length is tried
    firsts: Vec<u8>,
}

impl<H: HasMap> Model for Scripts<H> {
    ghost use Rattle.std.specs.Prelude.{List};
    ghost use Rattle.smap_trace.specs.Scripts.{Script};
    ghost use Rattle.smap_trace.specs.ByLength.{AreFirstsOf, AreLengthsOf};
    ghost use Rattle.smap_trace.specs.Table.{scripts_of};

    ghost Value = { List Script };

    ghost view = { λ s. scripts_of H.held_map s.maps.entries };

    ghost invariant = { λ s. AreLengthsOf s.lengths.items (scripts_of H.held_map s.maps.entries)
        × AreFirstsOf s.firsts.items (scripts_of H.held_map s.maps.entries) };
}

/// Notes a length, unless it is there.
fn note_length(lengths: &mut Vec<usize>, length: usize) -> Result<(), AllocError>
    ensures there { OnOk result (is_among lengths.new.items length ≡ true) }
    ensures keeps { (n : ℕ) → is_among lengths.old.items n ≡ true → is_among lengths.new.items n ≡ true }
{
    if lengths.contains(&length) {
        return Ok(());
    }
    lengths.push(length)?;
    Ok(())
}

/// Notes the first byte of a URL, if it has one, unless it is there.
fn note_first(firsts: &mut Vec<u8>, url: &[u8]) -> Result<(), AllocError>
    ensures there { OnOk result
        ((nat_eq (length url.now) 0 || is_among firsts.new.items (get_or url.now 0 0)) ≡ true) }
    ensures keeps { (n : ℕ) → is_among firsts.old.items n ≡ true → is_among firsts.new.items n ≡ true }
{
    if url.is_empty() || firsts.contains(&url[0]) {
        return Ok(());
    }
    firsts.push(url[0])?;
    Ok(())
}

impl<H: HasMap + Drop> Scripts<H> {
    /// None.
    pub fn new(alloc: Global) -> Scripts<H>
        ensures { result ≡ [] }
    {
        Scripts {
            maps: IndexMap::new(alloc),
            lengths: Vec::new(alloc),
            firsts: Vec::new(alloc),
        }
    }

    /// How many there are.
    pub fn len(&self) -> usize
        ensures { result ≡ length self.now }
    {
        self.maps.len()
    }

    /// Whether there is none.
    pub fn is_empty(&self) -> bool
        ensures { result ≡ (length self.now == 0) }
    {
        self.len() == 0
    }

    /// Puts a script in place of the one with the same URL, or else after the others. The time doesn't depend
    /// on how many there are.
    ///
    /// # Errors
    ///
    /// `Memory`, and the scripts are as they were.
    pub fn put(&mut self, url: Vec<u8>, map: H) -> Result<(), Memory>
        ensures ok { OnOk result (self.new ≡ with_script url.items (record_of (H.held_map map)) self.old) }
        ensures err { OnErr result (self.new ≡ self.old) }
    {
        note_length(&mut self.lengths, url.len())?;
        note_first(&mut self.firsts, &url)?;
        self.maps.insert(url, map)?;
        Ok(())
    }

    /// The occurrence at the beginning of the text of the script whose URL has this length. The URL is hashed
    /// only where a position is behind it.
    fn occurrence_of_length(
        &self,
        url_len: usize,
        text: &[u8],
        ignore_query: bool,
    ) -> Option<Occurrence<'_>>
        ensures value { option_map occurrence_in result ≡ at_length ignore_query self.now text.now url_len }
        ensures within { IfSome result (IsWithin (length text.now)) }
    {
        if url_len == 0 || url_len > text.len() {
            return None;
        }
        let place = place_after(&text[url_len..], ignore_query)?;
        let (url, holder) = self.maps.get_key_value(&text[..url_len])?;
        Some(Occurrence {
            url,
            map: holder.map(),
            line: place.line,
            column: place.column,
            width: url_len + place.width,
        })
    }
}

impl<H: HasMap + Drop> Maps for Scripts<H> {
    ghost scripts = { λ s. s };

    fn map_of(&self, url: &[u8]) -> Option<&SourceMap> {
        match self.maps.get(url) {
            Some(holder) => Some(holder.map()),
            None => None,
        }
    }

    fn occurrence_at(&self, text: &[u8], ignore_query: bool) -> Option<Occurrence<'_>> {
        if text.is_empty() || !self.firsts.contains(&text[0]) {
            return None;
        }
        let mut best = None;
        for length in &self.lengths {
            let found = self.occurrence_of_length(*length, text, ignore_query);
            best = longer(best, found);
        }
        best
    }
}

/// The scripts in a table by their URLs.
pub(crate) fn by_url<'a>(
    alloc: Global,
    scripts: &[(&str, &'a SourceMap)],
) -> Result<Scripts<&'a SourceMap>, Memory>
    requires { AreDistinct (scripts_in scripts.now) }
    ensures { IfOk result (λ table. table ≡ scripts_in scripts.now) }
{
    let mut table = Scripts::new(alloc);
    for script in scripts {
        let url = Vec::from_slice(alloc, script.0.as_bytes())?;
        table.put(url, script.1)?;
    }
    Ok(table)
}
