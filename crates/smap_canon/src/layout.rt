//! The flat map that is written, as serde sees it: members are borrowed from a map that was read, or made
//! when they are serialized. No JSON tree is built.
ghost use Rattle.std.specs.Prelude.{◌≡◌, IfOk, OnOk, length, map as mapped, option_map, string_bytes};
ghost use Rattle.serde_json.specs.Data.{string};
ghost use Rattle.serde_json.specs.Events.{SendsValue};
ghost use Rattle.smap_canon.specs.Layout.{list_of, whole_number, ignored_from, unless_empty};
ghost use Rattle.smap_canon.specs.Layout.{has_content, written_contents};
ghost use Rattle.smap_mappings.specs.Text.{mappings_text};
ghost use Rattle.smap_record.specs.Record.{record_of};
ghost use Rattle.smap_canon.specs.Writing.{SendsMember, SendsOptional, sources_of, tokens_of};
ghost use Rattle.smap_canon.specs.Writing.{mappings_tree, names_tree, urls_tree};
ghost use Rattle.smap_canon.specs.Writing.{contents_tree, ignored_tree, flat_tree};

use crate::labels::{label_count, send_labels};
use crate::listing_to_write::ListingToWrite;
use crate::numbering::{listed_mappings, numbered_mappings};
use crate::sources_to_write::{source_at, source_count};
use crate::spelling::{SpelledUrl, Spelling};
use serde::{Described, Serialize, Serializer};
use smap_mappings::Memory;
use smap_record::SourceMap;
use std::alloc::Global;

/// Sends a member.
fn member<T: Serialize, S: Serializer>(out: &mut S, name: &str, value: &T) -> Result<(), S::Error>
    ensures { OnOk result
        (SendsMember (T.writes value.now) name.now (S.written out.old) (S.written out.new)) }
{
    out.key(name)?;
    value.serialize(out)
}

/// Sends a member if there is a value.
pub(crate) fn optional_member<T: Serialize, S: Serializer>(
    out: &mut S,
    name: &str,
    value: &Option<T>,
) -> Result<(), S::Error>
    ensures { OnOk result
        (SendsOptional T.writes value.now name.now (S.written out.old) (S.written out.new)) }
{
    match value {
        Some(value) => member(out, name, value),
        None => Ok(()),
    }
}

/// The mappings string.
///
/// It is made when it is serialized, and freed once it is written.
#[derive(Clone, Copy)]
struct Mappings<'a> {
    alloc: Global,
    listed: ListingToWrite<'a>,
}

impl Described for Mappings<'_> {
    ghost writes = { λ m. SendsValue (mappings_tree m) };
}

impl Serialize for Mappings<'_> {
    fn serialize<S: Serializer>(&self, out: &mut S) -> Result<(), S::Error> {
        match mappings_of(self.alloc, self.listed) {
            Ok(text) => out.str(text.as_str()),
            Err(_) => Err(out.custom("out of memory")),
        }
    }
}

fn mappings_of(alloc: Global, listed: ListingToWrite<'_>) -> Result<String, Memory>
    ensures { IfOk result (λ text. string_bytes text ≡ mappings_text (tokens_of listed.entry)) }
{
    let text = mappings_bytes(alloc, listed)?;
    Ok(String::from_utf8(text).unwrap())
}

fn mappings_bytes(alloc: Global, listed: ListingToWrite<'_>) -> Result<Vec<u8>, Memory>
    ensures { IfOk result (λ text. text.items ≡ mappings_text (tokens_of listed.entry)) }
{
    match listed.names {
        Some(names) => numbered_mappings(alloc, listed.map, names),
        None => listed_mappings(alloc, listed.map),
    }
}

/// The names: those that the mappings use in order of first use, or all as listed.
#[derive(Clone, Copy)]
struct Names<'a> {
    listed: ListingToWrite<'a>,
}

impl Described for Names<'_> {
    ghost writes = { λ n. SendsValue (names_tree n) };
}

impl Serialize for Names<'_> {
    fn serialize<S: Serializer>(&self, out: &mut S) -> Result<(), S::Error> {
        match self.listed.names {
            Some(names) => names.used.as_slice().serialize(out),
            None => listed_names(out, self.listed.map),
        }
    }
}

/// Sends the names as listed.
fn listed_names<S: Serializer>(out: &mut S, map: &SourceMap) -> Result<(), S::Error>
    ensures { OnOk result (SendsValue (list_of (mapped string map.now.listing.names))
        (S.written out.old) (S.written out.new)) }
{
    out.begin_seq(Some(map.name_count()))?;
    for i in 0..map.name_count() {
        out.str(map.name(i))?;
    }
    out.end_seq()
}

/// The URLs of the sources, absolute or relative.
#[derive(Clone, Copy)]
struct Urls<'a> {
    alloc: Global,
    listed: ListingToWrite<'a>,
    spelling: Spelling<'a>,
}

impl Described for Urls<'_> {
    ghost writes = { λ u. SendsValue (urls_tree u) };
}

impl Serialize for Urls<'_> {
    fn serialize<S: Serializer>(&self, out: &mut S) -> Result<(), S::Error> {
        let listed = self.listed;
        out.begin_seq(Some(source_count(listed)))?;
        for i in 0..source_count(listed) {
            let spelled = SpelledUrl {
                alloc: self.alloc,
                spelling: self.spelling,
                url: source_at(listed, i).url,
            };
            spelled.serialize(out)?;
        }
        out.end_seq()
    }
}

/// The contents of the sources.
#[derive(Clone, Copy)]
struct Contents<'a> {
    listed: ListingToWrite<'a>,
}

impl Described for Contents<'_> {
    ghost writes = { λ c. SendsValue (contents_tree c) };
}

impl Serialize for Contents<'_> {
    fn serialize<S: Serializer>(&self, out: &mut S) -> Result<(), S::Error> {
        let listed = self.listed;
        out.begin_seq(Some(source_count(listed)))?;
        for i in 0..source_count(listed) {
            source_at(listed, i).content.serialize(out)?;
        }
        out.end_seq()
    }
}

fn has_content(listed: ListingToWrite<'_>) -> bool
    ensures { result ≡ has_content (sources_of listed.entry) }
{
    for i in 0..source_count(listed) {
        if source_at(listed, i).content.is_some() {
            return true;
        }
    }
    false
}

/// The contents of the sources, if any source has one.
fn contents_of(listed: ListingToWrite<'_>) -> Option<Contents<'_>>
    ensures { option_map contents_tree result ≡ written_contents (sources_of listed.entry) }
{
    if has_content(listed) {
        Some(Contents { listed })
    } else {
        None
    }
}

/// The indices of the ignored sources, rising.
#[derive(Clone, Copy)]
struct Ignored<'a> {
    listed: ListingToWrite<'a>,
}

impl Described for Ignored<'_> {
    ghost writes = { λ i. SendsValue (ignored_tree i) };
}

impl Serialize for Ignored<'_> {
    fn serialize<S: Serializer>(&self, out: &mut S) -> Result<(), S::Error> {
        let listed = self.listed;
        out.begin_seq(Some(ignored_count(listed)))?;
        for i in 0..source_count(listed) {
            if source_at(listed, i).ignored {
                out.u64(i as u64)?;
            }
        }
        out.end_seq()
    }
}

/// How many sources are ignored.
fn ignored_count(listed: ListingToWrite<'_>) -> usize
    ensures { result ≡ length (ignored_from 0 (sources_of listed.entry)) }
{
    let mut count: usize = 0;
    for i in 0..source_count(listed) {
        let source = source_at(listed, i);
        if source.ignored {
            count += 1;
        }
    }
    count
}

/// The indices of the ignored sources, if there are any.
fn ignored_of(listed: ListingToWrite<'_>) -> Option<Ignored<'_>>
    ensures { option_map ignored_tree result
        ≡ unless_empty (mapped whole_number (ignored_from 0 (sources_of listed.entry))) }
{
    if ignored_count(listed) > 0 {
        Some(Ignored { listed })
    } else {
        None
    }
}

/// The flat map of a record, or of a map's listing, with absolute or relative URLs.
#[derive(Clone, Copy)]
pub(crate) struct FlatMap<'a> {
    pub(crate) alloc: Global,
    pub(crate) listed: ListingToWrite<'a>,
    pub(crate) spelling: Spelling<'a>,
}

impl Described for FlatMap<'_> {
    ghost writes = { λ m. SendsValue (flat_tree m) };
}

impl Serialize for FlatMap<'_> {
    fn serialize<S: Serializer>(&self, out: &mut S) -> Result<(), S::Error> {
        let FlatMap {
            alloc,
            listed,
            spelling,
        } = *self;
        let ignored = ignored_of(listed);
        let contents = contents_of(listed);
        let labels = listed.map.labels();
        let optional = label_count(&labels)
            + ignored.is_some() as usize
            + contents.is_some() as usize;
        let mappings = Mappings { alloc, listed };
        let names = Names { listed };
        let urls = Urls {
            alloc,
            listed,
            spelling,
        };
        out.begin_map(Some(optional + 4))?;
        send_labels(out, &labels)?;
        optional_member(out, "ignoreList", &ignored)?;
        member(out, "mappings", &mappings)?;
        member(out, "names", &names)?;
        member(out, "sources", &urls)?;
        optional_member(out, "sourcesContent", &contents)?;
        member(out, "version", &3u64)?;
        out.end_map()
    }
}
