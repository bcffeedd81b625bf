//! A search for the maps of sources.
ghost use Rattle.std.specs.Prelude.{◌≡◌, ◌<◌, [], true, ℕ, None, Some, IfOk, IfSome, OnOk};
ghost use Rattle.std.specs.Prelude.{List, slice_get, string_bytes};
ghost use Rattle.smap_chains.specs.Chains.{AreLeads, AreNumbers, Fits, IsAt, IsMapBy, IsNumber, IsOwnMap};
ghost use Rattle.smap_chains.specs.Search as spec;
ghost use Rattle.smap_chains.specs.Search.{AreFiles, IsFitting, Keeps};
ghost use Rattle.smap_record.specs.Record.{ReadMap, record_of};
ghost use Rattle.smap_record.specs.Views.{entry_of_view};

use crate::chains::DEEPEST;
use crate::ways::{Found, Opened, Sources, Way};
use indexmap::IndexMap;
use smap_map_files::Target;
use smap_record::{SourceMap, SourceView};
use smap_system::Disk;
use std::alloc::{AllocError, Global};

/// What a search for the maps of sources has found so far.
#[derive(Drop)]
pub(crate) struct Search {
    alloc: Global,
    pub(crate) maps: Vec<SourceMap>,
    /// The URLs of the scripts that they are of.
    scripts: Vec<String>,
    /// By their names in the folder, the maps that are files; none for one that is refused.
    files: IndexMap<String, Option<usize>>,
    pub(crate) example: Option<String>,
    pub(crate) missed: Option<String>,
    pub(crate) missing: usize,
    pub(crate) refusals: Vec<String>,
}

impl Search {
    /// A search that has found nothing yet.
    pub(crate) fn new(alloc: Global) -> Search
        ensures maps { result.maps.items ≡ [] }
        ensures files { result.files.entries ≡ [] }
    {
        Search {
            alloc,
            maps: Vec::new(alloc),
            scripts: Vec::new(alloc),
            files: IndexMap::new(alloc),
            example: None,
            missed: None,
            missing: 0,
            refusals: Vec::new(alloc),
        }
    }

    /// Says why a map that is there can't be followed.
    fn refuse(&mut self, refusal: String) -> Result<Option<usize>, AllocError>
        ensures keeps { Keeps self.old.maps.items self.new.maps.items }
        ensures files { self.new.files ≡ self.old.files }
        ensures none { IfOk result (λ o. o ≡ None) }
    {
        match self.refusals.push(refusal) {
            Ok(()) => Ok(None),
            Err(_) => Err(AllocError),
        }
    }

    /// Notes that what a source names isn't there.
    fn miss(&mut self, found: &Found<'_>, why: &str) -> Result<Option<usize>, AllocError>
        ensures keeps { Keeps self.old.maps.items self.new.maps.items }
        ensures files { self.new.files ≡ self.old.files }
        ensures none { IfOk result (λ o. o ≡ None) }
    {
        self.missing = self.missing.saturating_add(1);
        if self.missed.is_none() {
            let (shown, named) = (found.shown.as_str(), found.named.as_str());
            self.missed = Some(format!(in self.alloc; "{shown} names {named}, which {why}")?);
        }
        Ok(None)
    }

    /// Notes the first source that is followed.
    fn note(&mut self, found: &Found<'_>) -> Result<(), AllocError>
        ensures keeps { Keeps self.old.maps.items self.new.maps.items }
        ensures files { self.new.files ≡ self.old.files }
    {
        if self.example.is_none() {
            let (shown, named) = (found.shown.as_str(), found.named.as_str());
            self.example = Some(format!(in self.alloc; "{shown} ({named})")?);
        }
        Ok(())
    }

    /// Adds the map of the script with this URL. Answers its index.
    fn add(&mut self, url: &str, map: SourceMap) -> Result<usize, AllocError>
        ensures keeps { Keeps self.old.maps.items self.new.maps.items }
        ensures files { self.new.files ≡ self.old.files }
        ensures added { IfOk result (λ k. slice_get self.new.maps.items k ≡ Some map) }
    {
        let number = self.maps.len();
        let url = String::from_str(self.alloc, url)?;
        if self.scripts.push(url).is_err() || self.maps.push(map).is_err() {
            return Err(AllocError);
        }
        Ok(number)
    }

    /// The index of the map that was found for a source; else it is said why there is none.
    fn settle(&mut self, found: &Found<'_>, opened: Opened) -> Result<Option<usize>, AllocError>
        ensures keeps { Keeps self.old.maps.items self.new.maps.items }
        ensures files { self.new.files ≡ self.old.files }
        ensures is { IfOk result (λ o. IfSome o (λ k.
            IsAt self.new.maps.items k (λ m. opened ≡ Opened.Map m))) }
    {
        match opened {
            Opened::Map(map) => Ok(Some(self.add(found.url.as_str(), map)?)),
            Opened::Refused(refusal) => self.refuse(refusal),
            Opened::Missing(why) => self.miss(found, why),
        }
    }

    /// The index of the map in the file of the folder with this name, which is read once.
    fn file_number<D: Disk>(
        &mut self,
        sources: &Sources<'_, D>,
        found: &Found<'_>,
        name: &str,
    ) -> Result<Option<usize>, AllocError>
        requires { AreFiles (D.held sources.now.disk.now) sources.now.asked self.old }
        ensures keeps { Keeps self.old.maps.items self.new.maps.items }
        ensures files { OnOk result (AreFiles (D.held sources.now.disk.now) sources.now.asked self.new) }
        ensures is { IfOk result (λ o. IfSome o (λ k. IsAt self.new.maps.items k
            (IsOwnMap (D.held sources.now.disk.now) sources.now.asked name.now))) }
    {
        if let Some(known) = self.files.get(name) {
            return Ok(*known);
        }
        let opened = sources.read_own(name)?;
        let number = self.settle(found, opened)?;
        self.files
            .insert(String::from_str(self.alloc, name)?, number)?;
        Ok(number)
    }

    /// The index of the map of a source; else it is said why there is none.
    fn number_of<D: Disk>(
        &mut self,
        sources: &Sources<'_, D>,
        found: &Found<'_>,
    ) -> Result<Option<usize>, AllocError>
        requires { AreFiles (D.held sources.now.disk.now) sources.now.asked self.old }
        ensures keeps { Keeps self.old.maps.items self.new.maps.items }
        ensures files { OnOk result (AreFiles (D.held sources.now.disk.now) sources.now.asked self.new) }
        ensures is { IfOk result (λ o. IfSome o (λ k. IsAt self.new.maps.items k (IsMapBy
            (D.held sources.now.disk.now) sources.now.asked (string_bytes found.now.url) found.now.way))) }
    {
        if found.is_stale {
            let (shown, named) = (found.shown.as_str(), found.named.as_str());
            return self.refuse(format!(in self.alloc;
                "{shown} and its content in the map differ; {named} is of the file"
            )?);
        }
        match &found.way {
            Way::Named(Target::File(name)) => self.file_number(sources, found, name.as_str()),
            _ => {
                let opened = sources.open(found)?;
                self.settle(found, opened)
            }
        }
    }

    /// Whether the map with this index has no mapping past the end of the text of a source.
    fn fits(&self, found: &Found<'_>, number: usize) -> bool
        ensures { result ≡ true → (m : ReadMap) → slice_get self.now.maps.items number ≡ Some m
            → Fits (spec.widths_of found.now) m }
    {
        match self.maps.get(number) {
            Some(map) => !found.is_past_end(map),
            None => true,
        }
    }

    /// The index of the map of a source, if it can be followed; else it is said why not.
    fn follow<D: Disk>(
        &mut self,
        sources: &Sources<'_, D>,
        found: &Found<'_>,
    ) -> Result<Option<usize>, AllocError>
        requires { AreFiles (D.held sources.now.disk.now) sources.now.asked self.old }
        ensures keeps { Keeps self.old.maps.items self.new.maps.items }
        ensures files { OnOk result (AreFiles (D.held sources.now.disk.now) sources.now.asked self.new) }
        ensures is { IfOk result (λ o. IfSome o (λ k. IsAt self.new.maps.items k
            (IsFitting (D.held sources.now.disk.now) sources.now.asked found.now))) }
    {
        let Some(number) = self.number_of(sources, found)? else {
            return Ok(None);
        };
        if !self.fits(found, number) {
            let (shown, named) = (found.shown.as_str(), found.named.as_str());
            return self.refuse(format!(in self.alloc;
                "{named} is of another text: mappings begin past the end of {shown}"
            )?);
        }
        self.note(found)?;
        Ok(Some(number))
    }

    /// The index of the map of a source of the map of a script, if it has one that can be followed.
    fn number<D: Disk>(
        &mut self,
        sources: &Sources<'_, D>,
        script: &[u8],
        source: SourceView<'_>,
    ) -> Result<Option<usize>, AllocError>
        requires { AreFiles (D.held sources.now.disk.now) sources.now.asked self.old }
        ensures keeps { Keeps self.old.maps.items self.new.maps.items }
        ensures files { OnOk result (AreFiles (D.held sources.now.disk.now) sources.now.asked self.new) }
        ensures is { IfOk result (IsNumber (D.held sources.now.disk.now) sources.now.asked
            self.new.maps.items script.now (Some (entry_of_view source.entry))) }
    {
        match sources.find(script, source)? {
            Some(found) => self.follow(sources, &found),
            None => Ok(None),
        }
    }

    /// The indices of the maps of the sources of a map, that of the script with this URL.
    pub(crate) fn numbers<D: Disk>(
        &mut self,
        sources: &Sources<'_, D>,
        script: &[u8],
        map: &SourceMap,
    ) -> Result<Vec<Option<usize>>, AllocError>
        requires { AreFiles (D.held sources.now.disk.now) sources.now.asked self.old }
        ensures keeps { Keeps self.old.maps.items self.new.maps.items }
        ensures files { OnOk result (AreFiles (D.held sources.now.disk.now) sources.now.asked self.new) }
        ensures are { IfOk result (λ v. AreNumbers (D.held sources.now.disk.now) sources.now.asked
            self.new.maps.items script.now map.now v.items) }
    {
        let mut numbers = Vec::new(self.alloc);
        for i in 0..map.source_count() {
            let number = self.number(sources, script, map.source(i))?;
            numbers.push(number)?;
        }
        Ok(numbers)
    }

    /// How many sources the map with this index has.
    fn source_count(&self, k: usize) -> usize {
        match self.maps.get(k) {
            Some(map) => map.source_count(),
            None => 0,
        }
    }

    /// The URL of the script that the map with this index is of.
    fn script(&self, k: usize) -> Result<String, AllocError> {
        match self.scripts.get(k) {
            Some(script) => script.clone(),
            None => Ok(String::new(self.alloc)),
        }
    }

    /// The i-th source of the k-th map, that of the script with this URL, if it has a map.
    fn find_at<'a, D: Disk>(
        &self,
        sources: &Sources<'a, D>,
        script: &[u8],
        k: usize,
        i: usize,
    ) -> Result<Option<Found<'a>>, AllocError>
        ensures { IfOk result (λ o. IfSome o (λ f. (m : ReadMap) → slice_get self.now.maps.items k ≡ Some m
            → spec.IsFoundAt (D.held sources.now.disk.now) sources.now.asked script.now m i f)) }
    {
        match self.maps.get(k) {
            Some(map) if i < map.source_count() => sources.find(script, map.source(i)),
            _ => Ok(None),
        }
    }

    /// The index of the map of the i-th source of the k-th map, that of the script with this URL.
    fn number_at<D: Disk>(
        &mut self,
        sources: &Sources<'_, D>,
        script: &[u8],
        k: usize,
        i: usize,
    ) -> Result<Option<usize>, AllocError>
        requires { AreFiles (D.held sources.now.disk.now) sources.now.asked self.old }
        ensures keeps { Keeps self.old.maps.items self.new.maps.items }
        ensures files { OnOk result (AreFiles (D.held sources.now.disk.now) sources.now.asked self.new) }
        ensures is { IfOk result (λ o. (m : ReadMap) → slice_get self.old.maps.items k ≡ Some m
            → IsNumber (D.held sources.now.disk.now) sources.now.asked self.new.maps.items script.now
            (slice_get (record_of m).sources i) o) }
    {
        match self.find_at(sources, script, k, i)? {
            Some(found) => self.follow(sources, &found),
            None => Ok(None),
        }
    }

    /// The indices of the maps of the sources of the k-th map.
    fn numbers_at<D: Disk>(
        &mut self,
        sources: &Sources<'_, D>,
        k: usize,
    ) -> Result<Vec<Option<usize>>, AllocError>
        requires { AreFiles (D.held sources.now.disk.now) sources.now.asked self.old }
        ensures keeps { Keeps self.old.maps.items self.new.maps.items }
        ensures files { OnOk result (AreFiles (D.held sources.now.disk.now) sources.now.asked self.new) }
        ensures are { IfOk result (λ v. (m : ReadMap) → slice_get self.old.maps.items k ≡ Some m
            → (script : List ℕ) × AreNumbers (D.held sources.now.disk.now) sources.now.asked
            self.new.maps.items script m v.items) }
    {
        let script = self.script(k)?;
        let script = script.as_bytes();
        let mut numbers = Vec::new(self.alloc);
        for i in 0..self.source_count(k) {
            let number = self.number_at(sources, script, k, i)?;
            numbers.push(number)?;
        }
        Ok(numbers)
    }

    /// Follows the sources of the maps that were found, but for those of which the leads are known.
    fn follow_level<D: Disk>(
        &mut self,
        sources: &Sources<'_, D>,
        leads: &mut Vec<Vec<Option<usize>>>,
    ) -> Result<(), AllocError>
        requires files { AreFiles (D.held sources.now.disk.now) sources.now.asked self.old }
        requires leads { AreLeads (D.held sources.now.disk.now) sources.now.asked self.old.maps.items
            leads.old.items }
        ensures keeps { Keeps self.old.maps.items self.new.maps.items }
        ensures files { OnOk result (AreFiles (D.held sources.now.disk.now) sources.now.asked self.new) }
        ensures leads { OnOk result (AreLeads (D.held sources.now.disk.now) sources.now.asked
            self.new.maps.items leads.new.items) }
    {
        for k in leads.len()..self.maps.len() {
            let numbers = self.numbers_at(sources, k)?;
            leads.push(numbers)?;
        }
        Ok(())
    }

    /// The indices of the maps of the sources of each map that was found or is found there, level by level.
    pub(crate) fn leads<D: Disk>(
        &mut self,
        sources: &Sources<'_, D>,
    ) -> Result<Vec<Vec<Option<usize>>>, AllocError>
        requires { AreFiles (D.held sources.now.disk.now) sources.now.asked self.old }
        ensures keeps { Keeps self.old.maps.items self.new.maps.items }
        ensures are { IfOk result (λ v. AreLeads (D.held sources.now.disk.now) sources.now.asked
            self.new.maps.items v.items) }
    {
        let mut leads = Vec::new(self.alloc);
        for _ in 0..DEEPEST {
            self.follow_level(sources, &mut leads)?;
        }
        Ok(leads)
    }
}
