//! Where the map of a source is, and what is there.
ghost use Rattle.std.specs.Prelude.{◌≡◌, [], false, IfOk, IfSome, option_and_then, option_copied};
ghost use Rattle.std.specs.Prelude.{Ok, Some, option_map, string_bytes, unwrap_or};
ghost use Rattle.smap_lint_rules.specs.Findings as findings;
ghost use Rattle.smap_map_files.specs.Given.{WithBase};
ghost use Rattle.smap_mappings.specs.Widths.{script_widths as widths_in};
ghost use Rattle.smap_record.specs.Record.{usual};
ghost use Rattle.smap_record.specs.UrlBytes.{reading_within};
ghost use Rattle.smap_record.specs.Views.{entry_of_view};
ghost use Rattle.smap_chains.specs.Chains.{AreMap, Fits, IsFileMap, IsMapBy, IsOwnMap, IsTargetOf, IsWay};
ghost use Rattle.smap_chains.specs.Chains.{given_for};
ghost use Rattle.smap_chains.specs.Search as spec;

use crate::chains::ChainAsked;
use crate::source_maps::{Lead, SourceText, file_text, lead_beside, lead_of, source_text};
use smap_link::{is_data, script_url};
use smap_lint_rules::{first_past_end, normal_text, same_text};
use smap_map_files::{Home, MapText, Target};
use smap_mappings::script_widths;
use smap_record::{Base, BaseFault, Limits, ReadError, SourceMap, SourceView};
use smap_system::{Disk, FileFault, LIMIT, printable, read_file};
use std::alloc::{AllocError, Global};

/// Where the map of a source is.
#[derive(Drop)]
pub(crate) enum Way<'a> {
    /// What the source names leads there.
    Named(Target),
    /// In the file with this path, which is given.
    Given(&'a str),
}

/// A source that has a map.
#[derive(Drop)]
pub(crate) struct Found<'a> {
    pub(crate) url: String,
    /// How it and what it names are called in sentences.
    pub(crate) shown: String,
    pub(crate) named: String,
    pub(crate) way: Way<'a>,
    /// How wide the lines of its text are, if that can be told.
    widths: Option<Vec<usize>>,
    /// Whether its text is a content, and its file in the folder holds another one.
    pub(crate) is_stale: bool,
}

/// What is found where a map should be.
#[derive(Drop)]
pub(crate) enum Opened {
    Map(SourceMap),
    /// Why it can't be followed, a sentence.
    Refused(String),
    /// It isn't there: what is said of what the source names.
    Missing(&'static str),
}

impl Found<'_> {
    /// Whether a map has mappings past the end of its text.
    pub(crate) fn is_past_end(&self, map: &SourceMap) -> bool
        ensures { result ≡ false → Fits (spec.widths_of self.now) map.now }
    {
        match &self.widths {
            Some(widths) => first_past_end(map, widths).is_some(),
            None => false,
        }
    }
}

/// Where the maps of sources are looked for.
#[derive(Drop)]
pub(crate) struct Sources<'a, D> {
    pub(crate) alloc: Global,
    pub(crate) disk: &'a D,
    pub(crate) asked: ChainAsked<'a>,
}

/// A URL without that of the folder before it.
fn own_part<'u>(home: Home<'_>, url: &'u str) -> &'u [u8]
    ensures { result.now ≡ findings.own_part home.entry.url.now url.now }
{
    match url.as_bytes().strip_prefix(home.url) {
        Some(rest) => rest,
        None => url.as_bytes(),
    }
}

/// What a source names, as it is called in sentences.
fn named_words(alloc: Global, named: &[u8]) -> Result<String, AllocError> {
    if is_data(named) {
        return String::from_str(alloc, "a map in itself");
    }
    printable(alloc, named)
}

/// The URL of a source, empty for a `null`.
fn url_of<'u>(source: SourceView<'u>) -> &'u str
    ensures { result.now ≡ unwrap_or (option_copied source.entry.url) [] }
{
    match source.url {
        Some(url) => url,
        None => "",
    }
}

fn bytes_of<'t>(text: &'t Option<SourceText<'_>>) -> Option<&'t [u8]>
    ensures { option_copied result ≡ option_map spec.text_of text.now }
{
    match text {
        Some(text) => Some(text.bytes()),
        None => None,
    }
}

/// How wide the lines of a text are, if that can be told.
fn widths_of(alloc: Global, text: Option<&[u8]>) -> Result<Option<Vec<usize>>, AllocError>
    ensures { IfOk result (λ w. option_map (λ v. v.items) w
        ≡ option_and_then widths_in (option_copied text.entry)) }
{
    match text {
        Some(text) => script_widths(alloc, text),
        None => Ok(None),
    }
}

/// The URL against which the sources of a map are resolved.
fn base_of(alloc: Global, url: &[u8]) -> Result<Option<Base>, AllocError>
    ensures { IfOk result (λ o. IfSome o (λ b. WithBase url.now (λ base. base ≡ b))) }
{
    let Ok(url) = std::str::from_utf8(url) else {
        return Ok(None);
    };
    match Base::new(alloc, url) {
        Ok(base) => Ok(Some(base)),
        Err(BaseFault::NotUrl) => Ok(None),
        Err(BaseFault::Memory) => Err(AllocError),
    }
}

impl<'a, D: Disk> Sources<'a, D> {
    /// Whether the map of a source is of its file in the folder, and that differs from this content.
    fn is_stale(
        &self,
        way: &Way<'_>,
        url: &str,
        content: Option<&str>,
    ) -> Result<bool, AllocError> {
        let (Way::Named(Target::File(_)), Some(content)) = (way, content) else {
            return Ok(false);
        };
        let Some(file) = file_text(self.alloc, self.disk, self.asked.home, url)? else {
            return Ok(false);
        };
        let file = normal_text(self.alloc, &file)?;
        Ok(!same_text(self.alloc, &file, content.as_bytes())?)
    }

    /// The path of the map that is given for the source with this URL, if one is.
    fn given(&self, url: &str) -> Option<&'a str>
        ensures { option_copied result ≡ given_for self.now.asked url.now }
    {
        let own = own_part(self.asked.home, url);
        let mut given = self.asked.more.given.iter();
        match given.find(|it| it.0.as_bytes() == url.as_bytes() || it.0.as_bytes() == own) {
            Some(found) => Some(found.1),
            None => None,
        }
    }

    /// What the source with this URL and this text names for its own, or has next to it, if that counts.
    fn lead(&self, url: &str, text: &[u8]) -> Result<Option<Lead>, AllocError>
        ensures { IfOk result (λ o. IfSome o (λ l. IsTargetOf self.now.asked url.now text.now l.target)) }
    {
        let (alloc, disk, home) = (self.alloc, self.disk, self.asked.home);
        match lead_of(alloc, disk, home, url, text)? {
            None if self.asked.more.beside => lead_beside(alloc, disk, home, url),
            lead => Ok(lead),
        }
    }

    /// Where the map of the source with this URL and this text is, if it has one, and how that is called.
    fn way(&self, url: &str, text: Option<&[u8]>) -> Result<Option<(Way<'a>, String)>, AllocError>
        ensures { IfOk result (λ o. IfSome o (λ w.
            IsWay self.now.asked url.now (option_copied text.entry) w.0)) }
    {
        if let Some(path) = self.given(url) {
            let named = printable(self.alloc, path.as_bytes())?;
            return Ok(Some((Way::Given(path), named)));
        }
        let Some(text) = text else {
            return Ok(None);
        };
        match self.lead(url, text)? {
            Some(lead) => {
                let named = named_words(self.alloc, &lead.named)?;
                Ok(Some((Way::Named(lead.target), named)))
            }
            None => Ok(None),
        }
    }

    /// A source of the map of the script with this URL, if it has a map.
    pub(crate) fn find(
        &self,
        script: &[u8],
        source: SourceView<'_>,
    ) -> Result<Option<Found<'a>>, AllocError>
        ensures { IfOk result (λ o. IfSome o (spec.IsFound (D.held self.now.disk.now) self.now.asked
            script.now (entry_of_view source.entry))) }
    {
        let (alloc, url) = (self.alloc, url_of(source));
        let text = source_text(alloc, self.disk, self.asked.home, script, source)?;
        let text = bytes_of(&text);
        let Some((way, named)) = self.way(url, text)? else {
            return Ok(None);
        };
        Ok(Some(Found {
            url: String::from_str(alloc, url)?,
            shown: printable(alloc, own_part(self.asked.home, url))?,
            named,
            widths: widths_of(alloc, text)?,
            is_stale: self.is_stale(&way, url, source.content)?,
            way,
        }))
    }

    /// The map that this text is.
    fn read(&self, text: MapText<'_>, shown: &str) -> Result<Opened, AllocError>
        ensures { IfOk result (λ o. spec.IfMap o (λ m.
            reading_within text.entry.base.now usual self.now.asked.url_bytes text.entry.bytes.now
            ≡ Ok (Some m))) }
    {
        let (alloc, most) = (self.alloc, self.asked.url_bytes);
        match SourceMap::from_slice_within(alloc, text.bytes, text.base, Limits::usual(), most) {
            Ok(Some((map, _))) => Ok(Opened::Map(map)),
            Ok(None) => Ok(Opened::Refused(format!(in alloc;
                "{shown}: the URLs of its sources take more than {most} bytes (--url-bytes allows more)"
            )?)),
            Err(ReadError::Refused(fault)) => {
                let detail = text.detail(alloc, &fault)?;
                let detail = detail.as_str();
                Ok(Opened::Refused(format!(in alloc; "{shown}: {fault}{detail}")?))
            }
            Err(ReadError::Memory) => Err(AllocError),
        }
    }

    /// The map that these bytes are, whose own URL this is.
    fn read_at(
        &self,
        bytes: &[u8],
        url: &[u8],
        shown: &str,
        is_file: bool,
    ) -> Result<Opened, AllocError>
        ensures { IfOk result (λ o. spec.IfMap o (AreMap self.now.asked url.now bytes.now)) }
    {
        let Some(base) = base_of(self.alloc, url)? else {
            return Ok(Opened::Refused(format!(in self.alloc; "{shown}: its own URL is none")?));
        };
        let text = MapText {
            bytes,
            base: &base,
            url_bytes: self.asked.url_bytes,
            is_file,
        };
        self.read(text, shown)
    }

    /// The map in the file with this path.
    fn read_file(&self, path: &str, url: &[u8], shown: &str) -> Result<Opened, AllocError>
        ensures { IfOk result (λ o. spec.IfMap o
            (IsFileMap (D.held self.now.disk.now) self.now.asked path.now url.now)) }
    {
        match read_file(self.alloc, self.disk, path, LIMIT) {
            Ok(bytes) => self.read_at(&bytes, url, shown, true),
            Err(FileFault::Memory) => Err(AllocError),
            Err(_) => Ok(Opened::Refused(format!(in self.alloc; "{shown}: cannot be read")?)),
        }
    }

    /// The map in the file of the folder with this name.
    pub(crate) fn read_own(&self, name: &str) -> Result<Opened, AllocError>
        ensures { IfOk result (λ o. spec.IfMap o
            (IsOwnMap (D.held self.now.disk.now) self.now.asked name.now)) }
    {
        let folder = self.asked.home.path;
        let path = format!(in self.alloc; "{folder}{name}")?;
        let url = script_url(self.alloc, self.asked.home.url, name.as_bytes())?;
        self.read_file(path.as_str(), &url, name)
    }

    /// The map that a source holds.
    fn read_inline(&self, found: &Found<'_>, bytes: &[u8]) -> Result<Opened, AllocError>
        ensures { IfOk result (λ o. spec.IfMap o
            (AreMap self.now.asked (string_bytes found.now.url) bytes.now)) }
    {
        let shown = found.shown.as_str();
        let shown = format!(in self.alloc; "the map in {shown}")?;
        self.read_at(bytes, found.url.as_bytes(), shown.as_str(), false)
    }

    /// The map of a source.
    pub(crate) fn open(&self, found: &Found<'_>) -> Result<Opened, AllocError>
        ensures { IfOk result (λ o. spec.IfMap o (IsMapBy (D.held self.now.disk.now) self.now.asked
            (string_bytes found.now.url) found.now.way)) }
    {
        match &found.way {
            Way::Given(path) => self.read_file(path, found.url.as_bytes(), found.named.as_str()),
            Way::Named(Target::Inline(bytes)) => self.read_inline(found, bytes),
            Way::Named(Target::File(name)) => self.read_own(name.as_str()),
            Way::Named(Target::Absent(..)) => Ok(Opened::Missing("isn't there")),
            Way::Named(Target::Wrong(_)) => Ok(Opened::Missing("is no map of the folder")),
        }
    }
}
