//! What is said of a map that is refused, after the message of its fault: the same in every program.
ghost use Rattle.std.specs.Prelude.{IfOk, MatchOption, string_bytes};
ghost use Rattle.smap_map_files.specs.Given.{IsMended, IsRepairOf, IsUnmended};
ghost use Rattle.smap_record.specs.Record.{usual};
ghost use Rattle.smap_record.specs.Results.{Returns};
ghost use Rattle.smap_record.specs.UrlBytes.{reading_within};
ghost use Rattle.smap_map_files.specs.Refusals.{IsNext, IsRefusalDetail};

use smap_fault_places::detail;
use smap_record::{Base, Fault, Limits, ReadError, SourceMap};
use smap_repair::{Repaired, repair_text};
use std::alloc::{AllocError, Global};

/// A text that should be a map, and how it is read.
#[derive(Clone, Copy)]
pub struct MapText<'a> {
    pub bytes: &'a [u8],
    pub base: &'a Base,
    /// How many bytes the URLs of its sources may take.
    pub url_bytes: usize,
    /// Whether it is all that its file holds.
    pub is_file: bool,
}

impl MapText<'_> {
    /// The map that these bytes are, read as it is; none where the URLs of its sources take more bytes.
    pub(crate) fn read(&self, alloc: Global, bytes: &[u8]) -> Result<Option<SourceMap>, ReadError>
        ensures { Returns (λ o. o) result
            (reading_within self.now.base.now usual self.now.url_bytes bytes.now) }
    {
        let (base, limits) = (self.base, Limits::usual());
        match SourceMap::from_slice_within(alloc, bytes, base, limits, self.url_bytes)? {
            Some((map, _)) => Ok(Some(map)),
            None => Ok(None),
        }
    }

    /// What `repair_text` answers of it.
    fn repaired(&self, alloc: Global) -> Result<Repaired, AllocError>
        ensures { IfOk result (IsRepairOf self.now.base.now self.now.url_bytes self.now.bytes.now) }
    {
        repair_text(
            alloc,
            self.bytes,
            self.base,
            Limits::usual(),
            self.url_bytes,
        )
    }

    /// The map that its mended text is, if the closed list of repairs suffices.
    pub(crate) fn mended(&self, alloc: Global) -> Result<Option<SourceMap>, AllocError>
        ensures { IfOk result (λ found. MatchOption found
            (IsUnmended self.now.base.now self.now.url_bytes self.now.bytes.now)
            (IsMended self.now.base.now self.now.url_bytes self.now.bytes.now)) }
    {
        let Repaired::Mended { text, .. } = self.repaired(alloc)? else {
            return Ok(None);
        };
        match self.read(alloc, &text) {
            Ok(Some(map)) => Ok(Some(map)),
            // a repaired text is read, unless memory runs out
            _ => Err(AllocError),
        }
    }

    /// The command that mends it, if one does.
    fn next_command(&self, alloc: Global) -> Result<&'static str, AllocError>
        ensures { IfOk result (λ t.
            IsNext self.now.base.now self.now.url_bytes self.now.bytes.now t.now) }
    {
        if !self.is_file {
            return Ok("");
        }
        match self.repaired(alloc)? {
            Repaired::Mended { .. } => Ok("; smap-maps repair --write mends it"),
            _ => Ok(""),
        }
    }

    /// What is wrong where its fault is, and the command that mends its file, if one does: words that follow
    /// the fault's message. The text is read again, up to three times.
    ///
    /// # Errors
    ///
    /// `AllocError`, also for a URL of 4 GiB or more.
    pub fn detail(&self, alloc: Global, fault: &Fault) -> Result<String, AllocError>
        ensures { IfOk result (λ t. IsRefusalDetail self.now.base.now self.now.url_bytes self.now.bytes.now
            fault.now (string_bytes t)) }
    {
        let mut said = detail(alloc, self.bytes, fault)?;
        said.push_str(self.next_command(alloc)?)?;
        Ok(said)
    }
}
