//! A map that is looked at, and the script that has it.
use crate::book::Book;
use crate::folder::Folder;
use crate::open::Open;
use smap_fault_places::{point_of, range_of};
use smap_link::script_url;
use smap_lint_rules::{Chains, Check, Members, Pair, Remark, Script, Wrong, lint_pair, members_of};
use smap_map_files::MapText;
use smap_record::{Base, BaseFault, Fault, Limits, ReadError, SourceMap, map_tree};
use smap_report::Point;
use smap_system::Disk;
use std::alloc::AllocError;

/// A map that is looked at, and the script that has it.
#[derive(Drop)]
pub(crate) struct Case<'a, 's> {
    pub(crate) book: &'a mut Book,
    pub(crate) folder: &'a Folder,
    /// The path of the file that holds the map, and the name of that file in the folder.
    pub(crate) file: &'a str,
    pub(crate) name: &'a str,
    /// Whether that file is the script itself.
    pub(crate) is_inline: bool,
    pub(crate) script: Option<Script<'s>>,
}

impl Case<'_, '_> {
    /// The URL of the file that holds the map.
    fn base(&self) -> Result<Option<Base>, AllocError> {
        let alloc = self.book.alloc;
        let folder = self.folder.url.as_str().as_bytes();
        let url = script_url(alloc, folder, self.name.as_bytes())?;
        let Ok(url) = std::str::from_utf8(&url) else {
            return Ok(None);
        };
        match Base::new(alloc, url) {
            Ok(base) => Ok(Some(base)),
            Err(BaseFault::NotUrl) => Ok(None),
            Err(BaseFault::Memory) => Err(AllocError),
        }
    }

    /// Where in the map's text its fault is; none where the map stands in its script.
    fn point(&self, bytes: &[u8], fault: &Fault) -> Result<Option<Point>, AllocError> {
        if self.is_inline {
            return Ok(None);
        }
        let Some(range) = range_of(self.book.alloc, bytes, fault)? else {
            return Ok(None);
        };
        let smap_fault_places::Point { line, column } = point_of(bytes, range.start);
        Ok(Some(Point { line, column }))
    }

    /// Notes that the map is refused.
    fn add_refused(&mut self, base: &Base, bytes: &[u8], fault: &Fault) -> Result<(), AllocError> {
        let text = MapText {
            bytes,
            base,
            url_bytes: self.book.url_bytes,
            is_file: !self.is_inline,
        };
        let detail = text.detail(self.book.alloc, fault)?;
        let detail = detail.as_str();
        let message = format!(in self.book.alloc; "{fault}{detail}")?;
        let point = self.point(bytes, fault)?;
        self.book
            .add_at(Check::RefusedMap, self.file, point, message)
    }

    /// Notes that the URLs of its sources take more bytes than they may.
    fn add_long_urls(&mut self) -> Result<(), AllocError> {
        let most = self.book.url_bytes;
        let message = format!(in self.book.alloc;
            "the URLs of its sources take more than {most} bytes (--url-bytes allows more)"
        )?;
        self.book.add(Check::RefusedMap, self.file, message)
    }

    /// The map that these bytes are; none where it is refused, as is noted.
    fn read(&mut self, bytes: &[u8]) -> Result<Option<SourceMap>, AllocError> {
        let Some(base) = self.base()? else {
            return Ok(None);
        };
        let (alloc, most) = (self.book.alloc, self.book.url_bytes);
        match SourceMap::from_slice_within(alloc, bytes, &base, Limits::usual(), most) {
            Ok(Some((map, _))) => Ok(Some(map)),
            Ok(None) => {
                self.add_long_urls()?;
                Ok(None)
            }
            Err(ReadError::Refused(fault)) => {
                self.add_refused(&base, bytes, &fault)?;
                Ok(None)
            }
            Err(ReadError::Memory) => Err(AllocError),
        }
    }

    /// What the map that these bytes are says beside its mappings.
    fn members(&self, bytes: &[u8]) -> Result<Option<Members>, AllocError> {
        let alloc = self.book.alloc;
        match map_tree(alloc, bytes) {
            Ok(tree) => Ok(Some(members_of(alloc, &tree)?)),
            Err(ReadError::Memory) => Err(AllocError),
            Err(ReadError::Refused(_)) => Ok(None),
        }
    }

    /// The map that these bytes are, and what it says beside its mappings; none where it is refused.
    fn read_whole(&mut self, bytes: &[u8]) -> Result<Option<(SourceMap, Members)>, AllocError> {
        let Some(map) = self.read(bytes)? else {
            return Ok(None);
        };
        match self.members(bytes)? {
            Some(members) => Ok(Some((map, members))),
            None => Ok(None),
        }
    }

    /// What is found in the map, and in how it fits its script.
    fn findings<D: Disk>(
        &self,
        disk: &D,
        map: &SourceMap,
        members: &Members,
    ) -> Result<Vec<Remark>, AllocError> {
        let files = self.look_for_sources(disk, map)?;
        let open = self.look_for_scripts(disk, map)?;
        findings_with(self, map, members, files, &open)
    }

    /// Lints the map that these bytes are, and how it fits its script.
    pub(crate) fn lint<D: Disk>(&mut self, disk: &D, bytes: Vec<u8>) -> Result<(), AllocError> {
        let whole = self.read_whole(&bytes)?;
        drop(bytes);
        let Some((map, members)) = whole else {
            return Ok(());
        };
        let found = self.findings(disk, &map, &members)?;
        self.book.add_all(self.file, found)
    }
}

/// What is found in a map, and in how it fits its script, where this is known of the sources: those that have
/// no file, those that differ from theirs, and those that are scripts. A pair has one lifetime, so all do.
fn findings_with<'x>(
    case: &'x Case<'x, 'x>,
    map: &'x SourceMap,
    members: &'x Members,
    files: (Wrong, Wrong),
    open: &'x Open,
) -> Result<Vec<Remark>, AllocError> {
    let (missing, stale) = files;
    let pair = Pair {
        map,
        members,
        script: case.script,
        is_inline: case.is_inline,
        folder: case.folder.url.as_str(),
        min_mapped: case.book.min_mapped,
        missing,
        stale,
        chains: Chains {
            files: open.files,
            named: &open.named,
            there: open.there,
        },
    };
    lint_pair(case.book.alloc, &pair)
}
