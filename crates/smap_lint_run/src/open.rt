//! The sources of a map that are scripts with maps of their own.
use crate::case::Case;
use smap_chains::{Lead, source_lead};
use smap_lint_rules::Wrong;
use smap_map_files::{Home, Target};
use smap_record::SourceMap;
use smap_system::Disk;
use std::alloc::{AllocError, Global};

/// What is known of the sources of a map that are scripts.
#[derive(Drop)]
pub(crate) struct Open {
    /// Those without a content whose files name maps.
    pub(crate) files: Wrong,
    /// What the first of these names.
    pub(crate) named: Vec<u8>,
    /// How many maps that sources name can be had.
    pub(crate) there: usize,
}

impl Open {
    fn new(alloc: Global) -> Open {
        Open {
            files: Wrong::new(),
            named: Vec::new(alloc),
            there: 0,
        }
    }

    /// Notes what the source with this number names, in its content or in its file.
    fn add(&mut self, number: usize, in_file: bool, lead: Lead) {
        if matches!(lead.target, Target::Inline(_) | Target::File(_)) {
            self.there = self.there.saturating_add(1);
        }
        if in_file {
            if self.files.first.is_none() {
                self.named = lead.named;
            }
            self.files = self.files.with(number);
        }
    }
}

impl Case<'_, '_> {
    /// The folder of the map.
    fn home(&self) -> Home<'_> {
        Home {
            path: self.folder.path.as_str(),
            url: self.folder.url.as_bytes(),
        }
    }

    /// What is known of the sources of the map that are scripts.
    pub(crate) fn look_for_scripts<D: Disk>(
        &self,
        disk: &D,
        map: &SourceMap,
    ) -> Result<Open, AllocError> {
        let (alloc, script) = (self.book.alloc, self.own_script()?);
        let mut open = Open::new(alloc);
        for number in 0..map.source_count() {
            let source = map.source(number);
            if let Some(lead) = source_lead(alloc, disk, self.home(), &script, source)? {
                open.add(number, source.content.is_none(), lead);
            }
        }
        Ok(open)
    }
}
