//! A folder that is looked at: its scripts, each with its map, and its maps that no script has.
use crate::book::Book;
use crate::case::Case;
use crate::folder::{Folder, read};
use smap_lint_rules::Check;
use smap_system::{Disk, Host, Kind, Stop};
use std::alloc::AllocError;

/// A folder that is looked at.
#[derive(Drop)]
pub(crate) struct Visit<'a, 'h, E, D> {
    pub(crate) host: &'a Host<'h, E, D>,
    pub(crate) folder: &'a Folder,
    pub(crate) book: &'a mut Book,
    /// By the numbers of the folder's names, whether a script was found to have this map.
    used: Vec<bool>,
}

impl<E: Eprint + AllocGlobal, D: Disk> Visit<'_, '_, E, D> {
    /// Notes that a script has the map with this number, and answers whether another one had it before.
    pub(crate) fn use_map(&mut self, number: usize) -> bool {
        match self.used.get_mut(number) {
            Some(used) => {
                let before = *used;
                *used = true;
                before
            }
            None => false,
        }
    }

    /// Whether a script has the map with this number.
    fn is_used(&self, number: usize) -> bool {
        match self.used.get(number) {
            Some(used) => *used,
            None => false,
        }
    }

    /// What a file holds; none if it can't be read, which is said and noted.
    pub(crate) fn read(&mut self, file: &str) -> Result<Option<Vec<u8>>, Stop> {
        let bytes = read(self.host, file)?;
        if bytes.is_none() {
            self.book.unread = true;
        }
        Ok(bytes)
    }

    /// Notes a map that no script has, unless a file of its name is next to it, as `a.d.ts` next to
    /// `a.d.ts.map`.
    fn note_unused(&mut self, file: &str) -> Result<(), AllocError> {
        let stem = file.strip_suffix(".map").unwrap_or(file);
        if self.host.disk.kind(stem) == Kind::File {
            return Ok(());
        }
        let message = "no script names this map, and none is next to it";
        self.book.say(Check::UnusedMap, file, message)
    }

    /// Lints a map that no script has.
    fn lint_alone(&mut self, name: &str) -> Result<(), Stop> {
        let folder = self.folder;
        let file = self.folder.file(self.host.alloc(), name)?;
        if self.folder.is_whole {
            self.note_unused(file.as_str())?;
        }
        let Some(bytes) = self.read(file.as_str())? else {
            return Ok(());
        };
        let mut case = Case {
            book: self.book,
            folder,
            file: file.as_str(),
            name,
            is_inline: false,
            script: None,
        };
        case.lint(self.host.disk, bytes)?;
        Ok(())
    }

    /// Lints the scripts of the folder, with their maps.
    fn lint_scripts(&mut self) -> Result<(), Stop> {
        let folder = self.folder;
        for name in &folder.names {
            let name = name.as_str();
            self.book.add_file(folder.file(self.host.alloc(), name)?)?;
            if !name.ends_with(".map") {
                self.lint_script(name)?;
            }
        }
        Ok(())
    }

    /// Lints the maps of the folder that no script has.
    fn lint_maps(&mut self) -> Result<(), Stop> {
        let folder = self.folder;
        for number in 0..folder.names.len() {
            let name = folder.names[number].as_str();
            if name.ends_with(".map") && !self.is_used(number) {
                self.lint_alone(name)?;
            }
        }
        Ok(())
    }
}

/// Lints the scripts and maps of the folder with this path, or of the file with this path.
pub(crate) fn lint_folder<E: Eprint + AllocGlobal, D: Disk>(
    host: &Host<'_, E, D>,
    book: &mut Book,
    given: &str,
) -> Result<(), Stop> {
    let folder = Folder::new(host, given)?;
    let used = vec![in host.alloc(); false; folder.names.len()]?;
    let mut visit = Visit {
        host,
        folder: &folder,
        book,
        used,
    };
    visit.lint_scripts()?;
    visit.lint_maps()
}
