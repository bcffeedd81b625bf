//! A script, and what it has for a map.
use crate::case::Case;
use crate::links::{absent_words, wrong_words};
use crate::visit::Visit;
use smap_link::link_in;
use smap_lint_rules::Check;
use smap_map_files::{Home, LinkProblem, ScriptMap, map_of};
use smap_system::{Disk, Stop};
use std::alloc::AllocError;

/// A script of a folder.
#[derive(Clone, Copy)]
pub(crate) struct Script<'a> {
    /// Its name in the folder, and the path of its file.
    pub(crate) name: &'a str,
    pub(crate) file: &'a str,
    /// The name that a map beside it has.
    pub(crate) beside: &'a str,
    pub(crate) text: &'a [u8],
}

impl<'a> Script<'a> {
    /// What the rules of a map and its script look at.
    fn in_pair(self) -> smap_lint_rules::Script<'a> {
        smap_lint_rules::Script {
            name: self.name,
            text: self.text,
        }
    }
}

impl<E: Eprint + AllocGlobal, D: Disk> Visit<'_, '_, E, D> {
    /// Notes the map next to a script which has another one, if there is one.
    fn note_second(&mut self, script: Script<'_>, has: &str) -> Result<(), AllocError> {
        let Script { file, beside, .. } = script;
        if let Some(number) = self.folder.number(beside) {
            let message = format!(in self.book.alloc; "names {has}, and {beside} is next to it")?;
            self.book.add(Check::TwoMaps, file, message)?;
            self.use_map(number);
        }
        Ok(())
    }

    /// Notes that a script has this map, and whether another one had it before.
    fn note_use(&mut self, script: Script<'_>, map: &str) -> Result<(), AllocError> {
        let Some(number) = self.folder.number(map) else {
            return Ok(());
        };
        if self.use_map(number) {
            let message = format!(in self.book.alloc; "has the map of another script: {map}")?;
            self.book.add(Check::SharedMap, script.file, message)?;
        }
        Ok(())
    }

    /// Lints a file of the folder as the map of a script.
    fn lint_file(&mut self, script: Script<'_>, map: &str) -> Result<(), Stop> {
        self.note_use(script, map)?;
        let file = self.folder.file(self.host.alloc(), map)?;
        let Some(bytes) = self.read(file.as_str())? else {
            return Ok(());
        };
        let mut case = Case {
            book: self.book,
            folder: self.folder,
            file: file.as_str(),
            name: map,
            is_inline: false,
            script: Some(script.in_pair()),
        };
        case.lint(self.host.disk, bytes)?;
        Ok(())
    }

    /// Lints a script that names a file of the folder for its map.
    fn lint_linked(&mut self, script: Script<'_>, map: &str) -> Result<(), Stop> {
        if map != script.beside {
            self.note_second(script, map)?;
        }
        self.lint_file(script, map)
    }

    /// Lints a script that has its map in itself.
    fn lint_inline(&mut self, script: Script<'_>, bytes: Vec<u8>) -> Result<(), Stop> {
        self.note_second(script, "a map in itself")?;
        let mut case = Case {
            book: self.book,
            folder: self.folder,
            file: script.file,
            name: script.name,
            is_inline: true,
            script: Some(script.in_pair()),
        };
        case.lint(self.host.disk, bytes)?;
        Ok(())
    }

    /// Notes why the map that a script names can't be had.
    fn note_problem(&mut self, script: Script<'_>, problem: LinkProblem) -> Result<(), AllocError> {
        let alloc = self.book.alloc;
        let url = link_in(script.name.as_bytes(), script.text).unwrap_or(b"".as_slice());
        let (check, message) = match problem {
            LinkProblem::Absent(why) => absent_words(alloc, why, url)?,
            LinkProblem::Wrong(why) => wrong_words(alloc, why, url)?,
        };
        self.book.add(check, script.file, message)
    }

    /// Lints the map that a script has, and notes why it isn't the one that it names.
    fn lint_map(
        &mut self,
        script: Script<'_>,
        map: ScriptMap,
        problem: Option<LinkProblem>,
    ) -> Result<(), Stop> {
        if let Some(problem) = problem {
            self.note_problem(script, problem)?;
        }
        match map {
            ScriptMap::Inline(bytes) => self.lint_inline(script, bytes),
            ScriptMap::Named(map) => self.lint_linked(script, map.as_str()),
            ScriptMap::Beside(map) => self.lint_file(script, map.as_str()),
            ScriptMap::Nothing if problem.is_none() => Ok(self.book.count_mapless(script.file)?),
            ScriptMap::Nothing => Ok(()),
        }
    }

    /// Lints the script with this name, and its map.
    pub(crate) fn lint_script(&mut self, name: &str) -> Result<(), Stop> {
        let alloc = self.host.alloc();
        let file = self.folder.file(alloc, name)?;
        let Some(text) = self.read(file.as_str())? else {
            return Ok(());
        };
        let beside = format!(in alloc; "{name}.map")?;
        let script = Script {
            name,
            file: file.as_str(),
            beside: beside.as_str(),
            text: &text,
        };
        let home = Home {
            path: self.folder.path.as_str(),
            url: self.folder.url.as_bytes(),
        };
        let (map, problem) = map_of(alloc, self.host.disk, home, name, script.text)?;
        self.lint_map(script, map, problem)
    }
}
