//! What a run has found so far.
use smap_lint_rules::{Check, Remark, mapless_words};
use smap_report::{Finding, Level, Point};
use std::alloc::{AllocError, Global};

/// Scripts without a map, which are one finding however many they are: most were never compiled.
#[derive(Drop)]
struct Mapless {
    count: usize,
    /// The path of the first one's file.
    first: Option<String>,
}

/// What a run has found so far, and the files that it looked at.
#[derive(Drop)]
pub(crate) struct Book {
    pub(crate) alloc: Global,
    /// The level of each rule; none where it isn't to be looked at.
    levels: Vec<Option<Level>>,
    pub(crate) findings: Vec<Finding>,
    pub(crate) files: Vec<String>,
    /// The scripts that name no map and have none beside them.
    mapless: Mapless,
    /// Whether a file couldn't be read.
    pub(crate) unread: bool,
    /// How much of a script has to have an original, in percent.
    pub(crate) min_mapped: Option<u32>,
    /// How many bytes the URLs of a map's sources may take.
    pub(crate) url_bytes: usize,
}

impl Book {
    pub(crate) fn new(
        alloc: Global,
        levels: Vec<Option<Level>>,
        min_mapped: Option<u32>,
        url_bytes: usize,
    ) -> Book {
        Book {
            alloc,
            levels,
            findings: Vec::new(alloc),
            files: Vec::new(alloc),
            mapless: Mapless {
                count: 0,
                first: None,
            },
            unread: false,
            min_mapped,
            url_bytes,
        }
    }

    /// The level of a rule, if it is to be looked at.
    pub(crate) fn level(&self, check: Check) -> Option<Level> {
        match self.levels.get(check.number()) {
            Some(level) => *level,
            None => None,
        }
    }

    /// Notes a file that is looked at.
    pub(crate) fn add_file(&mut self, file: String) -> Result<(), AllocError> {
        match self.files.push(file) {
            Ok(()) => Ok(()),
            Err(_) => Err(AllocError),
        }
    }

    /// Notes what was found in a file.
    pub(crate) fn add(
        &mut self,
        check: Check,
        file: &str,
        message: String,
    ) -> Result<(), AllocError> {
        self.add_at(check, file, None, message)
    }

    /// Notes what was found in a map and its script, in the file that holds the map.
    pub(crate) fn add_all(&mut self, file: &str, found: Vec<Remark>) -> Result<(), AllocError> {
        for remark in found {
            let Remark { check, message } = remark;
            self.add(check, file, message)?;
        }
        Ok(())
    }

    /// The same in these words.
    pub(crate) fn say(&mut self, check: Check, file: &str, words: &str) -> Result<(), AllocError> {
        let message = String::from_str(self.alloc, words)?;
        self.add(check, file, message)
    }

    /// Notes what was found at a place of a file, unless the rule isn't to be looked at.
    pub(crate) fn add_at(
        &mut self,
        check: Check,
        file: &str,
        point: Option<Point>,
        message: String,
    ) -> Result<(), AllocError> {
        let Some(level) = self.level(check) else {
            return Ok(());
        };
        let file = String::from_str(self.alloc, file)?;
        let finding = Finding {
            rule: check.number(),
            level,
            file,
            point,
            message,
        };
        match self.findings.push(finding) {
            Ok(()) => Ok(()),
            Err(_) => Err(AllocError),
        }
    }

    /// Counts a script that names no map and has none beside it.
    pub(crate) fn count_mapless(&mut self, file: &str) -> Result<(), AllocError> {
        self.mapless.count = self.mapless.count.saturating_add(1);
        if self.mapless.first.is_none() {
            self.mapless.first = Some(String::from_str(self.alloc, file)?);
        }
        Ok(())
    }

    /// Notes the scripts that were counted, in the file of the first one.
    fn add_mapless(&mut self) -> Result<(), AllocError> {
        let count = self.mapless.count;
        let Some(first) = self.mapless.first.take() else {
            return Ok(());
        };
        let message = mapless_words(self.alloc, count)?;
        self.add(Check::MissingMap, first.as_str(), message)
    }

    /// Notes what was counted, and puts the findings in the order of their files, by bytes.
    pub(crate) fn finish(&mut self) -> Result<(), AllocError> {
        self.add_mapless()?;
        self.findings
            .sort_by(|a, b| a.file.as_str().cmp(b.file.as_str()))
    }
}
