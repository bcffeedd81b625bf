//! The frames of a run's logs, counted by what became of them, for what is said at the end.
use crate::given::{Given, can_have_map};
use indexmap::IndexMap;
use smap_logs::Names;
use smap_map_finder::Finder;
use smap_record::SourceMap;
use smap_system::Disk;
use smap_trace::{LinePosition, MatchMode, Scripts, frame, is_hidden, line_positions};
use std::alloc::{AllocError, Global};
use std::sync::Arc;

/// So many names are counted one by one at most.
const MOST_COUNTED: usize = 10_000;

/// How many frames there are of one kind, and how many have each name.
#[derive(Drop)]
pub struct Counted {
    all: u64,
    names: IndexMap<Vec<u8>, u64>,
}

impl Counted {
    pub fn new(alloc: Global) -> Counted {
        Counted {
            all: 0,
            names: IndexMap::new(alloc),
        }
    }

    /// How many there are.
    pub fn all(&self) -> u64 {
        self.all
    }

    /// Their names.
    pub fn names(&self, alloc: Global) -> Result<Vec<&[u8]>, AllocError> {
        let mut names = Vec::with_capacity(alloc, self.names.len())?;
        for (name, _) in self.names.iter() {
            names.push(name.as_slice())?;
        }
        Ok(names)
    }

    /// Whether all have one name.
    pub fn is_of_one(&self) -> bool {
        self.names.len() == 1
    }

    fn add(&mut self, alloc: Global, name: &[u8], count: u64) -> Result<(), AllocError> {
        self.all = self.all.saturating_add(count);
        if let Some(i) = self.names.get_index_of(name) {
            self.names[i] = self.names[i].saturating_add(count);
        } else if self.names.len() < MOST_COUNTED {
            self.names.insert(Vec::from_slice(alloc, name)?, count)?;
        }
        Ok(())
    }

    /// The name that most have, and how many do; of several the first.
    fn most_counted(&self) -> (Option<&[u8]>, u64) {
        let mut best: Option<&[u8]> = None;
        let mut most = 0;
        for (name, count) in self.names.iter() {
            if *count > most {
                most = *count;
                best = Some(name.as_slice());
            }
        }
        (best, most)
    }

    /// The name that most have; of several the first.
    pub fn most(&self) -> Option<&[u8]> {
        self.most_counted().0
    }
}

/// The frames of a run's logs.
#[derive(Drop)]
pub struct Frames {
    /// Those of scripts with maps.
    pub mapped: Counted,
    /// Those of scripts without a map that might have had one.
    pub mapless: Counted,
    /// Those of other scripts that can have a map.
    pub elsewhere: Counted,
    /// How many there are of scripts that can have none.
    pub foreign: u64,
    /// Those of scripts with maps that have no mapping for them, as far as they were looked for.
    pub missed: Counted,
    /// Whether the lines of logs were looked through for these as they were translated.
    pub are_followed: bool,
    /// Those of scripts with maps, and what else names such a script.
    pub used: Counted,
}

impl Frames {
    pub fn none(alloc: Global) -> Frames {
        Frames {
            mapped: Counted::new(alloc),
            mapless: Counted::new(alloc),
            elsewhere: Counted::new(alloc),
            foreign: 0,
            missed: Counted::new(alloc),
            are_followed: false,
            used: Counted::new(alloc),
        }
    }

    /// How many there are.
    pub fn all(&self) -> u64 {
        self.mapped
            .all()
            .saturating_add(self.mapless.all())
            .saturating_add(self.elsewhere.all())
            .saturating_add(self.foreign)
    }

    /// The name that most frames have of scripts without a map that can have one.
    pub fn most_without(&self) -> Option<&[u8]> {
        let (near, far) = (self.mapless.most_counted(), self.elsewhere.most_counted());
        if far.1 > near.1 { far.0 } else { near.0 }
    }

    /// Counts the frames of a script without a map.
    fn add_mapless(
        &mut self,
        alloc: Global,
        given: &Given,
        name: &[u8],
        count: u64,
    ) -> Result<(), AllocError> {
        if given.might_have(alloc, name)? {
            return self.mapless.add(alloc, name, count);
        }
        if can_have_map(name) {
            return self.elsewhere.add(alloc, name, count);
        }
        self.foreign = self.foreign.saturating_add(count);
        Ok(())
    }

    /// Counts what else than frames names scripts whose maps are open.
    fn add_others<E: Eprint + AllocGlobal, D: Disk>(
        &mut self,
        alloc: Global,
        with_controls: &[Vec<u8>],
        finder: &Finder<'_, E, D>,
        names: &Names,
    ) -> Result<(), AllocError> {
        for name in &names.of_others(alloc, with_controls)? {
            if finder.map_of(name).is_some() {
                self.used.add(alloc, name, 1)?;
            }
        }
        Ok(())
    }

    /// Counts the frames with these names, whose maps are open, and what else names scripts.
    pub fn add<E: Eprint + AllocGlobal, D: Disk>(
        &mut self,
        alloc: Global,
        with_controls: &[Vec<u8>],
        finder: &Finder<'_, E, D>,
        given: &Given,
        names: &Names,
    ) -> Result<(), AllocError> {
        for (name, count) in names.frames.iter() {
            if finder.map_of(name).is_some() {
                self.mapped.add(alloc, name, *count)?;
                self.used.add(alloc, name, *count)?;
            } else {
                self.add_mapless(alloc, given, name, *count)?;
            }
        }
        self.add_others(alloc, with_controls, finder, names)
    }
}

/// Whether a line with this position stays.
fn stays(position: &LinePosition<'_>) -> bool {
    match &position.original {
        Some(original) => original.source.url.is_none(),
        None => true,
    }
}

/// Counts the frame that a line is, if its script has a map without a mapping for it.
fn add_missed_line(
    alloc: Global,
    text: &[u8],
    scripts: &Scripts<Arc<SourceMap>>,
    hide: bool,
    missed: &mut Counted,
) -> Result<(), AllocError> {
    let Some(frame) = frame(text) else {
        return Ok(());
    };
    if hide && is_hidden(text, scripts, false) {
        return Ok(());
    }
    let alone = MatchMode {
        anywhere: false,
        ignore_query: false,
    };
    let Ok(positions) = line_positions(alloc, text, scripts, alone) else {
        return Err(AllocError);
    };
    match positions.first() {
        Some(position) if stays(position) => missed.add(alloc, frame.url, 1),
        _ => Ok(()),
    }
}

/// Counts the frames of these lines whose scripts have maps without a mapping for them; those that are to be
/// hidden aren't counted.
///
/// # Errors
///
/// `AllocError`.
pub fn add_missed(
    alloc: Global,
    lines: &[u8],
    scripts: &Scripts<Arc<SourceMap>>,
    hide: bool,
    missed: &mut Counted,
) -> Result<(), AllocError> {
    for text in lines.split(|b| *b == b'\n') {
        add_missed_line(alloc, text, scripts, hide, missed)?;
    }
    Ok(())
}
