//! What a run does, and what there is to show.
use crate::loading::{Content, Item, Loaded, Reading, load};
use crate::status::Verdict;
use smap_system::{Disk, Host, Stop};
use smap_view_page::{Builds, Measures, Part, measured_script, push_parts, unmeasured};
use std::alloc::{AllocError, Global};

/// What a run does.
#[derive(Clone, Copy)]
pub(crate) struct Job<'a> {
    /// The first argument.
    pub(crate) given: &'a str,
    pub(crate) reading: Reading<'a>,
    pub(crate) items: &'a [Item<'a>],
    /// The build that this one is compared with.
    pub(crate) other: Option<&'a Other<'a>>,
}

/// A build that another one is compared with.
#[derive(Drop)]
pub(crate) struct Other<'a> {
    pub(crate) name: &'a str,
    pub(crate) parts: Vec<Part>,
    /// What was found wrong with it.
    pub(crate) verdict: Verdict,
}

impl Job<'_> {
    /// What was found wrong before anything is shown.
    pub(crate) fn verdict(&self) -> Verdict {
        match self.other {
            Some(other) => other.verdict,
            None => Verdict::new(),
        }
    }
}

/// What there is to show of an item. Of the scripts of a folder nothing is shown if there is no map, or if it
/// can't be shown, as it is said then: it is left out, and the others are shown.
pub(crate) fn loaded<E: Eprint + AllocGlobal, D: Disk>(
    host: &Host<'_, E, D>,
    reading: Reading<'_>,
    item: Item<'_>,
    verdict: &mut Verdict,
) -> Result<Option<Loaded>, Stop> {
    match (load(host, reading, item), item) {
        (Err(Stop::Reported(status)), Item::Script { found: true, .. }) => {
            *verdict = verdict.with_left_out(status);
            Ok(None)
        }
        (Ok(Some(loaded)), _) => {
            verdict.refused |= matches!(loaded.content, Content::Refused(..));
            Ok(Some(loaded))
        }
        (answer, _) => answer,
    }
}

/// Says that there is nothing to show. Why scripts were left out has been said.
pub(crate) fn fail_empty<E: Eprint + AllocGlobal, D: Disk>(
    host: &Host<'_, E, D>,
    given: &str,
    verdict: Verdict,
) -> Stop {
    let (status, what) = match verdict.status() {
        0 => (2, "no script with a map in"),
        status => (status, "nothing that can be shown in"),
    };
    match format!(in host.alloc(); "{what} {given}") {
        Ok(text) => host.fail(status, text.as_str()),
        Err(_) => Stop::Memory,
    }
}

/// Measures a script. Of a refused map nothing is counted.
pub(crate) fn measures_of(alloc: Global, loaded: &Loaded) -> Result<Measures, AllocError> {
    match &loaded.content {
        Content::Map(map, text) => measured_script(alloc, map, text.as_str(), loaded.code),
        Content::Refused(..) => Ok(unmeasured(alloc)),
    }
}

/// Notes the parts of a script, if it has a map that can be shown.
pub(crate) fn note(
    alloc: Global,
    parts: &mut Vec<Part>,
    loaded: &Loaded,
    measures: &Measures,
    script: usize,
) -> Result<(), AllocError> {
    match &loaded.content {
        Content::Map(map, _) => push_parts(alloc, parts, map, measures, script),
        Content::Refused(..) => Ok(()),
    }
}

/// The parts of both builds, if there are two.
pub(crate) fn builds_of<'a>(job: &Job<'a>, noted: &'a [Part]) -> Option<Builds<'a>> {
    let other = job.other?;
    Some(Builds {
        name: other.name,
        old: &other.parts,
        new: noted,
    })
}
