//! The sizes of a run's scripts, written.
use crate::budget::Budget;
use crate::job::{Job, builds_of, fail_empty, loaded, measures_of, note};
use crate::loading::{Content, Loaded};
use crate::sizing::{all_text, growth_sizes, sizes_text};
use crate::status::Verdict;
use smap_command_line::view::{SizesForm, ViewWords};
use smap_system::{Disk, Host, Stop, Watched};
use smap_view_page::{Measures, Part};
use std::alloc::{AllocError, Global};
use std::io::Write;

/// What was measured of several scripts.
#[derive(Drop)]
struct Noted {
    /// Whether parts are kept, as what is shown of all together needs them.
    keeps_parts: bool,
    parts: Vec<Part>,
    /// Their paths.
    places: Vec<String>,
}

impl Noted {
    /// Notes a script.
    fn add(
        &mut self,
        alloc: Global,
        loaded: &Loaded,
        measures: &Measures,
    ) -> Result<(), AllocError> {
        if self.keeps_parts {
            let script = self.places.len();
            note(alloc, &mut self.parts, loaded, measures, script)?;
        }
        let place = String::from_str(alloc, loaded.place.as_str())?;
        self.places.push(place)?;
        Ok(())
    }
}

/// Counts a script, and writes its sizes, if they are asked for and aren't compared.
fn measure<E: Eprint + AllocGlobal, D: Disk, W: Write>(
    host: &Host<'_, E, D>,
    form: Option<SizesForm>,
    noted: &mut Noted,
    budget: &mut Budget,
    loaded: &Loaded,
    writer: &mut Watched<W>,
) -> Result<(), Stop> {
    let alloc = host.alloc();
    let measures = measures_of(alloc, loaded)?;
    if let Content::Map(map, _) = &loaded.content {
        budget.count(map, &measures.sizes, measures.all);
    }
    noted.add(alloc, loaded, &measures)?;
    match form {
        Some(form) => {
            let text = sizes_text(alloc, form, loaded, &measures)?;
            host.write(text.as_bytes(), writer)
        }
        None => Ok(()),
    }
}

/// Writes the sizes of what has grown, if there are two builds.
fn write_compared<E: Eprint + AllocGlobal, D: Disk, W: Write>(
    host: &Host<'_, E, D>,
    form: SizesForm,
    job: &Job<'_>,
    noted: &[Part],
    writer: &mut Watched<W>,
) -> Result<(), Stop> {
    match builds_of(job, noted) {
        Some(builds) => {
            let text = growth_sizes(host.alloc(), form, job.given, builds)?;
            host.write(text.as_bytes(), writer)
        }
        None => Ok(()),
    }
}

/// Writes what several scripts or two builds have together.
fn write_together<E: Eprint + AllocGlobal, D: Disk, W: Write>(
    host: &Host<'_, E, D>,
    form: SizesForm,
    job: &Job<'_>,
    noted: &mut Noted,
    writer: &mut Watched<W>,
) -> Result<(), Stop> {
    let alloc = host.alloc();
    if job.other.is_some() {
        return write_compared(host, form, job, &noted.parts, writer);
    }
    if form == SizesForm::Table && noted.places.len() > 1 {
        let text = all_text(alloc, &mut noted.parts, &noted.places)?;
        return host.write(text.as_bytes(), writer);
    }
    Ok(())
}

/// Writes the sizes of each script, if they aren't compared, and counts it. Answers what was found wrong.
fn write_each<E: Eprint + AllocGlobal, D: Disk, W: Write>(
    host: &Host<'_, E, D>,
    job: &Job<'_>,
    form: Option<SizesForm>,
    noted: &mut Noted,
    budget: &mut Budget,
    writer: &mut Watched<W>,
) -> Result<Verdict, Stop> {
    let mut verdict = job.verdict();
    let form = if job.other.is_some() { None } else { form };
    for item in job.items {
        if let Some(loaded) = loaded(host, job.reading, *item, &mut verdict)? {
            measure(host, form, noted, budget, &loaded, writer)?;
        }
    }
    if noted.places.is_empty() {
        return Err(fail_empty(host, job.given, verdict));
    }
    Ok(verdict)
}

/// Writes the sizes of all scripts, if they are asked for, and counts these. Answers what was found wrong.
fn write_all<E: Eprint + AllocGlobal, D: Disk, W: Write>(
    host: &Host<'_, E, D>,
    job: &Job<'_>,
    form: Option<SizesForm>,
    budget: &mut Budget,
    writer: &mut Watched<W>,
) -> Result<Verdict, Stop> {
    let mut noted = Noted {
        keeps_parts: job.other.is_some() || form == Some(SizesForm::Table),
        parts: Vec::new(host.alloc()),
        places: Vec::new(host.alloc()),
    };
    let verdict = write_each(host, job, form, &mut noted, budget, writer)?;
    if let Some(form) = form {
        write_together(host, form, job, &mut noted, writer)?;
    }
    Ok(verdict)
}

/// Writes the sizes of all scripts, and compares them with the budget.
pub(crate) fn write_sizes<E: Eprint + AllocGlobal, D: Disk, W: Write>(
    host: &Host<'_, E, D>,
    job: &Job<'_>,
    asked: &ViewWords<'_>,
    writer: &mut Watched<W>,
) -> Result<Verdict, Stop> {
    let mut budget = match asked.options.text("budget") {
        Some(text) => Budget::of(host, text, job.other)?,
        None => Budget::none(host.alloc()),
    };
    let mut verdict = write_all(host, job, asked.sizes(), &mut budget, writer)?;
    verdict.over_budget = budget.tell(host)?;
    Ok(verdict)
}
