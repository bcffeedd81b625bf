//! The scripts that lines of a log name.
ghost use Rattle.std.specs.Prelude.{◌≡◌, ◌++◌, ◌≤◌, [], ◌∷◌, IfOk, OnOk, bytes_eq, filter, length, map};
ghost use Rattle.std.specs.List.{list_any};
ghost use Rattle.std.specs.Map.{keys_of};
ghost use Rattle.smap_trace.specs.Naming.{urls_of};
ghost use Rattle.smap_logs.specs.Naming as spec;
ghost use Rattle.smap_logs.specs.Naming.{AreNamesOf, AreSame, frames_of, others_in, others_of};

use crate::add_spans;
use indexmap::{IndexMap, IndexSet};
use smap_frames::query_len;
use smap_io::Device;
use smap_link::bare;
use smap_trace::{NamedScripts, named_scripts};
use std::alloc::{AllocError, Global};

/// Names of scripts, in the order in which lines first have them.
#[derive(Drop)]
pub struct Names {
    /// Those of frames, and how many lines have each.
    pub frames: IndexMap<Vec<u8>, u64>,
    /// Texts that may be names since a position follows.
    pub(crate) others: IndexSet<Vec<u8>>,
}

/// The texts as slices.
fn slices(alloc: Global, texts: &[Vec<u8>]) -> Result<Vec<&[u8]>, AllocError>
    ensures { IfOk result (λ all. map (λ s. s.now) all.items ≡ map (λ t. t.items) texts.now) }
{
    let mut slices = Vec::with_capacity(alloc, texts.len())?;
    for text in texts {
        slices.push(text.as_slice())?;
    }
    Ok(slices)
}

impl Names {
    /// No names.
    pub fn new(alloc: Global) -> Names
        ensures frames { frames_of result ≡ [] }
        ensures others { others_of result ≡ [] }
    {
        Names {
            frames: IndexMap::new(alloc),
            others: IndexSet::new(alloc),
        }
    }

    /// Those of frames.
    ///
    /// # Errors
    ///
    /// `AllocError`.
    pub fn of_frames(&self, alloc: Global) -> Result<Vec<&[u8]>, AllocError>
        ensures { IfOk result (λ all. map (λ name. name.now) all.items ≡ frames_of self.now) }
    {
        slices(alloc, self.frames.keys().as_slice())
    }

    /// The others that may be looked for, where scripts are given by these names with control characters.
    ///
    /// # Errors
    ///
    /// `AllocError`.
    pub fn of_others(&self, alloc: Global, given: &[Vec<u8>]) -> Result<Vec<&[u8]>, AllocError>
        ensures { IfOk result (λ all. map (λ name. name.now) all.items
            ≡ filter (spec.is_sought given.now) (others_of self.now)) }
    {
        let others = self.others.as_slice();
        let mut sought = Vec::new(alloc);
        for name in others {
            if is_sought(given, name) {
                sought.push(name.as_slice())?;
            }
        }
        Ok(sought)
    }

    /// Counts lines whose frames have this name.
    fn count(&mut self, alloc: Global, name: &[u8], lines: u64) -> Result<(), AllocError>
        ensures frames { OnOk result (AreSame (frames_of self.new) (frames_of self.old ++ name.now ∷ [])) }
        ensures others { others_of self.new ≡ others_of self.old }
    {
        if let Some(i) = self.frames.get_index_of(name) {
            self.frames[i] = self.frames[i].saturating_add(lines);
            return Ok(());
        }
        self.frames.insert(Vec::from_slice(alloc, name)?, lines)?;
        Ok(())
    }

    /// Counts the frames of these lines.
    ///
    /// # Errors
    ///
    /// `AllocError`.
    pub fn add_frames(&mut self, alloc: Global, lines: &[u8]) -> Result<(), AllocError>
        ensures frames { OnOk result
            (AreSame (frames_of self.new) (frames_of self.old ++ urls_of lines.now)) }
        ensures others { others_of self.new ≡ others_of self.old }
    {
        let mut reader = Device::new(lines);
        match named_scripts(alloc, &mut reader) {
            Ok(named) => self.add_named(alloc, &named),
            Err(_) => Err(AllocError),
        }
    }

    /// Counts the lines that name these.
    fn add_named(&mut self, alloc: Global, named: &NamedScripts) -> Result<(), AllocError>
        ensures frames { OnOk result
            (AreSame (frames_of self.new) (frames_of self.old ++ keys_of named.now)) }
        ensures others { others_of self.new ≡ others_of self.old }
    {
        for i in 0..named.len() {
            let Some((name, count)) = named.get(i) else {
                continue
            };
            self.count(alloc, name, count)?;
        }
        Ok(())
    }

    /// Counts the frames that other names have, unless there would be more names than these.
    ///
    /// # Errors
    ///
    /// `AllocError`.
    pub fn add_counts(
        &mut self,
        alloc: Global,
        names: &Names,
        most: usize,
    ) -> Result<(), AllocError> {
        for (name, count) in names.frames.iter() {
            if self.frames.len() < most || self.frames.contains_key(name.as_slice()) {
                self.count(alloc, name, *count)?;
            }
        }
        Ok(())
    }

    /// Adds what has a position behind it in these lines, and isn't the name of a frame.
    ///
    /// # Errors
    ///
    /// `AllocError`.
    pub fn add_others(&mut self, alloc: Global, lines: &[u8]) -> Result<(), AllocError>
        ensures frames { frames_of self.new ≡ frames_of self.old }
        ensures others { OnOk result (AreSame (others_of self.new)
            (others_of self.old ++ spec.without (frames_of self.old) (others_in lines.now))) }
    {
        for line in lines.split(|b| *b == b'\n') {
            self.add_others_of(alloc, line)?;
        }
        Ok(())
    }

    /// Adds what has a position behind it in this line.
    fn add_others_of(&mut self, alloc: Global, line: &[u8]) -> Result<(), AllocError>
        ensures frames { frames_of self.new ≡ frames_of self.old }
        ensures others { OnOk result (AreSame (others_of self.new)
            (others_of self.old ++ spec.without (frames_of self.old) (spec.others_in_line line.now))) }
    {
        let mut spans = Vec::new(alloc);
        add_spans(line, &mut spans)?;
        for span in &spans {
            self.add_other(alloc, &line[span.start..span.url_end])?;
        }
        Ok(())
    }

    /// Adds a text that may be a name, unless it is that of a frame.
    fn add_other(&mut self, alloc: Global, name: &[u8]) -> Result<(), AllocError>
        ensures frames { frames_of self.new ≡ frames_of self.old }
        ensures others { OnOk result (AreSame (others_of self.new)
            (others_of self.old
            ++ spec.without (frames_of self.old) (filter spec.has_plain_query (name.now ∷ [])))) }
    {
        if !has_plain_query(name) {
            return Ok(());
        }
        if self.frames.contains_key(name) {
            return Ok(());
        }
        if self.others.contains(name) {
            return Ok(());
        }
        self.others.insert(Vec::from_slice(alloc, name)?)?;
        Ok(())
    }

    /// Adds the names in these lines.
    ///
    /// # Errors
    ///
    /// `AllocError`.
    pub fn add_lines(
        &mut self,
        alloc: Global,
        lines: &[u8],
        anywhere: bool,
    ) -> Result<(), AllocError>
        ensures frames { OnOk result
            (AreSame (frames_of self.new) (frames_of self.old ++ urls_of lines.now)) }
        ensures others { OnOk result (AreSame (others_of self.new)
            (others_of self.old ++ spec.others_if anywhere (frames_of self.new) lines.now)) }
    {
        self.add_frames(alloc, lines)?;
        if anywhere {
            self.add_others(alloc, lines)?;
        }
        Ok(())
    }
}

/// Whether a name has a control character.
pub fn has_control(name: &[u8]) -> bool
    ensures { result ≡ list_any spec.is_control name.now }
{
    name.iter().any(|b| *b < b' ' || *b == 0x7f)
}

/// Whether one of these is the name.
fn is_given(given: &[Vec<u8>], name: &[u8]) -> bool
    ensures { result ≡ list_any (λ g. bytes_eq name.now g.items) given.now }
{
    given.iter().any(|g| name == g.as_slice())
}

/// Whether a text with a position behind it may be looked for.
fn is_sought(given: &[Vec<u8>], name: &[u8]) -> bool
    ensures { result ≡ spec.is_sought given.now name.now }
{
    !has_control(name) || is_given(given, name)
}

/// What stands behind the path of a URL.
fn behind<'a>(name: &'a [u8]) -> &'a [u8]
    ensures { result.now ≡ spec.behind name.now }
{
    &name[bare(name).len()..]
}

/// Whether all of what follows the path of a URL can be left out as its query and its fragment.
fn has_plain_query(name: &[u8]) -> bool
    ensures { result ≡ spec.has_plain_query name.now }
{
    let rest = behind(name);
    query_len(rest) == rest.len()
}

/// The names in these lines.
///
/// # Errors
///
/// `AllocError`.
pub fn names_in(alloc: Global, lines: &[u8], anywhere: bool) -> Result<Names, AllocError>
    ensures { IfOk result (AreNamesOf anywhere lines.now) }
{
    let mut names = Names::new(alloc);
    names.add_lines(alloc, lines, anywhere)?;
    Ok(names)
}
