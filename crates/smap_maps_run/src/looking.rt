//! One map: its file is read, and what becomes of it is found.
ghost use Rattle.std.specs.Prelude.{◌≡◌, ◌++◌, [], IfOk, MatchResult, None, Ok, OnOk};
ghost use Rattle.std.specs.Prelude.{map, string_bytes};
ghost use Rattle.url.specs.Parser.{parse_url};
ghost use Rattle.serde_json.specs.View.{view};
ghost use Rattle.smap_record.specs.Reading.{map_tree};
ghost use Rattle.smap_system.specs.Held.{IsHeld};
ghost use Rattle.smap_maps_run.specs.Judging.{IsJudged};
ghost use Rattle.smap_maps_run.specs.Looking.{IsCompared, IsDone, IsDue, IsFileOf, IsOtherForm};
ghost use Rattle.smap_maps_run.specs.Looking.{IsUnchangedAs};
ghost use Rattle.smap_maps_run.specs.Looking.{IsOutcome, IsOutcomeOf, IsUnlooked, drops_of, drops_of_tree};

use crate::deciding::{Deed, Work, decided};
use crate::forms::{Form, formed};
use crate::repairing::repaired;
use crate::replacing::replace;
use crate::targets::Target;
use crate::{Failure, Outcome, Verdict, judged, unread};
use serde_json::Value;
use smap_command_line::maps::Rewrite;
use smap_differences::{changes, dropped};
use smap_map_files::MapText;
use smap_record::{Base, BaseFault, map_tree};
use smap_system::{Disk, FileFault, LIMIT, Stamp, read_file};
use std::alloc::{AllocError, Global};

/// A map that is looked at.
#[derive(Drop)]
pub(crate) struct Case<'a, D> {
    pub(crate) alloc: Global,
    pub(crate) disk: &'a D,
    pub(crate) target: &'a Target,
    pub(crate) work: Work,
    /// How many bytes the URLs of its sources may take.
    pub(crate) url_bytes: usize,
}

/// The file of a map.
#[derive(Drop)]
pub(crate) struct MapFile {
    /// What it was before its bytes were read.
    pub(crate) stamp: Stamp,
    pub(crate) bytes: Vec<u8>,
    /// The map's own URL.
    pub(crate) base: Base,
}

/// What an outcome is without a rewrite.
pub(crate) fn plain(alloc: Global, verdict: Verdict) -> Outcome
    ensures verdict { result.verdict ≡ verdict }
    ensures drops { result.drops.items ≡ [] }
{
    Outcome {
        verdict,
        drops: Vec::new(alloc),
        changes: Vec::new(alloc),
    }
}

/// The tree of a map that is accepted.
pub(crate) fn tree(alloc: Global, bytes: &[u8]) -> Result<Value, AllocError>
    ensures { IfOk result (λ t. map_tree bytes.now ≡ Ok (view t)) }
{
    match map_tree(alloc, bytes) {
        Ok(tree) => Ok(tree),
        Err(_) => Err(AllocError),
    }
}

/// Adds names, each behind this text.
fn add_names(
    alloc: Global,
    ahead: &str,
    more: &[&str],
    names: &mut Vec<String>,
) -> Result<(), AllocError>
    ensures { OnOk result (map string_bytes names.new.items
        ≡ map string_bytes names.old.items ++ map (λ name. ahead.now ++ name.now) more.now) }
{
    for name in more {
        let name = *name;
        names.push(format!(in alloc; "{ahead}{name}")?)?;
    }
    Ok(())
}

/// The names of what a rewrite drops of a tree.
fn lost_names(alloc: Global, before: &Value) -> Result<Vec<String>, AllocError>
    ensures { IfOk result (λ names. map string_bytes names.items ≡ drops_of_tree (view before.now)) }
{
    let drops = dropped(alloc, before)?;
    let mut names = Vec::new(alloc);
    add_names(alloc, "", &drops.own, &mut names)?;
    add_names(alloc, "sections.", &drops.in_sections, &mut names)?;
    Ok(names)
}

/// What changes of a tree, if that is asked for.
fn changes_of(
    alloc: Global,
    before: &Value,
    text: &[u8],
    shows: bool,
) -> Result<Vec<String>, AllocError> {
    if !shows {
        return Ok(Vec::new(alloc));
    }
    let after = tree(alloc, text)?;
    changes(alloc, before, &after)
}

/// What is dropped and, if that is asked for, what changes.
pub(crate) fn differences(
    alloc: Global,
    bytes: &[u8],
    text: &[u8],
    shows: bool,
) -> Result<(Vec<String>, Vec<String>), AllocError>
    ensures { IfOk result (λ d. map string_bytes d.0.items ≡ drops_of bytes.now) }
{
    let before = tree(alloc, bytes)?;
    let names = lost_names(alloc, &before)?;
    let changes = changes_of(alloc, &before, text, shows)?;
    Ok((names, changes))
}

impl<D: Disk> Case<'_, D> {
    /// The bytes of its file.
    fn bytes(&self) -> Result<Vec<u8>, Failure>
        ensures { IfOk result (λ bytes. IsHeld (D.held self.now.disk.now)
            (string_bytes self.now.target.now.file) bytes.items) }
    {
        match read_file(self.alloc, self.disk, self.target.file.as_str(), LIMIT) {
            Ok(bytes) => Ok(bytes),
            Err(FileFault::TooLong) => Err(Failure::TooLong),
            Err(FileFault::Read(_)) => Err(Failure::Unread),
            Err(FileFault::Memory) => Err(Failure::Memory),
        }
    }

    /// The bytes of its file, and what that was before they were read.
    fn stamped(&self) -> Result<(Stamp, Vec<u8>), Failure>
        ensures { IfOk result (λ file. IsHeld (D.held self.now.disk.now)
            (string_bytes self.now.target.now.file) file.1.items) }
    {
        let Ok(stamp) = self.disk.stamp(self.target.file.as_str()) else {
            return Err(Failure::Unread);
        };
        Ok((stamp, self.bytes()?))
    }

    /// Its own URL.
    fn base(&self) -> Result<Base, Verdict>
        ensures { MatchResult result (λ base. parse_url None self.now.target.now.url.items ≡ Ok base)
            (IsUnlooked self.now.target.now.url.items) }
    {
        let Ok(url) = std::str::from_utf8(&self.target.url) else {
            return Err(Verdict::NotUrl);
        };
        match Base::new(self.alloc, url) {
            Ok(base) => Ok(base),
            Err(BaseFault::NotUrl) => Err(Verdict::NotUrl),
            Err(BaseFault::Memory) => Err(Verdict::Failed(Failure::Memory)),
        }
    }

    /// Its file, or what becomes of a map that can't be looked at.
    pub(crate) fn file(&self) -> Result<MapFile, Verdict>
        ensures { MatchResult result (IsFileOf (D.held self.now.disk.now)
            (string_bytes self.now.target.now.file) self.now.target.now.url.items)
            (IsUnlooked self.now.target.now.url.items) }
    {
        let (stamp, bytes) = match self.stamped() {
            Ok(file) => file,
            Err(failure) => return Err(Verdict::Failed(failure)),
        };
        match self.base() {
            Ok(base) => Ok(MapFile { stamp, bytes, base }),
            Err(verdict) => Err(verdict),
        }
    }

    /// Gives its file this text.
    pub(crate) fn replaced(&self, stamp: Stamp, text: &[u8]) -> Verdict
        requires { IsDue (D.held self.now.disk.now) (string_bytes self.now.target.now.file)
            self.now.target.now.url.items self.now.url_bytes self.now.work text.now }
        ensures { IsDone Deed.Write result }
    {
        match replace(self, stamp, text) {
            Ok(()) => Verdict::Rewritten,
            Err(failure) => Verdict::Failed(failure),
        }
    }

    /// Does what is to be done with it, where it would become this text.
    fn done(&self, stamp: Stamp, text: &[u8], deed: Deed) -> Verdict
        requires { deed ≡ Deed.Write → IsDue (D.held self.now.disk.now)
            (string_bytes self.now.target.now.file) self.now.target.now.url.items self.now.url_bytes
            self.now.work text.now }
        ensures { IsDone deed result }
    {
        match deed {
            Deed::Tell | Deed::Show => Verdict::Changed,
            Deed::Keep => Verdict::Kept,
            Deed::Write => self.replaced(stamp, text),
        }
    }

    /// What becomes of it where its form is this text, of other bytes.
    fn changed(&self, file: &MapFile, rewrite: Rewrite, text: &[u8]) -> Outcome
        requires file { IsFileOf (D.held self.now.disk.now) (string_bytes self.now.target.now.file)
            self.now.target.now.url.items file.now }
        requires form { IsOtherForm self.now.work rewrite file.now.base self.now.url_bytes
            file.now.bytes.items text.now }
        ensures { IsOutcomeOf self.now.work file.now.base self.now.url_bytes file.now.bytes.items result }
    {
        let alloc = self.alloc;
        let shows = rewrite == Rewrite::Diff;
        let Ok((drops, changes)) = differences(alloc, &file.bytes, text, shows) else {
            return plain(alloc, Verdict::Failed(Failure::Memory));
        };
        let deed = decided(rewrite, !drops.is_empty());
        Outcome {
            verdict: self.done(file.stamp, text, deed),
            drops,
            changes,
        }
    }

    /// What becomes of it once it is compared with a form of it; a verdict alone where it has no other form.
    fn compared(&self, file: &MapFile, form: Form, rewrite: Rewrite) -> Result<Outcome, Verdict>
        requires file { IsFileOf (D.held self.now.disk.now) (string_bytes self.now.target.now.file)
            self.now.target.now.url.items file.now }
        requires work { self.now.work ≡ Work.Compare form rewrite }
        ensures { MatchResult result
            (IsCompared form rewrite file.now.base self.now.url_bytes file.now.bytes.items)
            (IsUnchangedAs form rewrite file.now.base self.now.url_bytes file.now.bytes.items) }
    {
        let (alloc, base, bytes) = (self.alloc, &file.base, file.bytes.as_slice());
        match formed(alloc, form, base, bytes, self.url_bytes) {
            Ok(Some(text)) if text.as_slice() == bytes => Err(Verdict::Unchanged),
            Ok(Some(text)) => Ok(self.changed(file, rewrite, &text)),
            Ok(None) => Err(Verdict::LongUrls(self.url_bytes)),
            Err(error) => {
                let text = MapText {
                    bytes,
                    base,
                    url_bytes: self.url_bytes,
                    is_file: true,
                };
                Err(unread(alloc, &text, error))
            }
        }
    }

    /// The same, as an outcome.
    fn compare(&self, file: &MapFile, form: Form, rewrite: Rewrite) -> Outcome
        requires file { IsFileOf (D.held self.now.disk.now) (string_bytes self.now.target.now.file)
            self.now.target.now.url.items file.now }
        requires work { self.now.work ≡ Work.Compare form rewrite }
        ensures { IsCompared form rewrite file.now.base self.now.url_bytes file.now.bytes.items result }
    {
        match self.compared(file, form, rewrite) {
            Ok(outcome) => outcome,
            Err(verdict) => plain(self.alloc, verdict),
        }
    }

    /// What becomes of it where it is read alone.
    fn check(&self, file: &MapFile) -> Outcome
        ensures { IsJudged file.now.base self.now.url_bytes file.now.bytes.items result.verdict }
    {
        let verdict = judged(self.alloc, &file.base, &file.bytes, self.url_bytes);
        plain(self.alloc, verdict)
    }

    /// What becomes of it, whose file is this.
    fn looked_at(&self, file: &MapFile) -> Outcome
        requires { IsFileOf (D.held self.now.disk.now) (string_bytes self.now.target.now.file)
            self.now.target.now.url.items file.now }
        ensures { IsOutcomeOf self.now.work file.now.base self.now.url_bytes file.now.bytes.items result }
    {
        match self.work {
            Work::Check { .. } => self.check(file),
            Work::Compare { form, rewrite } => self.compare(file, form, rewrite),
            Work::Repair { write } => repaired(self, file, write),
        }
    }

    /// What becomes of it.
    pub(crate) fn outcome(&self) -> Outcome
        ensures { IsOutcome (D.held self.now.disk.now) (string_bytes self.now.target.now.file)
            self.now.target.now.url.items self.now.url_bytes self.now.work result }
    {
        match self.file() {
            Ok(file) => self.looked_at(&file),
            Err(verdict) => plain(self.alloc, verdict),
        }
    }
}
