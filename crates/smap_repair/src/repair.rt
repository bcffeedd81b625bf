//! One repair of a map's text, and what is said of it.
ghost use Rattle.std.specs.Prelude.{Some, Ok, IfOk, ◌≡◌, string_bytes};
ghost use Rattle.smap_repair.specs.Messages.{proposal_message, proposed_text, repair_message};
ghost use Rattle.smap_repair.specs.Messages.{replaced_text, subject_text};

use itoa::Buffer;
use smap_record::Path;
use std::alloc::{AllocError, Global};
use std::fmt;

/// What a repair is about. `docs/OUTPUT.md` has the list, with an example of each.
#[derive(Clone, Copy, PartialEq, Eq)]
pub enum Change {
    /// A byte order mark before the text is removed.
    ByteOrderMark,
    /// An escape of half a surrogate pair becomes U+FFFD.
    HalfSurrogate,
    /// A `version` of `"3"` or `3.0` becomes 3.
    Version,
    /// An empty map without `mappings` gets empty ones.
    Mappings,
    /// Empty `mappings` beside `sections` become null.
    MappingsBeside,
    /// A `sourceRoot` with which no source is a URL is percent-encoded.
    SourceRoot,
    /// The source with this index, from 0, in its own map's `sources` is percent-encoded.
    Source(usize),
}

/// A repair that was made: these bytes, at this place of the text, became those. `Display` says it in a line,
/// as in
///
/// ```
/// source 3 of section 0: "webpack://my app/a.js" becomes "webpack://my%20app/a.js"
/// ```
#[derive(Drop)]
pub struct Repair {
    /// What was repaired.
    pub change: Change,
    /// The section whose map it is in; empty outside of sections, and for what isn't a member's.
    pub section: Path,
    /// Where it is, in bytes of the text that the repairs before this one left.
    pub start: usize,
    /// What was there; empty where something was added.
    pub before: String,
    /// What is there now; empty where something was removed.
    pub after: String,
}

/// What a repair is about, and where.
#[derive(Drop)]
struct Subject<'a>(&'a Repair);

impl fmt::Display for Subject<'_> {
    ghost output = { λ subject. Some (subject_text subject.0.now) };

    fn fmt<W: fmt::Write>(&self, f: &mut fmt::Formatter<W>) -> fmt::Result {
        let repair = self.0;
        match repair.change {
            Change::ByteOrderMark => f.write_str("byte order mark"),
            Change::HalfSurrogate => write!(f, "byte {}", Buffer::new().format(repair.start)),
            Change::Version => f.write_str("version"),
            Change::Mappings => f.write_str("mappings"),
            Change::MappingsBeside => f.write_str("mappings beside sections"),
            Change::SourceRoot => f.write_str("sourceRoot"),
            Change::Source(i) => write!(f, "source {}", Buffer::new().format(i)),
        }
    }
}

/// The section that a repair is in, if it is in one.
#[derive(Drop)]
struct OfSection<'a>(&'a Path);

impl fmt::Display for OfSection<'_> {
    ghost use Rattle.smap_repair.specs.Messages.{section_text};

    ghost output = { λ section. Some (section_text section.0.now) };

    fn fmt<W: fmt::Write>(&self, f: &mut fmt::Formatter<W>) -> fmt::Result {
        let path = self.0;
        if path.numbers().is_empty() {
            return Ok(());
        }
        write!(f, " of section {path}")
    }
}

/// What became of what was there.
#[derive(Drop)]
struct Replaced<'a>(&'a Repair);

impl fmt::Display for Replaced<'_> {
    ghost output = { λ replaced. Some (replaced_text replaced.0.now) };

    fn fmt<W: fmt::Write>(&self, f: &mut fmt::Formatter<W>) -> fmt::Result {
        let repair = self.0;
        if repair.before.is_empty() {
            write!(f, "{} added", repair.after.as_str())
        } else if repair.after.is_empty() {
            f.write_str("removed")
        } else {
            write!(
                f,
                "{} becomes {}",
                repair.before.as_str(),
                repair.after.as_str()
            )
        }
    }
}

/// What would become of what is there.
#[derive(Drop)]
struct Proposed<'a>(&'a Repair);

impl fmt::Display for Proposed<'_> {
    ghost output = { λ proposed. Some (proposed_text proposed.0.now) };

    fn fmt<W: fmt::Write>(&self, f: &mut fmt::Formatter<W>) -> fmt::Result {
        let repair = self.0;
        let (before, after) = (repair.before.as_str(), repair.after.as_str());
        if before.is_empty() {
            write!(f, "{after} would be added")
        } else if after.is_empty() {
            f.write_str("would be removed")
        } else {
            write!(f, "{before} would become {after}")
        }
    }
}

/// Sources and sections count from 0. What stood in the text is shown as it stood there.
impl fmt::Display for Repair {
    ghost output = { λ repair. Some (repair_message repair) };

    #[tactic(auto, unfolding(crate::specs::Messages::repair_message))]
    fn fmt<W: fmt::Write>(&self, f: &mut fmt::Formatter<W>) -> fmt::Result {
        write!(
            f,
            "{}{}: {}",
            Subject(self),
            OfSection(&self.section),
            Replaced(self)
        )
    }
}

/// A repair in a line, which has no line feed.
///
/// What stood in the text is shown as it stood there, so that it may hold any character that JSON takes
/// unescaped.
///
/// # Errors
///
/// `AllocError`.
pub fn sentence(alloc: Global, repair: &Repair) -> Result<String, AllocError>
    ensures { IfOk result (λ s. string_bytes s ≡ repair_message repair.now) }
{
    format!(in alloc; "{repair}")
}

/// The same of a repair that isn't made yet, as in
///
/// ```
/// version: "3" would become 3
/// ```
///
/// # Errors
///
/// `AllocError`.
#[tactic(auto, unfolding(crate::specs::Messages::proposal_message))]
pub fn proposal(alloc: Global, repair: &Repair) -> Result<String, AllocError>
    ensures { IfOk result (λ s. string_bytes s ≡ proposal_message repair.now) }
{
    format!(in alloc;
        "{}{}: {}",
        Subject(repair),
        OfSection(&repair.section),
        Proposed(repair)
    )
}
