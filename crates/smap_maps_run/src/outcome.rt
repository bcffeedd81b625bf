//! What became of a map, and the status of that.
ghost use Rattle.std.specs.Prelude.{◌≡◌};
ghost use Rattle.smap_maps_run.specs.Outcomes as spec;

use smap_fault_places::{Point, TextRange};
use smap_record::Fault;

/// Why a map is neither accepted nor refused, or can't be replaced.
#[derive(Clone, Copy, PartialEq, Eq)]
pub enum Failure {
    /// The file can't be read.
    Unread,
    /// It has more than 268,435,456 bytes.
    TooLong,
    /// It may not be written.
    Unwritable,
    /// No file can be made in its folder.
    Folder,
    /// The new file wasn't written in full.
    NotWritten,
    /// Another program has written it since it was read.
    Changed,
    /// Out of memory.
    Memory,
}

/// A place in the text of a map.
#[derive(Clone, Copy, PartialEq, Eq)]
pub struct TextPlace {
    /// Its bytes, which count from 0. The range may be empty.
    pub range: TextRange,
    /// The line and the column, both from 1, of its first byte, or of what is behind an empty range.
    pub point: Point,
}

/// Why a map is refused.
#[derive(Drop)]
pub struct Refusal {
    /// The first fault that is met.
    pub fault: Fault,
    /// What is wrong there, and what mends it: words that follow the message of the fault.
    pub detail: String,
    /// Where in its text, if the fault has a place there.
    pub place: Option<TextPlace>,
}

/// What became of a map.
#[derive(Drop)]
pub enum Verdict {
    /// It is a map: nothing more was asked.
    Accepted,
    /// It is as it would be written.
    Unchanged,
    /// It would change.
    Changed,
    /// It would lose members, and wasn't rewritten.
    Kept,
    /// It was rewritten.
    Rewritten,
    /// It is refused.
    Refused(Refusal),
    /// Its own URL is none.
    NotUrl,
    /// The URLs of its sources take more than this many bytes, which is how many they may take.
    LongUrls(usize),
    /// It is neither accepted nor refused, or can't be replaced.
    Failed(Failure),
}

impl Verdict {
    /// Its name in a line of JSON.
    pub fn name(&self) -> &'static str
        ensures { result.now ≡ spec.name self.now }
    {
        match self {
            Verdict::Accepted => "accepted",
            Verdict::Unchanged => "unchanged",
            Verdict::Changed => "changed",
            Verdict::Kept => "kept",
            Verdict::Rewritten => "rewritten",
            Verdict::Refused(_) | Verdict::NotUrl | Verdict::LongUrls(_) => "refused",
            Verdict::Failed(_) => "failed",
        }
    }

    /// The exit status of a run over this map alone: 0 where it is accepted, as it would be written, or
    /// rewritten; 1 where it is refused, would change, or would lose a member; 3 where a file can't be read
    /// or written; 4 where memory ran out.
    pub fn status(&self) -> u8
        ensures { result ≡ spec.status self.now }
    {
        match self {
            Verdict::Accepted | Verdict::Unchanged | Verdict::Rewritten => 0,
            Verdict::Changed | Verdict::Kept => 1,
            Verdict::Refused(_) | Verdict::NotUrl | Verdict::LongUrls(_) => 1,
            Verdict::Failed(Failure::Memory) => 4,
            Verdict::Failed(_) => 3,
        }
    }
}

/// What became of a map, and what a rewrite of it drops and changes.
#[derive(Drop)]
pub struct Outcome {
    /// What became of it.
    pub verdict: Verdict,
    /// The names of the members that a rewrite drops, those of sections behind `sections.`.
    pub drops: Vec<String>,
    /// What a rewrite changes, if that is asked for; of a map that stays refused, what repairs would leave.
    pub changes: Vec<String>,
}

/// The maps that were looked at. A count stays at 2^64 - 1 once it is there.
#[derive(Clone, Copy, PartialEq, Eq)]
pub struct Tally {
    /// Those with status 0.
    pub accepted: usize,
    /// Those with another status than 0.
    pub refused: usize,
    /// The greatest status of all, 0 where there is none.
    pub worst: u8,
}

impl Tally {
    /// No map yet.
    pub fn new() -> Tally
        ensures { result ≡ spec.none }
    {
        Tally {
            accepted: 0,
            refused: 0,
            worst: 0,
        }
    }

    /// The same with one map more, which has this status.
    pub fn with(self, status: u8) -> Tally
        ensures { result ≡ spec.with_map self status }
    {
        let worst = self.worst.max(status);
        if status == 0 {
            Tally {
                accepted: self.accepted.saturating_add(1),
                refused: self.refused,
                worst,
            }
        } else {
            Tally {
                accepted: self.accepted,
                refused: self.refused.saturating_add(1),
                worst,
            }
        }
    }
}
