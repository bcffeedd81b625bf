//! What became of a line, and of the lines of a trace.

/// What became of a line.
#[derive(Clone, Copy, Debug, PartialEq, Eq)]
pub enum LineOutcome {
    /// It was passed through unchanged: it isn't a frame, or its position has no known source.
    Kept,
    /// The position of its frame was replaced by that of the source.
    Translated,
    /// It was left out: its source is ignored, and frames in ignored sources are hidden.
    Dropped,
}

/// How many lines a trace has, and what became of them. Each count stays at 18,446,744,073,709,551,615 once
/// it is there.
#[derive(Clone, Copy, Debug, PartialEq, Eq)]
pub struct Counts {
    /// All lines, a last one without a line feed included.
    pub lines: u64,
    /// Lines whose position was replaced.
    pub translated: u64,
    /// Lines that were left out.
    pub dropped: u64,
}
