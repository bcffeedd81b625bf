//! How positions are found in a line.

/// How positions are found in a line. [`MatchMode::FRAMES`] finds those of frames whose URL is that of
/// a script.
#[derive(Clone, Copy, Debug, PartialEq, Eq)]
pub struct MatchMode {
    /// Positions are found anywhere in a line, not only as those of frames: each `U:L:C`, where U is the
    /// URL of a script that can't be continued to the left, and no digit follows. `docs/OUTPUT.md`,
    /// "Positions anywhere", has the rules.
    pub anywhere: bool,
    /// A query or a fragment behind the script's URL is ignored, as in `out.js?v=3:1:2`.
    pub ignore_query: bool,
}

impl MatchMode {
    /// Positions of frames alone, with the script's URL as it is.
    pub const FRAMES: MatchMode = MatchMode {
        anywhere: false,
        ignore_query: false,
    };
}
