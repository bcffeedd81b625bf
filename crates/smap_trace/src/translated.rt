//! Translations of lines that are kept, since the frames of a log come again and again.
ghost use Rattle.std.specs.Prelude.{◌≡◌, OnOk, [], option_map};
ghost use Rattle.smap_trace.specs.Translated.{KeepsLess, KeepsMore, line_of, translation_in};

use crate::lines::cut_feed;
use crate::outcome::LineOutcome;
use indexmap::IndexMap;
use std::alloc::{AllocError, Global};
use std::marker::Model;

/// How many bytes of lines and translations are kept, before those that are kept go.
const MOST_KEPT: usize = 33_554_432;

/// About how many bytes a line takes beside its own and those of its translation.
const BESIDE: usize = 128;

/// Whether a line ends as most frames do: keeping others isn't worth looking for them.
pub fn ends_like_frames(line: &[u8]) -> bool {
    let (text, _) = cut_feed(line);
    match text.last() {
        Some(b) => *b == b')' || b.is_ascii_digit(),
        None => false,
    }
}

/// What a line became.
#[derive(Drop)]
pub(crate) struct TranslatedLine {
    text: Vec<u8>,
    outcome: LineOutcome,
}

/// The translations of lines, as far as they are kept: up to about 32 MiB. A contract sees what is kept of a
/// line.
#[derive(Drop)]
pub struct TranslatedLines {
    lines: IndexMap<Vec<u8>, TranslatedLine>,
    len: usize,
}

impl Model for TranslatedLines {
    ghost use Rattle.smap_trace.specs.Translated.{Lines, lines_in};

    ghost Value = { Lines };

    ghost view = { λ t. lines_in t.lines.entries };
}

impl TranslatedLines {
    /// None.
    pub fn new(alloc: Global) -> TranslatedLines
        ensures { result ≡ [] }
    {
        TranslatedLines {
            lines: IndexMap::new(alloc),
            len: 0,
        }
    }

    /// What is kept of a line: its translation, and what became of it.
    pub fn get(&self, line: &[u8]) -> Option<(&[u8], LineOutcome)>
        ensures { option_map (λ t. (t.0.now, t.1)) result ≡ translation_in self.now line.now }
    {
        let lines = &self.lines;
        match lines.get(line) {
            Some(kept) => Some((kept.text.as_slice(), kept.outcome)),
            None => None,
        }
    }

    /// Forgets all.
    pub fn clear(&mut self)
        ensures { self.new ≡ [] }
    {
        self.lines.clear();
        self.len = 0;
    }

    /// Makes room for so much more, by forgetting all if it is too much.
    fn make_room(&mut self, len: usize)
        ensures { KeepsLess self.old self.new }
    {
        if self.len.saturating_add(len) > MOST_KEPT {
            self.lines.clear();
            self.len = 0;
        }
        self.len = self.len.saturating_add(len);
    }

    /// Keeps the translation of a line. What is kept may go for it.
    ///
    /// # Errors
    ///
    /// `AllocError`.
    pub fn put(
        &mut self,
        alloc: Global,
        line: &[u8],
        text: &[u8],
        outcome: LineOutcome,
    ) -> Result<(), AllocError>
        ensures { OnOk result (KeepsMore self.old self.new line.now (text.now, outcome)) }
    {
        let key = Vec::from_slice(alloc, line)?;
        let text = Vec::from_slice(alloc, text)?;
        self.make_room(key.len().saturating_add(text.len()).saturating_add(BESIDE));
        self.keep(key, TranslatedLine { text, outcome })
    }

    fn keep(&mut self, line: Vec<u8>, kept: TranslatedLine) -> Result<(), AllocError>
        ensures { OnOk result (KeepsMore self.old self.new line.items (line_of kept)) }
    {
        self.lines.insert(line, kept)?;
        Ok(())
    }
}
