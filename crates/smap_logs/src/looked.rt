//! What all lines of a log show that has positions which aren't frames alone on their line.
ghost use Rattle.std.specs.Prelude.{◌≡◌, Bool, false, IfOk, OnOk, codes, string_bytes};
ghost use Rattle.smap_logs.specs.Looked as spec;
ghost use Rattle.smap_logs.specs.Looking.{look as look_of};

use crate::looking::{Sign, look};
use std::alloc::{AllocError, Global};

/// What the lines show that were looked at.
#[derive(Drop)]
pub struct Looked {
    /// How many have a position, at most 2^64 - 1.
    pub lines: u64,
    pub colours: bool,
    pub json: bool,
    pub tabs: bool,
    /// One has something behind its position.
    pub behind: bool,
}

/// Adds a word behind a comma, or as the first, if it was seen.
fn add_word(text: &mut String, seen: bool, word: &str) -> Result<(), AllocError>
    ensures { OnOk result (string_bytes text.new ≡ spec.add_word seen word.now (string_bytes text.old)) }
{
    if !seen {
        return Ok(());
    }
    if !text.is_empty() {
        text.push_str(", ")?;
    }
    text.push_str(word)
}

impl Looked {
    /// No line was looked at.
    pub fn new() -> Looked
        ensures { result ≡ record { lines = 0; colours = false; json = false; tabs = false; behind = false } }
    {
        Looked {
            lines: 0,
            colours: false,
            json: false,
            tabs: false,
            behind: false,
        }
    }

    /// Looks at one line (without line feed).
    pub fn line(&mut self, line: &[u8])
        ensures { self.new ≡ spec.with_line self.old (look_of line.now) }
    {
        let Some(sign) = look(line) else {
            return;
        };
        self.lines = self.lines.saturating_add(1);
        self.see(sign);
    }

    fn see(&mut self, sign: Option<Sign>)
        ensures { self.new ≡ spec.with_sign self.old sign }
    {
        match sign {
            Some(Sign::Colours) => self.colours = true,
            Some(Sign::Json) => self.json = true,
            Some(Sign::Tabs) => self.tabs = true,
            Some(Sign::Behind) => self.behind = true,
            None => {}
        }
    }

    /// Which signs were seen, in words with commas between them; empty if none was.
    ///
    /// # Errors
    ///
    /// `AllocError`.
    pub fn signs(&self, alloc: Global) -> Result<String, AllocError>
        ensures { IfOk result (λ text. string_bytes text ≡ spec.signs self.now) }
    {
        let mut text = String::new(alloc);
        add_word(&mut text, self.colours, "colours")?;
        add_word(&mut text, self.json, "JSON")?;
        add_word(&mut text, self.tabs, "tabs")?;
        add_word(&mut text, self.behind, "something behind a frame")?;
        Ok(text)
    }
}
