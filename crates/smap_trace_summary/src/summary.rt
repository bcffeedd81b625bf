//! How many frames of a run were translated, how many stayed, and why, in words.
ghost use Rattle.std.specs.Prelude.{◌≡◌, IfOk, string_bytes};
ghost use Rattle.smap_trace_summary.specs.Ending as spec;

use std::alloc::{AllocError, Global};

/// Frames that stayed for one reason.
#[derive(Clone, Copy)]
pub struct Stayed<'a> {
    pub count: u64,
    /// What most of them are of.
    pub most: &'a str,
}

/// What became of the frames of a run, those left out whose scripts can't have a map.
#[derive(Clone, Copy)]
pub struct Summary<'a> {
    /// Whether lines were translated that are no frames, so that lines are counted.
    pub in_lines: bool,
    /// How many were translated: frames or lines.
    pub translated: u64,
    /// Those of scripts with a map that has no mapping for them.
    pub unmapped: Stayed<'a>,
    /// Those of scripts without a map.
    pub mapless: Stayed<'a>,
}

fn frames_word(count: u64) -> &'static str
    ensures { result.now ≡ spec.frames_word count }
{
    if count == 1 { "frame" } else { "frames" }
}

fn lines_word(count: u64) -> &'static str
    ensures { result.now ≡ spec.lines_word count }
{
    if count == 1 { "line" } else { "lines" }
}

fn verb(count: u64) -> &'static str
    ensures { result.now ≡ spec.verb count }
{
    if count == 1 { "has" } else { "have" }
}

/// How many lines of all were translated.
fn lines_head(alloc: Global, translated: u64) -> Result<String, AllocError>
    ensures { IfOk result (λ t. string_bytes t ≡ spec.lines_head translated) }
{
    let lines = lines_word(translated);
    format!(in alloc; "{translated} {lines} translated")
}

/// How many frames of these were translated.
fn frames_head(alloc: Global, total: u64, translated: u64) -> Result<String, AllocError>
    ensures { IfOk result (λ t. string_bytes t ≡ spec.frames_head total translated) }
{
    let frames = frames_word(total);
    format!(in alloc; "{total} {frames}: {translated} translated")
}

/// How many frames stayed.
fn stayed_text(alloc: Global, in_lines: bool, stayed: &Stayed<'_>) -> Result<String, AllocError>
    ensures { IfOk result (λ t. string_bytes t ≡ spec.stayed in_lines stayed.now) }
{
    let (count, verb) = (stayed.count, verb(stayed.count));
    if in_lines {
        let frames = frames_word(count);
        return format!(in alloc; ", {count} {frames} {verb}");
    }
    format!(in alloc; ", {count} {verb}")
}

fn unmapped_text(alloc: Global, in_lines: bool, stayed: &Stayed<'_>) -> Result<String, AllocError>
    ensures { IfOk result (λ t. string_bytes t ≡ spec.unmapped in_lines stayed.now) }
{
    if stayed.count == 0 {
        return Ok(String::new(alloc));
    }
    let most = stayed.most;
    let stayed = stayed_text(alloc, in_lines, stayed)?;
    let stayed = stayed.as_str();
    format!(in alloc; "{stayed} no mapping ({most}: of another build?)")
}

fn mapless_text(alloc: Global, in_lines: bool, stayed: &Stayed<'_>) -> Result<String, AllocError>
    ensures { IfOk result (λ t. string_bytes t ≡ spec.mapless in_lines stayed.now) }
{
    if stayed.count == 0 {
        return Ok(String::new(alloc));
    }
    let most = stayed.most;
    let stayed = stayed_text(alloc, in_lines, stayed)?;
    let stayed = stayed.as_str();
    format!(in alloc; "{stayed} no map ({most})")
}

impl Summary<'_> {
    /// Whether some frames stayed.
    pub fn is_said(&self) -> bool
        ensures { result ≡ spec.is_said self.now }
    {
        !(self.unmapped.count == 0 && self.mapless.count == 0)
    }

    /// All frames, at most 2^64 - 1.
    fn total(&self) -> u64
        ensures { result ≡ spec.total self.now }
    {
        self.translated
            .saturating_add(self.unmapped.count)
            .saturating_add(self.mapless.count)
    }

    /// What was translated.
    fn head(&self, alloc: Global) -> Result<String, AllocError>
        ensures { IfOk result (λ t. string_bytes t ≡ spec.head self.now) }
    {
        if self.in_lines {
            return lines_head(alloc, self.translated);
        }
        frames_head(alloc, self.total(), self.translated)
    }

    /// The line, without the name of the program.
    ///
    /// # Errors
    ///
    /// `AllocError`.
    pub fn text(&self, alloc: Global) -> Result<String, AllocError>
        ensures { IfOk result (λ t. string_bytes t ≡ spec.text self.now) }
    {
        let head = self.head(alloc)?;
        let unmapped = unmapped_text(alloc, self.in_lines, &self.unmapped)?;
        let mapless = mapless_text(alloc, self.in_lines, &self.mapless)?;
        let (head, unmapped, mapless) = (head.as_str(), unmapped.as_str(), mapless.as_str());
        format!(in alloc; "{head}{unmapped}{mapless}")
    }
}
