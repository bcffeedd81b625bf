//! The functions of a source's text, by places.
ghost use Rattle.std.specs.Prelude.{◌≡◌, ◌≤◌, IfOk, IfSome, IsTrue, length, option_and_then, option_copied};
ghost use Rattle.std.specs.Prelude.{option_map};
ghost use Rattle.smap_functions.specs.Functions.{innermost};
ghost use Rattle.smap_functions.specs.Lines.{AreLines, place_of};
ghost use Rattle.smap_functions.specs.Sources.{IsOf};
ghost use Rattle.smap_functions.specs.Segments.{undivided};
ghost use Rattle.smap_functions.specs.Names.{IsName};
ghost use Rattle.smap_functions.specs.Words.{is_word as is_word_of};
ghost use Rattle.smap_functions.specs.Names as spec;

use crate::checked::is_word;
use crate::found::{Function, Span};
use crate::lines::{Line, lines, place};
use crate::listing::{Language, functions};
use crate::renaming::Name;
use crate::segments::{Segment, are_together, innermost_at, segments};
use std::alloc::{AllocError, Global};
use std::marker::Model;

/// How many bytes are before a query and a fragment.
fn path_len(url: &[u8]) -> usize
    ensures value { result ≡ spec.path_len url.now }
    ensures within { result ≤ length url.now }
{
    url.iter()
        .take_while(|b| !(**b == b'?' || **b == b'#'))
        .count()
}

/// The language of a source by the end of its URL, if that is one of JavaScript or TypeScript.
pub fn language_of(url: &[u8]) -> Option<Language>
    ensures { result ≡ spec.language_of url.now }
{
    let path = &url[..path_len(url)];
    if path.ends_with(b".ts") || (path.ends_with(b".mts") || path.ends_with(b".cts")) {
        return Some(Language::TypeScript);
    }
    let is_module = path.ends_with(b".mjs") || path.ends_with(b".cjs");
    let has_elements = path.ends_with(b".jsx") || path.ends_with(b".tsx");
    if path.ends_with(b".js") || (is_module || has_elements) {
        Some(Language::JavaScript)
    } else {
        None
    }
}

/// A word of a text.
fn word_in<'a>(text: &'a [u8], span: Span) -> Option<&'a [u8]>
    ensures value { option_copied result ≡ spec.word_in text.now span }
    ensures word { IfSome result (λ word. IsTrue (is_word_of word.now)) }
{
    if span.start <= span.end && span.end <= text.len() {
        let word = &text[span.start..span.end];
        if is_word(word) {
            return Some(word);
        }
    }
    None
}

/// The name of a function of a text, if it has one.
fn name_of<'a>(text: &'a [u8], function: &Function) -> Option<Name<'a>>
    ensures value { option_map spec.words_of result ≡ spec.name_of text.now function.now }
    ensures words { IfSome result IsName }
{
    let word = word_in(text, function.name?)?;
    let class = match function.owner {
        Some(owner) => word_in(text, owner),
        None => None,
    };
    Some(Name { word, class })
}

/// The functions of a source's text, and its lines. It doesn't hold the text, which is passed again. A
/// contract sees the lists of both.
#[derive(Drop)]
pub struct SourceFunctions {
    functions: Vec<Function>,
    segments: Vec<Segment>,
    lines: Vec<Line>,
}

impl Model for SourceFunctions {
    ghost use Rattle.smap_functions.specs.Segments.{AreSegments};
    ghost use Rattle.smap_functions.specs.Sources.{Source};

    ghost Value = { Source };

    ghost view = { λ s. record { functions = s.functions.items; lines = s.lines.items } };

    ghost invariant = { λ s. AreSegments s.functions.items s.segments.items };
}

impl SourceFunctions {
    /// Those of a text; none where [`functions`] finds none.
    ///
    /// # Errors
    ///
    /// `AllocError`.
    pub fn read(
        alloc: Global,
        text: &[u8],
        language: Language,
    ) -> Result<Option<SourceFunctions>, AllocError>
        ensures { IfOk result (λ o. IfSome o (IsOf text.now)) }
    {
        let Some(functions) = functions(alloc, text, language)? else {
            return Ok(None);
        };
        let Some(segments) = segments(alloc, &functions)? else {
            return Ok(None);
        };
        let lines = lines(alloc, text)?;
        Ok(Some(SourceFunctions {
            functions,
            segments,
            lines,
        }))
    }

    /// How much it holds: its lines, and the starts and ends of functions.
    pub fn len(&self) -> usize {
        self.lines.len().saturating_add(self.segments.len())
    }

    /// The place of a line and a column, which count from 0, the column in UTF-16 units; none if there is
    /// none, or if it is more than 1,024 bytes behind the first one of its line outside ASCII.
    pub fn place(&self, text: &[u8], line: u32, column: u32) -> Option<usize>
        ensures { AreLines text.now self.now.lines → result ≡ place_of text.now line column }
    {
        place(text, &self.lines, line, column)
    }

    /// The name of the innermost function at a place of the text, if it has one.
    pub fn name_at<'a>(&self, text: &'a [u8], place: usize) -> Option<Name<'a>>
        ensures value { option_map spec.words_of result
            ≡ option_and_then (spec.name_of text.now) (innermost self.now.functions place) }
        ensures words { IfSome result IsName }
    {
        let function = innermost_at(&self.segments, place)?;
        name_of(text, &function)
    }

    /// Whether no function begins or ends between two places.
    pub fn is_undivided(&self, place: usize, other: usize) -> bool
        ensures { result ≡ undivided self.now.functions place other }
    {
        are_together(&self.segments, place, other)
    }
}
