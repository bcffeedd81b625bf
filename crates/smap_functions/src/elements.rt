//! Elements of JSX, whose text isn't code.
ghost use Rattle.std.specs.Prelude.{◌≡◌, ◌+◌, ◌≤◌, ◌<◌, IfOk, IfSome, length};

use crate::found::Span;
use crate::level::{Inside, Level};
use crate::scan::{Scan, Stop};
use crate::tokens::{Bracket, Kind, comment_end};

/// How many bytes of a list of types are looked at to tell it from an element.
const FIRST_TYPE: usize = 80;

/// The place of a byte in a text, from here on.
fn find(text: &[u8], from: usize, byte: u8) -> Option<usize>
    ensures { IfSome result (λ at. (from ≤ at) × (at < length text.now)) }
{
    for i in from..text.len() {
        if text[i] == byte {
            return Some(i);
        }
    }
    None
}

/// The place of what ends the text of an element, from here on.
fn text_end(text: &[u8], from: usize) -> Option<usize>
    ensures { IfSome result (λ at. (from ≤ at) × (at < length text.now)) }
{
    for i in from..text.len() {
        if text[i] == b'<' || text[i] == b'{' {
            return Some(i);
        }
    }
    None
}

/// The place behind a list of types whose `<` is before this place.
fn types_end(text: &[u8], from: usize) -> usize
    ensures { from ≤ result }
{
    let mut depth = 1usize;
    let mut before = b'<';
    for i in from..text.len() {
        let byte = text[i];
        if byte == b'<' {
            depth = depth.saturating_add(1);
        } else if byte == b'>' && before != b'=' {
            depth = depth.saturating_sub(1);
        }
        if depth == 0 {
            return i + 1;
        }
        before = byte;
    }
    from.max(text.len())
}

fn is_name_byte(byte: u8) -> bool {
    matches!(byte, b'a'..=b'z' | b'A'..=b'Z' | b'0'..=b'9' | b'_' | b'$')
}

/// Whether a text begins with a name, and `,` or `extends` behind it.
fn names_types(text: &[u8]) -> bool {
    let text = text.trim_ascii_start();
    match text.iter().position(|byte| !is_name_byte(*byte)) {
        Some(0) | None => false,
        Some(size) => {
            let rest = text[size..].trim_ascii_start();
            rest.starts_with(b",") || rest.starts_with(b"extends")
        }
    }
}

/// Whether the text behind a `<` begins the types of an arrow, `<T, U>(..) =>`, and no element.
fn begins_types(text: &[u8]) -> bool {
    let text = &text[..text.len().min(FIRST_TYPE)];
    match text.trim_ascii_start() {
        [b'c', b'o', b'n', b's', b't', b' ', rest @ ..] => names_types(rest),
        text => names_types(text),
    }
}

impl Scan {
    /// Reads a part of an element, if one is open or begins here, and answers where the part ends.
    pub(crate) fn element(&mut self, text: &[u8], at: usize) -> Result<Option<usize>, Stop>
        requires { at < length text.now }
        ensures { IfOk result (λ o. IfSome o (λ end. at < end)) }
    {
        let end = match self.level.inside {
            Inside::Children => self.child(text, at)?,
            Inside::Tag => self.attribute(text, at)?,
            _ if self.begins_element(text, at) => {
                self.breaks = false;
                self.enter_tag()?;
                at + 1
            }
            _ => return Ok(None),
        };
        Ok(Some(end))
    }

    /// Whether an element begins here.
    fn begins_element(&self, text: &[u8], at: usize) -> bool
        requires { at < length text.now }
    {
        let rest = &text[at..];
        self.has_elements
            && !self.previous.is_operand
            && matches!(
                rest,
                [b'<', b'a'..=b'z' | b'A'..=b'Z' | b'_' | b'$' | b'>', ..]
            )
            && !begins_types(&rest[1..])
    }

    fn enter_tag(&mut self) -> Result<(), Stop> {
        let level = self.opened(Bracket::Angle, Inside::Tag, self.previous);
        self.enter(level)
    }

    /// Goes on with the code in the braces of an element, whose `{` is here.
    fn enter_braces(&mut self, at: usize) -> Result<(), Stop> {
        let span = Span { start: at, end: at };
        let token = self.previous.next(Kind::Open(Bracket::Round), span, false);
        let level = self.opened(Bracket::Curly, Inside::List, token);
        self.enter(Level {
            is_operand: true,
            ..level
        })?;
        self.previous = token;
        Ok(())
    }

    /// Ends an element, which is an operand of the code around it.
    fn end_element(&mut self, at: usize) -> Result<(), Stop> {
        let _tag = self.leave()?;
        if !matches!(self.level.inside, Inside::Children) {
            let span = Span { start: at, end: at };
            self.previous = self.previous.next(Kind::Template, span, false);
        }
        Ok(())
    }

    /// Reads the text of an element up to what is in it, and that thing's beginning or the element's end.
    fn child(&mut self, text: &[u8], at: usize) -> Result<usize, Stop>
        requires { at < length text.now }
        ensures { IfOk result (λ end. at < end) }
    {
        let Some(end) = text_end(text, at) else {
            return Err(Stop::Unmatched);
        };
        match &text[end..] {
            [b'{', ..] => {
                self.enter_braces(end)?;
                Ok(end + 1)
            }
            [b'<', b'/', ..] => match find(text, end, b'>') {
                Some(end) => {
                    self.end_element(end + 1)?;
                    Ok(end + 1)
                }
                None => Err(Stop::Unmatched),
            },
            _ => {
                self.enter_tag()?;
                Ok(end + 1)
            }
        }
    }

    /// Reads a part of what is between an element's `<` and `>`.
    fn attribute(&mut self, text: &[u8], at: usize) -> Result<usize, Stop>
        requires { at < length text.now }
        ensures { IfOk result (λ end. at < end) }
    {
        match &text[at..] {
            [b'/', b'>', ..] => {
                self.end_element(at + 2)?;
                Ok(at + 2)
            }
            [b'>', ..] => {
                self.level.inside = Inside::Children;
                Ok(at + 1)
            }
            [b'{', ..] => {
                self.enter_braces(at)?;
                Ok(at + 1)
            }
            [b'"' | b'\'', ..] => match find(text, at + 1, text[at]) {
                Some(end) => Ok(end + 1),
                None => Err(Stop::Unmatched),
            },
            [b'/', b'*', ..] => Ok(comment_end(text, at).0),
            [b'<', ..] => Ok(types_end(text, at + 1)),
            [b'(' | b')' | b'}' | b';', ..] => Err(Stop::Unmatched),
            _ => Ok(at + 1),
        }
    }
}
