//! One pass over a text, which finds its functions. What it knows of what stands further left is in the open
//! brackets, so nothing is read twice.
ghost use Rattle.std.specs.Prelude.{◌≡◌, ◌+◌, ◌≤◌, ◌<◌, IfOk, IfSome, OnOk, [], length};

use crate::found::{Function, Span};
use crate::level::{Inside, Level, Parameters, Role, follows};
use crate::tokens::{Bracket, Kind, Piece, Sign, Token, pattern_end, read_piece, template_end};
use crate::words::Word;
use std::alloc::{AllocError, AllocFailed, Global};

/// How many brackets may be open, so that a text of brackets alone takes little memory.
const MOST_OPEN: usize = 16_384;

/// Why a scan ends before its text does.
#[derive(Clone, Copy)]
pub(crate) enum Stop {
    /// The brackets don't match, or too many are open.
    Unmatched,
    Memory,
}

impl<T: Drop> From<AllocFailed<T>> for Stop {
    fn from(_failed: AllocFailed<T>) -> Stop {
        Stop::Memory
    }
}

impl From<AllocError> for Stop {
    fn from(_failed: AllocError) -> Stop {
        Stop::Memory
    }
}

/// An arrow that hasn't ended and has no braces.
#[derive(Clone, Copy)]
pub(crate) struct Arrow {
    /// Its place in the list of functions.
    pub(crate) function: usize,
    /// The number of its `=>`.
    pub(crate) number: usize,
    /// How many `?` waited for their `:`.
    pub(crate) questions: usize,
}

#[derive(Drop)]
pub(crate) struct Scan {
    pub(crate) has_elements: bool,
    pub(crate) found: Vec<Function>,
    pub(crate) outer: Vec<Level>,
    pub(crate) level: Level,
    pub(crate) arrows: Vec<Arrow>,
    pub(crate) previous: Token,
    /// Whether a line ended behind the last token.
    pub(crate) breaks: bool,
    /// No regular expression begins before this byte.
    pattern_from: usize,
}

impl Scan {
    pub(crate) fn new(alloc: Global, has_elements: bool) -> Scan {
        Scan {
            has_elements,
            found: Vec::new(alloc),
            outer: Vec::new(alloc),
            level: Level::new(Bracket::Text, Inside::Block, Token::START, 0),
            arrows: Vec::new(alloc),
            previous: Token::START,
            breaks: true,
            pattern_from: 0,
        }
    }

    /// Adds a function that hasn't ended, and answers its place in the list.
    pub(crate) fn add(
        &mut self,
        start: usize,
        name: Option<Span>,
        owner: Option<Span>,
    ) -> Result<usize, Stop> {
        let place = self.found.len();
        self.found.push(Function {
            start,
            end: 0,
            name,
            owner,
        })?;
        Ok(place)
    }

    /// Says where a function ends.
    pub(crate) fn end(&mut self, function: usize, end: usize) {
        if let Some(found) = self.found.get_mut(function) {
            found.end = end;
        }
    }

    /// The last arrow that began behind the open bracket, and hasn't ended.
    pub(crate) fn last_arrow(&self) -> Option<Arrow> {
        if self.arrows.len() > self.level.arrows {
            self.arrows.last().copied()
        } else {
            None
        }
    }

    /// Ends the arrows that began behind the open bracket.
    pub(crate) fn end_arrows(&mut self, end: usize) {
        for _ in self.level.arrows..self.arrows.len() {
            if let Some(arrow) = self.arrows.pop() {
                self.end(arrow.function, end);
            }
        }
    }

    /// Goes on behind a bracket.
    pub(crate) fn enter(&mut self, level: Level) -> Result<(), Stop> {
        if self.outer.len() >= MOST_OPEN {
            return Err(Stop::Unmatched);
        }
        self.outer.push(self.level)?;
        self.level = level;
        Ok(())
    }

    /// Goes back before the open bracket, and answers it.
    pub(crate) fn leave(&mut self) -> Result<Level, Stop> {
        let level = self.level;
        let Some(outer) = self.outer.pop() else {
            return Err(Stop::Unmatched);
        };
        self.level = outer;
        Ok(level)
    }

    /// The functions of a text that was read to its end, here.
    pub(crate) fn finish(mut self, end: usize) -> Result<Vec<Function>, Stop>
        ensures { OnOk result (self.outer.items ≡ []) }
    {
        if !self.outer.is_empty() {
            return Err(Stop::Unmatched);
        }
        self.end_arrows(end);
        Ok(self.found)
    }

    /// A line that ends an arrow or a member, if this token begins what follows it.
    fn end_line(&mut self, token: Token) {
        let begins = match token.kind {
            Kind::Word(word) => !word.joins(),
            Kind::Number | Kind::Quoted | Kind::Open(Bracket::Curly) => true,
            _ => false,
        };
        if let Some(arrow) = self.last_arrow()
            && begins
            && self.previous.is_operand
            && arrow.number < self.previous.number
        {
            self.end_arrows(token.span.start);
        }
        if self.ends_member()
            && begins_member(token)
            && !follows(token, self.level.decorator_at)
            && self.level.item.first != token.number
        {
            self.end_arrows(token.span.start);
            self.level.begin_item(token.number);
        }
    }

    /// Whether the member of a class may end with the last token.
    fn ends_member(&self) -> bool {
        let ends = match self.previous.kind {
            Kind::Sign(Sign::Greater) => true,
            Kind::Word(word) => matches!(word, Word::Void)
                || (self.previous.is_operand && !word.is_modifier()),
            _ => self.previous.is_operand,
        };
        self.level.is_class() && ends
    }

    /// Reads a token.
    fn token(&mut self, kind: Kind, start: usize, end: usize) -> Result<(), Stop> {
        let token = self.previous.next(kind, Span { start, end }, self.breaks);
        self.breaks = false;
        if token.breaks {
            self.end_line(token);
        }
        if self.level.item.first == token.number {
            self.level.item.start = start;
        }
        if !keeps_parameters(self.level.is_typed(), kind) {
            self.level.item.parameters = None;
        }
        self.lose_name(kind);
        let quoted = Span {
            start: start.saturating_add(1),
            end: end.saturating_sub(1),
        };
        match kind {
            Kind::Word(word) => self.word(token, word),
            Kind::Quoted => self.literal(token, quoted),
            Kind::Number => self.literal(token, token.span),
            Kind::Open(bracket) => self.open(token, bracket)?,
            Kind::Close(bracket) => return self.close(token, bracket),
            Kind::Sign(sign) => self.sign(token, sign)?,
            Kind::Start | Kind::Template | Kind::Pattern => {}
        }
        self.previous = token;
        Ok(())
    }

    /// Takes away the given name of a function that is called at once.
    fn lose_name(&mut self, kind: Kind) {
        let calls = matches!(
            kind,
            Kind::Open(Bracket::Round) | Kind::Sign(Sign::Dot | Sign::OptionalDot)
        );
        if calls && let Some(function) = self.previous.nameable {
            if let Some(found) = self.found.get_mut(function) {
                found.name = None;
            }
        }
    }

    /// Reads a template from behind its backtick or a `}`, up to where its text ends or `${` begins.
    fn template(&mut self, text: &[u8], at: usize) -> Result<usize, Stop>
        ensures { IfOk result (λ end. at ≤ end) }
    {
        let (end, kind) = template_end(text, at);
        if let Some(kind) = kind {
            self.token(kind, end.saturating_sub(1), end)?;
        }
        Ok(end)
    }

    /// Reads what begins with the slash here: a regular expression, or a division.
    fn slash(&mut self, text: &[u8], at: usize) -> Result<usize, Stop>
        requires { at < length text.now }
        ensures { IfOk result (λ end. at < end) }
    {
        if !self.previous.is_operand && self.pattern_from <= at {
            match pattern_end(text, at) {
                Ok(end) => {
                    self.token(Kind::Pattern, at, end)?;
                    return Ok(end);
                }
                Err(line) => self.pattern_from = line,
            }
        }
        // Also where `/=` begins.
        let end = match &text[at..] {
            [_, b'=', ..] => at + 2,
            _ => at + 1,
        };
        self.token(Kind::Sign(Sign::Other), at, end)?;
        Ok(end)
    }

    /// Goes back into the template behind the `}` of its `${`.
    fn close_hole(&mut self, text: &[u8], at: usize) -> Result<usize, Stop>
        ensures { IfOk result (λ end. at ≤ end) }
    {
        self.end_arrows(at);
        let _hole = self.leave()?;
        let span = Span { start: at, end: at };
        self.previous = self.previous.next(Kind::Template, span, false);
        self.template(text, at)
    }

    /// Reads what begins here, and answers where it ends.
    pub(crate) fn read(&mut self, text: &[u8], at: usize) -> Result<usize, Stop>
        requires { at < length text.now }
        ensures { IfOk result (λ end. at < end) }
    {
        if let Some(end) = self.element(text, at)? {
            return Ok(end);
        }
        if text[at] == b'}' && matches!(self.level.bracket, Bracket::Hole) {
            return self.close_hole(text, at + 1);
        }
        let (found, end) = read_piece(text, at);
        match found {
            Piece::Blank(breaks) => self.breaks = self.breaks || breaks,
            Piece::Backtick => return self.template(text, end),
            Piece::Slash => return self.slash(text, at),
            Piece::Token(kind) => self.token(kind, at, end)?,
        }
        Ok(end)
    }
}

/// Whether a member of a class may begin with the token.
fn begins_member(token: Token) -> bool {
    match token.kind {
        Kind::Word(_) | Kind::Quoted | Kind::Number | Kind::Open(Bracket::Square) => true,
        Kind::Sign(sign) => matches!(sign, Sign::Star),
        _ => false,
    }
}

/// Whether the parameters of the last `(..)` may still have their body behind such a token.
fn keeps_parameters(typed: bool, kind: Kind) -> bool {
    match kind {
        Kind::Open(Bracket::Curly) | Kind::Sign(Sign::Colon | Sign::Arrow) => true,
        Kind::Word(word) => typed && !word.ends_type(),
        Kind::Quoted | Kind::Number | Kind::Open(Bracket::Round | Bracket::Square) => typed,
        Kind::Sign(sign) => typed && in_types(sign),
        _ => false,
    }
}

/// Whether the sign stands in types.
fn in_types(sign: Sign) -> bool {
    matches!(
        sign,
        Sign::Dot
            | Sign::Bar
            | Sign::And
            | Sign::Less
            | Sign::Greater
            | Sign::Question
            | Sign::Comma
            | Sign::Minus
    )
}
