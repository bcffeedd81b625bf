//! The tokens of a text: what they are, and where they end.
ghost use Rattle.std.specs.Prelude.{◌≡◌, ◌+◌, ◌≤◌, ◌<◌, IfOk, IfSome, length};

use crate::found::Span;
use crate::words::{Word, word_of};

#[derive(Clone, Copy)]
pub(crate) enum Bracket {
    /// `(`
    Round,
    /// `[`
    Square,
    /// `{`
    Curly,
    /// `${` in a template.
    Hole,
    /// An element, from `<` on.
    Angle,
    /// That of the whole text, which nothing closes.
    Text,
}

#[derive(Clone, Copy)]
pub(crate) enum Sign {
    Arrow,
    /// `=` and the like that set a variable only.
    Assign,
    Bar,
    And,
    Bang,
    Colon,
    Comma,
    /// `.`
    Dot,
    Greater,
    Less,
    Minus,
    /// `?.`
    OptionalDot,
    Question,
    Semicolon,
    Star,
    /// `++` or `--`
    Step,
    Other,
}

#[derive(Clone, Copy)]
pub(crate) enum Kind {
    /// What is before the first token.
    Start,
    Word(Word),
    Number,
    Quoted,
    /// The last part of a template, or an element.
    Template,
    /// A regular expression.
    Pattern,
    Open(Bracket),
    Close(Bracket),
    Sign(Sign),
}

/// What is read at a place of a text, and where it ends.
#[derive(Clone, Copy)]
pub(crate) enum Piece {
    /// White space or a comment, and whether a line ends in it.
    Blank(bool),
    /// A backtick.
    Backtick,
    /// A slash, which may begin a regular expression.
    Slash,
    Token(Kind),
}

/// The bytes of the end of a line that a text begins with, or 0.
fn line_end_size(text: &[u8]) -> usize
    ensures { result ≤ length text.now }
{
    match text {
        [b'\n' | b'\r', ..] => 1,
        [0xe2, 0x80, 0xa8 | 0xa9, ..] => 3,
        _ => 0,
    }
}

/// Whether three bytes are white space of one line in UTF-8.
fn is_long_space(first: u8, second: u8, third: u8) -> bool {
    match first {
        0xe1 => second == 0x9a && third == 0x80,
        0xe2 if second == 0x80 => (0x80 <= third && third <= 0x8a) || third == 0xaf,
        0xe2 => second == 0x81 && third == 0x9f,
        0xe3 => second == 0x80 && third == 0x80,
        0xef => second == 0xbb && third == 0xbf,
        _ => false,
    }
}

/// The bytes of the white space that a text begins with, or 0.
fn space_size(text: &[u8]) -> usize
    ensures { result ≤ length text.now }
{
    match text {
        [b' ' | b'\t' | 0x0b | 0x0c, ..] => 1,
        [0xc2, 0xa0, ..] => 2,
        [first, second, third, ..] => {
            if is_long_space(*first, *second, *third) {
                3
            } else {
                0
            }
        }
        _ => 0,
    }
}

/// Whether the text at this place goes on with a word.
fn is_in_word(text: &[u8], at: usize) -> bool
    requires { at < length text.now }
{
    match text[at] {
        b'a'..=b'z' | b'A'..=b'Z' | b'0'..=b'9' | b'_' | b'$' | b'\\' | b'#' => true,
        0x80.. => line_end_size(&text[at..]) == 0 && space_size(&text[at..]) == 0,
        _ => false,
    }
}

/// The end of the line of this place.
fn line_end(text: &[u8], at: usize) -> usize
    requires { at < length text.now }
    ensures { at ≤ result }
{
    for i in at..text.len() {
        if line_end_size(&text[i..]) > 0 {
            return i;
        }
    }
    text.len()
}

/// The end of the comment `/* .. */` that begins here, or of the text, and whether a line ends in it.
pub(crate) fn comment_end(text: &[u8], at: usize) -> (usize, bool)
    requires { at < length text.now }
    ensures { at < result.0 }
{
    let mut breaks = false;
    let mut star = false;
    for i in at.saturating_add(2)..text.len() {
        if star && text[i] == b'/' {
            return (i + 1, breaks);
        }
        star = text[i] == b'*';
        breaks = breaks || line_end_size(&text[i..]) > 0;
    }
    (text.len(), breaks)
}

/// The end of the string that begins here with a quote: behind the next such quote, or the end of its line.
fn quoted_end(text: &[u8], at: usize) -> usize
    requires { at < length text.now }
    ensures { at < result }
{
    let mut escaped = false;
    for i in at + 1..text.len() {
        match text[i] {
            // A line may end in `\r\n`.
            b if escaped => escaped = b == b'\r',
            b'\\' => escaped = true,
            b'\n' | b'\r' => return i,
            b if b == text[at] => return i + 1,
            _ => {}
        }
    }
    text.len()
}

fn word_end(text: &[u8], at: usize) -> usize
    requires { at < length text.now }
    ensures advances { at < result }
    ensures within { result ≤ length text.now }
{
    for i in at + 1..text.len() {
        if !is_in_word(text, i) {
            return i;
        }
    }
    text.len()
}

/// The end of the number that begins here.
fn number_end(text: &[u8], at: usize) -> usize
    requires { at < length text.now }
    ensures { at < result }
{
    let hexadecimal = text[at..].starts_with(b"0x") || text[at..].starts_with(b"0X");
    let mut after_e = false;
    for i in at + 1..text.len() {
        match text[i] {
            b'0'..=b'9' | b'a'..=b'z' | b'A'..=b'Z' | b'_' | b'.' => {}
            b'+' | b'-' if after_e && !hexadecimal => {}
            _ => return i,
        }
        after_e = text[i] == b'e' || text[i] == b'E';
    }
    text.len()
}

/// The end of the flags of a regular expression.
fn flags_end(text: &[u8], at: usize) -> usize
    ensures { at ≤ result }
{
    for i in at..text.len() {
        if !text[i].is_ascii_alphabetic() {
            return i;
        }
    }
    at.max(text.len())
}

/// The end of the regular expression that begins here with a slash; or where its line ends without it.
pub(crate) fn pattern_end(text: &[u8], at: usize) -> Result<usize, usize>
    requires { at < length text.now }
    ensures { IfOk result (λ end. at < end) }
{
    let mut escaped = false;
    let mut in_class = false;
    for i in at + 1..text.len() {
        match text[i] {
            b'\n' | b'\r' => return Err(i),
            _ if escaped => escaped = false,
            b'\\' => escaped = true,
            b'[' => in_class = true,
            b']' => in_class = false,
            b'/' if !in_class => return Ok(flags_end(text, i + 1)),
            _ => {}
        }
    }
    Err(text.len())
}

/// Where the next part of a template ends, behind its backtick or a `${`: which of them, if any.
pub(crate) fn template_end(text: &[u8], at: usize) -> (usize, Option<Kind>)
    ensures { at ≤ result.0 }
{
    let mut before = b' ';
    for i in at..text.len() {
        let byte = text[i];
        match byte {
            _ if before == b'\\' => {
                before = b' ';
                continue;
            }
            b'`' => return (i + 1, Some(Kind::Template)),
            b'{' if before == b'$' => return (i + 1, Some(Kind::Open(Bracket::Hole))),
            _ => {}
        }
        before = byte;
    }
    (at.max(text.len()), None)
}

fn sign_of(byte: u8) -> Kind {
    match byte {
        b'(' => Kind::Open(Bracket::Round),
        b'[' => Kind::Open(Bracket::Square),
        b'{' => Kind::Open(Bracket::Curly),
        b')' => Kind::Close(Bracket::Round),
        b']' => Kind::Close(Bracket::Square),
        b'}' => Kind::Close(Bracket::Curly),
        b'|' => Kind::Sign(Sign::Bar),
        b'&' => Kind::Sign(Sign::And),
        b'!' => Kind::Sign(Sign::Bang),
        b':' => Kind::Sign(Sign::Colon),
        b',' => Kind::Sign(Sign::Comma),
        b'.' => Kind::Sign(Sign::Dot),
        b'=' => Kind::Sign(Sign::Assign),
        b'>' => Kind::Sign(Sign::Greater),
        b'<' => Kind::Sign(Sign::Less),
        b'-' => Kind::Sign(Sign::Minus),
        b'?' => Kind::Sign(Sign::Question),
        b';' => Kind::Sign(Sign::Semicolon),
        b'*' => Kind::Sign(Sign::Star),
        _ => Kind::Sign(Sign::Other),
    }
}

/// The sign that three bytes are, if they are one.
fn sign_of_three(first: u8, second: u8, third: u8) -> Option<Sign> {
    match third {
        b'=' => match first {
            b'&' | b'|' | b'?' if second == first => Some(Sign::Assign),
            b'*' | b'<' if second == first => Some(Sign::Other),
            b'=' | b'!' if second == b'=' => Some(Sign::Other),
            _ => None,
        },
        b'.' if first == b'.' && second == b'.' => Some(Sign::Other),
        _ => None,
    }
}

fn may_precede_equals(byte: u8) -> bool {
    match byte {
        b'=' | b'!' | b'<' | b'>' | b'+' | b'-' | b'*' | b'/' | b'%' | b'&' | b'|' | b'^' => true,
        _ => false,
    }
}

/// The sign that two bytes are before this third one, if they are one. The bytes of `>>` are signs of their
/// own, since they may close lists of types.
fn sign_of_two(first: u8, second: u8, third: u8) -> Option<Sign> {
    match second {
        b'>' if first == b'=' => Some(Sign::Arrow),
        b'.' if first == b'?' && !third.is_ascii_digit() => Some(Sign::OptionalDot),
        b'+' | b'-' if first == second => Some(Sign::Step),
        b'&' | b'|' | b'?' | b'*' | b'<' if first == second => Some(Sign::Other),
        b'=' if may_precede_equals(first) => Some(Sign::Other),
        _ => None,
    }
}

/// The sign that two bytes begin before this third one, and its bytes.
fn sign_before(first: u8, second: u8, third: u8) -> (Kind, usize)
    ensures advances { 0 < result.1 }
    ensures within { result.1 ≤ 2 }
{
    match sign_of_two(first, second, third) {
        Some(sign) => (Kind::Sign(sign), 2),
        None => (sign_of(first), 1),
    }
}

/// The sign that a text begins with, and its bytes.
fn read_sign(text: &[u8]) -> (Kind, usize)
    requires { 0 < length text.now }
    ensures advances { 0 < result.1 }
    ensures within { result.1 ≤ length text.now }
{
    match text {
        [first, second, third, ..] => match sign_of_three(*first, *second, *third) {
            Some(sign) => (Kind::Sign(sign), 3),
            None => sign_before(*first, *second, *third),
        },
        [first, second] => sign_before(*first, *second, b' '),
        [byte, ..] => (sign_of(*byte), 1),
        [] => (Kind::Sign(Sign::Other), 0),
    }
}

/// The white space that begins here, and where it ends.
fn blank(text: &[u8], at: usize) -> Option<(Piece, usize)>
    requires { at < length text.now }
    ensures { IfSome result (λ p. at < p.1) }
{
    let rest = &text[at..];
    let line = line_end_size(rest);
    let size = line.max(space_size(rest));
    if size > 0 {
        return Some((Piece::Blank(line > 0), at + size));
    }
    match rest {
        [b'/', b'*', ..] => {
            let (end, breaks) = comment_end(text, at);
            Some((Piece::Blank(breaks), end))
        }
        [b'/', b'/', ..] => Some((Piece::Blank(false), line_end(text, at + 1))),
        [b'#', b'!', ..] if at == 0 => Some((Piece::Blank(false), line_end(text, 1))),
        _ => None,
    }
}

/// What begins here, and where it ends, but for the insides of templates and elements.
pub(crate) fn read_piece(text: &[u8], at: usize) -> (Piece, usize)
    requires { at < length text.now }
    ensures { at < result.1 }
{
    if let Some(found) = blank(text, at) {
        return found;
    }
    let (kind, end) = match &text[at..] {
        [b'"' | b'\'', ..] => (Kind::Quoted, quoted_end(text, at)),
        [b'`', ..] => return (Piece::Backtick, at + 1),
        [b'/', ..] => return (Piece::Slash, at + 1),
        [b'0'..=b'9', ..] | [b'.', b'0'..=b'9', ..] => (Kind::Number, number_end(text, at)),
        [
            b'a'..=b'z' | b'A'..=b'Z' | b'_' | b'$' | b'\\' | b'#' | b'@' | 0x80..,
            ..
        ] => {
            let end = word_end(text, at);
            (Kind::Word(word_of(&text[at..end])), end)
        }
        rest => {
            let (kind, size) = read_sign(rest);
            (kind, at + size)
        }
    };
    (Piece::Token(kind), end)
}

/// A token, and what the tokens before it make of it.
#[derive(Clone, Copy)]
pub(crate) struct Token {
    pub(crate) kind: Kind,
    pub(crate) span: Span,
    /// Its number, from 2 on, so that no token has 0 or comes right behind it.
    pub(crate) number: usize,
    /// Whether a line ended before it.
    pub(crate) breaks: bool,
    /// Whether a dot stands before it.
    pub(crate) after_dot: bool,
    /// Whether an operand ends with it.
    pub(crate) is_operand: bool,
    /// Whether a statement may begin with it.
    pub(crate) begins: bool,
    /// Whether it closes a list within a type.
    pub(crate) in_type: bool,
    /// The function that it ends, by its place in the list, if that loses its name by being called at once.
    pub(crate) nameable: Option<usize>,
}

impl Token {
    /// What is before the first token.
    pub(crate) const START: Token = Token {
        kind: Kind::Start,
        span: Span { start: 0, end: 0 },
        number: 1,
        breaks: true,
        after_dot: false,
        is_operand: false,
        begins: false,
        in_type: false,
        nameable: None,
    };

    /// Its word, or `Other`.
    pub(crate) fn word(self) -> Word {
        match self.kind {
            Kind::Word(word) => word,
            _ => Word::Other,
        }
    }

    pub(crate) fn sign(self) -> Sign {
        match self.kind {
            Kind::Sign(sign) => sign,
            _ => Sign::Other,
        }
    }

    pub(crate) fn is_async(self) -> bool {
        matches!(self.kind, Kind::Word(Word::Async)) && !self.after_dot
    }

    /// Whether a statement may begin behind it.
    fn ends_statement(self) -> bool {
        match self.kind {
            Kind::Start | Kind::Open(Bracket::Curly) => true,
            Kind::Close(Bracket::Round | Bracket::Curly) => !self.is_operand,
            Kind::Sign(sign) => matches!(sign, Sign::Semicolon),
            Kind::Word(Word::Export | Word::Default | Word::Else) => !self.after_dot,
            _ => false,
        }
    }

    /// The token behind it.
    pub(crate) fn next(self, kind: Kind, span: Span, breaks: bool) -> Token {
        let after_dot = matches!(self.sign(), Sign::Dot | Sign::OptionalDot);
        let is_operand = match kind {
            Kind::Word(word) => after_dot || !word.is_operator(),
            Kind::Number | Kind::Quoted | Kind::Template | Kind::Pattern => true,
            Kind::Sign(sign) => matches!(sign, Sign::Step),
            Kind::Start | Kind::Open(_) | Kind::Close(_) => false,
        };
        Token {
            kind,
            span,
            number: self.number.saturating_add(1),
            breaks,
            after_dot,
            is_operand,
            begins: self.ends_statement(),
            in_type: false,
            nameable: None,
        }
    }
}
