//! What a bracket opens, and what it leaves behind where it closes.
ghost use Rattle.std.specs.Prelude.{◌≡◌, IsTrue, OnOk};

use crate::found::Span;
use crate::level::{Awaited, Inside, Level, Member, Parameters, Role, Subject, follows};
use crate::scan::{Scan, Stop};
use crate::tokens::{Bracket, Kind, Sign, Token};
use crate::words::Word;

/// Whether a bracket is closed by one of this kind. That of a template, of an element and of the text aren't.
fn closes(opened: Bracket, bracket: Bracket) -> bool
    ensures { IsTrue result → opened ≡ bracket }
{
    matches!(
        (opened, bracket),
        (Bracket::Round, Bracket::Round)
            | (Bracket::Square, Bracket::Square)
            | (Bracket::Curly, Bracket::Curly)
    )
}

impl Scan {
    /// Reads a bracket that opens.
    pub(crate) fn open(&mut self, token: Token, bracket: Bracket) -> Result<(), Stop> {
        match bracket {
            Bracket::Round => {
                let role = self.role(token);
                let outer = self.level.item.parameters;
                self.level.types = None;
                let new = self.opened(bracket, Inside::List, token);
                self.enter(Level { role, outer, ..new })
            }
            Bracket::Square => {
                let is_key = self.level.has_members() && self.level.begins_key(token);
                let outer = self.type_around();
                let new = self.opened(bracket, Inside::List, token);
                self.enter(Level {
                    is_key,
                    outer,
                    ..new
                })
            }
            Bracket::Curly => self.open_curly(token),
            Bracket::Hole | Bracket::Angle | Bracket::Text => {
                let new = self.opened(bracket, Inside::Block, token);
                self.enter(new)
            }
        }
    }

    pub(crate) fn opened(&self, bracket: Bracket, inside: Inside, token: Token) -> Level {
        Level::new(bracket, inside, token, self.arrows.len())
    }

    /// The last `(..)` if a type has begun behind it.
    fn type_around(&self) -> Option<Parameters> {
        match self.level.item.parameters {
            Some(parameters) if parameters.typed => Some(parameters),
            _ => None,
        }
    }

    /// What a `(..)` is that begins here.
    fn role(&mut self, token: Token) -> Role {
        if let Some(function) = self.level.item.function
            && self.ends_name(function)
        {
            self.level.item.function = None;
            return Role::Function(function);
        }
        if follows(token, self.level.head_at) {
            return Role::Head;
        }
        if follows(token, self.level.decorator_at) {
            return Role::Decorator;
        }
        if let Some(member) = self.member(token) {
            self.level.item.generic = None;
            self.level.item.questions = 0;
            return member;
        }
        self.role_of_other(token)
    }

    /// Whether the last token is that of `function`, its name or its types, not one within these.
    fn ends_name(&self, function: Awaited) -> bool {
        match self.previous.kind {
            Kind::Sign(sign) => matches!(sign, Sign::Greater | Sign::Star),
            Kind::Word(_) => match function.name {
                Some(name) => name.start == self.previous.span.start,
                None => true,
            },
            _ => false,
        }
    }

    /// The parameters of a member, if they begin here.
    fn member(&self, token: Token) -> Option<Role> {
        let level = &self.level;
        let behind_types = matches!(self.previous.kind, Kind::Sign(Sign::Greater));
        if let Some(member) = level.item.generic
            && behind_types
        {
            return Some(Role::Member(member));
        }
        let subject = level.item.subject?;
        let optional = matches!(self.previous.kind, Kind::Sign(Sign::Question));
        if level.has_members()
            && subject.is_key
            && !level.is_typed()
            && (follows(token, subject.number) || behind_types || optional)
        {
            Some(Role::Member(level.member(subject)))
        } else {
            None
        }
    }

    fn role_of_other(&self, token: Token) -> Role {
        let level = &self.level;
        let in_type = follows(token, level.type_at) || level.is_typed();
        if let Some((start, given)) = level.types
            && matches!(self.previous.kind, Kind::Sign(Sign::Greater))
        {
            return Role::Other(start, given, in_type);
        }
        let first = if self.previous.is_async() {
            self.previous
        } else {
            token
        };
        Role::Other(first.span.start, level.given_to(first.number), in_type)
    }

    /// Reads a `{`.
    fn open_curly(&mut self, token: Token) -> Result<(), Stop> {
        let block = self.opened(Bracket::Curly, Inside::Block, token);
        if let Some(arrow) = self.last_arrow()
            && matches!(self.previous.kind, Kind::Sign(Sign::Arrow))
            && arrow.number == self.previous.number
        {
            let _ended = self.arrows.pop();
            return self.enter(Level {
                body: Some(arrow.function),
                is_operand: true,
                arrows: block.arrows.saturating_sub(1),
                ..block
            });
        }
        if let Some(class) = self.level.item.class {
            return self.open_class(class, block);
        }
        if let Some(parameters) = self.level.item.parameters
            && !(parameters.typed && self.awaits_type())
        {
            match parameters.role {
                Role::Function(function) => return self.open_function(function, block),
                Role::Member(member) => return self.open_member(member, block),
                Role::Head | Role::Decorator | Role::Other(..) => {}
            }
        }
        self.open_other(token, block)
    }

    /// Whether a type goes on behind the last token.
    fn awaits_type(&self) -> bool {
        match self.previous.kind {
            Kind::Word(word) => word.opens_type(),
            Kind::Sign(sign) => matches!(
                sign,
                Sign::Colon
                    | Sign::Bar
                    | Sign::And
                    | Sign::Less
                    | Sign::Comma
                    | Sign::Arrow
                    | Sign::Question
            ),
            _ => false,
        }
    }

    fn open_class(&mut self, class: Awaited, block: Level) -> Result<(), Stop> {
        if class.types > 0 {
            return self.enter(Level {
                inside: Inside::Object,
                is_operand: true,
                ..block
            });
        }
        self.level.item.class = None;
        let class_name = match class.name {
            Some(name) => Some(name),
            None => class.given.map(|given| given.name),
        };
        let place = self.add(class.start, None, None)?;
        self.enter(Level {
            inside: Inside::Class,
            body: Some(place),
            class_name,
            ..block
        })
    }

    fn open_function(&mut self, function: Awaited, block: Level) -> Result<(), Stop> {
        self.level.item.parameters = None;
        let (name, owner) = match (function.name, function.given) {
            (None, Some(given)) => (Some(given.name), given.owner),
            (name, _) => (name, None),
        };
        let place = self.add(function.start, name, owner)?;
        self.enter(Level {
            body: Some(place),
            is_given: function.name.is_none(),
            is_operand: !function.begins || function.name.is_none(),
            ..block
        })
    }

    fn open_member(&mut self, member: Member, block: Level) -> Result<(), Stop> {
        self.level.item.parameters = None;
        let class_name = if self.level.is_class() {
            self.level.class_name
        } else {
            None
        };
        let place = if member.is_constructor && self.level.is_class() {
            self.add(member.start, class_name, None)?
        } else {
            self.add(member.start, Some(member.name), class_name)?
        };
        self.enter(Level {
            body: Some(place),
            ends_member: true,
            ..block
        })
    }

    /// A block of a class, an object, or a block.
    fn open_other(&mut self, token: Token, block: Level) -> Result<(), Stop> {
        if self.level.is_class() && matches!(self.previous.kind, Kind::Word(Word::Static)) {
            let place = self.add(token.span.start, None, None)?;
            return self.enter(Level {
                body: Some(place),
                ends_member: true,
                ..block
            });
        }
        let is_operand = self.takes_object(token);
        let inside = if is_operand {
            Inside::Object
        } else {
            Inside::Block
        };
        let outer = self.type_around();
        self.enter(Level {
            inside,
            is_operand,
            outer,
            ..block
        })
    }

    /// Whether a `{` behind the last token begins an object.
    fn takes_object(&self, token: Token) -> bool {
        match self.previous.kind {
            Kind::Word(word) => word.takes_object(),
            Kind::Open(bracket) => !matches!(bracket, Bracket::Curly),
            Kind::Close(bracket) => matches!(bracket, Bracket::Square),
            Kind::Sign(sign) => match sign {
                Sign::Semicolon | Sign::Arrow => false,
                Sign::Colon => self.level.block_at != token.number,
                _ => true,
            },
            Kind::Start | Kind::Number | Kind::Quoted | Kind::Template | Kind::Pattern => false,
        }
    }

    /// Reads a bracket that closes the innermost open one.
    pub(crate) fn close(&mut self, token: Token, bracket: Bracket) -> Result<(), Stop>
        ensures { OnOk result (self.old.level.bracket ≡ bracket) }
    {
        if !closes(self.level.bracket, bracket) {
            return Err(Stop::Unmatched);
        }
        self.end_arrows(token.span.start);
        let inner = self.leave()?;
        if let Some(function) = inner.body {
            self.end(function, token.span.end);
        }
        self.level.types = None;
        self.previous = match bracket {
            Bracket::Round => self.close_round(token, inner),
            Bracket::Square => self.close_square(token, inner),
            _ => self.close_curly(token, inner),
        };
        Ok(())
    }

    fn close_round(&mut self, token: Token, inner: Level) -> Token {
        if let Some(outer) = inner.outer
            && outer.typed
            && matches!(inner.role, Role::Other(..))
        {
            self.level.item.parameters = Some(outer);
            return Token {
                is_operand: true,
                in_type: true,
                ..token
            };
        }
        if matches!(inner.role, Role::Decorator) {
            self.level.decorator_at = token.number;
        }
        self.level.item.parameters = Some(Parameters {
            role: inner.role,
            typed: false,
            questions: 0,
        });
        Token {
            is_operand: !matches!(inner.role, Role::Head),
            ..token
        }
    }

    /// `["name"]` is a name as `.name` is.
    fn close_square(&mut self, token: Token, inner: Level) -> Token {
        let whole = Span {
            start: inner.start,
            end: token.span.end,
        };
        let quoted = match inner.item.subject {
            Some(subject)
                if subject.number == self.previous.number
                    && subject.number == inner.number.saturating_add(1)
                    && matches!(self.previous.kind, Kind::Quoted) => { Some(subject.name) }
            _ => None,
        };
        if quoted.is_some() || inner.is_key {
            self.level.item.subject = Some(Subject {
                name: quoted.unwrap_or(whole),
                start: inner.start,
                number: token.number,
                is_key: inner.is_key,
                given: None,
                is_constructor: false,
            });
        }
        if inner.outer.is_some() {
            self.level.item.parameters = inner.outer;
        }
        Token {
            is_operand: true,
            ..token
        }
    }

    fn close_curly(&mut self, token: Token, inner: Level) -> Token {
        if inner.outer.is_some() {
            self.level.item.parameters = inner.outer;
        } else if inner.ends_member || !(inner.is_operand || self.level.is_object()) {
            self.level.begin_item(token.number.saturating_add(1));
        }
        Token {
            is_operand: inner.is_operand,
            nameable: if inner.is_given { inner.body } else { None },
            ..token
        }
    }
}
