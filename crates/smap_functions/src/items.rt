//! What words, strings, numbers and signs make of the item in which they stand.

use crate::found::Span;
use crate::level::{Given, Parameters, Role, Subject, follows};
use crate::scan::{Arrow, Scan, Stop};
use crate::tokens::{Bracket, Kind, Sign, Token};
use crate::words::Word;

impl Scan {
    /// Takes the word for the name of a function, if that is due.
    fn names_function(&mut self, token: Token) -> bool {
        let behind = matches!(
            self.previous.kind,
            Kind::Word(Word::Function) | Kind::Sign(Sign::Star)
        );
        match &mut self.level.item.function {
            Some(function) if function.name.is_none() && behind => {
                function.name = Some(token.span);
                true
            }
            _ => false,
        }
    }

    /// Takes the word for the name of a class, if that is due.
    fn names_class(&mut self, token: Token) {
        if let Some(class) = &mut self.level.item.class
            && follows(token, class.number)
        {
            class.name = Some(token.span);
        }
    }

    /// `function` or `class`, whose body will follow, or its name.
    fn awaited(&mut self, token: Token, word: Word) {
        if self.names_function(token) {
            return;
        }
        let level = &mut self.level;
        let is_key = level.has_members() && level.item.first == token.number;
        match word {
            Word::Function if !token.after_dot && !is_key => {
                let first = if self.previous.is_async() {
                    self.previous
                } else {
                    token
                };
                level.item.function = Some(level.awaited(first, token));
            }
            Word::Class if !token.after_dot && !is_key => {
                level.item.class = Some(level.awaited(token, token));
            }
            Word::Extends | Word::Implements => {}
            _ => self.names_class(token),
        }
    }

    /// Reads a word.
    pub(crate) fn word(&mut self, token: Token, word: Word) {
        self.awaited(token, word);
        let level = &mut self.level;
        let previous = self.previous;
        let is_first = level.item.first == token.number;
        if matches!(word, Word::Case | Word::Default)
            && level.is_block()
            && is_first
            && !token.after_dot
        {
            level.item.is_case = true;
        }
        if matches!(word, Word::Default) && matches!(previous.kind, Kind::Word(Word::Export)) {
            level.give(token.span, token);
        }
        let is_decorator = matches!(word, Word::Decorator)
            || (token.after_dot && follows(previous, level.decorator_at));
        if is_decorator {
            level.decorator_at = token.number;
        }
        let first = if previous.is_async() { previous } else { token };
        let subject = Subject {
            name: token.span,
            start: first.span.start,
            number: token.number,
            is_key: level.begins_key(token) && !is_decorator,
            given: match level.given_to(first.number) {
                Some(given) => Some(given),
                None => level.given_to(token.number),
            },
            is_constructor: matches!(word, Word::Constructor),
        };
        level.item.subject = Some(subject);
        if level.has_members() && word.is_modifier() && subject.is_key {
            level.modifier_at = token.number;
        }
        self.heads(token, word);
    }

    /// A word whose `(..)` is no operand.
    fn heads(&mut self, token: Token, word: Word) {
        let level = &mut self.level;
        let is_first = level.item.first == token.number;
        let is_member = level.is_class() || (level.is_object() && is_first);
        let waits = matches!(word, Word::Await)
            && matches!(self.previous.kind, Kind::Word(Word::For));
        if waits || (word.is_head() && !token.after_dot && !is_member) {
            level.head_at = token.number;
        }
    }

    /// Reads a string or a number.
    pub(crate) fn literal(&mut self, token: Token, name: Span) {
        let is_key = self.level.begins_key(token);
        self.level.item.subject = Some(Subject {
            name,
            start: token.span.start,
            number: token.number,
            is_key,
            given: None,
            is_constructor: false,
        });
    }

    /// Reads a sign.
    pub(crate) fn sign(&mut self, token: Token, sign: Sign) -> Result<(), Stop> {
        match sign {
            Sign::Comma if self.keeps_item() => {}
            Sign::Comma | Sign::Semicolon => {
                self.end_arrows(token.span.start);
                self.level.begin_item(token.number.saturating_add(1));
            }
            Sign::Question => self.question(),
            Sign::Colon => self.colon(token),
            Sign::Assign => self.assign(token),
            Sign::Less => self.less(token),
            Sign::Greater => self.greater(),
            Sign::Star if self.level.has_members() && self.level.begins_key(token) => {
                self.level.modifier_at = token.number;
            }
            Sign::Arrow => self.arrow(token)?,
            _ => {}
        }
        Ok(())
    }

    /// Whether an item goes on behind a comma: in a class, or in a list of types.
    fn keeps_item(&self) -> bool {
        let item = &self.level.item;
        self.level.is_class()
            || item.function.is_some()
            || item.class.is_some()
            || item.generic.is_some()
            || self.level.is_typed()
    }

    fn question(&mut self) {
        match &mut self.level.item.parameters {
            Some(parameters) if parameters.typed => {
                parameters.questions = parameters.questions.saturating_add(1);
            }
            _ => {
                let item = &mut self.level.item;
                item.questions = item.questions.saturating_add(1);
            }
        }
    }

    /// Reads a colon, unless it is that of a `?` in the type of a function.
    fn colon(&mut self, token: Token) {
        if let Some(parameters) = &mut self.level.item.parameters
            && parameters.typed
            && parameters.questions > 0
        {
            parameters.questions -= 1;
            return;
        }
        if let Some(arrow) = self.last_arrow()
            && arrow.questions >= self.level.item.questions
            && let Some(arrow) = self.arrows.pop()
        {
            self.end(arrow.function, token.span.start);
        }
        let optional = matches!(self.previous.kind, Kind::Sign(Sign::Question));
        let answers = self.level.item.questions > 0 && !optional;
        if answers {
            self.level.item.parameters = None;
        } else {
            if let Some(parameters) = &mut self.level.item.parameters {
                parameters.typed = true;
            }
            self.label(token);
        }
        self.named(token, answers, optional);
    }

    /// A colon that may end `case` or a label.
    fn label(&mut self, token: Token) {
        let level = &mut self.level;
        let next = token.number.saturating_add(1);
        if level.item.is_case {
            level.item.is_case = false;
            level.block_at = next;
            level.item.first = next;
            level.label_at = token.number;
        } else if level.is_block() {
            level.block_at = next;
            if let Some(subject) = level.item.subject
                && subject.number == level.item.first
            {
                level.item.first = next;
                level.label_at = token.number;
            }
        }
    }

    /// A colon behind a name: a key's, one that answers a `?`, or a type's.
    fn named(&mut self, token: Token, answers: bool, optional: bool) {
        let level = &mut self.level;
        let before = level.subject_before(token);
        if let Some(subject) = before
            && level.is_object()
            && subject.is_key
        {
            level.give(subject.name, token);
            return;
        }
        if optional || answers {
            level.item.questions = level.item.questions.saturating_sub(1);
        }
        let marked = optional || matches!(self.previous.kind, Kind::Sign(Sign::Bang));
        if let Some(subject) = level.item.subject
            && !answers
            && (before.is_some() || marked)
        {
            if !level.is_object() && level.label_at != token.number {
                level.item.typed_name = Some(subject.name);
            }
            level.type_at = token.number;
        }
    }

    /// Reads `=` or the like: what stands before it is the name of a function behind it.
    fn assign(&mut self, token: Token) {
        let level = &mut self.level;
        let before = match level.item.typed_name {
            Some(name) => Some(name),
            None if matches!(self.previous.kind, Kind::Word(Word::Export)) => None,
            None => level.subject_before(token).map(|subject| subject.name),
        };
        match before {
            Some(name) => level.give(name, token),
            None => level.given = None,
        }
        level.item.typed_name = None;
        level.item.parameters = None;
    }

    /// Reads `<`, which may begin the types of a member or of an arrow.
    fn less(&mut self, token: Token) {
        let first = if self.previous.is_async() {
            self.previous
        } else {
            token
        };
        let level = &mut self.level;
        if let Some(class) = &mut level.item.class {
            class.types = class.types.saturating_add(1);
        }
        match level.subject_before(token) {
            Some(subject) if level.has_members() && subject.is_key => {
                level.item.generic = Some(level.member(subject));
            }
            _ => {
                let given = level.given_to(first.number);
                let begins = self.previous.is_async() || given.is_some();
                if level.types.is_none() && begins {
                    level.types = Some((first.span.start, given));
                }
            }
        }
    }

    /// Reads `>`, which may end the types of a class.
    fn greater(&mut self) {
        if let Some(class) = &mut self.level.item.class {
            class.types = class.types.saturating_sub(1);
        }
    }

    /// Where the arrow of this `=>` starts, and the name that it is given, if it is no part of a type.
    fn arrow_start(&mut self, token: Token) -> Option<(usize, Option<Given>)> {
        let awaits = self.level.item.function.is_some()
            || self.level.item.class.is_some()
            || self.level.item.generic.is_some();
        if self.previous.in_type || awaits {
            return None;
        }
        let level = &mut self.level;
        if let Some(Parameters { role, typed, .. }) = level.item.parameters
            && (typed || matches!(self.previous.kind, Kind::Close(Bracket::Round)))
        {
            match role {
                Role::Other(_, None, true) | Role::Member(_) => return None,
                Role::Other(start, given, _) => {
                    level.item.parameters = None;
                    return Some((start, given));
                }
                _ => {}
            }
        }
        let subject = level.subject_before(token)?;
        if level.item.typed_name.is_some() && subject.given.is_none() {
            return None;
        }
        Some((subject.start, subject.given))
    }

    /// Reads `=>`.
    fn arrow(&mut self, token: Token) -> Result<(), Stop> {
        let Some((start, given)) = self.arrow_start(token) else {
            return Ok(());
        };
        let (name, owner) = match given {
            Some(given) => (Some(given.name), given.owner),
            None => (None, None),
        };
        let function = self.add(start, name, owner)?;
        self.arrows.push(Arrow {
            function,
            number: token.number,
            questions: self.level.item.questions,
        })?;
        Ok(())
    }
}
