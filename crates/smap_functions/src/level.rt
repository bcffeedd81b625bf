//! What the scan knows of an open bracket.

use crate::found::Span;
use crate::tokens::{Bracket, Kind, Token};

/// The name that a function gets from where it stands.
#[derive(Clone, Copy)]
pub(crate) struct Given {
    pub(crate) name: Span,
    /// The class of which it is a field.
    pub(crate) owner: Option<Span>,
}

/// A word, string or number.
#[derive(Clone, Copy)]
pub(crate) struct Subject {
    pub(crate) name: Span,
    /// Where it starts, with an `async` before it.
    pub(crate) start: usize,
    /// The number of its last token.
    pub(crate) number: usize,
    /// Whether it stands where a key does.
    pub(crate) is_key: bool,
    /// The name of a function that starts with it.
    pub(crate) given: Option<Given>,
    pub(crate) is_constructor: bool,
}

/// `function` or `class`, whose body is awaited.
#[derive(Clone, Copy)]
pub(crate) struct Awaited {
    pub(crate) start: usize,
    pub(crate) number: usize,
    pub(crate) name: Option<Span>,
    pub(crate) given: Option<Given>,
    /// Whether it may be a statement.
    pub(crate) begins: bool,
    /// How many lists of types are open behind it.
    pub(crate) types: usize,
}

/// The key of a member, and where the member starts.
#[derive(Clone, Copy)]
pub(crate) struct Member {
    pub(crate) name: Span,
    pub(crate) start: usize,
    pub(crate) is_constructor: bool,
}

/// What a `(..)` is by what stands before it.
#[derive(Clone, Copy)]
pub(crate) enum Role {
    /// The parameters of a function.
    Function(Awaited),
    /// Those of a member of a class or an object.
    Member(Member),
    /// What `if` and the like have.
    Head,
    /// What a decorator has.
    Decorator,
    /// Any other: perhaps the parameters of an arrow, that starts here, and whether in a type.
    Other(usize, Option<Given>, bool),
}

/// The last `(..)`, while nothing but a type has followed.
#[derive(Clone, Copy)]
pub(crate) struct Parameters {
    pub(crate) role: Role,
    /// Whether a `:` and a part of a type have followed.
    pub(crate) typed: bool,
    /// How many `?` of that type wait for their `:`.
    pub(crate) questions: usize,
}

/// What was read of an item: a statement, a member, an element of a list.
#[derive(Clone, Copy)]
pub(crate) struct Item {
    /// The number of its first token, and where that starts.
    pub(crate) first: usize,
    pub(crate) start: usize,
    pub(crate) subject: Option<Subject>,
    pub(crate) function: Option<Awaited>,
    pub(crate) class: Option<Awaited>,
    pub(crate) parameters: Option<Parameters>,
    /// What stands before the `:` of a type.
    pub(crate) typed_name: Option<Span>,
    /// A member whose list of types has begun.
    pub(crate) generic: Option<Member>,
    /// How many `?` wait for their `:`.
    pub(crate) questions: usize,
    /// Whether it began with `case` or `default`.
    pub(crate) is_case: bool,
}

impl Item {
    /// An item that begins with the token of this number.
    pub(crate) fn new(first: usize) -> Item {
        Item {
            first,
            start: 0,
            subject: None,
            function: None,
            class: None,
            parameters: None,
            typed_name: None,
            generic: None,
            questions: 0,
            is_case: false,
        }
    }
}

/// What is between two brackets.
#[derive(Clone, Copy)]
pub(crate) enum Inside {
    Block,
    List,
    Class,
    Object,
    /// `<` and the attributes of an element.
    Tag,
    /// The text and the elements of an element.
    Children,
}

/// An open bracket, and what was read behind it.
#[derive(Clone, Copy)]
pub(crate) struct Level {
    pub(crate) bracket: Bracket,
    pub(crate) inside: Inside,
    pub(crate) start: usize,
    /// The number of its token.
    pub(crate) number: usize,
    /// How many arrows had begun before, and not ended.
    pub(crate) arrows: usize,
    /// Whether an operand ends with it.
    pub(crate) is_operand: bool,
    /// The function, by its place in the list, whose body it is; and whether its name is only given.
    pub(crate) body: Option<usize>,
    pub(crate) is_given: bool,
    /// Whether a member of a class or an object ends with it.
    pub(crate) ends_member: bool,
    pub(crate) class_name: Option<Span>,
    pub(crate) role: Role,
    /// Whether it stands where a key does.
    pub(crate) is_key: bool,
    /// The parameters before it, if it is a part of their type.
    pub(crate) outer: Option<Parameters>,

    pub(crate) item: Item,
    /// The name of a function that begins with the token of this number.
    pub(crate) given: Option<Given>,
    pub(crate) given_at: usize,
    /// Where an arrow starts that begins with a list of types, and its name.
    pub(crate) types: Option<(usize, Option<Given>)>,
    /// The numbers of the last tokens that ended a label, began a type, were an `if` or the
    /// like, a modifier, or ended a decorator.
    pub(crate) block_at: usize,
    pub(crate) label_at: usize,
    pub(crate) type_at: usize,
    pub(crate) head_at: usize,
    pub(crate) modifier_at: usize,
    pub(crate) decorator_at: usize,
}

impl Level {
    /// A bracket that this token opens, where so many arrows haven't ended.
    pub(crate) fn new(bracket: Bracket, inside: Inside, token: Token, arrows: usize) -> Level {
        Level {
            bracket,
            inside,
            start: token.span.start,
            number: token.number,
            arrows,
            is_operand: false,
            body: None,
            is_given: false,
            ends_member: false,
            class_name: None,
            role: Role::Other(token.span.start, None, false),
            is_key: false,
            outer: None,
            item: Item::new(token.number.saturating_add(1)),
            given: None,
            given_at: 0,
            types: None,
            block_at: 0,
            label_at: 0,
            type_at: 0,
            head_at: 0,
            modifier_at: 0,
            decorator_at: 0,
        }
    }

    pub(crate) fn is_class(&self) -> bool {
        matches!(self.inside, Inside::Class)
    }

    pub(crate) fn is_object(&self) -> bool {
        matches!(self.inside, Inside::Object)
    }

    pub(crate) fn is_block(&self) -> bool {
        matches!(self.inside, Inside::Block)
    }

    pub(crate) fn has_members(&self) -> bool {
        self.is_class() || self.is_object()
    }

    /// The name for a function that begins with the token of this number.
    pub(crate) fn given_to(&self, number: usize) -> Option<Given> {
        if self.given_at == number {
            self.given
        } else {
            None
        }
    }

    /// Gives this name to a function that begins behind this token.
    pub(crate) fn give(&mut self, name: Span, token: Token) {
        let owner = if self.is_class() {
            self.class_name
        } else {
            None
        };
        self.given = Some(Given { name, owner });
        self.given_at = token.number.saturating_add(1);
    }

    /// What stands right before this token, if it is a word, string or number.
    pub(crate) fn subject_before(&self, token: Token) -> Option<Subject> {
        match self.item.subject {
            Some(subject) if follows(token, subject.number) => Some(subject),
            _ => None,
        }
    }

    /// `function` or `class`, which begins with the first token.
    pub(crate) fn awaited(&self, first: Token, token: Token) -> Awaited {
        Awaited {
            start: first.span.start,
            number: token.number,
            name: None,
            given: self.given_to(first.number),
            begins: first.begins,
            types: 0,
        }
    }

    /// The member of this item, whose key this is.
    pub(crate) fn member(&self, key: Subject) -> Member {
        Member {
            name: key.name,
            start: self.item.start,
            is_constructor: key.is_constructor,
        }
    }

    /// Whether the token of this number begins a key.
    pub(crate) fn begins_key(&self, token: Token) -> bool {
        self.item.first == token.number
            || follows(token, self.modifier_at)
            || follows(token, self.decorator_at)
    }

    /// Whether a type has begun behind a `(..)`.
    pub(crate) fn is_typed(&self) -> bool {
        matches!(self.item.parameters, Some(Parameters { typed: true, .. }))
    }

    /// Begins an item with the token of this number.
    pub(crate) fn begin_item(&mut self, first: usize) {
        self.item = Item::new(first);
    }
}

/// Whether the token stands right behind that of the number.
pub(crate) fn follows(token: Token, number: usize) -> bool {
    token.number == number.saturating_add(1)
}
