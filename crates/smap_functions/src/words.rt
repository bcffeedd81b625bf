//! The words of the language that the scan knows.

#[derive(Clone, Copy)]
pub(crate) enum Word {
    Abstract,
    Accessor,
    As,
    Async,
    Await,
    Case,
    Catch,
    Class,
    Const,
    Constructor,
    Declare,
    /// `@` and what follows it.
    Decorator,
    Default,
    Delete,
    Do,
    Else,
    Export,
    Extends,
    For,
    Function,
    Get,
    If,
    Implements,
    In,
    Instanceof,
    Is,
    Keyof,
    Let,
    New,
    Of,
    Override,
    Private,
    Protected,
    Public,
    Readonly,
    Return,
    Satisfies,
    Set,
    Static,
    Switch,
    Throw,
    Typeof,
    Var,
    Void,
    While,
    With,
    Yield,
    /// Any other.
    Other,
}

/// A word of the language, by its text.
type Row = (&'static [u8], Word);

const UP_TO_THREE: [Row; 12] = [
    (b"as", Word::As),
    (b"do", Word::Do),
    (b"if", Word::If),
    (b"in", Word::In),
    (b"is", Word::Is),
    (b"of", Word::Of),
    (b"for", Word::For),
    (b"get", Word::Get),
    (b"let", Word::Let),
    (b"new", Word::New),
    (b"set", Word::Set),
    (b"var", Word::Var),
];

const OF_FOUR_OR_FIVE: [Row; 13] = [
    (b"case", Word::Case),
    (b"else", Word::Else),
    (b"void", Word::Void),
    (b"with", Word::With),
    (b"async", Word::Async),
    (b"await", Word::Await),
    (b"catch", Word::Catch),
    (b"class", Word::Class),
    (b"const", Word::Const),
    (b"keyof", Word::Keyof),
    (b"throw", Word::Throw),
    (b"while", Word::While),
    (b"yield", Word::Yield),
];

const OF_SIX_OR_SEVEN: [Row; 11] = [
    (b"delete", Word::Delete),
    (b"export", Word::Export),
    (b"public", Word::Public),
    (b"return", Word::Return),
    (b"static", Word::Static),
    (b"switch", Word::Switch),
    (b"typeof", Word::Typeof),
    (b"declare", Word::Declare),
    (b"default", Word::Default),
    (b"extends", Word::Extends),
    (b"private", Word::Private),
];

const FROM_EIGHT: [Row; 10] = [
    (b"abstract", Word::Abstract),
    (b"accessor", Word::Accessor),
    (b"function", Word::Function),
    (b"override", Word::Override),
    (b"readonly", Word::Readonly),
    (b"protected", Word::Protected),
    (b"satisfies", Word::Satisfies),
    (b"implements", Word::Implements),
    (b"instanceof", Word::Instanceof),
    (b"constructor", Word::Constructor),
];

fn word_in(rows: &[Row], text: &[u8]) -> Word {
    for (word, of) in rows {
        if *word == text {
            return *of;
        }
    }
    Word::Other
}

/// Which word a text is.
pub(crate) fn word_of(text: &[u8]) -> Word {
    if text.starts_with(b"@") {
        return Word::Decorator;
    }
    match text.len() {
        2 | 3 => word_in(&UP_TO_THREE, text),
        4 | 5 => word_in(&OF_FOUR_OR_FIVE, text),
        6 | 7 => word_in(&OF_SIX_OR_SEVEN, text),
        8..=11 => word_in(&FROM_EIGHT, text),
        _ => Word::Other,
    }
}

impl Word {
    /// Whether an expression is due behind it.
    pub(crate) fn is_operator(self) -> bool {
        matches!(
            self,
            Word::Return
                | Word::Typeof
                | Word::Case
                | Word::Do
                | Word::Else
                | Word::In
                | Word::Of
                | Word::Instanceof
                | Word::New
                | Word::Void
                | Word::Delete
                | Word::Throw
                | Word::Yield
                | Word::Await
                | Word::Default
                | Word::Extends
        )
    }

    /// Whether a `{` behind it begins an object, or a type of that form.
    pub(crate) fn takes_object(self) -> bool {
        matches!(
            self,
            Word::Return
                | Word::Yield
                | Word::Await
                | Word::Default
                | Word::Typeof
                | Word::New
                | Word::In
                | Word::Of
                | Word::Throw
                | Word::Extends
                | Word::Void
                | Word::As
                | Word::Is
        )
    }

    /// Whether a `(..)` behind it is no operand: what follows begins a statement.
    pub(crate) fn is_head(self) -> bool {
        matches!(
            self,
            Word::If | Word::For | Word::While | Word::Switch | Word::With | Word::Catch
        )
    }

    /// Whether it may stand before the name of a member.
    pub(crate) fn is_modifier(self) -> bool {
        matches!(
            self,
            Word::Async
                | Word::Get
                | Word::Set
                | Word::Static
                | Word::Public
                | Word::Private
                | Word::Protected
                | Word::Readonly
                | Word::Override
                | Word::Declare
                | Word::Abstract
                | Word::Accessor
        )
    }

    /// Whether it begins no type.
    pub(crate) fn ends_type(self) -> bool {
        matches!(
            self,
            Word::Return
                | Word::Const
                | Word::Let
                | Word::Var
                | Word::Case
                | Word::If
                | Word::Else
                | Word::Function
                | Word::Class
        )
    }

    /// Whether a type goes on behind it.
    pub(crate) fn opens_type(self) -> bool {
        matches!(
            self,
            Word::Is | Word::Keyof | Word::Typeof | Word::Extends | Word::Readonly
        )
    }

    /// Whether it goes on with the expression before it, also on a new line.
    pub(crate) fn joins(self) -> bool {
        matches!(
            self,
            Word::In | Word::Instanceof | Word::Of | Word::As | Word::Satisfies
        )
    }
}
