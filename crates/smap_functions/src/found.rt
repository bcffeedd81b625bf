//! A function of a text.

/// A part of a text, from its first byte to the one behind its last.
#[derive(Clone, Copy, PartialEq, Eq, Debug)]
pub struct Span {
    pub start: usize,
    pub end: usize,
}

/// A function of a text, or a class, whose fields and blocks are in no function.
#[derive(Clone, Copy, PartialEq, Eq, Debug)]
pub struct Function {
    /// Its first byte.
    pub start: usize,
    /// The byte behind its last.
    pub end: usize,
    /// Where its name stands; that of a constructor is its class's.
    pub name: Option<Span>,
    /// Where the name of the class stands of which it is a member.
    pub owner: Option<Span>,
}
