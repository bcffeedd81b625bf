//! The parts of a frame.

/// A frame of a stack trace. `before`, `url`, `:`, `line`, `:`, `column` and `after` joined are its line.
#[derive(Clone, Copy, PartialEq, Eq)]
pub struct Frame<'a> {
    /// What is before the URL, such as `    at f (`.
    pub before: &'a [u8],
    /// The URL of the script: at least one byte, none of them a space.
    pub url: &'a [u8],
    /// The line, from 1 to 2,147,483,648.
    pub line: u32,
    /// The column, from 1 to 2,147,483,648, in the unit of the engine.
    pub column: u32,
    /// What is after the column, such as `)`, and a carriage return if there is one.
    pub after: &'a [u8],
}
