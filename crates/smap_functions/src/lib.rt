//! The functions of a text in JavaScript or TypeScript, with the names that a trace may say: their own, that
//! of the variable or the key that they are given to, or that of their class's member.
//!
//! A scan reads the text once (`scan`), by tokens (`tokens`). What it finds is checked (`checked`), and so
//! are the brackets of a text in which nothing may hide one (`matching`).
#![tactic(auto)]

mod brackets;
mod checked;
mod elements;
mod found;
mod items;
mod level;
mod lines;
mod listing;
mod matching;
mod renaming;
mod scan;
mod segments;
mod source;
mod tokens;
mod words;

pub use found::{Function, Span};
pub use lines::{SourceLine, line_at};
pub use listing::{Language, functions, innermost};
pub use renaming::{Name, closing, logged_name, renamed_before, says};
pub use source::{SourceFunctions, language_of};
