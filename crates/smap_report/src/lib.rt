//! Findings about files as a report ([`report_text`]): for people, as lines that editors and CI servers read,
//! as SARIF, JUnit's XML or JSON ([`Format`]).
#![tactic(auto)]

mod escapes;
mod findings;
mod formats;
mod junit;
pub mod laws;
mod lines;
mod phrases;
mod reports;
mod sarif;
mod text;

pub use findings::{Finding, LEVEL_WORDS, Level, Point, Report, Rule, has_error, level_named};
pub use formats::{FORMAT_WORDS, Format, format_named};
pub use reports::report_text;
