//! The frames of stack traces, and the text of positions.
//!
//! [`frame`] recognizes a line of a stack trace, as the engines of browsers and Node write it.
//! [`place_after`] reads a line and a column behind a URL, and [`may_begin`] says whether a URL may begin
//! behind a text; [`push_position`] writes a position. Lines and columns count from 1. Nothing here knows of
//! maps.
#![tactic(auto)]

mod forms;
mod frames;
pub mod laws;
mod parts;
mod places;
mod position_text;

pub use frames::frame;
pub use parts::Frame;
pub use places::{Place, may_begin, place_after, query_len};
pub use position_text::push_position;
