//! Where something is written in a JSON text (RFC 8259): a value by the names and indices that lead to it
//! ([`value_range`]), and a segment of a mappings string ([`segment_range`]). [`point_of`] makes a line and a
//! column of a place.
//!
//! A place is found by a scan, and no answer rests on that scan: each step is tried before the next one, by
//! the tokens of what is before the place, in it and behind it. That proves that the bytes there read as the
//! value that the tree of the text has at the path, and that with another value in their place the text has
//! that other value there. So a range is the range of that value, and not of an equal one elsewhere in the
//! text. No text is copied for it, and no further tree is read.
//!
//! Where in the text of a source map a fault is: [`range_of`] gives the range of bytes of the member, the
//! section or the segment that a [`smap_record::Fault`] is about, and [`point_of`] makes a line and a column
//! of a place. What is wrong there is said by [`detail`]; what a file shows at its beginning that is no map,
//! by [`start_of`].
//!
//! The map's JSON tree is read once more, so these are for a map that was refused.
#![tactic(auto)]

mod bytes;
mod details;
mod fault_path;
mod fault_range;
mod json_error;
mod member;
mod part;
mod passing;
mod place;
mod point;
mod range;
mod scan;
mod segment;
mod segment_details;
mod shown_values;
mod spelling;
mod starts;
mod step;
mod walk;
mod written;

pub use details::detail;
pub use fault_range::range_of;
pub use point::{Point, point_of};
pub use range::TextRange;
pub use segment::segment_range;
pub use starts::{Start, start_of};
pub use step::{Key, Step};
pub use walk::{there, value_at};
pub use written::value_range;
