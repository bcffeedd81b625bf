//! The mappings string of a source map (ECMA-426, "Mappings structure").
//!
//! [`decode`] reads it into tokens, [`encode`] writes tokens as their canonical string, and
//! [`is_encodable`] says which tokens have one. [`MappingsReader`] reads a string that comes in pieces,
//! [`Encoder`] writes one while its tokens come, and [`TextLength`] counts its bytes instead;
//! [`count_segments`] says how many tokens a string can have. A [`Maker`] takes tokens one by one, in any
//! order. Of a script, [`line_widths`] says how wide its lines are, and [`ended`] ends its tokens there.
//!
//! The numbers of a string are differences, so both directions carry five running values and make one pass:
//! no string is split, and no segment is stored. Tokens are sorted only where a column falls. Memory is
//! taken for the answer, and for a sort.
#![tactic(auto)]

mod arrangement;
mod counting;
mod cursor;
mod decoding;
mod encodable;
mod encoder;
mod encoding;
mod ends;
mod error;
pub mod laws;
mod maker;
mod position;
mod reader;
mod running;
mod segment;
mod text_length;
mod token;
mod token_list;
mod whole_segments;
mod widths;

pub use counting::count_segments;
pub use decoding::decode;
pub use encodable::is_encodable;
pub use encoder::Encoder;
pub use encoding::encode;
pub use ends::ended;
pub use error::{MappingsError, Memory, SegmentKind, SegmentPlace};
pub use maker::{AddError, Maker, fault_of_token};
pub use position::Position;
pub use reader::MappingsReader;
pub use smap_vlq::{MAX_POSITION, NumberFault};
pub use text_length::TextLength;
pub use token::{Bounds, MAX_LINES, Original, Token, WIDEST};
pub use widths::{has_separator, is_within, line_widths, script_widths};
