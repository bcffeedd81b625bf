//! Base64 VLQ numbers, and the segments of a mappings string (ECMA-426, "Base64 VLQ" and "Mappings
//! structure").
//!
//! A number is a sequence of Base64 digits, the least significant first. Each is worth five bits, and its
//! sixth bit says that another digit follows. A segment is 1, 4 or 5 numbers with nothing between them.
//! Reading gives the numbers, or the first fault with its kind; writing gives the shortest encoding, which
//! is unique. Relations define what a string spells, and the laws join them to what the functions compute.
//!
//! These are the inner loops of a decoder: nothing takes memory, reading is one pass with a table look-up
//! and a few additions a byte, and writing a number takes at most seven steps into a buffer of the
//! caller's. [`SegmentReader`] reads a segment that comes in pieces, byte by byte, and stores none of them.
#![tactic(auto)]

mod digit;
pub mod laws;
mod number;
mod segment;
mod segment_reader;
mod spelling;

pub use number::{MAX_POSITION, NumberFault, read_number};
pub use segment::{Fields, SegmentFault, read_segment};
pub use segment_reader::SegmentReader;
pub use spelling::{spell, spell_at, spelled_len};
