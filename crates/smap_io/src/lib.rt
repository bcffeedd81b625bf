//! Readers and writers whose calls and failures are counted.
//!
//! What a program promises about its input and output has to say when a device failed, and that its work
//! ended there. A [`Device`] keeps that in one place: it passes each call on exactly once, counts the calls
//! and those that failed, and notes the end of the input. It retries nothing, takes no memory, and costs an
//! addition and two tests a call. [`read_up_to`], [`read_line`], [`write_all`] and [`write_and_flush`] are
//! the loops over it. [`take_piece`] cuts what was read into lines, and hands each to an [`EachLine`].
#![tactic(auto)]

mod device;
mod lines;
mod reading;
mod writing;

pub use device::{Device, Failed};
pub use lines::{EachLine, take_last, take_piece};
pub use reading::{LIMIT, MOST_CALLS, ReadFault, read_line, read_up_to};
pub use writing::{write_all, write_and_flush};
