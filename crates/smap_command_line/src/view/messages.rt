//! What is said of a fault, without the name of the program before it. What a command line holds is in these
//! texts as it is.
use super::words::WordFault;
use crate::fault::option_message;
use std::alloc::{AllocError, Global};

/// What is wrong with a command line. In its place [`HELP`](super::HELP) is printed where the fault is
/// `WordFault::Nothing`.
///
/// # Errors
///
/// `AllocError`.
pub fn message(alloc: Global, fault: &WordFault<'_>) -> Result<String, AllocError> {
    match fault {
        WordFault::Options(fault) => option_message(alloc, fault),
        WordFault::Nothing => String::from_str(alloc, "no map, script or folder"),
        WordFault::Excess(word) => format!(in alloc; "more than a map and its script: {word}"),
    }
}
