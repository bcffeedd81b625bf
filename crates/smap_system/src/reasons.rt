//! Why a call failed, in words.

use std::alloc::{AllocError, Global};
use std::io;

/// Why a call failed, as the system says it, without the number that std puts behind it: "No such file or
/// directory".
///
/// # Errors
///
/// `AllocError`.
pub fn reason(alloc: Global, error: &io::Error) -> Result<String, AllocError> {
    let text = format!(in alloc; "{error}")?;
    if error.raw_os_error().is_none() {
        return Ok(text);
    }
    match text.rsplit_once(" (os error ") {
        Some((words, _)) => String::from_str(alloc, words),
        None => Ok(text),
    }
}
