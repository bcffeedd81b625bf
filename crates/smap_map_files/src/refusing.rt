//! What is printed of options that are wrong.
use smap_command_line::{OptionFault, option_message};
use smap_system::{Disk, Host, Stop, printable};
use std::alloc::{AllocError, Global};

/// The lines of a text, each as a terminal may have it.
///
/// # Errors
///
/// `AllocError`.
pub fn printable_lines(alloc: Global, text: &str) -> Result<String, AllocError> {
    let mut lines = String::new(alloc);
    for (number, line) in text.split('\n').enumerate() {
        if number > 0 {
            lines.push('\n')?;
        }
        lines.push_str(&printable(alloc, line.as_bytes())?)?;
    }
    Ok(lines)
}

/// Says what is wrong with the options of a command line, with status 2: what `clap` says as it says it, or
/// which value isn't what its option takes.
pub fn refuse_options<E: Eprint + AllocGlobal, D: Disk>(
    host: &Host<'_, E, D>,
    fault: &OptionFault<'_>,
) -> Stop {
    match fault {
        OptionFault::Refused(_) => {
            // it may hold words as they were given
            let Ok(text) = option_message(host.alloc(), fault) else {
                return Stop::Memory;
            };
            match printable_lines(host.alloc(), text.as_str()) {
                Ok(text) => host.fail_with_help(text.as_str()),
                Err(_) => Stop::Memory,
            }
        }
        OptionFault::Value { .. } => host.fail_words(option_message(host.alloc(), fault), None),
        OptionFault::Memory => Stop::Memory,
    }
}
