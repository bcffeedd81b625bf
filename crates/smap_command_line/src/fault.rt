//! What is wrong with the options of a command line.
use crate::rows::OptionRow;
use clap::Error;
use std::alloc::{AllocError, Global};

/// What is wrong with the options of a command line. Faults that `clap` finds come first, then those of
/// values, of the options in the order of their table.
#[derive(Drop)]
pub enum OptionFault<'a> {
    /// An option that there isn't, one without its value, or a flag with one. The error prints itself.
    Refused(Error),
    /// The value of an option isn't what the option takes.
    Value {
        option: OptionRow,
        /// The value.
        word: &'a str,
    },
    /// Out of memory. This says nothing about the words.
    Memory,
}

impl From<AllocError> for OptionFault<'_> {
    ghost use Rattle.std.specs.Prelude.{◌≡◌};
    ghost use Rattle.smap_command_line.specs.declared.fault.OptionFault.TheVariants as faults;

    ghost from_gives = { λ _ e. e ≡ faults.Memory };

    fn from(_error: AllocError) -> Self {
        OptionFault::Memory
    }
}

/// What is wrong with the options, without the name of the program before it. Of `Refused` these are the
/// lines of `clap`, with their ends.
///
/// # Errors
///
/// `AllocError`.
pub fn option_message(alloc: Global, fault: &OptionFault<'_>) -> Result<String, AllocError> {
    match fault {
        OptionFault::Refused(error) => format!(in alloc; "{error}"),
        OptionFault::Value { option, word } => {
            let (name, expected) = (option.name, option.expected);
            match option.short {
                Some(letter) if !option.long => {
                    format!(in alloc; "-{letter}: expected {expected}: '{word}'")
                }
                _ => format!(in alloc; "--{name}: expected {expected}: '{word}'"),
            }
        }
        OptionFault::Memory => String::from_str(alloc, "out of memory"),
    }
}
