//! What is said of a fault, without the name of the program before it. What a command line holds is in these
//! texts as it is.
use super::clashes::Clash;
use super::words::WordFault;
use crate::fault::option_message;
use crate::rows::MapsCommand;
use std::alloc::{AllocError, Global};

fn command_text(command: MapsCommand) -> &'static str {
    match command {
        MapsCommand::Check => "check",
        MapsCommand::Tidy => "tidy",
        MapsCommand::Flatten => "flatten",
        MapsCommand::Lint => "lint",
        MapsCommand::Repair => "repair",
        MapsCommand::Compose => "compose",
        MapsCommand::Extract => "extract",
        MapsCommand::Comment => "comment",
        MapsCommand::Inline => "inline",
        MapsCommand::Outline => "outline",
        MapsCommand::Contents => "contents",
        MapsCommand::Rename => "rename",
        MapsCommand::DebugId => "debug-id",
        MapsCommand::Diff => "diff",
    }
}

fn clash_text(clash: Clash) -> &'static str {
    match clash {
        Clash::WriteDiff => "--write and --diff at once",
        Clash::RelativeAbsolute => "--relative and --absolute at once",
        Clash::JsonDiff => "--json and --diff at once",
        Clash::DropAlone => "--drop needs --write",
        Clash::SetRemove => "--set and --remove at once",
        Clash::NoOutput => "extract needs --output",
        Clash::NoComment => "comment needs --set or --remove",
        Clash::AddDrop => "--add and --drop at once",
        Clash::NoContents => "contents needs --add or --drop",
        Clash::PrefixStrip => "--source-prefix and --strip-common at once",
        Clash::NoRename => "rename needs --source-prefix or --strip-common",
        Clash::NotTwo => "diff needs OLD and NEW, two maps or two folders",
        Clash::DiffFormat => "diff writes text, json or markdown",
        Clash::LintFormat => "lint writes no markdown",
    }
}

/// What is wrong with a command line. In its place [`HELP`](super::HELP) is printed where the fault is
/// `WordFault::Nothing`.
///
/// # Errors
///
/// `AllocError`.
pub fn message(alloc: Global, fault: &WordFault<'_>) -> Result<String, AllocError> {
    match fault {
        WordFault::Options(fault) => option_message(alloc, fault),
        WordFault::Nothing => String::from_str(alloc, "no command"),
        WordFault::NoCommand(word) => {
            format!(in alloc; "no such command: {word} (--help lists them)")
        }
        WordFault::Foreign(command, option) => {
            let (command, name) = (command_text(*command), option.name);
            format!(in alloc; "{command} has no --{name}")
        }
        WordFault::Clashing(clash) => String::from_str(alloc, clash_text(*clash)),
        WordFault::NoPath(command) => {
            let command = command_text(*command);
            format!(in alloc; "{command} needs a file or a folder")
        }
    }
}
