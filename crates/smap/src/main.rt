//! The programs of this repository in one, each by the name that it is called by: `smap-trace`, `smap-maps`,
//! `smap-view`, or `smap` by any other. `smap trace`, `smap maps` and `smap view` are the first three as
//! well, and `smap lint` and `smap repair` are these commands of `smap-maps`. With any other command `smap`
//! reads its arguments as a task, runs it on the standard streams and exits with its status; what each run
//! reads and writes is defined in `smap_tool`. Standard input is buffered there, since a bundle's headers are
//! read byte by byte. `smap-trace` is a run of `smap_trace_run` over the file system, `smap-maps` one of
//! `smap_maps_run`, and `smap-view` one of `smap_view_run`.
#![tactic(auto)]

mod standard;

use clap::Error;
use smap_io::Device;
use smap_map_files::printable_lines;
use smap_system::{Disk, Kind, System, Watched, printable};
use smap_tool::{RunFault, Task, WordsFault, run, status, task_of};
use smap_trace_run::{Input, Output};
use standard::{input, is_output_closed, placeholders};
use std::alloc::{AllocError, Global};
use std::env;
use std::io::{self, BufReader, ErrorKind, IsTerminal, Stdin};
use std::process::ExitCode;
use std::rt::Env;

const OUT_OF_MEMORY: &str = "smap: out of memory\n";

/// The message on standard error for a run that gave up.
fn message(fault: RunFault) -> &'static str {
    match fault {
        RunFault::TooLong => "smap: input too long\n",
        RunFault::Read => "smap: read failed\n",
        RunFault::Write => "smap: write failed\n",
        RunFault::Memory => OUT_OF_MEMORY,
    }
}

/// The arguments of the command line. It fails if one of them isn't UTF-8, or if memory runs out.
fn arguments(rt: &(impl Env + AllocGlobal)) -> io::Result<Vec<String>> {
    Ok(env::args(rt)?.collect(rt.alloc())?)
}

fn texts(alloc: Global, words: &[String]) -> Result<Vec<&str>, AllocError> {
    let mut texts = Vec::with_capacity(alloc, words.len())?;
    for word in words {
        texts.push(word.as_str())?;
    }
    Ok(texts)
}

/// A program over files.
#[derive(Clone, Copy, PartialEq, Eq)]
enum Tool {
    Trace,
    Maps,
    View,
}

impl Tool {
    /// The name that it is installed by.
    fn name(self) -> &'static str {
        match self {
            Tool::Trace => "smap-trace",
            Tool::Maps => "smap-maps",
            Tool::View => "smap-view",
        }
    }

    /// The tool whose name is the last part of a path.
    fn at(path: &str) -> Option<Tool> {
        let name = match path.rsplit_once('/') {
            Some((_, name)) => name,
            None => path,
        };
        match name {
            "smap-trace" => Some(Tool::Trace),
            "smap-maps" => Some(Tool::Maps),
            "smap-view" => Some(Tool::View),
            _ => None,
        }
    }

    /// The tool that a command of `smap` is, and whether the command is one of the tool's own.
    fn of_command(command: &str) -> Option<(Tool, bool)> {
        match command {
            "trace" => Some((Tool::Trace, false)),
            "maps" => Some((Tool::Maps, false)),
            "lint" | "repair" => Some((Tool::Maps, true)),
            "view" => Some((Tool::View, false)),
            _ => None,
        }
    }
}

/// The tool that is called, if it is one, and its words. The first is the path of this program, by which what
/// is installed with it is found.
fn tool_of<'a>(
    alloc: Global,
    words: &[&'a str],
) -> Result<Option<(Tool, Vec<&'a str>)>, AllocError> {
    let [path, after @ ..] = words else {
        return Ok(None);
    };
    if let Some(tool) = Tool::at(path) {
        return Ok(Some((tool, Vec::from_slice(alloc, words)?)));
    }
    let [command, rest @ ..] = after else {
        return Ok(None);
    };
    let Some((tool, is_its_own)) = Tool::of_command(command) else {
        return Ok(None);
    };
    let mut own = Vec::from_slice(alloc, &[*path])?;
    own.extend_from_slice(if is_its_own { after } else { rest })?;
    Ok(Some((tool, own)))
}

/// Says that memory ran out, and answers the exit status.
fn out_of_memory(rt: &HostRuntime) -> u8 {
    let _ = eprint!(rt; "{OUT_OF_MEMORY}");
    4
}

/// Says what is wrong with the arguments, which a stranger may have chosen, and answers the exit status.
fn refuse(rt: &HostRuntime, error: &Error) -> u8 {
    let text = match format!(in rt.alloc(); "{error}") {
        Ok(text) => printable_lines(rt.alloc(), &text),
        Err(error) => Err(error),
    };
    match text {
        Ok(text) => {
            let _ = eprint!(rt; "{text}");
            2
        }
        Err(_) => out_of_memory(rt),
    }
}

/// Writes help or the version, and answers the exit status.
fn help(rt: &HostRuntime, text: &Error) -> u8 {
    match text.print(rt) {
        Ok(()) => 0,
        Err(_) => {
            let _ = eprint!(rt; "{}", message(RunFault::Write));
            3
        }
    }
}

/// The command for a file that a task is like, where the path of a file stands in place of its base.
fn command_for_file<'a>(task: &Task<'a>) -> Option<(&'static str, &'a str)> {
    let (command, base) = match task {
        Task::Check { base } => ("maps check", *base),
        Task::Tidy { base, .. } => ("maps tidy", *base),
        Task::Flatten { base } => ("maps flatten", *base),
        _ => return None,
    };
    if base.contains(':') {
        None
    } else {
        Some((command, base))
    }
}

/// Says what to call where the path of a file stands in place of a base, which is no URL then.
fn advise(rt: &HostRuntime, task: &Task<'_>) {
    let Some((command, path)) = command_for_file(task) else {
        return;
    };
    if System::new(rt).kind(path) != Kind::File {
        return;
    }
    if let Ok(path) = printable(rt.alloc(), path.as_bytes()) {
        let path = path.as_str();
        let _ = eprint!(rt; "smap: for a file: smap {command} {path}\n");
    }
}

/// Runs `smap`.
fn map(rt: &HostRuntime, words: &[&str]) -> u8 {
    match task_of(rt.alloc(), words) {
        Ok(task) => {
            advise(rt, &task);
            let Ok(input) = BufReader::new(rt.alloc(), rt.reader()) else {
                return out_of_memory(rt);
            };
            let mut reader = Device::new(input);
            let mut writer = Device::new(io::writer(rt));
            let answer = run(rt.alloc(), task, &mut reader, &mut writer);
            if let Err(fault) = answer {
                let _ = eprint!(rt; "{}", message(fault));
            }
            status(&answer)
        }
        Err(WordsFault::Words(error)) => {
            if error.use_stderr() {
                refuse(rt, &error)
            } else {
                help(rt, &error)
            }
        }
        Err(WordsFault::Memory) => out_of_memory(rt),
    }
}

/// Runs a program over files, unless it could write nothing.
fn run_tool(rt: &HostRuntime, tool: Tool, words: &[&str]) -> u8 {
    let disk = System::new(rt);
    if is_output_closed(&disk) {
        let name = tool.name();
        let _ = eprint!(rt; "{name}: cannot write: standard output is closed\n");
        return 3;
    }
    let input = input(rt, &disk);
    let held = placeholders(rt.alloc(), &disk);
    let writer = io::writer(rt);
    let status = match tool {
        Tool::Trace => smap_trace_run::run(rt, &disk, words, input, &mut Output::new(writer)),
        Tool::Maps => {
            let output = &mut Watched::new(writer);
            smap_maps_run::run(rt, &disk, words, rt.stderr().is_terminal(), output)
        }
        Tool::View => {
            let output = &mut Watched::new(writer);
            smap_view_run::run(rt, &disk, words, rt.stdout().is_terminal(), output)
        }
    };
    drop(held);
    status
}

/// Runs the program that these words call.
fn run_words(rt: &HostRuntime, words: &[&str]) -> u8 {
    match tool_of(rt.alloc(), words) {
        Ok(Some((tool, own))) => run_tool(rt, tool, own.as_slice()),
        Ok(None) => map(rt, words),
        Err(_) => out_of_memory(rt),
    }
}

fn main(rt: HostRuntime) -> ExitCode {
    let words = match arguments(&rt) {
        Ok(words) => words,
        Err(error) if error.kind() == ErrorKind::OutOfMemory => {
            return ExitCode::from(out_of_memory(&rt));
        }
        Err(_) => {
            let _ = eprint!(rt; "error: invalid UTF-8 was detected in one or more arguments\n");
            return ExitCode::from(2);
        }
    };
    let status = match texts(rt.alloc(), words.as_slice()) {
        Ok(words) => run_words(&rt, words.as_slice()),
        Err(_) => out_of_memory(&rt),
    };
    ExitCode::from(status)
}
