//! Tests of the other crates (`suite`), and a program that scripts of `tests/` run on a text on its standard
//! input. Its first word says what for:
//!
//! - `ranges`: where the faults of maps are ([`ranges`]).
//! - `functions`: the functions of texts ([`texts`]).
//! - `repair URL`, `mappings URL`: a map with this URL repaired, or its mappings ([`repairs`]).
//! - `call NAME`: the call of the libraries with this name ([`calls`]).
//! - `example`: a trace translated by the example of the library ([`example`]).
//!
//! The status is 1 where the example gives up, 2 for other words, 3 where reading or writing fails, and 4
//! without memory.
#![tactic(auto)]

mod answers;
mod calls;
mod codec;
mod example;
mod maps;
mod ranges;
mod repairs;
mod runs;
#[cfg(test)]
mod suite;
mod texts;
mod traces;
mod words;

use smap_record::{Base, BaseFault};
use std::env;
use std::io::{self, ErrorKind, Read};
use std::process::ExitCode;

/// The words of the command line, and the input.
fn input(rt: &HostRuntime) -> io::Result<(Vec<String>, Vec<u8>)> {
    let words = env::args(rt)?.collect(rt.alloc())?;
    let mut text = Vec::new(rt.alloc());
    rt.reader().read_to_end(&mut text)?;
    Ok((words, text))
}

/// What is done with a map.
fn with_map(rt: &HostRuntime, what: &str, url: &str, text: &[u8]) -> u8 {
    let base = match Base::new(rt.alloc(), url) {
        Ok(base) => base,
        Err(BaseFault::NotUrl) => return 2,
        Err(BaseFault::Memory) => return 4,
    };
    match what {
        "repair" => repairs::repair(rt, text, &base),
        "mappings" => repairs::mappings(rt, text, &base),
        _ => 2,
    }
}

fn answer(rt: &HostRuntime, words: &[String], text: &[u8]) -> u8 {
    match words {
        [_, what] if what.as_str() == "ranges" => ranges::ranges(rt, text),
        [_, what] if what.as_str() == "functions" => texts::print_functions(rt, text),
        [_, what] if what.as_str() == "example" => u8::from(example::example(rt, text).is_err()),
        [_, what, name] if what.as_str() == "call" => calls::call(rt, name.as_str(), text),
        [_, what, url] => with_map(rt, what.as_str(), url.as_str(), text),
        _ => 2,
    }
}

fn main(rt: HostRuntime) -> ExitCode {
    match input(&rt) {
        Ok((words, text)) => ExitCode::from(answer(&rt, words.as_slice(), text.as_slice())),
        Err(error) if error.kind() == ErrorKind::OutOfMemory => ExitCode::from(4),
        Err(_) => ExitCode::from(3),
    }
}
