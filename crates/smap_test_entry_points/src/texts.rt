//! The functions of texts on standard input. `tests/functions/run` compares them with those of a parser.
//!
//! A text is a line with its language, `javascript` or `typescript`, and its length in bytes, and the text.
//! Of each come a line with the count of its functions, or `none`, and a line for each function: its start
//! and its end, those of its name, and those of its class's, where 0 and 0 stand for none.
ghost use Rattle.std.specs.Prelude.{◌<◌, IfSome, length};

use smap_functions::{Function, Language, Span, functions};
use std::io::{self, Write};

/// The first text of the input.
#[derive(Clone, Copy)]
struct Text<'i> {
    language: Language,
    bytes: &'i [u8],
    /// What follows it.
    rest: &'i [u8],
}

/// A line with a language and a length.
fn head(line: &[u8]) -> Option<(Language, usize)> {
    let (language, len) = str::from_utf8(line).ok()?.split_once(' ')?;
    let language = match language {
        "javascript" => Language::JavaScript,
        "typescript" => Language::TypeScript,
        _ => return None,
    };
    Some((language, len.parse::<usize>().ok()?))
}

fn first_text(input: &[u8]) -> Option<Text<'_>>
    ensures { IfSome result (λ t. length t.rest.now < length input.now) }
{
    let line = input.iter().position(|b| *b == b'\n')?;
    let (language, len) = head(&input[..line])?;
    let text = &input[line + 1..];
    if text.len() < len {
        return None;
    }
    Some(Text {
        language,
        bytes: &text[..len],
        rest: &text[len..],
    })
}

fn ends(span: Option<Span>) -> (usize, usize) {
    match span {
        Some(span) => (span.start, span.end),
        None => (0, 0),
    }
}

fn print_function<W: Write>(out: &mut W, function: &Function) -> io::Result<()> {
    let name = ends(function.name);
    let owner = ends(function.owner);
    writeln!(
        out,
        "{} {} {} {} {} {}",
        function.start, function.end, name.0, name.1, owner.0, owner.1
    )
}

fn print_text<W: Write>(rt: &HostRuntime, out: &mut W, text: &Text<'_>) -> io::Result<()> {
    match functions(rt.alloc(), text.bytes, text.language)? {
        Some(found) => {
            writeln!(out, "{}", found.len())?;
            for function in &found {
                print_function(out, function)?;
            }
            Ok(())
        }
        None => writeln!(out, "none"),
    }
}

fn print_all(rt: &HostRuntime, input: &[u8]) -> io::Result<()> {
    let mut out = io::BufWriter::new(rt.alloc(), io::writer(rt))?;
    let mut rest = input;
    'texts: while let Some(text) = first_text(rest) {
        print_text(rt, &mut out, &text)?;
        rest = text.rest;
    }
    out.flush()
}

/// Prints the functions of these texts, and answers the exit status.
pub(crate) fn print_functions(rt: &HostRuntime, input: &[u8]) -> u8 {
    match print_all(rt, input) {
        Ok(()) => 0,
        Err(_) => 1,
    }
}
