//! The functions of a text, and the innermost one at a place.
ghost use Rattle.std.specs.Prelude.{◌≡◌, ◌+◌, ◌<◌, ◌≤◌, IfOk, IfSome, IsTrue, if◌then◌else◌, length};
ghost use Rattle.smap_functions.specs.Brackets.{brackets_match};
ghost use Rattle.smap_functions.specs.Functions.{AreFunctions};
ghost use Rattle.smap_functions.specs.Functions as spec;

use crate::checked::checked;
use crate::found::Function;
use crate::matching::brackets_match;
use crate::scan::{Scan, Stop};
use std::alloc::{AllocError, Global};

/// What a `<` may be.
#[derive(Clone, Copy, PartialEq, Eq, Debug)]
pub enum Language {
    /// JavaScript, or TypeScript with JSX: it may begin an element.
    JavaScript,
    /// TypeScript without JSX: it never does.
    TypeScript,
}

/// What a scan finds, in order of starts.
fn scanned(alloc: Global, text: &[u8], has_elements: bool) -> Result<Vec<Function>, Stop> {
    let mut scan = Scan::new(alloc, has_elements);
    let mut at = 0;
    while at < text.len() {
        at = scan.read(text, at)?;
    }
    let mut found = scan.finish(text.len())?;
    found.sort_by_key(|function| function.start)?;
    Ok(found)
}

/// The functions of a text, classes among them, in order of their starts: they nest or are apart. `None` if
/// the brackets of the text don't match, or more than 16,384 of them are open at a place. The text may be any
/// bytes; the time is proportional to it, but for a sort of the functions, of which most are in order.
pub fn functions(
    alloc: Global,
    text: &[u8],
    language: Language,
) -> Result<Option<Vec<Function>>, AllocError>
    ensures nested { IfOk result (λ o. IfSome o (λ fs. AreFunctions text.now fs.items)) }
    ensures matched { IfOk result (λ o. IfSome o (λ fs. IsTrue (brackets_match text.now))) }
{
    let found = match scanned(alloc, text, matches!(language, Language::JavaScript)) {
        Ok(found) => found,
        Err(Stop::Unmatched) => return Ok(None),
        Err(Stop::Memory) => return Err(AllocError),
    };
    if brackets_match(alloc, text)? {
        checked(alloc, text, found.as_slice())
    } else {
        Ok(None)
    }
}

/// Whether a place is in a function.
fn encloses(place: usize, function: &Function) -> bool
    ensures { result ≡ spec.encloses place function.now }
{
    function.start <= place && place < function.end
}

/// The function if it is around the place, else the one that was found before.
fn later(place: usize, function: Function, found: Option<Function>) -> Option<Function>
    ensures { result ≡ (if spec.encloses place function then Some function else found) }
{
    if encloses(place, &function) {
        Some(function)
    } else {
        found
    }
}

/// The last function to start of those around a place of the text: the innermost.
pub fn innermost(functions: &[Function], place: usize) -> Option<Function>
    ensures { result ≡ spec.innermost functions.now place }
{
    let mut found = None;
    for function in functions {
        found = later(place, *function, found);
    }
    found
}
