//! The mappings string of mappings that are given as numbers.
ghost use Rattle.std.specs.Prelude.{◌≡◌, IfOk, None, map};
ghost use Rattle.smap_mappings.specs.Arrangement.{arranged};
ghost use Rattle.smap_c_answers.specs.Spelling as spec;

use smap_mappings::{MAX_LINES, MAX_POSITION, Memory, Original, Token, encode, is_encodable};
use std::alloc::Global;

/// Stands for a number that a mapping doesn't have.
const NO_NUMBER: u32 = u32::MAX;

/// A mapping's numbers, each counted from 0. 4,294,967,295 stands for none: the last four are none in a
/// mapping without an original, and the last one in a mapping without a name.
#[repr(C)]
#[derive(Clone, Copy)]
pub struct MappingNumbers {
    /// The generated line, below 16,777,216.
    pub line: u32,
    /// The generated column. It and the numbers that follow are at most 2,147,483,647.
    pub column: u32,
    /// The index of the source.
    pub source: u32,
    /// The line in the source.
    pub source_line: u32,
    /// The column in the source.
    pub source_column: u32,
    /// The index of the name.
    pub name: u32,
}

fn is_number(n: u32) -> bool
    ensures { result ≡ spec.is_number n }
{
    n <= MAX_POSITION
}

fn is_unmapped(m: &MappingNumbers) -> bool
    ensures { result ≡ spec.is_unmapped m.now }
{
    m.source == NO_NUMBER
        && m.source_line == NO_NUMBER
        && m.source_column == NO_NUMBER
        && m.name == NO_NUMBER
}

fn is_mapped(m: &MappingNumbers) -> bool
    ensures { result ≡ spec.is_mapped m.now }
{
    is_number(m.source)
        && is_number(m.source_line)
        && is_number(m.source_column)
        && (m.name == NO_NUMBER || is_number(m.name))
}

/// Whether the numbers are those of a mapping.
pub fn is_mapping(m: &MappingNumbers) -> bool
    ensures { result ≡ spec.is_mapping m.now }
{
    m.line < MAX_LINES && is_number(m.column) && (is_unmapped(m) || is_mapped(m))
}

/// The index of the first one whose numbers aren't those of a mapping.
pub fn first_wrong(mappings: &[MappingNumbers]) -> Option<usize>
    ensures { result ≡ spec.first_wrong mappings.now }
{
    mappings.iter().position(|mapping| !is_mapping(mapping))
}

fn number_if_any(n: u32) -> Option<u32>
    ensures { result ≡ spec.number_if_any n }
{
    if n == NO_NUMBER { None } else { Some(n) }
}

fn original_of(m: &MappingNumbers) -> Option<Original>
    ensures { result ≡ spec.original_of m.now }
{
    if m.source == NO_NUMBER {
        return None;
    }
    Some(Original {
        source: m.source,
        line: m.source_line,
        column: m.source_column,
        name: number_if_any(m.name),
    })
}

/// The token that a mapping's numbers stand for.
pub fn token_of(m: &MappingNumbers) -> Token
    ensures { result ≡ spec.token_of m.now }
{
    Token {
        line: m.line,
        column: m.column,
        original: original_of(m),
    }
}

/// The tokens sorted by generated line and column, those at one position in their order. Those that are in
/// order already need no sort, and no memory for it.
fn arrange(tokens: Vec<Token>) -> Result<Vec<Token>, Memory>
    ensures { IfOk result (λ ts. ts.items ≡ arranged tokens.items) }
{
    if is_encodable(tokens.as_slice()) {
        return Ok(tokens);
    }
    let mut tokens = tokens;
    tokens.sort_by(|a, b| a.position().cmp(&b.position()))?;
    Ok(tokens)
}

/// The tokens that the numbers stand for.
fn tokens_of(alloc: Global, mappings: &[MappingNumbers]) -> Result<Vec<Token>, Memory>
    ensures { IfOk result (λ ts. ts.items ≡ map spec.token_of mappings.now) }
{
    mappings.iter().map(token_of).collect(alloc)
}

/// Writes the canonical mappings string of mappings, in any order. None of them may be wrong, which
/// [`first_wrong`] tests.
///
/// # Errors
///
/// `Memory`.
pub fn spelled(alloc: Global, mappings: &[MappingNumbers]) -> Result<Vec<u8>, Memory>
    requires { spec.first_wrong mappings.now ≡ None }
    ensures { IfOk result (λ text. text.items ≡ spec.spelled mappings.now) }
{
    let tokens = arrange(tokens_of(alloc, mappings)?)?;
    encode(alloc, tokens.as_slice())
}
